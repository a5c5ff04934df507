//! The reader of a parcel: two functions that call each other.
ghost use Rattle.std.specs.Prelude.{◌≡◌, IfOk, OnOk};
ghost use Rattle.asn1_schema.specs.codec_laws.Reading.{AfterReading, ReadsValue};
ghost use Rattle.asn1_schema.specs.codec_laws.ReadingExactly.{HasReadValue};
ghost use Rattle.asn1_schema.specs.model.ConstraintSets.{constraint_set};
ghost use Rattle.asn1_schema.specs.slots.Cases.{ReadsCaseAt};
ghost use Rattle.asn1_user_types.specs.ParcelAlternatives.{parcel_meaning};

use crate::parcel::{INNER, Parcel};
use asn1_schema::{
    Constraints, DecodeError, Decoder, HoldsItself, Tag, Tagging, alternative, boxed, close_choice,
    open_choice_at,
};

/// Reads a value under a tag.
#[cycle(parcel_reader)]
pub(crate) fn read_parcel<D: Decoder>(
    decoder: &mut D,
    tag: Tag,
    constraints: &Constraints<'_>,
) -> Result<Parcel, DecodeError>
    ensures read { ReadsValue D.reader parcel_meaning ⟦<Parcel as PartialEq>⟧.eq tag
        (constraint_set constraints.now) decoder.old decoder.new result }
    ensures only { IfOk result (HasReadValue D.reader decoder.old decoder.new parcel_meaning tag
        (constraint_set constraints.now)) }
    ensures after_reading { AfterReading D.reader parcel_meaning tag
        (constraint_set constraints.now) decoder.old decoder.new result }
{
    let index = open_choice_at::<Parcel, D>(decoder, tag, constraints)?;
    let value = read_alternative(index, decoder);
    close_choice(decoder, tag, value)
}

/// Reads the alternative at an index.
#[cycle(parcel_reader)]
fn read_alternative<D: Decoder>(index: usize, decoder: &mut D) -> Result<Parcel, DecodeError>
    ensures read { ReadsCaseAt D.reader ⟦<Parcel as HoldsItself>⟧.cases
        ⟦<Parcel as HoldsItself>⟧.case_of index decoder.old decoder.new result }
    ensures same_depth { OnOk result (D.reader.depth_left decoder.new ≡
        D.reader.depth_left decoder.old) }
{
    match index {
        0 => Ok(Parcel::Letter(alternative(decoder, Tagging::Untagged)?)),
        1 => match boxed(read_parcel(decoder, INNER, &Constraints::NONE), decoder) {
            Ok(inner) => Ok(Parcel::Inner(inner)),
            Err(error) => Err(error),
        },
        _ => Err(DecodeError::NoValidChoice("Parcel")),
    }
}
