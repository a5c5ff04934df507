//! The reader of an `Open`: four functions that call one another.
ghost use Rattle.asn1_laws.specs.Reading.{AfterReading, ReadsValue};
ghost use Rattle.asn1_laws.specs.ReadingExactly.{HasReadFields, HasReadValue};
ghost use Rattle.asn1_laws.specs.ReadingTypes.{ReadsFields};
ghost use Rattle.asn1_model.specs.ConstraintSets.{constraint_set};
ghost use Rattle.asn1_model.specs.TaggedTypes.{untagged};
ghost use Rattle.asn1_nesting.specs.InsideItself.{eq_in_box};
ghost use Rattle.asn1_open.specs.OpenAlternatives.{inner_instance, instance_components, open_meaning};
ghost use Rattle.asn1_slots.specs.Cases.{ReadsCaseAt, ReadsValueOf};
ghost use Rattle.std.specs.Prelude.{◌≡◌, IfOk, OnOk};

use crate::open_value::Open;
use asn1_dec::{Decode, DecodeError, Decoder};
use asn1_nesting::{HoldsItself, close_choice, close_sequence, open_choice_at, open_sequence_at};
use asn1_slots::{Tagging, alternative};
use asn1_types::{Class, Constraints, InstanceOf, Tag};
use asn1_values::ObjectIdentifier;

const VALUE: Tag = Tag {
    class: Class::Context,
    value: 0,
};

/// Reads a value under a tag.
#[cycle(open_reader)]
pub(crate) fn read_open<D: Decoder>(
    decoder: &mut D,
    tag: Tag,
    constraints: &Constraints<'_>,
) -> Result<Open, DecodeError>
    ensures read { ReadsValue D.reader open_meaning ⟦<Open as PartialEq>⟧.eq tag
        (constraint_set constraints.now) decoder.old decoder.new result }
    ensures only { IfOk result (HasReadValue D.reader decoder.old decoder.new open_meaning tag
        (constraint_set constraints.now)) }
    ensures after_reading { AfterReading D.reader open_meaning tag
        (constraint_set constraints.now) decoder.old decoder.new result }
{
    let index = open_choice_at::<Open, D>(decoder, tag, constraints)?;
    let value = read_alternative(index, decoder);
    close_choice(decoder, tag, value)
}

/// Reads the alternative at an index.
#[cycle(open_reader)]
pub(crate) fn read_alternative<D: Decoder>(
    index: usize,
    decoder: &mut D,
) -> Result<Open, DecodeError>
    ensures read { ReadsCaseAt D.reader ⟦<Open as HoldsItself>⟧.cases
        ⟦<Open as HoldsItself>⟧.case_of index decoder.old decoder.new result }
    ensures same_depth { OnOk result (D.reader.depth_left decoder.new ≡
        D.reader.depth_left decoder.old) }
{
    match index {
        0 => Ok(Open::BitString(alternative(decoder, Tagging::Untagged)?)),
        1 => Ok(Open::Bool(alternative(decoder, Tagging::Untagged)?)),
        2 => Ok(Open::Integer(alternative(decoder, Tagging::Untagged)?)),
        3 => match alternative(decoder, Tagging::Untagged) {
            Ok(()) => Ok(Open::Null),
            Err(error) => Err(error),
        },
        4 => Ok(Open::ObjectIdentifier(alternative(decoder, Tagging::Untagged)?)),
        5 => Ok(Open::OctetString(alternative(decoder, Tagging::Untagged)?)),
        6 => Ok(Open::UniversalString(alternative(decoder, Tagging::Untagged)?)),
        7 => Ok(Open::VisibleString(alternative(decoder, Tagging::Untagged)?)),
        8 => match read_instance(decoder) {
            Ok(instance) => Ok(Open::InstanceOf(instance)),
            Err(error) => Err(error),
        },
        _ => Err(DecodeError::NoValidChoice("Open")),
    }
}

/// Reads an INSTANCE OF around a value.
#[cycle(open_reader)]
fn read_instance<D: Decoder>(decoder: &mut D) -> Result<Box<InstanceOf<Open>>, DecodeError>
    ensures read { ReadsValueOf D.reader (untagged inner_instance)
        (eq_in_box ⟦<InstanceOf<Open> as PartialEq>⟧.eq) decoder.old decoder.new result }
    ensures same_depth { OnOk result (D.reader.depth_left decoder.new ≡
        D.reader.depth_left decoder.old) }
{
    open_sequence_at::<InstanceOf<Open>, D>(decoder, Tag::EXTERNAL)?;
    let components = read_components(decoder);
    let instance = close_sequence(decoder, Tag::EXTERNAL, components)?;
    match Box::new(decoder.global(), instance) {
        Ok(instance) => Ok(instance),
        Err(_) => Err(DecodeError::Memory),
    }
}

/// Reads the components of an INSTANCE OF.
#[cycle(open_reader)]
fn read_components<D: Decoder>(decoder: &mut D) -> Result<InstanceOf<Open>, DecodeError>
    ensures read { ReadsFields D.reader instance_components ⟦<InstanceOf<Open> as PartialEq>⟧.eq
        decoder.old decoder.new result }
    ensures only { IfOk result (HasReadFields D.reader decoder.old decoder.new
        instance_components) }
    ensures same_depth { OnOk result (D.reader.depth_left decoder.new ≡
        D.reader.depth_left decoder.old) }
{
    let type_id = ObjectIdentifier::decode(decoder)?;
    let value = read_open(decoder, VALUE, &Constraints::NONE)?;
    Ok(InstanceOf { type_id, value })
}
