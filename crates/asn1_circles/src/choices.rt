//! CHOICE types that are read by index, by the reader of a type in them.
ghost use Rattle.asn1_circles.specs.Readers.{IsReaderOf, MayReadBelow, MayReadTo, ReadsAs};
ghost use Rattle.asn1_laws.specs.Reading.{AfterReading, ReadsValue};
ghost use Rattle.asn1_model.specs.ConstraintSets.{constraint_set};
ghost use Rattle.asn1_slots.specs.Cases.{ReadsCaseAt};
ghost use Rattle.std.specs.Prelude.{◌≡◌, OnOk};

use crate::errors::ReadError;
use asn1_bounds::Constraints;
use asn1_dec::Decoder;
use asn1_laws::DecodeError;
use asn1_model::AsnType;
use asn1_nesting::{HoldsItself, close_choice, open_choice_at};
use asn1_tags::Tag;

/// A CHOICE whose alternatives are read each by its index, by a reader of the type `T` in them.
pub trait DecodeChoiceWith<T: AsnType + Eq + Drop>: HoldsItself {
    /// Reads the alternative at an index, and makes the value of it.
    fn decode_alternative_with<E: ReadError, D: Decoder, F: Fn(&mut D, Tag) -> Result<T, E>>(
        index: usize,
        decoder: &mut D,
        read: &F,
    ) -> Result<Self, DecodeError>
        requires callable { MayReadTo D.reader (D.reader.depth_left decoder.old) (F.pre read.now) }
        requires reads { IsReaderOf D.reader T.meaning T.eq E.says (F.post read.now) }
        ensures read { ReadsCaseAt D.reader Self.cases Self.case_of index decoder.old decoder.new
            result }
        ensures same_depth { OnOk result (D.reader.depth_left decoder.new ≡
            D.reader.depth_left decoder.old) };
}

/// Reads a CHOICE under a tag and constraints, by a reader of a type in it. The reader is called where less depth is left.
#[inline(always)]
pub fn decode_choice_with<
    T: AsnType + Eq + Drop,
    C: DecodeChoiceWith<T>,
    E: ReadError,
    D: Decoder,
    F: Fn(&mut D, Tag) -> Result<T, E>,
>(decoder: &mut D, tag: Tag, constraints: &Constraints<'_>, read: &F) -> Result<C, DecodeError>
    requires callable { MayReadBelow D.reader (D.reader.depth_left decoder.old) (F.pre read.now) }
    requires reads { IsReaderOf D.reader T.meaning T.eq E.says (F.post read.now) }
    ensures as_component { ReadsAs D.reader C.meaning C.eq tag (constraint_set constraints.now)
        decoder.old decoder.new result }
    ensures read { ReadsValue D.reader C.meaning C.eq tag (constraint_set constraints.now)
        decoder.old decoder.new result }
    ensures after_reading { AfterReading D.reader C.meaning tag (constraint_set constraints.now)
        decoder.old decoder.new result }
{
    let index = match open_choice_at::<C, D>(decoder, tag, constraints) {
        Ok(index) => index,
        Err(error) => return Err(error),
    };
    let alternative = C::decode_alternative_with::<E, D, F>(index, decoder, read);
    close_choice(decoder, tag, alternative)
}
