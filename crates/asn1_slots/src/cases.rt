//! The values of the alternatives of a CHOICE.
ghost use Rattle.asn1_slots.specs.Cases.{ReadsValueOf};
ghost use Rattle.asn1_slots.specs.Taggings.{under};
ghost use Rattle.std.specs.Prelude.{◌≡◌, OnOk};

use crate::tagged::read_component;
use crate::tagging::Tagging;
use asn1_dec::{Decode, Decoder};
use asn1_laws::DecodeError;

/// Reads the value of an alternative.
#[inline(always)]
pub fn alternative<T: Decode, D: Decoder>(
    decoder: &mut D,
    tagging: Tagging,
) -> Result<T, DecodeError>
    ensures read { ReadsValueOf D.reader (under tagging T.meaning) T.eq decoder.old decoder.new
        result }
    ensures same_depth { OnOk result (D.reader.depth_left decoder.new ≡
        D.reader.depth_left decoder.old) }
{
    read_component(decoder, tagging)
}
