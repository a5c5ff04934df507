//! A value under what a call is given.
ghost use Rattle.asn1_laws.specs.GivenTypes.{constraints_or_own};
ghost use Rattle.asn1_laws.specs.Reading.{ReadsValue};
ghost use Rattle.asn1_laws.specs.ReadingExactly.{HasReadValue};
ghost use Rattle.std.specs.Prelude.{◌≡◌, IfOk, OnOk};

use crate::decode::Decode;
use crate::decoder::Decoder;
use asn1_bounds::Constraints;
use asn1_laws::DecodeError;
use asn1_tags::Tag;

/// A value under a tag, and constraints, or the type's own where none are given.
#[inline(always)]
pub(crate) fn read_value<T: Decode, D: Decoder>(
    decoder: &mut D,
    tag: Tag,
    constraints: Option<&Constraints<'_>>,
) -> Result<T, DecodeError>
    ensures read { ReadsValue D.reader T.meaning T.eq tag
        (constraints_or_own constraints.entry T.meaning) decoder.old decoder.new result }
    ensures only { IfOk result (HasReadValue D.reader decoder.old decoder.new T.meaning tag
        (constraints_or_own constraints.entry T.meaning)) }
    ensures same_depth { OnOk result
        (D.reader.depth_left decoder.new ≡ D.reader.depth_left decoder.old) }
    ensures failed_as_before { OnOk result
        (D.reader.failed decoder.new ≡ D.reader.failed decoder.old) }
{
    match constraints {
        None => T::decode_with_tag(decoder, tag),
        Some(constraints) => T::decode_with_tag_and_constraints(decoder, tag, constraints),
    }
}
