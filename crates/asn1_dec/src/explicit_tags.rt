//! A value after an explicit tag.
ghost use Rattle.asn1_laws.specs.GivenTypes.{constraints_or_own, given_after_tag};
ghost use Rattle.asn1_laws.specs.Reading.{KeepsDepth, NeedsDepth};
ghost use Rattle.asn1_laws.specs.ReadingExactly.{HasReadGiven};
ghost use Rattle.asn1_laws.specs.ReadingTypes.{Reads};
ghost use Rattle.std.specs.Prelude.{IfOk};

use crate::decode::Decode;
use crate::decoder::Decoder;
use crate::values::read_value;
use asn1_bounds::Constraints;
use asn1_laws::DecodeError;
use asn1_tags::Tag;

/// A value after an explicit tag, under its type's own tag, and constraints, or the type's own where none are given.
#[inline(always)]
pub(crate) fn read_after_explicit_tag<T: Decode, D: Decoder>(
    decoder: &mut D,
    tag: Tag,
    constraints: Option<&Constraints<'_>>,
) -> Result<T, DecodeError>
    ensures read { Reads D.reader (given_after_tag tag
        (constraints_or_own constraints.entry T.meaning) T.meaning) T.eq decoder.old decoder.new
        result }
    ensures only { IfOk result (HasReadGiven D.reader decoder.old decoder.new (given_after_tag tag
        (constraints_or_own constraints.entry T.meaning) T.meaning)) }
    ensures keeps_depth { KeepsDepth D.reader decoder.old decoder.new result }
    ensures depth_first { NeedsDepth D.reader decoder.old result }
{
    decoder.open_explicit_prefix(tag)?;
    let value = match read_value::<T, D>(decoder, T::tag(), constraints) {
        Ok(value) => value,
        Err(error) => return Err(decoder.refuse(error)),
    };
    decoder.close()?;
    Ok(value)
}
