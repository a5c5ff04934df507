//! A component that is absent where it equals a default.
ghost use Rattle.asn1_laws.specs.Defaults.{MayAnswer};
ghost use Rattle.asn1_laws.specs.GivenTypes.{constraints_or_own, given};
ghost use Rattle.asn1_laws.specs.Reading.{KeepsDepth};
ghost use Rattle.asn1_laws.specs.ReadingExactly.{HasReadDefault};
ghost use Rattle.asn1_laws.specs.ReadingTypes.{ReadsDefault};
ghost use Rattle.asn1_laws.specs.Sides.{side_of};
ghost use Rattle.asn1_laws.specs.declared.decode_error.DecodeError.TheVariants.{Memory};
ghost use Rattle.std.specs.Prelude.{◌≡◌, IfNone, IfOk, IfSome, MatchResult, Ok, true, unwrap_or};

use crate::decode::Decode;
use crate::decoder::Decoder;
use crate::optionals::read_optional;
use asn1_bounds::Constraints;
use asn1_laws::{DecodeError, Side};
use asn1_tags::Tag;
use std::alloc::{AllocError, Global};

/// The value that was read, or the answer of the closure if there is none. The decoder has failed if memory ran out in the
/// closure.
#[inline(always)]
pub(crate) fn or_make_default<T: Drop, D: Decoder, F: FnOnce(Global) -> Result<T, AllocError>>(
    decoder: &mut D,
    value: Option<T>,
    default: F,
) -> Result<T, DecodeError>
    requires { F.IsAlwaysCallable default }
    ensures there { IfSome value (λ v. (result ≡ Ok v) × (decoder.new ≡ decoder.old)) }
    ensures absent { IfNone value (MatchResult result
        (λ default_value. MayAnswer F.FnOnce default default_value × (decoder.new ≡ decoder.old))
        (λ e. (e ≡ Memory) × (D.reader.failed decoder.new ≡ true))) }
{
    match value {
        Some(value) => Ok(value),
        None => match default(decoder.global()) {
            Ok(value) => Ok(value),
            Err(_) => Err(decoder.refuse(DecodeError::Memory)),
        },
    }
}

/// A component with a default, under a tag and constraints, or the type's own where they are not given.
#[inline(always)]
pub(crate) fn read_default<T: Decode, D: Decoder, F: FnOnce(Global) -> Result<T, AllocError>>(
    decoder: &mut D,
    side: Side,
    tag: Option<Tag>,
    constraints: Option<&Constraints<'_>>,
    default: F,
) -> Result<T, DecodeError>
    requires { F.IsAlwaysCallable default }
    ensures read { ReadsDefault D.reader (side_of side) (given (unwrap_or tag T.meaning.tag)
        (constraints_or_own constraints.entry T.meaning) T.meaning) (MayAnswer F.FnOnce default)
        T.eq decoder.old decoder.new result }
    ensures only { IfOk result (HasReadDefault D.reader decoder.old decoder.new (side_of side)
        (given (unwrap_or tag T.meaning.tag) (constraints_or_own constraints.entry T.meaning)
        T.meaning) (MayAnswer F.FnOnce default)) }
    ensures keeps_depth { KeepsDepth D.reader decoder.old decoder.new result }
{
    let value = read_optional::<T, D>(decoder, side, tag, constraints)?;
    or_make_default(decoder, value, default)
}
