//! A component that is absent where it equals a default.
ghost use Rattle.asn1_laws.specs.Defaults.{MayAnswer};
ghost use Rattle.asn1_laws.specs.GivenTypes.{constraints_or_own, given};
ghost use Rattle.asn1_laws.specs.Writing.{IsOutOfMemory};
ghost use Rattle.asn1_laws.specs.WritingTypes.{WritesDefault};
ghost use Rattle.asn1_tags.specs.Names.{name_of};
ghost use Rattle.std.specs.Prelude.{◌≡◌, IfErr, IfOk, OnOk};

use crate::encode::Encode;
use crate::encoder::Encoder;
use crate::optionals::write_present;
use asn1_bounds::Constraints;
use asn1_laws::{EncodeError, Side};
use asn1_tags::{Identifier, Tag};
use std::alloc::{AllocError, Global};

/// Whether the value equals the default that the closure makes. The encoder has failed if memory runs out for the default.
#[inline(always)]
pub(crate) fn equals_default<
    T: PartialEq + Drop,
    E: Encoder,
    F: FnOnce(Global) -> Result<T, AllocError>,
>(encoder: &mut E, value: &T, default: F) -> Result<bool, EncodeError>
    requires { F.IsAlwaysCallable default }
    ensures compared { IfOk result (λ equal. (default_value : T) ×
        MayAnswer F.FnOnce default default_value × (T.eq value.now default_value ≡ equal)) }
    ensures same { OnOk result (encoder.new ≡ encoder.old) }
    ensures refused { IfErr result (IsOutOfMemory E.writer encoder.old encoder.new) }
{
    match default(encoder.global()) {
        Ok(default_value) => Ok(*value == default_value),
        Err(_) => Err(encoder.refuse_memory()),
    }
}

/// A component of the root with a default, which is what the closure answers, under a tag, a name and constraints, or the type's own
/// where none are given.
#[inline(always)]
pub(crate) fn write_default<
    T: Encode + PartialEq + Drop,
    E: Encoder,
    F: FnOnce(Global) -> Result<T, AllocError>,
>(
    encoder: &mut E,
    tag: Tag,
    constraints: Option<&Constraints<'_>>,
    value: &T,
    default: F,
    name: Identifier,
) -> Result<(), EncodeError>
    requires { F.IsAlwaysCallable default }
    ensures { WritesDefault E.writer
        (given tag (constraints_or_own constraints.entry T.meaning) T.meaning (name_of name))
        (MayAnswer F.FnOnce default) T.eq value.now encoder.old encoder.new result }
{
    if equals_default(encoder, value, default)? {
        encoder.encode_none_with_tag(tag, name)
    } else {
        write_present(encoder, Side::Root, tag, constraints, value, name)
    }
}
