//! A component, read by its type.
ghost use Rattle.asn1_laws.specs.DecodeErrors.{lacks_name, reason};
ghost use Rattle.asn1_laws.specs.Reading.{Outside, ReadsBack};
ghost use Rattle.asn1_laws.specs.ReadingExactly.{HasReadGiven, HasReadOptional};
ghost use Rattle.asn1_model.specs.Records.{in_additions, in_root};
ghost use Rattle.asn1_slots.specs.Filling.{ReadsComponent, ReadsOptionalComponent};
ghost use Rattle.asn1_slots.specs.Taggings.{under};
ghost use Rattle.std.specs.Option.{option_eq};
ghost use Rattle.std.specs.Prelude.{◌≡◌, false, IfErr, IfOk, OnOk, true};

use crate::tagging::Tagging;
use asn1_dec::{Decode, Decoder};
use asn1_laws::DecodeError;

/// A component that is always there.
#[inline(always)]
pub(crate) fn read_component<T: Decode, D: Decoder>(
    decoder: &mut D,
    tagging: Tagging,
) -> Result<T, DecodeError>
    ensures read { ReadsComponent D.reader (under tagging T.meaning) (λ v w. T.eq w v ≡ true)
        decoder.old decoder.new result }
    ensures only { IfOk result (HasReadGiven D.reader decoder.old decoder.new
        (λ _. under tagging T.meaning)) }
    ensures same_depth { OnOk result (D.reader.depth_left decoder.new ≡
        D.reader.depth_left decoder.old) }
{
    match tagging {
        Tagging::Untagged => T::decode(decoder),
        Tagging::Tagged(tag) => T::decode_with_tag(decoder, tag),
        Tagging::Explicit(tag) => decoder.decode_explicit_prefix(tag),
    }
}

/// A component that is always there, whose errors have its name.
#[inline(always)]
pub(crate) fn read_named<T: Decode, D: Decoder>(
    decoder: &mut D,
    tagging: Tagging,
    name: &'static str,
) -> Result<T, DecodeError>
    ensures read { ReadsComponent D.reader (under tagging T.meaning) (λ v w. T.eq w v ≡ true)
        decoder.old decoder.new result }
    ensures only { IfOk result (HasReadGiven D.reader decoder.old decoder.new
        (λ _. under tagging T.meaning)) }
    ensures same_depth { OnOk result (D.reader.depth_left decoder.new ≡
        D.reader.depth_left decoder.old) }
    ensures named { IfErr result (λ error. lacks_name (reason error) ≡ false) }
{
    match read_component(decoder, tagging) {
        Ok(value) => Ok(value),
        Err(error) => Err(error.in_field(name)),
    }
}

/// A component that may be absent.
#[inline(always)]
pub(crate) fn read_optional<T: Decode, D: Decoder>(
    decoder: &mut D,
    tagging: Tagging,
) -> Result<Option<T>, DecodeError>
    ensures read { ReadsOptionalComponent D.reader in_root (under tagging T.meaning)
        (λ v w. option_eq T.eq w v ≡ true) decoder.old decoder.new result }
    ensures only { IfOk result (HasReadOptional D.reader decoder.old decoder.new in_root
        (λ _. under tagging T.meaning)) }
    ensures same_depth { OnOk result (D.reader.depth_left decoder.new ≡
        D.reader.depth_left decoder.old) }
{
    match tagging {
        Tagging::Untagged => decoder.decode_optional(),
        Tagging::Tagged(tag) => decoder.decode_optional_with_tag(tag),
        Tagging::Explicit(tag) => decoder.decode_optional_with_explicit_prefix(tag),
    }
}

/// An addition, which may be absent.
#[inline(always)]
pub(crate) fn read_addition<T: Decode, D: Decoder>(
    decoder: &mut D,
    tagging: Tagging,
) -> Result<Option<T>, DecodeError>
    ensures read { ReadsOptionalComponent D.reader in_additions (under tagging T.meaning)
        (λ v w. option_eq T.eq w v ≡ true) decoder.old decoder.new result }
    ensures only { IfOk result (HasReadOptional D.reader decoder.old decoder.new in_additions
        (λ _. under tagging T.meaning)) }
    ensures same_depth { OnOk result (D.reader.depth_left decoder.new ≡
        D.reader.depth_left decoder.old) }
{
    match tagging {
        Tagging::Untagged => decoder.decode_extension_addition(),
        Tagging::Tagged(tag) => decoder.decode_extension_addition_with_tag(tag),
        Tagging::Explicit(tag) => {
            let constraints = T::constraints(decoder.global())?;
            decoder.decode_extension_addition_with_explicit_tag_and_constraints(tag, &constraints)
        }
    }
}
