//! The calls that read a component into its slot.
ghost use Rattle.asn1_laws.specs.DecodeErrors.{lacks_name, reason};
ghost use Rattle.asn1_model.specs.Records.{in_additions, in_root};
ghost use Rattle.asn1_slots.specs.Filling.{Fills, FillsGroup, FillsOnce, FillsOptional};
ghost use Rattle.asn1_slots.specs.Taggings.{under};
ghost use Rattle.std.specs.Prelude.{◌≡◌, false, IfErr, OnOk};

use crate::tagged::{read_addition, read_component, read_named, read_optional};
use crate::tagging::Tagging;
use asn1_dec::{Decode, DecodeFields, Decoder};
use asn1_laws::DecodeError;

/// The answer of a call that reads a component into its slot.
pub type Decoded = Result<(), DecodeError>;

/// Reads a component that is always there.
#[inline(always)]
pub fn required<T: Decode, D: Decoder>(
    slot: &mut Option<T>,
    decoder: &mut D,
    tagging: Tagging,
) -> Decoded
    ensures read { Fills D.reader (under tagging T.meaning) T.eq decoder.old decoder.new slot.new
        result }
    ensures same_depth { OnOk result (D.reader.depth_left decoder.new ≡
        D.reader.depth_left decoder.old) }
{
    *slot = Some(read_component(decoder, tagging)?);
    Ok(())
}

/// Reads a component that may be absent, or has a default.
#[inline(always)]
pub fn optional<T: Decode, D: Decoder>(
    slot: &mut Option<T>,
    decoder: &mut D,
    tagging: Tagging,
) -> Decoded
    ensures read { FillsOptional D.reader in_root (under tagging T.meaning) T.eq decoder.old
        decoder.new slot.new result }
    ensures same_depth { OnOk result (D.reader.depth_left decoder.new ≡
        D.reader.depth_left decoder.old) }
{
    *slot = read_optional(decoder, tagging)?;
    Ok(())
}

/// Reads an addition, which may be absent, or has a default.
#[inline(always)]
pub fn addition<T: Decode, D: Decoder>(
    slot: &mut Option<T>,
    decoder: &mut D,
    tagging: Tagging,
) -> Decoded
    ensures read { FillsOptional D.reader in_additions (under tagging T.meaning) T.eq decoder.old
        decoder.new slot.new result }
    ensures same_depth { OnOk result (D.reader.depth_left decoder.new ≡
        D.reader.depth_left decoder.old) }
{
    *slot = read_addition(decoder, tagging)?;
    Ok(())
}

/// Reads a group of additions, which may be absent.
#[inline(always)]
pub fn group<C: DecodeFields, D: Decoder>(slot: &mut Option<C>, decoder: &mut D) -> Decoded
    ensures read { FillsGroup D.reader C.components C.eq decoder.old decoder.new slot.new result }
    ensures same_depth { OnOk result (D.reader.depth_left decoder.new ≡
        D.reader.depth_left decoder.old) }
{
    *slot = decoder.decode_extension_addition_group()?;
    Ok(())
}

/// Reads a component of a SET. If it was read before, the error is [`DecodeError::DuplicateField`] with the name; an error of
/// the component is answered with its name ([`DecodeError::in_field`]).
#[inline(always)]
pub fn decode_unique<T: Decode, D: Decoder>(
    slot: &mut Option<T>,
    decoder: &mut D,
    tagging: Tagging,
    name: &'static str,
) -> Decoded
    ensures read { FillsOnce D.reader name.now (under tagging T.meaning) T.eq decoder.old
        decoder.new slot.old slot.new result }
    ensures same_depth { OnOk result (D.reader.depth_left decoder.new ≡
        D.reader.depth_left decoder.old) }
    ensures named { IfErr result (λ error. lacks_name (reason error) ≡ false) }
{
    if slot.is_some() {
        return Err(DecodeError::DuplicateField(name));
    }
    *slot = Some(read_named(decoder, tagging, name)?);
    Ok(())
}
