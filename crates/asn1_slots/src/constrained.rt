//! The calls that read a component into its slot under constraints of its own.
ghost use Rattle.asn1_laws.specs.DecodeErrors.{lacks_name, reason};
ghost use Rattle.asn1_model.specs.ConstraintSets.{constraint_set};
ghost use Rattle.asn1_slots.specs.Filling.{Fills, FillsOnce};
ghost use Rattle.asn1_slots.specs.Taggings.{under_constraints};
ghost use Rattle.std.specs.Prelude.{◌≡◌, false, IfErr, OnOk};

use crate::calls::Decoded;
use asn1_bounds::Constraints;
use asn1_dec::{Decode, Decoder};
use asn1_laws::DecodeError;
use asn1_tags::Tag;

/// Reads a component that is always there under these constraints, and a tag, or the type's own where none is given.
#[inline(always)]
pub fn required_with_constraints<T: Decode, D: Decoder>(
    slot: &mut Option<T>,
    decoder: &mut D,
    tag: Option<Tag>,
    constraints: &Constraints<'_>,
) -> Decoded
    ensures read { Fills D.reader (under_constraints tag (constraint_set constraints.now) T.meaning)
        T.eq decoder.old decoder.new slot.new result }
    ensures same_depth { OnOk result (D.reader.depth_left decoder.new ≡
        D.reader.depth_left decoder.old) }
{
    let tag = tag.unwrap_or(T::tag());
    *slot = Some(T::decode_with_tag_and_constraints(decoder, tag, constraints)?);
    Ok(())
}

/// The same of a component of a SET, which is always there, may be absent or has a default. If it was read before, the error is
/// [`DecodeError::DuplicateField`] with the name; an error of the component is answered with its name.
#[inline(always)]
pub fn decode_unique_with_constraints<T: Decode, D: Decoder>(
    slot: &mut Option<T>,
    decoder: &mut D,
    tag: Option<Tag>,
    constraints: &Constraints<'_>,
    name: &'static str,
) -> Decoded
    ensures read { FillsOnce D.reader name.now
        (under_constraints tag (constraint_set constraints.now) T.meaning) T.eq decoder.old
        decoder.new slot.old slot.new result }
    ensures same_depth { OnOk result (D.reader.depth_left decoder.new ≡
        D.reader.depth_left decoder.old) }
    ensures named { IfErr result (λ error. lacks_name (reason error) ≡ false) }
{
    if slot.is_some() {
        return Err(DecodeError::DuplicateField(name));
    }
    match required_with_constraints(slot, decoder, tag, constraints) {
        Ok(()) => Ok(()),
        Err(error) => Err(error.in_field(name)),
    }
}
