//! A group of additions of a SET, whose components come one by one.
ghost use Rattle.asn1_slots.specs.GroupsInSets.{FillsPart, IsOfGroup, group_is_filled, holds_group};
ghost use Rattle.asn1_slots.specs.Slots.{AreEmpty, IsLayoutOf, name_unless};
ghost use Rattle.std.specs.Option.{option_eq, option_map};
ghost use Rattle.std.specs.Prelude.{◌≡◌, IfOk, OnOk, Option, true};

use crate::calls::Decoded;
use crate::set_by_index::{DecodeSetByIndex, first_missing};
use asn1_components::FieldTable;
use asn1_dec::{Decoder, component_with_tag};
use asn1_tags::Tag;
use std::alloc::{AllocError, Global};

/// Reads the component of a group of additions that can begin with the tag. If it was read before, the error is
/// [`DecodeError::DuplicateField`] with its name.
#[inline(always)]
pub fn component_of_group<G: DecodeSetByIndex + FieldTable, D: Decoder>(
    slot: &mut Option<G::Slots>,
    tag: Tag,
    decoder: &mut D,
) -> Decoded
    requires laid_out { IsLayoutOf G.components G.layout }
    requires empty_at_first { (s : G.Slots) → G.Slots.Default.is_default s → AreEmpty G.layout s }
    ensures read { FillsPart D.reader G.layout tag decoder.old decoder.new slot.old slot.new
        result }
    ensures same_depth { OnOk result (D.reader.depth_left decoder.new ≡
        D.reader.depth_left decoder.old) }
{
    let mut slots = match slot.take() {
        Some(slots) => slots,
        None => G::Slots::default(),
    };
    if let Some(index) = component_with_tag::<G>(tag) {
        G::decode_field(index, tag, &mut slots, decoder)?;
    }
    *slot = Some(slots);
    Ok(())
}

/// The name of a group of additions, if a required component of it is missing where another is there.
#[inline(always)]
pub fn missing_in_group<G: DecodeSetByIndex + FieldTable>(
    slot: &Option<G::Slots>,
    name: &'static str,
) -> Option<&'static str>
    requires laid_out { IsLayoutOf G.components G.layout }
    ensures { option_map (λ name. name.now) result ≡
        name_unless (group_is_filled G.layout slot.now) name.now }
{
    match slot {
        Some(slots) => match first_missing::<G>(slots) {
            Some(_) => Some(name),
            None => None,
        },
        None => None,
    }
}

/// The group of these slots, of which those of required components are full; it is absent where none of its components came.
#[inline(always)]
pub fn group_of_slots<G: DecodeSetByIndex>(
    alloc: Global,
    slot: Option<G::Slots>,
) -> Result<Option<G>, AllocError>
    requires are_filled { group_is_filled G.layout slot ≡ true }
    ensures made { (v : Option G) → holds_group G.layout slot v ≡ true →
        IfOk result (λ w. option_eq G.eq w v ≡ true) }
    ensures only { IfOk result (IsOfGroup G.layout slot) }
{
    match slot {
        Some(slots) => Ok(Some(G::full(alloc, slots)?)),
        None => Ok(None),
    }
}
