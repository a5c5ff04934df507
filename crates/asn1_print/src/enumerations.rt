//! The items of ENUMERATED types.
use crate::choices::new_variant;
use crate::notation::text_of;
use crate::plan::Plan;
use asn1_names::Place;
use asn1_resolved::{Enumeration, EnumerationItem};
use asn1_rust_components::Item;
use asn1_rust_names::TakenNames;
use std::alloc::AllocError;

/// An ENUMERATED.
pub(crate) fn enumeration_of(
    plan: &mut Plan<'_, '_>,
    enumeration: &Enumeration<'_>,
    place: Place,
) -> Result<asn1_rust_components::Enumeration, AllocError> {
    if enumeration.root.is_empty() {
        plan.error(
            place,
            "an ENUMERATED without an item in its root is not supported",
        )?;
    }
    let mut variants = TakenNames::new(plan.alloc);
    let mut items = Vec::new(plan.alloc);
    for item in &enumeration.root {
        items.push(item_of(plan, item, &mut variants)?)?;
    }
    for item in &enumeration.additions {
        items.push(item_of(plan, item, &mut variants)?)?;
    }
    Ok(asn1_rust_components::Enumeration {
        items,
        extension_index: if enumeration.is_extensible {
            Some(enumeration.root.len())
        } else {
            None
        },
    })
}

// An item.
fn item_of(
    plan: &Plan<'_, '_>,
    item: &EnumerationItem<'_>,
    variants: &mut TakenNames,
) -> Result<Item, AllocError> {
    Ok(Item {
        name: text_of(plan.alloc, item.name)?,
        variant: new_variant(plan, item.name, variants)?,
        number: item.number,
    })
}

/// The variant of the item of a name.
pub(crate) fn variant_of(
    plan: &Plan<'_, '_>,
    enumeration: &Enumeration<'_>,
    name: &[u8],
) -> Result<Option<String>, AllocError> {
    let mut variants = TakenNames::new(plan.alloc);
    for item in &enumeration.root {
        let variant = new_variant(plan, item.name, &mut variants)?;
        if item.name == name {
            return Ok(Some(variant));
        }
    }
    Ok(None)
}
