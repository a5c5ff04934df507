//! The canonical order of components.
ghost use Rattle.std.specs.Prelude.{◌≡◌, ◌↔◌, IsTrue};
ghost use Rattle.asn1_fields.specs.CanonicalOrder.{IsCanonical, AtMostOneIsCanonical, canonical, in_order};
ghost use Rattle.asn1_fields.specs.FieldViews.{component_of, components, view_of};

use crate::field::Field;

/// Whether the fields are in canonical order: no field's smallest tag is above the next one's (X.690, 9.3, by the
/// order of tags of X.680, 8.6).
pub fn is_canonical(fields: &[Field<'_>]) -> bool
    ensures ordered { IsTrue result ↔ IsCanonical (components fields.now) }
    ensures report { result ≡ canonical (components fields.now) }
{
    fields.is_sorted_by(are_in_order)
}

/// A law of the canonical order: of all rearrangements of a table whose components' smallest tags differ, at most
/// one is canonical.
pub fn at_most_one_rearrangement_is_canonical()
    ensures { AtMostOneIsCanonical }
{}

// Whether the first field's smallest tag is not above the second's.
#[tactic(auto, using(asn1_tags::proofs::Smallest::smallest_cmp))]
fn are_in_order(field: &Field<'_>, next: &Field<'_>) -> bool
    ensures { result ≡
        in_order (component_of (view_of field.now)) (component_of (view_of next.now)) }
{
    let smallest = field.tag_tree.smallest_tag();
    smallest.const_cmp(&next.tag_tree.smallest_tag()).is_le()
}
