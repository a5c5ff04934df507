//! The canonical order of components.
ghost use Rattle.std.specs.Prelude.{◌≡◌, ◌↔◌, List, map, IsTrue};
ghost use Rattle.asn1_fields.specs.CanonicalOrder.{IsCanonical, canonical};
ghost use Rattle.asn1_fields.specs.FieldViews.{Component};
ghost use Rattle.asn1_clash.specs.Flat.{flat_component};
ghost use Rattle.asn1_clash.specs.Views.{components_view};

use crate::flat_component::FlatComponent;

/// Whether the components are in canonical order: no component's smallest tag is above the next one's (X.680, 8.6).
pub fn is_canonical(components: &[FlatComponent]) -> bool
    ensures ordered { IsTrue result ↔ IsCanonical (components_view components.now) }
    ensures report { result ≡ canonical (components_view components.now) }

    // The same of each table of which these are the flat components.
    ensures report_of_table { (table : List Component) →
        components_view components.now ≡ map flat_component table → result ≡ canonical table }
{
    components.is_sorted_by(FlatComponent::is_in_order)
}
