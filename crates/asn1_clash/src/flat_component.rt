//! Components of SEQUENCE and SET types, as the rules on distinct tags look at them.
ghost use Rattle.std.specs.Prelude.{◌≡◌, map, IfOk};
ghost use Rattle.asn1_tags.specs.Trees.{is_open, leaves};
ghost use Rattle.asn1_fields.specs.CanonicalOrder.{in_order, smallest_tag};
ghost use Rattle.asn1_fields.specs.FieldViews.{component_of, components, view_of, may_be_absent};
ghost use Rattle.asn1_clash.specs.Flat.{flat_component};

use crate::flat_tree::FlatTree;
use asn1_fields::{Field, FieldPresence};
use asn1_tags::Tag;
use std::alloc::{AllocError, Global};

/// A component: whether it may be absent, and the tree of the tags with which it can begin.
#[derive(Drop)]
pub struct FlatComponent {
    /// Whether the component is always there, OPTIONAL or has a DEFAULT.
    pub presence: FieldPresence,
    /// The tags with which it can begin.
    pub tree: FlatTree,
}

impl FlatComponent {
    ghost use Rattle.asn1_clash.specs.Views.{component_view, components_view};

    /// The flat component of a line of a field table.
    pub fn of_field(alloc: Global, field: &Field<'_>) -> Result<FlatComponent, AllocError>
        ensures flattened { IfOk result (λ component.
            component_view component ≡ flat_component (component_of (view_of field.now))) }
    {
        Ok(FlatComponent {
            presence: field.presence,
            tree: FlatTree::of(alloc, &field.tag_tree)?,
        })
    }

    /// The flat components of a field table.
    pub fn of_fields(alloc: Global, fields: &[Field<'_>]) -> Result<Vec<FlatComponent>, AllocError>
        ensures flattened { IfOk result (λ all. components_view all.items ≡
            map flat_component (components fields.now)) }
    {
        let mut all = Vec::new(alloc);
        for field in fields {
            all.push(FlatComponent::of_field(alloc, field)?)?;
        }
        Ok(all)
    }

    /// Whether the component may be absent.
    pub fn may_be_absent(&self) -> bool
        ensures { result ≡ may_be_absent (component_view self.now).presence }
    {
        self.presence.is_optional_or_default()
    }

    /// Whether the component can begin with any tag.
    pub fn is_open(&self) -> bool
        ensures { result ≡ is_open (component_view self.now).tree }
    {
        self.tree.is_open()
    }

    /// The leaves of the component's tree.
    pub fn tags(&self) -> &[Tag]
        ensures { result.now ≡ leaves (component_view self.now).tree }
    {
        self.tree.tags.as_slice()
    }

    /// The smallest leaf, and the greatest tag of all where there is none.
    pub fn smallest_tag(&self) -> Tag
        ensures { result ≡ smallest_tag (component_view self.now) }
    {
        self.tree.smallest_tag()
    }

    /// Whether this component may come before the other in canonical order: its smallest tag is not above the other's.
    pub fn is_in_order(&self, next: &FlatComponent) -> bool
        ensures { result ≡ in_order (component_view self.now) (component_view next.now) }
    {
        self.smallest_tag() <= next.smallest_tag()
    }
}
