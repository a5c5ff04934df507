//! A row of a field table.
ghost use Rattle.std.specs.Prelude.{◌≡◌, ◌↔◌, IsTrue, not};
ghost use Rattle.asn1_model.specs.Tags.{CHOICE};
ghost use Rattle.asn1_tags.specs.Trees.{choice, leaf, shape, shapes};
ghost use Rattle.asn1_fields.specs.FieldViews.{view, view_of, may_be_absent, tagged_view, typed_view};

use crate::presence::FieldPresence;
use asn1_model::AsnType;
use asn1_tags::{Tag, TagTree};

/// A row of a field table: what is known of a component of a SEQUENCE or a SET before any value is.
///
/// Fields are ordered by their parts, in the order of this list.
#[derive(Clone, Copy, PartialEq, Eq, PartialOrd, Ord, Debug)]
pub struct Field<'a> {
    /// The index of the component in the definition of its type.
    pub index: usize,
    /// The tag under which the component is written.
    pub tag: Tag,
    /// The tags with which the component can begin. For a group of additions, a choice of its components' trees.
    pub tag_tree: TagTree<'a>,
    /// Whether the component may be absent.
    pub presence: FieldPresence,
    /// The name of the component.
    pub name: &'a str,
}

impl<'a> Field<'a> {
    /// A component that is always there.
    pub fn new_required(index: usize, tag: Tag, tag_tree: TagTree<'a>, name: &'a str) -> Self
        ensures { view_of result ≡
            view index tag (shape tag_tree.entry) FieldPresence.Required name.now }
    {
        Field {
            index,
            tag,
            tag_tree,
            presence: FieldPresence::Required,
            name,
        }
    }

    /// A component that is marked OPTIONAL.
    pub fn new_optional(index: usize, tag: Tag, tag_tree: TagTree<'a>, name: &'a str) -> Self
        ensures { view_of result ≡
            view index tag (shape tag_tree.entry) FieldPresence.Optional name.now }
    {
        Field {
            index,
            tag,
            tag_tree,
            presence: FieldPresence::Optional,
            name,
        }
    }

    /// A component that is marked DEFAULT.
    pub fn new_default(index: usize, tag: Tag, tag_tree: TagTree<'a>, name: &'a str) -> Self
        ensures { view_of result ≡
            view index tag (shape tag_tree.entry) FieldPresence.Default name.now }
    {
        Field {
            index,
            tag,
            tag_tree,
            presence: FieldPresence::Default,
            name,
        }
    }

    /// A component that is always there, under its type's own tag.
    pub fn new_required_type<T: AsnType>(index: usize, name: &'a str) -> Self
        ensures { view_of result ≡ typed_view index T.meaning FieldPresence.Required name.now }
    {
        Field::new_required(index, T::tag(), T::tag_tree(), name)
    }

    /// A component that is marked OPTIONAL, under its type's own tag.
    pub fn new_optional_type<T: AsnType>(index: usize, name: &'a str) -> Self
        ensures { view_of result ≡ typed_view index T.meaning FieldPresence.Optional name.now }
    {
        Field::new_optional(index, T::tag(), T::tag_tree(), name)
    }

    /// A component that is marked DEFAULT, under its type's own tag.
    pub fn new_default_type<T: AsnType>(index: usize, name: &'a str) -> Self
        ensures { view_of result ≡ typed_view index T.meaning FieldPresence.Default name.now }
    {
        Field::new_default(index, T::tag(), T::tag_tree(), name)
    }

    /// A component that is always there, under a tag that replaces its type's own.
    pub fn new_required_type_with_tag<T: AsnType>(index: usize, tag: Tag, name: &'a str) -> Self
        ensures { view_of result ≡
            tagged_view index T.meaning tag FieldPresence.Required name.now }
    {
        Field::new_required(index, tag, T::tag_tree_under(tag), name)
    }

    /// A component that is marked OPTIONAL, under a tag that replaces its type's own.
    pub fn new_optional_type_with_tag<T: AsnType>(index: usize, tag: Tag, name: &'a str) -> Self
        ensures { view_of result ≡
            tagged_view index T.meaning tag FieldPresence.Optional name.now }
    {
        Field::new_optional(index, tag, T::tag_tree_under(tag), name)
    }

    /// A component that is marked DEFAULT, under a tag that replaces its type's own.
    pub fn new_default_type_with_tag<T: AsnType>(index: usize, tag: Tag, name: &'a str) -> Self
        ensures { view_of result ≡
            tagged_view index T.meaning tag FieldPresence.Default name.now }
    {
        Field::new_default(index, tag, T::tag_tree_under(tag), name)
    }

    /// A component that is always there, after an explicit tag (X.680, 31.2.7), which is the one that it can begin with.
    #[tactic(auto, using(asn1_tags::proofs::Leaves::tree_shapes))]
    pub fn new_required_explicit(index: usize, tag: Tag, name: &'a str) -> Self
        ensures { view_of result ≡
            view index tag (leaf tag) FieldPresence.Required name.now }
    {
        Field::new_required(index, tag, TagTree::Leaf(tag), name)
    }

    /// A component that is marked OPTIONAL, after an explicit tag (X.680, 31.2.7), which is the one that it can begin with.
    #[tactic(auto, using(asn1_tags::proofs::Leaves::tree_shapes))]
    pub fn new_optional_explicit(index: usize, tag: Tag, name: &'a str) -> Self
        ensures { view_of result ≡
            view index tag (leaf tag) FieldPresence.Optional name.now }
    {
        Field::new_optional(index, tag, TagTree::Leaf(tag), name)
    }

    /// A component that is marked DEFAULT, after an explicit tag (X.680, 31.2.7), which is the one that it can begin with.
    #[tactic(auto, using(asn1_tags::proofs::Leaves::tree_shapes))]
    pub fn new_default_explicit(index: usize, tag: Tag, name: &'a str) -> Self
        ensures { view_of result ≡
            view index tag (leaf tag) FieldPresence.Default name.now }
    {
        Field::new_default(index, tag, TagTree::Leaf(tag), name)
    }

    /// A group of additions (X.680, 25.1): it has the tags of all of its components, and none of its own.
    #[tactic(auto, using(asn1_tags::proofs::Leaves::tree_shapes))]
    pub fn new_group(index: usize, trees: &'a [TagTree<'a>], name: &'a str) -> Self
        ensures { view_of result ≡
            view index CHOICE (choice (shapes trees.now)) FieldPresence.Optional name.now }
    {
        Field::new_optional(index, Tag::CHOICE, TagTree::Choice(trees), name)
    }

    /// Whether the component may be absent.
    pub fn is_optional_or_default(&self) -> bool
        ensures { result ≡ may_be_absent self.now.presence }
    {
        self.presence.is_optional_or_default()
    }

    /// Whether the component is always there.
    pub fn is_not_optional_or_default(&self) -> bool
        ensures required { IsTrue result ↔ (self.now.presence ≡ FieldPresence.Required) }
        ensures negation { result ≡ not (may_be_absent self.now.presence) }
    {
        !self.is_optional_or_default()
    }
}
