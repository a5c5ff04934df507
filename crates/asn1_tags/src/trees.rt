//! Trees of tags.
ghost use Rattle.std.specs.Prelude.{◌≡◌, ◌≢◌, ◌↔◌, ◌<◌, ◌^◌, IsTrue, false, length, AllPairs, Contains, IfSome, Some, slice_get};
ghost use Rattle.std.specs.Option.{SomeIff};
ghost use Rattle.asn1_tags.specs.Tags.{HaveCommonTag, IsSmallest, position_of};
ghost use Rattle.asn1_tags.specs.Trees.{choice, is_open, leaves, leaves_of, none, shape, shapes};

use crate::classes::Class;
use crate::tags::Tag;
use crate::{leaf_positions, walks};
use std::{fmt, slice};

/// The tags with which an encoding of a type can begin.
///
/// A type with a tag of its own is a leaf. An untagged CHOICE has none, and is the trees of its
/// alternatives. A tree borrows its branches, and is copied as a tag is.
#[derive(Clone, Copy)]
pub enum TagTree<'a> {
    /// The one tag of a type.
    Leaf(Tag),
    /// The trees of a CHOICE's alternatives.
    Choice(&'a [TagTree<'a>]),
}

impl TagTree<'_> {
    /// A choice of nothing, the tree of a type that can begin with any tag.
    pub fn empty() -> TagTree<'static>
        ensures { shape result ≡ choice none }
    {
        TagTree::Choice(&[])
    }

    /// The smallest leaf in the canonical order of tags, and `Private 4294967295` if there is no leaf.
    pub fn smallest_tag(&self) -> Tag
        ensures { IsSmallest (leaves (shape self.now)) result }
    {
        walks::smallest_leaf(self).unwrap_or(Tag::new(Class::Private, u32::MAX))
    }

    /// Whether no tag is at two leaves of the tree.
    #[tactic(auto, using(crate::proofs::TagListTests::tag_tests))]
    pub fn is_unique(&self) -> bool
        ensures { IsTrue result ↔ AllPairs (λ s t. s ≢ t) (leaves (shape self.now)) }
    {
        walks::has_distinct_leaves(self)
    }

    /// Whether no tag is at two leaves of the trees, taken together.
    #[tactic(auto, using(crate::proofs::TagListTests::tag_tests))]
    pub fn is_unique_set(nodes: &[TagTree<'_>]) -> bool
        ensures { IsTrue result ↔ AllPairs (λ s t. s ≢ t) (leaves_of (shapes nodes.now)) }
    {
        walks::have_distinct_leaves(nodes)
    }

    /// Whether the tag is a leaf of one of the trees.
    #[tactic(auto, using(crate::proofs::TagListTests::tag_tests))]
    pub fn tag_contains(tag: &Tag, nodes: &[TagTree<'_>]) -> bool
        ensures { IsTrue result ↔ Contains (leaves_of (shapes nodes.now)) tag.now }
    {
        walks::have_leaf(nodes, tag)
    }

    /// Whether a choice of nothing is anywhere in the tree. A type of such a tree can begin with any tag.
    pub fn has_empty_choice(&self) -> bool
        ensures { result ≡ is_open (shape self.now) }
    {
        walks::has_empty_choice(self)
    }

    /// Whether a value of a type with the tree can begin with the tag: the tag is a leaf, or a choice of nothing is anywhere in the
    /// tree.
    #[inline(always)]
    pub fn can_begin_with(&self, tag: &Tag) -> bool
        ensures { IsTrue result ↔
            (is_open (shape self.now) ≡ false → Contains (leaves (shape self.now)) tag.now) }
    {
        walks::begins_with(self, tag)
    }

    /// Whether some tag is a leaf of both trees.
    #[tactic(auto, using(crate::proofs::TagListTests::common_tags, crate::proofs::Leaves::alone))]
    pub fn shares_leaf(&self, other: &TagTree<'_>) -> bool
        ensures { IsTrue result ↔
            HaveCommonTag (leaves (shape self.now)) (leaves (shape other.now)) }
    {
        walks::shares_leaf(self, slice::from_ref(other))
    }

    /// How many leaves the trees have together, and `None` if the number does not fit.
    pub fn leaf_count(nodes: &[TagTree<'_>]) -> Option<usize>
        ensures { let count = length (leaves_of (shapes nodes.now)) in
            SomeIff result (count < 2 ^ 64) count }
    {
        walks::leaf_count(nodes)
    }

    /// The index of the first leaf that is the tag, counted from the left, and `None` if none is.
    #[tactic(auto, using(crate::proofs::Positions::leaf_positions))]
    pub fn leaf_position(tag: &Tag, nodes: &[TagTree<'_>]) -> Option<usize>
        requires { length (leaves_of (shapes nodes.now)) < 2 ^ 64 }
        ensures first { result ≡ position_of tag.now (leaves_of (shapes nodes.now)) }
        ensures back { IfSome result (λ index. slice_get (leaves_of (shapes nodes.now)) index ≡
            Some tag.now) }
    {
        leaf_positions::first_index(nodes, tag).ok()
    }

    /// The leaf at an index, counted from the left, and `None` past the last leaf.
    #[tactic(auto, using(crate::proofs::Positions::leaf_positions))]
    pub fn leaf_at(nodes: &[TagTree<'_>], index: usize) -> Option<Tag>
        requires { length (leaves_of (shapes nodes.now)) < 2 ^ 64 }
        ensures leaf { result ≡ slice_get (leaves_of (shapes nodes.now)) index }

        // If each tag occurs once, the index of the leaf is the index that was asked for.
        ensures back { let tags = leaves_of (shapes nodes.now) in AllPairs (λ s t. s ≢ t) tags →
            IfSome result (λ tag. position_of tag tags ≡ Some index) }
    {
        leaf_positions::leaf_after(nodes, index).ok()
    }
}

impl fmt::Debug for TagTree<'_> {
    fn fmt<W: fmt::Write>(&self, f: &mut fmt::Formatter<W>) -> fmt::Result {
        match self {
            TagTree::Leaf(tag) => write!(f, "{tag}"),
            TagTree::Choice(nodes) => {
                f.write_str("(")?;
                for (i, node) in nodes.iter().enumerate() {
                    if i > 0 {
                        f.write_str(", ")?;
                    }
                    write!(f, "{node:?}")?;
                }
                f.write_str(")")
            }
        }
    }
}
