//! The summary of a tree of tags.
ghost use Rattle.std.specs.Prelude.{◌≡◌, ◌↔◌, IsTrue, length};
ghost use Rattle.std.specs.List.Sorted.{IsPermutation};
ghost use Rattle.std.specs.declared.cmp.Ordering.TheVariants.{Less};
ghost use Rattle.asn1_tags.specs.Tags.{distinct, smallest, tag_cmp};

use crate::flat_tree::GREATEST;
use asn1_tags::Tag;

/// Whether a tag occurs twice among the leaves of a tree, the smallest leaf, and how many leaves there are.
#[derive(Clone, Copy)]
pub struct TreeSummary {
    /// Whether no tag is at two leaves.
    pub is_unique: bool,
    /// The smallest leaf, and the greatest tag of all where there is none.
    pub smallest_tag: Tag,
    /// The number of leaves.
    pub leaf_count: usize,
}

impl TreeSummary {
    /// The summary of a tree of these leaves, which are sorted for it: they stay the same leaves, in another order.
    pub fn of(leaves: &mut [Tag]) -> TreeSummary
        ensures unique { result.is_unique ≡ distinct leaves.old }
        ensures smallest { result.smallest_tag ≡ smallest leaves.old }
        ensures count { result.leaf_count ≡ length leaves.old }
        ensures same_leaves { IsPermutation leaves.old leaves.new }
    {
        leaves.sort_unstable_by(Tag::const_cmp);
        TreeSummary {
            is_unique: leaves.is_sorted_by(comes_before),
            smallest_tag: leaves.first().copied().unwrap_or(GREATEST),
            leaf_count: leaves.len(),
        }
    }
}

// Whether the first tag comes before the second in the canonical order.
fn comes_before(first: &Tag, second: &Tag) -> bool
    ensures { IsTrue result ↔ (tag_cmp first.now second.now ≡ Less) }
{
    first.const_less_than(*second)
}
