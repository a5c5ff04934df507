//! Whether a value can begin with a tag.
ghost use Rattle.asn1_model.specs.Tags.{Has, tree_tags};
ghost use Rattle.asn1_tags.specs.Trees.{shape};
ghost use Rattle.std.specs.Prelude.{◌↔◌, IsTrue};

use asn1_tags::{Tag, TagTree};

/// Whether a value of a type with this tree can begin with the tag: the tag is a leaf of the tree, or a choice of nothing is in the
/// tree, as in that of an open type, which can begin with any tag (X.680, 25.6.2).
#[inline(always)]
pub fn can_begin_with(tree: TagTree<'static>, tag: Tag) -> bool
    ensures { IsTrue result ↔ Has (tree_tags (shape tree.entry)) tag }
{
    tree.can_begin_with(&tag)
}
