//! The walks that number the leaves of trees from left to right.
#![tactic(auto, using(crate::proofs::Leaves::tree_shapes, crate::proofs::Positions::steps))]

ghost use Rattle.std.specs.Prelude.{◌<◌, ◌^◌, length};
ghost use Rattle.asn1_tags.specs.Walks.{IsFirstIndexOf, IsTagAfter};
ghost use Rattle.asn1_tags.specs.Trees.{leaves, leaves_of, shape, shapes};

use crate::tags::Tag;
use crate::trees::TagTree;

// The index of the first leaf of the tree that is the tag, or how many leaves there are.
#[cycle(find)]
fn first_index_in(tree: &TagTree<'_>, tag: &Tag) -> Result<usize, usize>
    ensures { length (leaves (shape tree.now)) < 2 ^ 64 →
        IsFirstIndexOf tag.now (leaves (shape tree.now)) result }
{
    match tree {
        TagTree::Leaf(leaf) => { if leaf.const_eq(tag) { Ok(0) } else { Err(1) } }
        TagTree::Choice(nodes) => first_index(nodes, tag),
    }
}

// The index of the first leaf of the trees that is the tag, or how many leaves there are.
#[cycle(find)]
pub(crate) fn first_index(nodes: &[TagTree<'_>], tag: &Tag) -> Result<usize, usize>
    ensures { length (leaves_of (shapes nodes.now)) < 2 ^ 64 →
        IsFirstIndexOf tag.now (leaves_of (shapes nodes.now)) result }
{
    let mut passed: usize = 0;
    for node in nodes {
        match first_index_in(node, tag) {
            Ok(index) => return Ok(passed.saturating_add(index)),
            Err(count) => passed = passed.saturating_add(count),
        }
    }
    Err(passed)
}

// The leaf of the tree after `skipped` others, or how many more there would have to be.
#[cycle(after)]
fn leaf_in(tree: &TagTree<'_>, skipped: usize) -> Result<Tag, usize>
    ensures { IsTagAfter (leaves (shape tree.now)) skipped result }
{
    match tree {
        TagTree::Leaf(leaf) => match skipped.checked_sub(1) {
            None => Ok(*leaf),
            Some(left) => Err(left),
        },
        TagTree::Choice(nodes) => leaf_after(nodes, skipped),
    }
}

// The leaf of the trees after `skipped` others, or how many more there would have to be.
#[cycle(after)]
pub(crate) fn leaf_after(nodes: &[TagTree<'_>], skipped: usize) -> Result<Tag, usize>
    ensures { IsTagAfter (leaves_of (shapes nodes.now)) skipped result }
{
    let mut left = skipped;
    for node in nodes {
        match leaf_in(node, left) {
            Ok(tag) => return Ok(tag),
            Err(more) => left = more,
        }
    }
    Err(left)
}
