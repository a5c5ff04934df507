//! The walks over the leaves of trees. Each is a pair of functions, for one tree and for several.
#![tactic(auto, using(crate::proofs::Leaves::walks))]

ghost use Rattle.std.specs.Prelude.{◌≡◌, ◌<◌, ◌^◌, length};
ghost use Rattle.std.specs.Option.{SomeIff};
ghost use Rattle.asn1_tags.specs.Tags.{distinct, has};
ghost use Rattle.asn1_tags.specs.Walks.{IsSmallestIfAny, any_begins_with, begins_with, lesser_of, have_common_tag};
ghost use Rattle.asn1_tags.specs.Trees.{is_any_open, is_open, leaves, leaves_of, shape, shapes};

use crate::tags::Tag;
use crate::trees::TagTree;

// Whether the tag is a leaf of the tree.
#[cycle(contains)]
#[inline(always)]
fn has_leaf(tree: &TagTree<'_>, tag: &Tag) -> bool
    ensures { result ≡ has tag.now (leaves (shape tree.now)) }
{
    match tree {
        TagTree::Leaf(leaf) => leaf.const_eq(tag),
        TagTree::Choice(nodes) => have_leaf(nodes, tag),
    }
}

// Whether the tag is a leaf of one of the trees.
#[cycle(contains)]
pub(crate) fn have_leaf(nodes: &[TagTree<'_>], tag: &Tag) -> bool
    ensures { result ≡ has tag.now (leaves_of (shapes nodes.now)) }
{
    for node in nodes {
        if has_leaf(node, tag) {
            return true;
        }
    }
    false
}

// Whether what has the tree can begin with the tag: it is a leaf, or a choice of nothing is anywhere in the tree.
#[cycle(begin)]
#[inline(always)]
#[tactic(auto, using(crate::proofs::Leaves::beginnings))]
pub(crate) fn begins_with(tree: &TagTree<'_>, tag: &Tag) -> bool
    ensures { result ≡ begins_with tag.now (shape tree.now) }
{
    match tree {
        TagTree::Leaf(leaf) => leaf.const_eq(tag),
        TagTree::Choice(nodes) => nodes.is_empty() || any_begins_with(nodes, tag),
    }
}

// Whether what has one of the trees can begin with the tag.
#[cycle(begin)]
#[tactic(auto, using(crate::proofs::Leaves::beginnings))]
fn any_begins_with(nodes: &[TagTree<'_>], tag: &Tag) -> bool
    ensures { result ≡ any_begins_with tag.now (shapes nodes.now) }
{
    for node in nodes {
        if begins_with(node, tag) {
            return true;
        }
    }
    false
}

// How many leaves the tree has, if the number fits.
#[cycle(count)]
#[inline(always)]
fn leaf_count_of(tree: &TagTree<'_>) -> Option<usize>
    ensures { let number = length (leaves (shape tree.now)) in
        SomeIff result (number < 2 ^ 64) number }
{
    match tree {
        TagTree::Leaf(_) => Some(1),
        TagTree::Choice(nodes) => leaf_count(nodes),
    }
}

// How many leaves the trees have together, if the number fits.
#[cycle(count)]
pub(crate) fn leaf_count(nodes: &[TagTree<'_>]) -> Option<usize>
    ensures { let number = length (leaves_of (shapes nodes.now)) in
        SomeIff result (number < 2 ^ 64) number }
{
    let mut count: usize = 0;
    for node in nodes {
        count = count.checked_add(leaf_count_of(node)?)?;
    }
    Some(count)
}

// The smallest leaf of the tree, if it has any.
#[cycle(smallest)]
pub(crate) fn smallest_leaf(tree: &TagTree<'_>) -> Option<Tag>
    ensures { IsSmallestIfAny (leaves (shape tree.now)) result }
{
    match tree {
        TagTree::Leaf(leaf) => Some(*leaf),
        TagTree::Choice(nodes) => smallest_of(nodes),
    }
}

// The smallest leaf of the trees together, if they have any.
#[cycle(smallest)]
fn smallest_of(nodes: &[TagTree<'_>]) -> Option<Tag>
    ensures { IsSmallestIfAny (leaves_of (shapes nodes.now)) result }
{
    let mut smallest = None;
    for node in nodes {
        smallest = lesser(smallest, smallest_leaf(node));
    }
    smallest
}

// The lesser of two tags, or the one that is there.
fn lesser(first: Option<Tag>, second: Option<Tag>) -> Option<Tag>
    ensures { result ≡ lesser_of first second }
{
    match (first, second) {
        (Some(a), Some(b)) => Some(if b.const_less_than(a) { b } else { a }),
        (Some(a), None) => Some(a),
        (None, second) => second,
    }
}

// Whether a choice of nothing is anywhere in the tree.
#[cycle(open)]
#[tactic(auto, using(crate::proofs::Leaves::openings))]
pub(crate) fn has_empty_choice(tree: &TagTree<'_>) -> bool
    ensures { result ≡ is_open (shape tree.now) }
{
    match tree {
        TagTree::Leaf(_) => false,
        TagTree::Choice(nodes) => nodes.is_empty() || have_empty_choice(nodes),
    }
}

// Whether a choice of nothing is anywhere in one of the trees.
#[cycle(open)]
#[tactic(auto, using(crate::proofs::Leaves::openings))]
fn have_empty_choice(nodes: &[TagTree<'_>]) -> bool
    ensures { result ≡ is_any_open (shapes nodes.now) }
{
    for node in nodes {
        if has_empty_choice(node) {
            return true;
        }
    }
    false
}

// Whether a leaf of the tree is also a leaf of one of the others.
#[cycle(share)]
pub(crate) fn shares_leaf(tree: &TagTree<'_>, others: &[TagTree<'_>]) -> bool
    ensures { result ≡ have_common_tag (leaves (shape tree.now)) (leaves_of (shapes others.now)) }
{
    match tree {
        TagTree::Leaf(leaf) => have_leaf(others, leaf),
        TagTree::Choice(nodes) => share_leaf(nodes, others),
    }
}

// Whether a leaf of one of the trees is also a leaf of one of the others.
#[cycle(share)]
fn share_leaf(nodes: &[TagTree<'_>], others: &[TagTree<'_>]) -> bool
    ensures { result ≡ have_common_tag (leaves_of (shapes nodes.now)) (leaves_of (shapes others.now)) }
{
    for node in nodes {
        if shares_leaf(node, others) {
            return true;
        }
    }
    false
}

// Whether no tag is at two leaves of the tree.
#[cycle(distinct)]
#[tactic(auto, using(crate::proofs::Leaves::repeats))]
pub(crate) fn has_distinct_leaves(tree: &TagTree<'_>) -> bool
    ensures { result ≡ distinct (leaves (shape tree.now)) }
{
    match tree {
        TagTree::Leaf(_) => true,
        TagTree::Choice(nodes) => have_distinct_leaves(nodes),
    }
}

// Whether no tag is at two leaves of the trees together.
#[cycle(distinct)]
#[tactic(auto, using(crate::proofs::Leaves::repeats))]
pub(crate) fn have_distinct_leaves(nodes: &[TagTree<'_>]) -> bool
    ensures { result ≡ distinct (leaves_of (shapes nodes.now)) }
{
    for i in 0..nodes.len() {
        let node = &nodes[i];
        if !has_distinct_leaves(node) || shares_leaf(node, &nodes[i + 1..]) {
            return false;
        }
    }
    true
}
