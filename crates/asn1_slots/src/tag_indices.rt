//! The index of the alternative that can begin with a tag.
ghost use Rattle.asn1_components.specs.Alternatives.{all_of, trees_of};
ghost use Rattle.asn1_slots.specs.TagIndices.{BeginsAt, IsIndexOf};
ghost use Rattle.asn1_tags.specs.Trees.{leaves_of, shapes};
ghost use Rattle.asn1_tags.specs.declared.tags.Tag.{Tag};
ghost use Rattle.std.specs.Option.{SomeIff};
ghost use Rattle.std.specs.Prelude.{◌≡◌, ◌<◌, ◌^◌, ◌∷◌, [], IfOk, MatchOption, Some, length, slice_get};

use asn1_components::ChoiceType;
use asn1_model::TreeForm;
use asn1_tags::{Tag, TagTree, Variants, VariantsError};
use std::alloc::{AllocError, Global};
use std::slice;

/// The index of the first tree that has the tag as a leaf.
#[inline(always)]
fn first_with_leaf(trees: &[TagTree<'static>], tag: Tag) -> Option<usize>
    ensures { IsIndexOf tag (shapes trees.now) result }
{
    for index in 0..trees.len() {
        if TagTree::tag_contains(&tag, slice::from_ref(&trees[index])) {
            return Some(index);
        }
    }
    None
}

/// The index of the tree that has the leaf at this position of all leaves.
fn index_of_leaf(trees: &[TagTree<'static>], position: usize) -> Option<usize>
    ensures { (t : Tag) → slice_get (leaves_of (shapes trees.now)) position ≡ Some t →
        MatchOption result ⊥ (λ k. BeginsAt (shapes trees.now) k t) }
{
    let mut left = position;
    for index in 0..trees.len() {
        match leaf_number(&trees[index]) {
            Some(count) => {
                if left < count {
                    return Some(index);
                }
                left -= count;
            }
            None => return Some(index),
        }
    }
    None
}

/// How many leaves the tree has, if the number fits.
#[inline(always)]
#[tactic(auto, using(asn1_tags::proofs::Leaves::tree_shapes))]
fn leaf_number(tree: &TagTree<'static>) -> Option<usize>
    ensures { let number = length (leaves_of (shapes (tree.now ∷ []))) in
        SomeIff result (number < 2 ^ 64) number }
{
    match tree {
        TagTree::Leaf(_) => Some(1),
        TagTree::Choice(_) => TagTree::leaf_count(slice::from_ref(tree)),
    }
}

/// The leaves of the trees with this table, or with none where it does not fit.
#[inline(always)]
fn variants_with(
    alloc: Global,
    trees: &[TagTree<'static>],
    table: &[(Tag, usize)],
) -> Result<Variants, AllocError>
    ensures { IfOk result (λ variants. variants.tags ≡ leaves_of (shapes trees.now)) }
{
    match Variants::with_table(alloc, trees, Vec::from_slice(alloc, table)?) {
        Ok(variants) => Ok(variants),
        Err(VariantsError::Memory) => Err(AllocError),
        Err(VariantsError::TableMismatch(_)) => Variants::new(alloc, trees),
    }
}

/// The index of a tree that has the tag as a leaf, which is looked for in a table of the leaves.
#[inline(always)]
fn find_in_table(
    alloc: Global,
    trees: &[TagTree<'static>],
    table: &[(Tag, usize)],
    tag: Tag,
) -> Result<Option<usize>, AllocError>
    ensures { IfOk result (λ index. IsIndexOf tag (shapes trees.now) index) }
{
    let variants = variants_with(alloc, trees, table)?;
    match variants.position_of(&tag) {
        Some(position) => Ok(index_of_leaf(trees, position)),
        None => Ok(None),
    }
}

/// The index of the alternative that can begin with the tag, in the order of the definition.
#[inline(always)]
pub fn index_of_tag<T: ChoiceType>(tag: Tag) -> Option<usize>
    ensures { IsIndexOf tag (trees_of (all_of T.alternatives)) result }
{
    match T::table().tree {
        TreeForm::Choice(trees) => first_with_leaf(trees, tag),
        TreeForm::Leaf => None,
        TreeForm::Open => None,
    }
}

/// The same, where the tag is looked for in a table of the leaves of all alternatives.
pub(crate) fn index_in_table<T: ChoiceType>(
    alloc: Global,
    table: &[(Tag, usize)],
    tag: Tag,
) -> Result<Option<usize>, AllocError>
    ensures { IfOk result (λ index. IsIndexOf tag (trees_of (all_of T.alternatives)) index) }
{
    match T::table().tree {
        TreeForm::Choice(trees) => find_in_table(alloc, trees, table, tag),
        TreeForm::Leaf => Ok(None),
        TreeForm::Open => Ok(None),
    }
}
