//! Trees of tags, flattened.
ghost use Rattle.std.specs.Prelude.{◌≡◌, [], false, fold, IfOk, OnOk};
ghost use Rattle.asn1_tags.specs.Tags.{lesser, smallest};
ghost use Rattle.asn1_tags.specs.Trees.{leaf, leaves, choice, none, is_open, shape};
ghost use Rattle.asn1_clash.specs.Flat.{flat};

use asn1_tags::{Class, Tag, TagTree, Variants};
use std::alloc::{AllocError, Global};
use std::slice;

/// A tree of tags as the rules on distinct tags look at it: its leaves from left to right, and whether a choice of nothing
/// is anywhere in it.
#[derive(Drop)]
pub struct FlatTree {
    /// The leaves, from left to right.
    pub tags: Vec<Tag>,
    /// Whether a choice of nothing is in the tree, so that it represents every tag.
    pub has_empty_choice: bool,
}

impl FlatTree {
    ghost use Rattle.asn1_clash.specs.Views.{Adds, tree_view};

    /// A tree of no leaves. Takes no memory.
    pub fn new(alloc: Global) -> FlatTree
        ensures tags { result.tags.items ≡ [] }
        ensures empty_choice { result.has_empty_choice ≡ false }
    {
        FlatTree {
            tags: Vec::new(alloc),
            has_empty_choice: false,
        }
    }

    /// The tree, flattened.
    pub fn of(alloc: Global, tree: &TagTree<'_>) -> Result<FlatTree, AllocError>
        ensures tags { IfOk result (λ seen. seen.tags.items ≡ leaves (shape tree.now)) }
        ensures empty_choice { IfOk result (λ seen. seen.has_empty_choice ≡
            is_open (shape tree.now)) }
        ensures flattened { IfOk result (λ seen. tree_view seen ≡ flat (shape tree.now)) }
    {
        let leaves = Variants::new(alloc, slice::from_ref(tree))?;
        Ok(FlatTree {
            tags: Vec::from_slice(alloc, leaves.as_slice())?,
            has_empty_choice: tree.has_empty_choice(),
        })
    }

    /// Takes all leaves out, and every choice of nothing. The room for leaves stays.
    pub fn clear(&mut self)
        ensures tags { self.new.tags.items ≡ [] }
        ensures empty_choice { self.new.has_empty_choice ≡ false }
    {
        self.tags.clear();
        self.has_empty_choice = false;
    }

    /// Adds a leaf after the others.
    pub fn push(&mut self, tag: Tag) -> Result<(), AllocError>
        ensures { OnOk result (Adds self.old self.new (leaf tag)) }
    {
        self.tags.push(tag)?;
        Ok(())
    }

    /// Adds a choice of nothing, which has no leaf.
    pub fn add_empty_choice(&mut self)
        ensures { Adds self.old self.new (choice none) }
    {
        self.has_empty_choice = true;
    }

    /// Whether the tree represents every tag: a choice of nothing is in it, or it has no leaf.
    pub fn is_open(&self) -> bool
        ensures { result ≡ is_open (tree_view self.now) }
    {
        self.has_empty_choice || self.tags.as_slice().is_empty()
    }

    /// The smallest leaf, and the greatest tag of all where there is none (as `TagTree::smallest_tag`).
    pub fn smallest_tag(&self) -> Tag
        ensures { result ≡ smallest self.now.tags.items }
    {
        match self.tags.as_slice() {
            [] => GREATEST,
            [first, others @ ..] => smallest_of(*first, others),
        }
    }
}

/// The greatest tag of all, which serves as the smallest of no tags.
pub(crate) const GREATEST: Tag = Tag {
    class: Class::Private,
    value: u32::MAX,
};

// The smallest of the tag and the others.
fn smallest_of(first: Tag, others: &[Tag]) -> Tag
    ensures { result ≡ fold lesser first others.now }
{
    let mut smallest = first;
    for tag in others {
        smallest = lesser(smallest, *tag);
    }
    smallest
}

// The lesser of two tags.
fn lesser(first: Tag, second: Tag) -> Tag
    ensures { result ≡ lesser first second }
{
    if second.const_less_than(first) {
        second
    } else {
        first
    }
}
