//! The leaves of trees, as a list with a table or none.
#![tactic(auto, using(crate::proofs::Leaves::tree_shapes, crate::proofs::Leaves::flat_steps))]

ghost use Rattle.std.specs.Prelude.{◌≡◌, ◌≢◌, ◌<◌, ◌≤◌, ◌++◌, ℕ, [], length, IsSome, IfOk, OnOk, IsOkUnless, IsErrOf, Some, None};
ghost use Rattle.asn1_tags.specs.TagTables.{FailsFirstAt, TableFits, binary_digits};
ghost use Rattle.asn1_tags.specs.Tags.{position_of};
ghost use Rattle.asn1_tags.specs.Trees.{leaves, leaves_of, shape, shapes};

use crate::error::VariantsError;
use crate::tags::Tag;
use crate::trees::TagTree;
use crate::{searches, tables};
use std::alloc::{AllocError, Global};
use std::marker::Model;

/// The leaves of trees in one list, from left to right, and beside it a table for quick look-ups, or none.
///
/// A table has an entry for each tag of the list: the tag and its position. The entries ascend by
/// tag, and by position where a tag is at several indices. A constructor walks the trees once.
#[derive(Debug, Drop)]
pub struct Variants {
    tags: Vec<Tag>,
    table: Option<Vec<(Tag, usize)>>,
}

impl Model for Variants {
    ghost use Rattle.std.specs.Prelude.{option_map};
    ghost use Rattle.asn1_tags.specs.TagTables.{TagList, TableFitsIfAny};

    ghost Value = { TagList };

    ghost view = { λ variants. record { tags = variants.tags.items; table = option_map (λ table. table.items) variants.table } };

    ghost invariant = { λ variants. TableFitsIfAny (record { tags = variants.tags.items; table = option_map (λ table. table.items) variants.table }) };
}

impl Variants {
    /// The leaves of the trees, and no table.
    ///
    /// Fails only if the allocator refuses room for a leaf.
    pub fn new(alloc: Global, nodes: &[TagTree<'_>]) -> Result<Self, AllocError>
        ensures list { IfOk result (λ variants. variants.tags ≡ leaves_of (shapes nodes.now)) }
        ensures table { IfOk result (λ variants. variants.table ≡ None) }
    {
        Ok(Variants {
            tags: flatten(alloc, nodes)?,
            table: None,
        })
    }

    /// The leaves of trees that are constants, and no table.
    ///
    /// Fails only if the allocator refuses room for a leaf.
    pub fn from_static(
        alloc: Global,
        nodes: &'static [TagTree<'static>],
    ) -> Result<Self, AllocError>
        ensures list { IfOk result (λ variants. variants.tags ≡ leaves_of (shapes nodes.now)) }
        ensures table { IfOk result (λ variants. variants.table ≡ None) }
    {
        Variants::from_slice(alloc, nodes)
    }

    /// The leaves of trees that are borrowed, and no table.
    ///
    /// Fails only if the allocator refuses room for a leaf.
    pub fn from_slice(alloc: Global, nodes: &[TagTree<'_>]) -> Result<Self, AllocError>
        ensures list { IfOk result (λ variants. variants.tags ≡ leaves_of (shapes nodes.now)) }
        ensures table { IfOk result (λ variants. variants.table ≡ None) }
    {
        Variants::new(alloc, nodes)
    }

    /// The leaves of the trees, and this table, which is checked.
    ///
    /// A table fits if it has as many entries as there are leaves, each entry's position is in the
    /// list and has the entry's tag, and the entries ascend strictly by tag, then by position.
    /// Answers `VariantsError::Memory` where the allocator refuses room for a leaf, before the table
    /// is looked at, and `VariantsError::TableMismatch` if and only if the table does not fit.
    pub fn with_table(
        alloc: Global,
        nodes: &[TagTree<'_>],
        table: Vec<(Tag, usize)>,
    ) -> Result<Self, VariantsError>
        ensures list { IfOk result (λ variants. variants.tags ≡ leaves_of (shapes nodes.now)) }
        ensures table { IfOk result (λ variants. variants.table ≡ Some table.items) }
        ensures fits { IfOk result (λ _. TableFits (leaves_of (shapes nodes.now)) table.items) }
        ensures fitting { TableFits (leaves_of (shapes nodes.now)) table.items →
            IsOkUnless result VariantsError.Memory }
        ensures mismatch { (index : ℕ) → IsErrOf result (VariantsError.TableMismatch index) →
            FailsFirstAt (leaves_of (shapes nodes.now)) table.items index }
    {
        let tags = flatten(alloc, nodes)?;
        match tables::first_mismatch(&tags, &table) {
            Some(index) => Err(VariantsError::TableMismatch(index)),
            None => Ok(Variants {
                tags,
                table: Some(table),
            }),
        }
    }

    /// No leaves, and no table. Takes no memory.
    pub fn empty(alloc: Global) -> Self
        ensures list { result.tags ≡ [] }
        ensures table { result.table ≡ None }
    {
        Variants {
            tags: Vec::new(alloc),
            table: None,
        }
    }

    /// The tags, from left to right.
    pub fn as_slice(&self) -> &[Tag]
        ensures { result.now ≡ self.now.tags }
    {
        &self.tags
    }

    /// The first index of the tag in the list, and `None` if it is not in it.
    pub fn position_of(&self, tag: &Tag) -> Option<usize>
        ensures { result ≡ position_of tag.now self.now.tags }
    {
        self.find_counted(tag).0
    }

    /// The first index of the tag in the list, and how often two tags were compared to find it.
    ///
    /// With a table, each comparison halves the entries that are left; without one, the list is
    /// searched from the left.
    #[tactic(auto, using(crate::proofs::Searching::searches))]
    pub fn find_counted(&self, tag: &Tag) -> (Option<usize>, usize)
        ensures index { result.0 ≡ position_of tag.now self.now.tags }
        ensures comparisons { IsSome self.now.table → result.1 ≤ binary_digits (length self.now.tags) }
        ensures at_most_all { result.1 ≤ length self.now.tags }
        ensures some { self.now.tags ≢ [] → 1 ≤ result.1 }
    {
        match &self.table {
            Some(table) => searches::find_in_table(table, tag),
            None => searches::find_in_list(&self.tags, tag),
        }
    }

    /// The same list and the same table once more.
    ///
    /// Fails only if the allocator refuses room for them.
    pub fn try_clone(&self, alloc: Global) -> Result<Self, AllocError>
        ensures list { IfOk result (λ variants. variants.tags ≡ self.now.tags) }
        ensures table { IfOk result (λ variants. variants.table ≡ self.now.table) }
    {
        let tags = Vec::from_slice(alloc, &self.tags)?;
        let table = match &self.table {
            Some(table) => Some(Vec::from_slice(alloc, table)?),
            None => None,
        };
        Ok(Variants { tags, table })
    }
}

// The leaves of the trees.
fn flatten(alloc: Global, nodes: &[TagTree<'_>]) -> Result<Vec<Tag>, AllocError>
    ensures { IfOk result (λ tags. tags.items ≡ leaves_of (shapes nodes.now)) }
{
    let mut tags = Vec::new(alloc);
    push_all(&mut tags, nodes)?;
    Ok(tags)
}

// Pushes the leaves of the tree.
#[cycle(push)]
#[inline(always)]
fn push_leaves(tags: &mut Vec<Tag>, tree: &TagTree<'_>) -> Result<(), AllocError>
    ensures { OnOk result (tags.new.items ≡ tags.old.items ++ leaves (shape tree.now)) }
{
    match tree {
        TagTree::Leaf(tag) => Ok(tags.push(*tag)?),
        TagTree::Choice(nodes) => push_all(tags, nodes),
    }
}

// Pushes the leaves of the trees, one tree after another.
#[cycle(push)]
fn push_all(tags: &mut Vec<Tag>, nodes: &[TagTree<'_>]) -> Result<(), AllocError>
    ensures { OnOk result (tags.new.items ≡ tags.old.items ++ leaves_of (shapes nodes.now)) }
{
    for node in nodes {
        push_leaves(tags, node)?;
    }
    Ok(())
}
