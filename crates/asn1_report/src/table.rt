//! A table whose `end` has not come yet.
ghost use Rattle.std.specs.Prelude.{◌≡◌, ◌++◌, IfOk, OnOk};
ghost use Rattle.asn1_clash.specs.Views.{component_view, components_view};
ghost use Rattle.asn1_report.specs.SchemaTables.{clash_of, has_room, new_table, table_line, table_verdict, unchecked, unchecked_text, with_component};

use crate::table_kind::TableKind;
use crate::texts::write_verdict;
use crate::verdict::TableVerdict;
use asn1_clash::{FlatComponent, find_sequence_clash, find_set_clash, is_canonical};
use std::alloc::{AllocError, Global};

// How many components a table may have.
const MOST_COMPONENTS: usize = 256;

/// A table whose `end` has not come yet.
#[derive(Drop)]
pub(crate) struct Table {
    kind: TableKind,
    name: Vec<u8>,
    components: Vec<FlatComponent>,
    is_understood: bool,
}

impl Table {
    ghost use Rattle.asn1_report.specs.Views.{table_view};

    /// A table that begins.
    pub(crate) fn new(alloc: Global, kind: TableKind, name: &[u8]) -> Result<Table, AllocError>
        ensures begun { IfOk result (λ table. table_view table ≡ new_table kind name.now) }
    {
        Ok(Table {
            kind,
            name: Vec::from_slice(alloc, name)?,
            components: Vec::new(alloc),
            is_understood: true,
        })
    }

    /// Whether the table has room for one more component.
    pub(crate) fn has_room(&self) -> bool
        ensures room { result ≡ has_room (table_view self.now) }
    {
        self.components.len() < MOST_COMPONENTS
    }

    /// Adds a component after the others.
    pub(crate) fn push(&mut self, component: FlatComponent) -> Result<(), AllocError>
        ensures added { OnOk result (table_view self.new
            ≡ with_component (table_view self.old) (component_view component)) }
    {
        self.components.push(component)?;
        Ok(())
    }

    /// Marks the table as one with a line that was not understood.
    pub(crate) fn refuse_line(&mut self)
        ensures refused { table_view self.new ≡ unchecked (table_view self.old) }
    {
        self.is_understood = false;
    }

    /// Writes the text for the table's `end`.
    pub(crate) fn write_end(&self, alloc: Global, text: &mut Vec<u8>) -> Result<(), AllocError>
        ensures verdict { OnOk result
            (text.new.items ≡ text.old.items ++ table_verdict (table_view self.now)) }
    {
        if !self.is_understood {
            return self.write_not_checked(text);
        }
        let verdict = TableVerdict {
            clash: self.first_clash(alloc)?,
            is_canonical: is_canonical(&self.components),
        };
        write_verdict(self.kind.word(), &self.name, verdict, text)
    }

    /// Writes that the table is not checked.
    pub(crate) fn write_not_checked(&self, text: &mut Vec<u8>) -> Result<(), AllocError>
        ensures verdict { OnOk result
            (text.new.items ≡ text.old.items ++ table_line (table_view self.now) unchecked_text) }
    {
        write_verdict(self.kind.word(), &self.name, "not checked", text)
    }

    // The least pair of indices whose components share a tag although X.680 forbids it.
    fn first_clash(&self, alloc: Global) -> Result<Option<(usize, usize)>, AllocError>
        ensures least { IfOk result
            (λ clash. clash ≡ clash_of self.now.kind (components_view self.now.components.items)) }
    {
        match self.kind {
            TableKind::Sequence => find_sequence_clash(alloc, &self.components),
            TableKind::Set => find_set_clash(alloc, &self.components),
        }
    }
}
