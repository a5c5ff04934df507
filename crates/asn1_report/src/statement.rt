//! The statements that lines make.
ghost use Rattle.std.specs.Prelude.{◌≡◌, IfOk, option_and_then, option_map};
ghost use Rattle.asn1_clash.specs.Flat.{flat};
ghost use Rattle.asn1_clash.specs.Views.{tree_view};
ghost use Rattle.asn1_report.specs.Flattened.{IsParsedAs};
ghost use Rattle.asn1_report.specs.Grammar.{deepest, presence_of, tree_of};
ghost use Rattle.asn1_report.specs.Views.{parts_view};
ghost use Rattle.asn1_report.specs.Statements.{component_statement, statement_inside, statement_on_name, statement_outside, statement_of};

use crate::bound::read_bounds;
use crate::names::is_name;
use crate::parts::Parts;
use crate::table_kind::TableKind;
use crate::tree::read_whole_tree;
use asn1_clash::{FlatComponent, FlatTree};
use asn1_fields::FieldPresence;
use asn1_ranges::Bounded;
use std::alloc::{AllocError, Global};
use std::mem;

/// The statement that a line makes.
#[derive(Drop)]
pub(crate) enum Statement<'a> {
    /// Nothing: the line is empty.
    SaysNothing,
    /// A name is that of a tree.
    NamesTree {
        name: &'a [u8],
        tree: FlatTree,
    },
    /// A name is that of the intersection of two bounds.
    NamesBounds {
        name: &'a [u8],
        first: Bounded<i128>,
        second: Bounded<i128>,
    },
    /// A table of this kind and name begins.
    BeginsTable {
        kind: TableKind,
        name: &'a [u8],
    },
    /// The table has this component after the others.
    AddsComponent(FlatComponent),
    /// The table ends.
    EndsTable,
}

/// Parses lines, and keeps the allocation for the leaves of a tree from one line to the next.
#[derive(Drop)]
pub(crate) struct StatementParser {
    alloc: Global,
    spare: FlatTree,
}

impl StatementParser {
    pub(crate) fn new(alloc: Global) -> StatementParser {
        StatementParser {
            alloc,
            spare: FlatTree::new(alloc),
        }
    }

    /// Takes over the allocation of a tree that nothing needs any more.
    pub(crate) fn reuse(&mut self, tree: FlatTree) {
        self.spare = tree;
    }

    /// The statement of a line, inside a table or outside of tables. The answer is `None` if the line is too long or is not
    /// understood there, and an error if memory runs out.
    pub(crate) fn parse<'a>(
        &mut self,
        line: Option<&'a [u8]>,
        in_table: bool,
    ) -> Result<Option<Statement<'a>>, AllocError>
        ensures parsed { IfOk result
            (IsParsedAs (statement_of in_table (option_map (λ bytes. bytes.now) line.entry))) }
    {
        let Some(bytes) = line else {
            return Ok(None);
        };
        if bytes.is_empty() {
            Ok(Some(Statement::SaysNothing))
        } else if in_table {
            self.parse_inside(Parts::of(bytes))
        } else {
            self.parse_outside(Parts::of(bytes))
        }
    }

    // The statement of a line of these parts outside of tables.
    fn parse_outside<'a>(&mut self, parts: Parts<'a>) -> Result<Option<Statement<'a>>, AllocError>
        ensures parsed { IfOk result (IsParsedAs (statement_outside (parts_view parts.entry))) }
    {
        match parts {
            Parts::Two(word, name) if is_name(name) => {
                Ok(TableKind::from_word(word).map(|kind| Statement::BeginsTable { kind, name }))
            }
            Parts::Three(word, name, text) if is_name(name) => self.parse_named(word, name, text),
            _ => Ok(None),
        }
    }

    // The statement on a name: `tree`, the name and a tree, or `bound`, the name and two bounds.
    fn parse_named<'a>(
        &mut self,
        word: &[u8],
        name: &'a [u8],
        text: &[u8],
    ) -> Result<Option<Statement<'a>>, AllocError>
        ensures parsed { IfOk result (IsParsedAs (statement_on_name word.now name.now text.now)) }
    {
        if word == b"tree".as_slice() {
            let tree = self.parse_tree(text)?;
            Ok(tree.map(|tree| Statement::NamesTree { name, tree }))
        } else if word == b"bound".as_slice() {
            let bounds = read_bounds(text);
            Ok(bounds.map(|(first, second)| Statement::NamesBounds {
                name,
                first,
                second,
            }))
        } else {
            Ok(None)
        }
    }

    // The statement of a line of these parts inside a table.
    fn parse_inside<'a>(&mut self, parts: Parts<'a>) -> Result<Option<Statement<'a>>, AllocError>
        ensures parsed { IfOk result (IsParsedAs (statement_inside (parts_view parts.entry))) }
    {
        match parts {
            Parts::One(word) if word == b"end".as_slice() => Ok(Some(Statement::EndsTable)),
            Parts::Three(name, word, text) if is_name(name) => self.parse_component(word, text),
            _ => Ok(None),
        }
    }

    // The statement that the table has a component: a presence's word and a tree.
    fn parse_component<'a>(
        &mut self,
        word: &[u8],
        text: &[u8],
    ) -> Result<Option<Statement<'a>>, AllocError>
        ensures parsed { IfOk result
            (IsParsedAs (option_and_then (λ presence. component_statement presence text.now)
            (presence_of word.now))) }
    {
        let Some(presence) = presence_of(word) else {
            return Ok(None);
        };
        let tree = self.parse_tree(text)?;
        Ok(tree.map(|tree| Statement::AddsComponent(FlatComponent { presence, tree })))
    }

    // The tree of the text, if it is one.
    fn parse_tree(&mut self, text: &[u8]) -> Result<Option<FlatTree>, AllocError>
        ensures read { IfOk result
            (λ tree. option_map tree_view tree ≡ option_map flat (tree_of deepest text.now)) }
    {
        self.spare.clear();
        if read_whole_tree(text, &mut self.spare)? {
            let spare = FlatTree::new(self.alloc);
            Ok(Some(mem::replace(&mut self.spare, spare)))
        } else {
            Ok(None)
        }
    }
}

// The presence that the word names.
fn presence_of(word: &[u8]) -> Option<FieldPresence>
    ensures named { result ≡ presence_of word.now }
{
    if word == b"required".as_slice() {
        Some(FieldPresence::Required)
    } else if word == b"optional".as_slice() {
        Some(FieldPresence::Optional)
    } else if word == b"default".as_slice() {
        Some(FieldPresence::Default)
    } else {
        None
    }
}
