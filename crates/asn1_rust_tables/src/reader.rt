//! The call that reads a value of a table.
use crate::clause::append_read_clause;
use crate::definitions::{KeyKind, OpenRow, OpenTable};
use crate::keys::{argument_type, key_code};
use asn1_rust_code::Draft;
use std::alloc::AllocError;

// The columns that a line has behind the indentation of a row.
const ROW_WIDTH: usize = 88;

/// Appends the call that reads a value.
pub(crate) fn append_reader(draft: &mut Draft, table: &OpenTable) -> Result<(), AllocError> {
    let alloc = draft.alloc();
    draft.use_names(&["DecodeError", "Rules"])?;
    draft.use_foreign("asn1_tables", "read_open")?;
    draft.use_foreign("std::alloc", "Global")?;
    let field = table.key_field.as_str();
    let key = table.key_name.as_str();
    let argument = argument_type(table);
    draft.text(format!(in alloc;
        "    /// Reads the octets of a value under this `&{field}`, with at most `depth` nested scopes.
    ///
    /// # Errors
    /// Under the key of a row those of reading its type; under any other key [`DecodeError::Memory`] alone.
    pub fn read<R: Rules<Output = Vec<u8>>>(
        rules: &R,
        alloc: Global,
        {key}: {argument},
        octets: &[u8],
        depth: usize,
    ) -> Result<Self, DecodeError>
"
    )?)?;
    append_read_clause(draft, table)?;
    draft.line(1, "{")?;
    draft.line(2, format!(in alloc; "match {key} {{")?.as_str())?;
    for row in &table.rows {
        append_row(draft, row)?;
    }
    append_other(draft, table)?;
    draft.line(2, "}")?;
    draft.line(1, "}")
}

// Appends the arm of a row. It has no `?`, with which search finds no proof if the type of the row is a list.
fn append_row(draft: &mut Draft, row: &OpenRow) -> Result<(), AllocError> {
    let alloc = draft.alloc();
    let pattern = key_code(draft, &row.key)?;
    let pattern = pattern.as_str();
    let variant = row.name.as_str();
    let line = format!(in alloc; "{pattern} => match read_open(rules, alloc, octets, depth) {{")?;
    if line.len() <= ROW_WIDTH {
        draft.line(3, line.as_str())?;
    } else {
        draft.line(
            3,
            format!(in alloc; "{pattern} => match read_open(")?.as_str(),
        )?;
        draft.line(4, "rules, alloc, octets, depth,")?;
        draft.line(3, ") {")?;
    }
    draft.text(format!(in alloc;
        "                Ok(value) => Ok(Self::{variant}(value)),
                Err(error) => Err(error),
            }},
"
    )?)
}

// Appends the arm of an unknown key.
fn append_other(draft: &mut Draft, table: &OpenTable) -> Result<(), AllocError> {
    let key = table.key_name.as_str();
    draft.line(3, "_ => {")?;
    draft.line(4, "let octets = Any::new(Vec::from_slice(alloc, octets)?);")?;
    match &table.key {
        KeyKind::Number(_) => {
            let line = format!(in draft.alloc(); "Ok(Self::Other({key}, octets))")?;
            draft.line(4, line.as_str())?;
        }
        KeyKind::Arcs => {
            let line = format!(in draft.alloc();
                "let {key} = ObjectIdentifier::new(Vec::from_slice(alloc, {key})?);"
            )?;
            draft.line(4, line.as_str())?;
            let line = format!(in draft.alloc(); "Ok(Self::Other({key}, octets))")?;
            draft.line(4, line.as_str())?;
        }
    }
    draft.line(3, "}")
}
