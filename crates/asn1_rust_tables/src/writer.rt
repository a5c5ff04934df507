//! The calls that write a value of a table, and that answer its key.
use crate::clause::{append_key_clause, append_write_clause};
use crate::definitions::{KeyKind, OpenTable};
use crate::keys::key_code;
use asn1_rust_code::Draft;
use std::alloc::AllocError;

/// Appends the call that writes a value.
pub(crate) fn append_writer(draft: &mut Draft, table: &OpenTable) -> Result<(), AllocError> {
    let alloc = draft.alloc();
    draft.use_names(&["EncodeError", "Rules"])?;
    draft.use_foreign("std::alloc", "Global")?;
    draft.text(String::from_str(
        alloc,
        "    /// Writes the octets of the value, with at most `depth` nested scopes.
    ///
    /// # Errors
    /// Those of [`Rules::write_value`].
    pub fn write<R: Rules<Output = Vec<u8>>>(
        &self,
        rules: &R,
        alloc: Global,
        depth: usize,
    ) -> Result<Vec<u8>, EncodeError>
",
    )?)?;
    append_write_clause(draft, table)?;
    draft.line(1, "{")?;
    draft.line(2, "match self {")?;
    for row in &table.rows {
        let variant = row.name.as_str();
        let front = format!(in alloc; "Self::{variant}(value) =>")?;
        draft.definition(3, front.as_str(), "rules.write_value(value, depth),")?;
    }
    draft.line(
        3,
        "Self::Other(_, octets) => Ok(Vec::from_slice(alloc, octets.as_bytes())?),",
    )?;
    draft.line(2, "}")?;
    draft.line(1, "}")
}

/// Appends the call that answers the key.
pub(crate) fn append_key(draft: &mut Draft, table: &OpenTable) -> Result<(), AllocError> {
    let field = table.key_field.as_str();
    draft.line(
        1,
        format!(in draft.alloc(); "/// The `&{field}` of the value.")?.as_str(),
    )?;
    match &table.key {
        KeyKind::Number(name) => append_number(draft, table, name.as_str()),
        KeyKind::Arcs => append_arcs(draft, table),
    }
}

// Appends the call that answers a number.
fn append_number(draft: &mut Draft, table: &OpenTable, name: &str) -> Result<(), AllocError> {
    let key = table.key_name.as_str();
    draft.line(
        1,
        format!(in draft.alloc(); "pub fn {key}(&self) -> {name}")?.as_str(),
    )?;
    append_key_clause(draft, table)?;
    draft.line(1, "{")?;
    draft.line(2, "match self {")?;
    append_key_arms(draft, table, "")?;
    draft.line(
        3,
        format!(in draft.alloc(); "Self::Other({key}, _) => *{key},")?.as_str(),
    )?;
    draft.line(2, "}")?;
    draft.line(1, "}")
}

// Appends the call that answers an object identifier.
fn append_arcs(draft: &mut Draft, table: &OpenTable) -> Result<(), AllocError> {
    draft.use_foreign("std::alloc", "AllocError")?;
    draft.use_names(&["ObjectIdentifier"])?;
    let key = table.key_name.as_str();
    let line = format!(in draft.alloc();
        "pub fn {key}(&self, alloc: Global) -> Result<ObjectIdentifier, AllocError>"
    )?;
    draft.line(1, line.as_str())?;
    append_key_clause(draft, table)?;
    draft.line(1, "{")?;
    draft.line(2, "let arcs: &[u32] = match self {")?;
    append_key_arms(draft, table, "&")?;
    draft.text(format!(in draft.alloc();
        "            Self::Other({key}, _) => {key}.as_slice(),
        }};
        Ok(ObjectIdentifier::new(Vec::from_slice(alloc, arcs)?))
    }}
"
    )?)
}

// Appends the arms for the rows, each with its key behind these signs.
fn append_key_arms(draft: &mut Draft, table: &OpenTable, front: &str) -> Result<(), AllocError> {
    for row in &table.rows {
        let key = key_code(draft, &row.key)?;
        let key = key.as_str();
        let variant = row.name.as_str();
        let pattern = format!(in draft.alloc(); "Self::{variant}(_) =>")?;
        let answer = format!(in draft.alloc(); "{front}{key},")?;
        draft.definition(3, pattern.as_str(), answer.as_str())?;
    }
    Ok(())
}
