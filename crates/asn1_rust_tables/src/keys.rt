//! Keys in code.
use crate::definitions::{KeyKind, OpenTable, RowKey};
use asn1_rust_code::{Draft, joined};
use std::alloc::AllocError;

/// The type of the key in `Other`.
pub(crate) fn key_type(draft: &mut Draft, table: &OpenTable) -> Result<String, AllocError> {
    match &table.key {
        KeyKind::Number(name) => String::from_str(draft.alloc(), name.as_str()),
        KeyKind::Arcs => {
            draft.use_names(&["ObjectIdentifier"])?;
            String::from_str(draft.alloc(), "ObjectIdentifier")
        }
    }
}

/// The type of the key as an argument.
pub(crate) fn argument_type(table: &OpenTable) -> &str {
    match &table.key {
        KeyKind::Number(name) => name.as_str(),
        KeyKind::Arcs => "&[u32]",
    }
}

/// The key of a row, as a pattern and as a value.
pub(crate) fn key_code(draft: &Draft, key: &RowKey) -> Result<String, AllocError> {
    let alloc = draft.alloc();
    match key {
        RowKey::Number(number) => format!(in alloc; "{number}"),
        RowKey::Arcs(arcs) => {
            let mut texts = Vec::new(alloc);
            for arc in arcs {
                texts.push(format!(in alloc; "{arc}")?)?;
            }
            let mut parts = Vec::new(alloc);
            for text in &texts {
                parts.push(text.as_str())?;
            }
            let inner = joined(alloc, parts.as_slice(), ", ")?;
            let inner = inner.as_str();
            format!(in alloc; "[{inner}]")
        }
    }
}
