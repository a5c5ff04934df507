//! The enum of a table.
use crate::clause::use_words;
use crate::definitions::OpenTable;
use crate::keys::key_type;
use crate::reader::append_reader;
use crate::writer::{append_key, append_writer};
use asn1_rust_code::{Draft, append_typed};
use std::alloc::{AllocError, Global};

/// The file of a table.
pub fn table_file(alloc: Global, table: &OpenTable) -> Result<String, AllocError> {
    let mut draft = Draft::new(alloc);
    append_enum(&mut draft, table)?;
    append_calls(&mut draft, table)?;
    draft.into_file(table.page.as_slice())
}

// Appends the enum.
fn append_enum(draft: &mut Draft, table: &OpenTable) -> Result<(), AllocError> {
    let alloc = draft.alloc();
    let summary = table.summary.as_str();
    let name = table.name.as_str();
    draft.text(format!(in alloc;
        "\
/// {summary}
#[derive(PartialEq, Eq, Debug, Drop)]
pub enum {name} {{
"
    )?)?;
    for row in &table.rows {
        draft.use_type(&row.definition)?;
        let notation = row.notation.as_str();
        draft.line(1, format!(in alloc; "/// {notation}")?.as_str())?;
        let variant = row.name.as_str();
        let front = format!(in alloc; "{variant}(")?;
        append_typed(draft, 1, front.as_str(), row.definition.text.as_str(), "),")?;
    }
    draft.use_names(&["Any"])?;
    let field = table.key_field.as_str();
    let key = key_type(draft, table)?;
    let key = key.as_str();
    draft.text(format!(in alloc;
        "    /// The octets of a value under another `&{field}`.
    Other({key}, Any),
}}

"
    )?)
}

// Appends the calls.
fn append_calls(draft: &mut Draft, table: &OpenTable) -> Result<(), AllocError> {
    use_words(draft, table)?;
    let name = table.name.as_str();
    draft.line(0, format!(in draft.alloc(); "impl {name} {{")?.as_str())?;
    append_reader(draft, table)?;
    draft.blank()?;
    append_writer(draft, table)?;
    draft.blank()?;
    append_key(draft, table)?;
    draft.line(0, "}")
}
