//! Tables that are not printed yet.
use asn1_rust_code::TypeName;

/// A table with the names of its file.
#[derive(Drop)]
pub struct OpenTable {
    /// The lines of the page at the head of the file.
    pub page: Vec<String>,
    /// The name of the crate.
    pub crate_name: String,
    /// The module.
    pub module: String,
    /// A line on the enum.
    pub summary: String,
    /// The name of the enum.
    pub name: String,
    /// The name of the field that tells the row, in ASN.1.
    pub key_field: String,
    /// The name of the argument and the call for it.
    pub key_name: String,
    /// The kind of the keys.
    pub key: KeyKind,
    /// The rows.
    pub rows: Vec<OpenRow>,
}

/// The kind of the keys of a table.
#[derive(Drop)]
pub enum KeyKind {
    /// A number, of this type.
    Number(String),
    /// An object identifier.
    Arcs,
}

/// A row.
#[derive(Drop)]
pub struct OpenRow {
    /// The name of the variant.
    pub name: String,
    /// The object, as it is written.
    pub notation: String,
    /// The key.
    pub key: RowKey,
    /// The type.
    pub definition: TypeName,
}

/// The key of a row.
#[derive(Drop)]
pub enum RowKey {
    /// This number.
    Number(i128),
    /// The object identifier of these arcs.
    Arcs(Vec<u32>),
}
