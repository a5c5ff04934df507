//! What is asked of the printer, and what it answers.
use asn1_modules::Source;
use asn1_resolved::{Problem, Schema};
use asn1_resolved_tables::Table;

/// A schema to print as a crate.
#[derive(Clone, Copy)]
pub struct Request<'r, 'a> {
    /// The name of the crate.
    pub crate_name: &'r str,
    /// The texts, with their trees.
    pub sources: &'r [Source<'a>],
    /// The schema of the texts.
    pub schema: &'r Schema<'a>,
    /// The tables of the object sets that its types name.
    pub tables: &'r [Table<'a>],
    /// Types that exist already.
    pub externs: &'r [Extern<'r>],
}

/// A type that exists already.
#[derive(Clone, Copy)]
pub struct Extern<'a> {
    /// The module that defines it; of any, if none is named.
    pub module: Option<&'a [u8]>,
    /// The name in ASN.1.
    pub name: &'a [u8],
    /// The crate or the module in it, as `asn1_x509`.
    pub path: &'a str,
    /// The name in Rust.
    pub rust_name: &'a str,
}

impl Extern<'_> {
    /// Whether it is for the type of this name in this module.
    pub fn is_for(&self, module: &[u8], name: &[u8]) -> bool {
        let is_of_module = match self.module {
            Some(known) => known == module,
            None => true,
        };
        is_of_module && self.name == name
    }
}

/// A file of a crate.
#[derive(Drop)]
pub struct PrintedFile {
    /// The path in the folder of the crate.
    pub path: String,
    /// The text.
    pub text: String,
}

/// The files of a crate, and what is wrong with the schema.
#[derive(Drop)]
pub struct Printed {
    /// The files. They are incomplete if there is an error.
    pub files: Vec<PrintedFile>,
    /// What cannot be printed, or not all of it.
    pub problems: Vec<Problem>,
}
