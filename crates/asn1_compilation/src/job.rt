//! What is compiled.
use asn1_print::Extern;

/// A text with the name of its file.
#[derive(Drop)]
pub struct Input {
    /// The name, as messages have it.
    pub name: String,
    /// The octets.
    pub text: Vec<u8>,
}

/// A module whose types exist already.
#[derive(Clone, Copy)]
pub struct ExternModule<'a> {
    /// The name of the module.
    pub name: &'a [u8],
    /// The crate that has the types, or the module in it, under the names that the compiler gives them.
    pub path: &'a str,
}

/// What is compiled to a crate.
#[derive(Clone, Copy)]
pub struct Job<'a> {
    /// The name of the crate.
    pub crate_name: &'a str,
    /// The texts, which are one set of modules.
    pub inputs: &'a [Input],
    /// Types that exist already.
    pub externs: &'a [Extern<'a>],
    /// Modules whose other types exist already.
    pub extern_modules: &'a [ExternModule<'a>],
    /// Whether a program that converts values of the types is printed too.
    pub has_program: bool,
    /// Whether a crate that exports calls for the types is printed too.
    pub has_exports: bool,
}
