//! Names with their places.
use asn1_notation::Span;

/// A place in one of several texts.
#[derive(Clone, Copy, Debug, PartialEq, Eq)]
pub struct Place {
    /// The index of the text.
    pub text: usize,
    /// The octets.
    pub span: Span,
}

/// The name of a definition.
#[derive(Clone, Copy, Debug)]
pub struct DefinedName<'a> {
    /// The name of the module that it is in.
    pub module: &'a [u8],
    /// The name.
    pub name: &'a [u8],
    /// The place of the name.
    pub place: Place,
}

/// A name behind IMPORTS.
#[derive(Clone, Copy, Debug)]
pub struct ImportedName<'a> {
    /// The name of the module that imports it.
    pub module: &'a [u8],
    /// The name.
    pub name: &'a [u8],
    /// The name of the module behind FROM.
    pub from: &'a [u8],
    /// The place of the name.
    pub place: Place,
}

/// A reference to a definition.
#[derive(Clone, Copy, Debug)]
pub struct UsedName<'a> {
    /// The name of the module that it is in.
    pub module: &'a [u8],
    /// The name of the module in front of the dot, if it is written.
    pub qualifier: Option<&'a [u8]>,
    /// The name.
    pub name: &'a [u8],
    /// The place of the name.
    pub place: Place,
}

/// The names of a set of modules, as flat lists.
#[derive(Drop)]
pub struct Names<'a> {
    /// The names of the definitions, module by module.
    pub defined: Vec<DefinedName<'a>>,
    /// The names behind IMPORTS.
    pub imported: Vec<ImportedName<'a>>,
    /// The references of definitions to others.
    pub used: Vec<UsedName<'a>>,
}
