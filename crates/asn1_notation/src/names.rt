//! Names and numbers.

/// Octets of the text from which a tree was read: a name, digits, or a string with its quotes.
///
/// A tree has no octets of its own, so it is as long as its text allows, and copies none of it.
#[derive(Clone, Copy, Debug, PartialEq, Eq)]
pub struct Span {
    /// The offset of the first octet.
    pub start: usize,
    /// The offset behind the last.
    pub end: usize,
}

impl Span {
    /// The octets, in the text from which the tree was read.
    pub fn octets(self, text: &[u8]) -> &[u8] {
        match text.get(self.start..self.end) {
            Some(octets) => octets,
            None => &[],
        }
    }
}

/// A whole number as it is written.
#[derive(Clone, Copy, Debug, PartialEq, Eq)]
pub struct Number {
    /// Whether a hyphen is in front.
    pub is_negative: bool,
    /// The digits.
    pub digits: Span,
}

/// A reference to a definition of this module, or of the module that is named.
#[derive(Clone, Copy, Debug, PartialEq, Eq)]
pub struct Reference {
    /// The module.
    pub module: Option<Span>,
    /// The name of the definition.
    pub name: Span,
}

/// A number, or the name of a value that is one.
#[derive(Clone, Copy, Debug, PartialEq, Eq)]
pub enum NumberName {
    /// A number.
    Number(Number),
    /// A reference to a value.
    Reference(Reference),
}
