//! The kinds of lexical item.

/// A kind of lexical item of X.680.
#[derive(Clone, Copy, Debug, PartialEq, Eq)]
pub enum TokenKind {
    /// A typereference, or a modulereference, which is spelled as one (12.2, 12.5).
    TypeReference,
    /// An identifier, or a valuereference, which is spelled as one (12.3, 12.4).
    Identifier,
    /// A word of [`RESERVED_WORDS`](crate::RESERVED_WORDS) (12.38).
    ReservedWord,
    /// A number (12.8).
    Number,
    /// A bstring (12.10).
    BinaryString,
    /// An hstring (12.12).
    HexString,
    /// A cstring (12.14).
    CharacterString,
    /// `::=`, `..`, `...`, `[[`, `]]` or a single character (12.20 to 12.24, 12.37), or the `&` of X.681.
    Symbol,
}
