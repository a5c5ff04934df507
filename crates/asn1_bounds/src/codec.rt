//! The names of codecs.

/// The name of a codec: a set of rules by which values become bytes.
#[derive(Clone, Copy, Debug, PartialEq, Eq)]
pub enum Codec {
    /// The packed encoding rules, aligned (X.691).
    Aper,
    /// The basic encoding rules (X.690).
    Ber,
    /// The canonical encoding rules (X.690).
    Cer,
    /// The distinguished encoding rules (X.690).
    Der,
    /// The packed encoding rules, unaligned (X.691).
    Uper,
    /// The JSON encoding rules (X.697).
    Jer,
    /// The octet encoding rules (X.696).
    Oer,
    /// The octet encoding rules, canonical (X.696).
    Coer,
    /// The XML encoding rules (X.693).
    Xer,
    /// Rules of a program's own, by a number that it chooses.
    Other(u8),
}
