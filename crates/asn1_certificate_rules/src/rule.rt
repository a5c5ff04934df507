//! The rules of DER.
use thiserror::Error;

/// A rule of X.690 that bytes can break.
#[derive(Clone, Copy, Debug, Drop, PartialEq, Eq, Error)]
pub enum Rule {
    /// Identifier octets are as few as there can be (8.1.2).
    #[error("an identifier is not in its shortest form (X.690, 8.1.2)")]
    LongIdentifier,
    /// A length is definite (10.1).
    #[error("a length is in the indefinite form (X.690, 10.1)")]
    IndefiniteLength,
    /// A length has as few octets as there can be (10.1).
    #[error("a length is not in its shortest form (X.690, 10.1)")]
    LongLength,
    /// An INTEGER and an ENUMERATED have as few octets as there can be (8.3.2 and 8.4).
    #[error("an integer is padded (X.690, 8.3.2)")]
    PaddedInteger,
    /// A number of an OBJECT IDENTIFIER has as few octets as there can be (8.19.2).
    #[error("a number of an object identifier is padded (X.690, 8.19.2)")]
    PaddedArc,
    /// The octet of TRUE is ff (11.1).
    #[error("the octet of a TRUE is not ff (X.690, 11.1)")]
    OtherTrue,
    /// A string is one primitive element (10.2).
    #[error("a string is in the constructed form (X.690, 10.2)")]
    ConstructedString,
    /// Unused bits are zero (11.2.1).
    #[error("an unused bit of a bit string is not zero (X.690, 11.2.1)")]
    UnusedBit,
    /// A list of named bits ends with a one (11.2.2).
    #[error("a list of named bits ends with a zero (X.690, 11.2.2)")]
    TrailingZero,
    /// A component that has its DEFAULT value is absent (11.5).
    #[error("a component is present although it has its DEFAULT value (X.690, 11.5)")]
    Default,
    /// The components of a SET are in ascending order by their tags (10.3), and the elements of a SET OF by their encodings (11.6).
    #[error("the elements of a set are not in ascending order (X.690, 10.3 and 11.6)")]
    SetOrder,
    /// A GeneralizedTime has seconds, a fraction without trailing zeros or none, and Z, and its hours are not 24 (11.7).
    #[error("a GeneralizedTime is not in the form of DER (X.690, 11.7)")]
    GeneralizedTime,
    /// A UTCTime has seconds and Z, and its hours are not 24 (11.8).
    #[error("a UTCTime is not in the form of DER (X.690, 11.8)")]
    UtcTime,
}

/// The rules that are looked at.
#[derive(Clone, Copy, Debug, Drop, PartialEq, Eq)]
pub enum RuleSet {
    /// All of them.
    All,
    /// Those that bytes have to keep so that a value is read: all but those on components with their DEFAULT value, on zeros at the end
    /// of named bits, and on the forms of times.
    OfReading,
}
