//! Exports the values below ASN.1's types: whole numbers of any size, strings of each kind, and object identifiers.
//!
//! | Item | What it is | From |
//! |---|---|---|
//! | [`Integer`], [`IntegerType`] | a whole number of any size, and the Rust types that hold an INTEGER | `asn1_integers` |
//! | [`ConstrainedInteger`], [`LimitedInteger`] | a whole number from a least to a greatest one | `asn1_integers` |
//! | [`Limits`], [`Between`] | the least number and the greatest one | `asn1_integers` |
//! | [`OutOfRangeError`] | a number that does not fit | `asn1_integers` |
//! | [`BitString`], [`OctetString`], [`VisibleString`] and the like, [`kind`] | the kinds of string | `asn1_strings` |
//! | [`BitVec`], [`NamedBitString`] | bits that lie in octets, and named bits | `asn1_strings` |
//! | [`AlphabetString`], [`UnitString`] | strings of an alphabet, and of any units | `asn1_strings` |
//! | [`ObjectIdentifier`] | the arcs of an object identifier | `asn1_strings` |
//! | [`shown`] | octets, bits and characters as a person reads them | `asn1_strings` |
//! | [`integers`], [`strings`] | both crates, with their modules of laws | |
//!
//! The crate has no code and no promise of its own: the pages of the two crates have them. `specs/Lib` exports the definitions of
//! both under their own names, and `proofs/Lib` their lemmas.
#![tactic(auto)]

pub use asn1_integers as integers;
pub use asn1_integers::{
    Between, ConstrainedInteger, Integer, IntegerType, LimitedInteger, Limits, OutOfRangeError,
};
pub use asn1_strings as strings;
pub use asn1_strings::{
    Alphabet, AlphabetError, AlphabetString, ArcError, AsciiAlphabet, BitIter, BitStr, BitString,
    BitVec, BmpString, GeneralString, GraphicString, Ia5String, NamedBitString, NumericString,
    ObjectIdentifier, ObjectIdentifierError, OctetString, PrintableString, StringError, StringUnit,
    TeletexString, UnitString, Utf8String, VisibleString, kind, shown,
};
