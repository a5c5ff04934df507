//! The strings below ASN.1's types: bits, octets, the kinds of character string, and names of objects.
//!
//! | Item | What it is | Contracts see |
//! |---|---|---|
//! | [`VisibleString`], [`Ia5String`], [`NumericString`], [`PrintableString`] | units of an alphabet, an [`AlphabetString`] | the list of its units |
//! | [`BitString`], [`OctetString`], [`GeneralString`], [`GraphicString`], [`TeletexString`], [`BmpString`] | any units, a [`UnitString`] | the list of its units |
//! | [`BitVec`], [`BitIter`] | bits that lie in octets, and those of them that are left | the list of its bits |
//! | [`NamedBitString`] | named bits, of which the last is 1 | the list of its bits |
//! | [`StringUnit`] | what strings are made of: bits, octets, numbers of 16 or 32 bits | |
//! | [`ObjectIdentifier`] | any arcs, a `UnitString` too | the list of its arcs |
//! | [`Utf8String`], [`BitStr`] | names for `String` and for borrowed bits | |
//! | [`AsciiAlphabet`] | an alphabet inside ASCII, whose strings are texts | |
//! | [`AlphabetError`], [`StringError`], [`ObjectIdentifierError`], [`ArcError`] | why a string or an object identifier was not made | |
//! | [`kind`] | the markers of the kinds of string, with their alphabets (`specs/Alphabets.antt`) | |
//! | [`shown`] | octets, bits and characters as a person reads them, as `{:?}` writes them | |
//! | [`laws`] | what derives, aliases and definitions give | |
//!
//! The main promises (docs/PROMISES.md has more):
//!
//! - `AlphabetString::new` succeeds if and only if the alphabet has all units (`allowed`), with these units (`units`); else the
//!   error names the first that the alphabet lacks (`first`). `as_slice` and `into_vec` give the units back, and tell that they
//!   are of the alphabet (`allowed`), or values of their type (`in_range`).
//! - `BitVec::from_octets` takes octets and the number of their unused bits (`made`, `bits`), and `octets`, `unused_bits` and `get`
//!   give them back. `NamedBitString::new` leaves out the 0 bits at the end, which mean nothing there.
//! - A string with an alphabet inside ASCII is made of a text by `try_from_str` (`units`), or the error is a refusal
//!   (`IsRefusal` of `specs/Refusals.antt`): the first character that the alphabet lacks, or no memory. `as_str` gives the text
//!   back.
//! - `ObjectIdentifier::try_from_str` reads a dotted text as `arcs_of` of `specs/Dotted.antt` says (`arcs`, `written`); else
//!   the error names the first arc that is none, and why, or is that of memory (`refused`). What `Display` writes of one or
//!   more arcs is read as these arcs (`back` of `object_identifiers_are_read_as_they_are_written`).
#![tactic(auto)]

mod error;
pub mod kind;
pub mod laws;
mod object_identifier;
pub mod shown;
mod strings;

pub use error::{AlphabetError, ArcError, ObjectIdentifierError, StringError};
pub use object_identifier::ObjectIdentifier;
pub use strings::alphabet_string::{Alphabet, AlphabetString};
pub use strings::ascii_text::AsciiAlphabet;
pub use strings::binary::{BitStr, BitString, OctetString};
pub use strings::bit_vec::{BitIter, BitVec};
pub use strings::character::{
    BmpString, GeneralString, GraphicString, Ia5String, NumericString, PrintableString,
    TeletexString, Utf8String, VisibleString,
};
pub use strings::named_bits::NamedBitString;
pub use strings::string_unit::StringUnit;
pub use strings::unit_string::UnitString;
