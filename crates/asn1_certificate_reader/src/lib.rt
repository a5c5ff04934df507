//! The report of a certificate, read by any codec that has its octets, and the values that its open types cannot hold.
//!
//! | Item | What it is | In `specs/` |
//! |---|---|---|
//! | [`report_of`] | the report of a certificate | `Reports`, `Objects`, `Keys`, `Names`, `ExtensionValues`, `GeneralNames` |
//! | [`read_inside`], [`MAX_DEPTH`] | the value that octets are read as, and how deep certificates may be nested | `Inside` |
//! | [`first_name_fault`], [`NameFault`], [`ValueFault`] | the first value in a name that no name can have, and why | `NameFaults` |
//! | [`first_alphabet_fault`], [`AlphabetFault`] | the first PrintableString in a name with characters outside its alphabet | `Alphabets` |
//! | [`bad_parameters`], [`ParameterType`] | parameters of an algorithm that are no value of the type of their tag | `Parameters` |
//!
//! The same codec reads the contents of open types and octets. [`first_name_fault`], [`first_alphabet_fault`] and
//! [`bad_parameters`] look at octets in DER.
//!
//! The promises:
//!
//! - A report has the version, the serial number, the names, the times, the key, the algorithms and the extensions of its
//!   certificate, in order (`report_of`: `IsReportOf`); an object the name of a row of the table with its arcs, if one has them
//!   (`IsObjectOf`).
//! - A key has the size of its modulus, if that is not negative, and its exponent, or its curve, or the one size of its algorithm,
//!   or the number of its bits (`IsKeyOf`).
//! - A name is shown by its parts, from the last to the first (`IsNameOf`). A value is read as a PrintableString of printable
//!   characters of ASCII, inside its alphabet and outside it, a DirectoryString, an IA5String or a NumericString, in this order
//!   (`IsValueOf`), else shown as octets, and so is the value of a kind without a name.
//! - The value of an extension is read by the type that RFC 5280 has for its kind, for six types (`IsValueOfKind`), else shown
//!   as octets.
//! - Octets of a valid value of a type are read as a value that is equal to it (`AreReadAs`).
//! - `first_name_fault` answers none if and only if a name can have each of the values, else the first that it cannot
//!   (`AnswersName`).
//! - `first_alphabet_fault` answers none if and only if the characters of each PrintableString of the name are in its alphabet, else
//!   the first attribute with another, and the name of its kind (`AnswersAlphabets`).
//! - Parameters that `bad_parameters` answers begin with an element of DER, and are not what its tag asks for
//!   (`HasBadParameters`).
#![tactic(auto)]

mod alphabets;
mod attributes;
mod characters;
mod extensions;
mod general_names;
mod inside;
mod keys;
mod name_faults;
mod name_strings;
mod objects;
mod parameters;
mod report;
mod scalars;
mod shown_value;
mod units;

pub use alphabets::{AlphabetFault, first_alphabet_fault};
pub use inside::{MAX_DEPTH, read_inside};
pub use name_faults::{NameFault, ValueFault, first_name_fault};
pub use parameters::{ParameterType, bad_parameters};
pub use report::report_of;
