//! Constraint sets of ASN.1 (X.680, 50 and 51): the values, lengths and characters that a type's constraints leave.
//!
//! | Item | What it is | In `specs/` |
//! |---|---|---|
//! | [`Bounded`], [`WholeNumber`], [`FitsI128`] | bounds of whole numbers, of `asn1_ranges` | |
//! | [`Value`], [`TooWide`] | a constraint of numbers; an end that is above the greatest `i128` | `Admitted` |
//! | [`Size`] | a constraint of lengths | `Admitted`, `BorrowedBounds` |
//! | [`PermittedAlphabet`] | a constraint of characters, with a list of its own | `Admitted` |
//! | [`Extensible`] | one of these, with the additions of later versions if it is extensible | |
//! | [`Constraint`], [`ConstraintDiscriminant`] | a constraint of any kind or the extension marker; its kind | `ConstraintKind` |
//! | [`Constraints`] | the set of a type: at most one part of each kind, and the marker | `Sets` |
//! | [`ConstraintTable`] | such a set that borrows its characters, and so can be a constant | `ConstraintTables` |
//! | [`InnerSubtypeConstraint`] | a type with a constraint of its components (X.680, 51.8) | `InnerSubtype` |
//! | [`InnerSubtypeConstraintError`] | the component at fault, or memory | |
//! | [`Codec`] | the name of a codec | |
//! | [`laws`] | derived comparisons, hashes, copies and defaults, and conversions | |
//!
//! The main promises (docs/PROMISES.md has more):
//!
//! - [`Value::intersect`] and [`Size::intersect`] have the common members (`members`), are `commutative` and `associative`, and
//!   no bound is their identity (`left_identity`, `right_identity`). [`PermittedAlphabet::intersect`] permits the common
//!   characters (`members`).
//! - The root of a set admits exactly what the root of each of its constraints admits (`values`, `lengths`, `characters` of
//!   [`Constraints::new`]). The intersection of two sets is the set of the two lists, one after the other (`composes` of
//!   [`Constraints::intersect`]).
//! - [`ConstraintTable::to_constraints`] answers the set of the table (`set`).
//! - Each implementation of [`InnerSubtypeConstraint`] states its answers (`validation_gives`), and `validate_components` answers
//!   the same without a codec.
//!
//! Only permitted alphabets take memory, and an [`InnerSubtypeConstraint`] whose type needs some. If no argument has an alphabet,
//! `new`, `intersect`, `try_clone` and `to_constraints` succeed (`without_alphabet`). The words on bounds are those of
//! `asn1_ranges`, which `specs/Lib` re-exports.
#![tactic(auto)]

pub use alphabet::PermittedAlphabet;
pub use asn1_ranges::{Bounded, FitsI128, WholeNumber};
pub use codec::Codec;
pub use constraint::{Constraint, ConstraintDiscriminant};
pub use constraints::Constraints;
pub use error::{InnerSubtypeConstraintError, TooWide};
pub use extensible::Extensible;
pub use inner_subtype::InnerSubtypeConstraint;
pub use size::Size;
pub use table::ConstraintTable;
pub use value::Value;

mod alphabet;
mod codec;
mod constraint;
mod constraints;
mod error;
mod extensible;
mod inner_subtype;
pub mod laws;
mod size;
mod table;
mod value;
