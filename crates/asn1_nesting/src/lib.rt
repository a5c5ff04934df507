//! Reading types that hold themselves, by pairs of calls.
//!
//! The reader of such a type is a cycle of calls, which the check proves in the crate of the type alone, and which no method of the
//! type may be part of. So it is free functions: one reads a value, and one the alternative at an index, a line for each, or the
//! components one after another. The first is two calls of this crate with a call of the second between them. Each opened scope
//! takes from the depth left of the decoder, which ends the cycle.
//!
//! | Item | What it is |
//! |---|---|
//! | [`HoldsItself`] | a CHOICE that holds itself, by its cases |
//! | [`open_choice_at`] | opens the CHOICE, and answers the index of its alternative |
//! | [`close_choice`] | closes it, and answers the value that was read |
//! | [`open_sequence_at`], [`close_sequence`] | open and close a SEQUENCE that holds itself, or is inside a type that does |
//! | [`open_sequence_of_at`], [`close_sequence_of`] | open and close a SEQUENCE OF values of such a type |
//! | [`boxed`] | moves a value inside another into a box |
//!
//! The contracts promise the following, in these words:
//!
//! - After [`open_choice_at`] the alternative at the index is next, inside one scope or, after a tag, inside two (`IsOpen` of
//!   `specs/OpenChoices.antt`), and less depth is left (`deeper`). An error means that the CHOICE could not be read there
//!   (`not_read`).
//! - If the alternative at that index was then read (`ReadsCaseAt` of `asn1_slots`), a value under the tag has been read after
//!   [`close_choice`], or could not be (`read`), as `Decode` of `asn1_dec` promises (`after_reading`).
//! - The same of the components of a SEQUENCE (`IsOpenSequence` and `ReadsFields` of `asn1_laws`), and, but for
//!   `after_reading`, of the elements of a SEQUENCE OF (`IsOpenSequenceOf`; `ReadsElementsLeft`).
//! - Nothing else was read (`only` of each call): what a call opened was there (`HasOpenedChoiceAt`, and `HasOpenedNamed` of
//!   `asn1_laws`), and what was read between two calls, and the scope around it, is read as the answer (`HasReadValue`).
//! - The alternatives of the type are those of its cases (`AreCasesOf` of `specs/InsideItself.antt`), and inside itself the type has
//!   the same records as elsewhere, and the same is read as a value (`IsInside`).
//!
//! `proofs/ListsRead.antt` has the lemmas for a loop of the type's own over its elements. The crate takes memory for boxes and for
//! the type's own constraints alone.
#![tactic(auto)]

mod boxes;
mod closing;
mod holds_itself;
mod lists;
mod opening;
mod sequences;

pub use boxes::boxed;
pub use closing::close_choice;
pub use holds_itself::HoldsItself;
pub use lists::{close_sequence_of, open_sequence_of_at};
pub use opening::open_choice_at;
pub use sequences::{close_sequence, open_sequence_at};
