//! The definitions and proofs of types that hold themselves, in the form of `asn1_circles`.
//!
//! A [`Circle`] of types is cut at one of them, the knot. Its other types, and what a value of the knot is made of, are types with a
//! parameter. The calls answer the texts of the files of `specs/` and `proofs/` that the check needs of a circle.
//!
//! | Item | What it is |
//! |---|---|
//! | [`Circle`] | a circle of types |
//! | [`parts_file`] | names for the meanings of the types that hold no type of the circle |
//! | [`Surroundings`] | the other types of a crate |
//! | [`lists_file`] | the lists of its types |
//! | [`are_all_valid`], [`validity_file`] | whether each value is valid, and the proof that it is if those inside it are |
//! | [`VALIDITY_FILE`] | the definitions and lemmas for these |
//! | [`meaning_file`] | the meaning of the knot, with its laws |
//! | [`reading_file`] | the clause of the reader of the knot |
//! | [`tags_file`] | the proof that the knot is well tagged |
//! | [`writer_answers`], [`reader_measures`], [`reader_answers`] | the answers for the writer and the reader of the knot |
//! | [`validity_answer`], [`member_validity_answer`] | the answers for the theorems on which values are valid |
//!
//! Definitions and proofs are read off the lists of the types. No contract covers the text: the check of the printed crate proves
//! it. Calls fail only if memory runs out.
#![tactic(auto)]

mod circle;
mod depths;
mod elements;
mod exact;
mod lists;
mod meaning;
mod outside;
mod parts;
mod places;
mod proofs;
mod reading;
mod records;
mod terms;
mod validity;

pub use circle::Circle;
pub use lists::lists_file;
pub use meaning::meaning_file;
pub use outside::Surroundings;
pub use parts::parts_file;
pub use proofs::{
    member_validity_answer, reader_answers, reader_measures, tags_file, validity_answer,
    writer_answers,
};
pub use reading::reading_file;
pub use validity::{VALIDITY_FILE, are_all_valid, validity_file};
