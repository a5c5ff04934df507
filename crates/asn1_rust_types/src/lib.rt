//! The text of Rust types for types of ASN.1, in the form of docs/TYPES.md.
//!
//! | Item | What it is |
//! |---|---|
//! | [`type_file`] | the file of a type (`TypeFile` of `asn1_rust_components`) |
//! | [`root_file`], [`ModuleNames`] | the root file of a crate |
//! | [`append_enum`], [`append_choice_writer`] and the like | the parts of a CHOICE |
//! | [`proof_files`], [`knot_table_proof`], [`ProofFile`] | the proofs that the check does not find by itself |
//! | [`spellings_of`], [`Spelling`] | the laws of types that have one spelling, with their proofs |
//! | [`Weights`] | how many parts types have, which tells what the check finds by itself |
//!
//! The text is in the layout of `rt fmt`. No contract covers it: the check of the printed crate proves it. Calls fail only if
//! memory runs out.
#![tactic(auto)]

mod choice;
mod cores;
mod enumeration;
mod files;
mod proofs;
mod restricted_string;
mod spelling_proofs;
mod spelling_terms;
mod spellings;
mod uses;
mod variants;
mod weights;

pub use choice::{
    ChoiceSubject, append_cases, append_choice_meaning, append_choice_writer, append_enum,
    append_made, append_trees_of_choice,
};
pub use files::{ModuleNames, root_file, type_file};
pub use proofs::{ProofFile, knot_table_proof, proof_files};
pub use spellings::{Spelling, spellings_of};
pub use weights::Weights;
