//! The files of types that hold themselves, in the form of `asn1_circles`.
//!
//! Each type of a circle but the knot is printed as an ordinary type with a parameter for the knot ([`generic_file`]), and so is what
//! a value of the knot is made of. [`circle_files`] adds the knot, its reader, and the definitions and proofs of
//! `asn1_circle_definitions`.
//!
//! | Item | What it is |
//! |---|---|
//! | [`generic_file`] | the file of a type with a parameter |
//! | [`circle_files`] | the files beside these |
//! | [`validity_laws`] | the theorems on which values are valid |
//! | [`KnotName`], [`definition_modules`], [`proof_modules`] | the modules of `specs/` and `proofs/` that these are |
//! | [`validity_definitions_file`] | a file of `specs/` for all of them |
//!
//! No contract covers the text: the check of the printed crate proves it. Calls fail only if memory runs out.
#![tactic(auto)]

mod files;
mod generic;
mod knot;
mod reading;

pub use files::{
    KnotName, circle_files, definition_modules, proof_modules, validity_definitions_file,
    validity_laws,
};
pub use generic::generic_file;
