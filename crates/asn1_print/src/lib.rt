//! A resolved schema as the files of a crate of Rust types, in the form of docs/TYPES.md.
//!
//! [`print_crate`] makes a file for each SEQUENCE, SET, CHOICE and ENUMERATED, and for each definition of a string with a size or an
//! alphabet, with its definition in ASN.1 as its comment. Types without a name get one from where they are used; a type that is
//! another under a name is an alias. Values, named numbers and named bits are constants. A table of an object set is an enum of its rows
//! (asn1_rust_tables). Types that hold themselves are printed with their definitions and proofs (asn1_rust_circles).
//!
//! | Item | What it is |
//! |---|---|
//! | [`print_crate`] | the files of a crate |
//! | [`print_program`] | the program that converts values of its types |
//! | [`list_types`], [`ListedType`] | the names of its types |
//! | [`Request`], [`Extern`] | a schema with its texts, and the types that exist already |
//! | [`Printed`], [`PrintedFile`] | the files, and what cannot be printed |
//! | [`rust_name`], [`known_words`] | the name of a type; the words of capitals that it may be made of |
//!
//! What cannot be printed is an error with its place, and what is not carried, as the size of a SEQUENCE OF, is a warning. No contract
//! covers the text: the check of the printed crate proves it. The call fails only if memory runs out, and ends for each schema.
#![tactic(auto)]

mod bodies;
mod choices;
mod circle_files;
mod circles;
mod components;
mod defaults;
mod enumerations;
mod integers;
mod lowering;
mod notation;
mod parameters;
mod plan;
mod printing;
mod program;
mod recursion;
mod request;
mod strings;
mod tables;
mod tags;
mod templates;
mod types;
mod values;
mod words;
mod written;

pub use plan::rust_name;
pub use printing::print_crate;
pub use program::{ListedType, list_types, print_program};
pub use request::{Extern, Printed, PrintedFile, Request};
pub use words::known_words;
