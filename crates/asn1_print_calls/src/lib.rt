//! The static library of a crate of types, and its header for C, its Python and its Rust module.
//!
//! [`print_calls`] makes, beside the crate CRATE, the files of the crate CRATE_c. It exports four calls for each type, which are one call
//! of `fan_types` each: whether octets are the DER of a value, and the value of octets in BER as DER, in X.680's notation and as JSON.
//! docs/EMBEDDING.md says how they are built and called.
//!
//! | Item | What it is |
//! |---|---|
//! | [`print_calls`], [`CallFile`] | the files |
//! | [`TypeNames`] | a type, by its names in ASN.1 and in Rust |
//!
//! The texts are templates with words to be filled in (`exports`, `header`, `python`, `rust`). No contract covers them: the check of the
//! printed crate proves it. The call fails only if memory runs out.
#![tactic(auto)]

mod exports;
mod files;
mod header;
mod modules;
mod names;
mod python;
mod rust;

pub use files::{CallFile, print_calls};
pub use names::TypeNames;
