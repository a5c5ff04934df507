//! From texts with modules of ASN.1 to the files of a crate, or to all that is wrong with them.
//!
//! | Item | What it is |
//! |---|---|
//! | [`compile`], [`Job`], [`Input`], [`ExternModule`] | compiles the modules of some texts |
//! | [`Compiled`], [`Message`] | the files, and the errors and warnings with their places |
//! | [`listing_of`] | the files as one text |
//! | [`extern_of`], [`extern_module_of`], [`is_crate_name`] | what a command line says of types that exist already, and of the name of the crate |
//!
//! The texts go through `parse` of `asn1_grammar`, `objects_of` of `asn1_objects`, `resolve` of `asn1_resolver`, `check_tags` of
//! `asn1_module_check` and `print_crate` of `asn1_print`. The errors of all stages are told together. After an error every stage goes
//! on with what there is, and what the error may have caused is left out: names whose definitions were not read (`left_out`), and
//! errors in tags and in printing of definitions that rest on another error (`doubtful`).
//!
//! The contracts promise:
//!
//! - There are files if and only if no message is an error (`complete` of [`compile`]), so nothing is left to write after an
//!   error.
//! - There are files only of modules whose names and numbers are resolved, and of types without a clash (`resolved` and `distinct`
//!   of `compile_resolved` in `stages`).
//! - The messages for the problems of a stage are one for each, with its severity and its text, in the order of the places
//!   (`messages_of` in `message`; `AreMessagesOf` in `specs/Messages`).
//!
//! No contract covers which problems a text has. Every call returns, and fails only if memory runs out.
#![tactic(auto)]

mod calls;
mod compiled;
mod doubtful;
mod externs;
mod job;
mod known_types;
mod left_out;
mod listing;
mod locator;
mod message;
mod problems;
mod stages;

pub use compiled::Compiled;
pub use externs::{extern_module_of, extern_of, is_crate_name};
pub use job::{ExternModule, Input, Job};
pub use listing::listing_of;
pub use message::Message;
pub use stages::compile;
