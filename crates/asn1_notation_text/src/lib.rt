//! Writes trees of `asn1_notation` as text in the notation of X.680.
//!
//! | Item | What it is |
//! |---|---|
//! | [`Printer`] | the text so far, and the source that the tree was read from |
//! | [`print_module`], [`print_assignment`] | append a module, and a definition |
//! | [`print_type`], [`print_constraint`] | append a type, and a constraint |
//! | [`print_value`] | appends a value |
//! | [`type_word`] | X.680's word for a type |
//!
//! The calls take the names in a tree from its source. They put parentheses round every part of a constraint: the text is meant
//! to be read as the same tree, with other offsets. Comments, exceptions (`!`) and what CONSTRAINED BY has in its braces are not in
//! the tree, and so not in the text. Objects, object sets and macros are written as in the source.
//!
//! The calls return for every tree, and fail only if memory runs out. No contract covers the text; the stored run of
//! test_notation shows it.
#![tactic(auto)]

mod classes;
mod modules;
mod numbers;
mod parts;
mod plain_constraints;
mod plain_types;
mod printer;
mod types;
mod values;
mod words;

pub use modules::{print_assignment, print_module};
pub use printer::Printer;
pub use types::{print_constraint, print_type};
pub use values::print_value;
pub use words::type_word;
