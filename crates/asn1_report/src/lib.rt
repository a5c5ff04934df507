//! Checks schema tables: reads lines on trees of tags, on bounds and on the components of types, and writes a verdict on each.
//!
//! | Lines | Answer |
//! |---|---|
//! | `tree NAME TREE` | whether a tag is there twice, the smallest tag, and the number of leaves |
//! | `bound NAME B & B` | the intersection of two bounds |
//! | `sequence NAME` or `set NAME`, components, `end` | the two that share a tag against X.680; whether the order is canonical |
//!
//! A component is a line `NAME PRESENCE TREE`, with `required`, `optional` or `default`. The answer to any other line is `line N:
//! not understood`, and that to a table with such a line, or without `end`, is `not checked`.
//!
//! | Item | What it is | In `specs/` |
//! |---|---|---|
//! | [`check`] | the program, on any reader and any writer | `Report`, `Reading` |
//! | [`CheckError`] | why it ended before the end of its input | `Errors` |
//! | [`checked`], [`Outcome`] | the check behind a buffer, and how a program then ends | |
//! | [`trees_are_read_of_their_texts`] | the law of reading trees | `Grammar`, `Spelling` |
//! | [`verdicts_mean_what_they_say`] | the law of verdicts | `Verdict` |
//! | [`laws`] | derived members of the error | |
//!
//! The promises:
//!
//! - If [`check`] succeeds, the text that it has written is `report` of the bytes that it has read (`report`), and the answer is
//!   true if and only if each line was understood and each table had its `end` (`understood`).
//! - If a read fails, the text for the lines that had ended is written (`reading`). If memory runs out, it is that for the lines
//!   among the bytes that were read but the last 32 KiB at most (`memory`).
//! - An [`Outcome`] has the status 0 if and only if all was understood, 1 if not, and 2 after an error, whose text it prints
//!   (`understood`, `not_understood`, `failed`, `text`).
//! - A text is read as a tree if and only if it is that tree's text, and within the limits of depth and of numbers (`text`,
//!   `within_limits`, `read`).
//! - A verdict on a tree or a table means what its words say of tags, in the words of `asn1_fields` (`smallest`, `unique`,
//!   `sequence`, `set`, `order`).
//!
//! In `specs/`, `Report` is a function over the lines, from a state to an answer and the next state. `Lines`, `Parts` and
//! `Statements` take bytes to statements, `NamesAndNumbers` and `Elements` define what is in them, and `SchemaTables` and `Texts`
//! the answers. The code has the same steps and types. `Flattened` has the form of trees that the program keeps (`asn1_clash`),
//! and `Views` the values that its types represent.
#![tactic(auto)]

mod bound;
mod checker;
mod error;
mod input;
pub mod laws;
mod line;
mod names;
mod number;
mod outcome;
mod output;
mod parts;
mod reporter;
mod statement;
mod table;
mod table_kind;
mod texts;
mod tree;
mod verdict;

pub use error::CheckError;
pub use input::check;
pub use outcome::{Outcome, checked};
pub use tree::trees_are_read_of_their_texts;
pub use verdict::verdicts_mean_what_they_say;
