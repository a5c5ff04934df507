//! Files of tables: enums of the values that an open type has, by the objects of a set.
//!
//! | Item | What it is |
//! |---|---|
//! | [`table_file`] | the file of a table |
//! | [`table_answers`] | the proof beside it, of the call that reads |
//! | [`OpenTable`], [`OpenRow`] | a table with its rows |
//! | [`KeyKind`], [`RowKey`] | keys: numbers, or the arcs of object identifiers |
//!
//! A printed enum has three calls with their clauses. `read`: under the key of a row the value is one of the row's type, which
//! `read_open` may answer of the octets, and under any other key it is these octets; an error is one of reading the row's type, or
//! memory ran out. `write`: the value of a row is written under its own type, and octets as they are. The call named for the field of
//! the key: it answers the key of the row, or that of the octets. The check of the printed crate proves them. Calls of this library
//! fail only if memory runs out.
#![tactic(auto)]

mod answers;
mod clause;
mod definitions;
mod keys;
mod reader;
mod table;
mod writer;

pub use answers::table_answers;
pub use definitions::{KeyKind, OpenRow, OpenTable, RowKey};
pub use table::table_file;
