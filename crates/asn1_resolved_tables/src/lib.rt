//! Tables of object sets, with every name and number resolved (X.682, 10).
//!
//! | Type | What it is |
//! |---|---|
//! | [`Table`] | a column of an object set: for each key the type that an open type has |
//! | [`Row`] | an object of the set, with its key and its type |
//!
//! No type of a schema (`asn1_resolved`) needs a table, so tables are beside it: a reference in the type of a row is an index into the
//! types of that schema. `asn1_resolver` makes them, and `asn1_print` prints an enum for each.
#![tactic(auto)]

mod table;

pub use table::{Row, Table};
