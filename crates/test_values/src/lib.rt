//! Tests of the public calls of the crates below `asn1_model`: `asn1_values` (numbers and strings), `asn1_tags`, `asn1_ranges` and
//! `asn1_bounds`.
//!
//! A crate that has tests is proved twice, so those that need no private item are together here, and the crates below are
//! proved once. They try what no contract says: values from outside (worked examples, a standard's tables), printed texts, and
//! that each call which allocates succeeds where there is memory.
//!
//! | Module | What it tries |
//! |---|---|
//! | `values` | whole numbers, strings, errors |
//! | `tags` | classes, tags, names of types, trees of tags; lists of tags with a table or none |
//! | `ranges` | bounds of whole numbers |
//! | `bounds` | the kinds of constraint, constraint sets and their tables, constraints of components |
//!
//! A test is a list of calls of helpers, or one call for each row of a table. A helper makes one value and asserts by
//! `assert_that` of `assertions`, or answers a `bool`, and drops the value. This is the form that takes least to prove: each
//! `assert!` of a helper's own costs more than the rest of the helper.
#![tactic(auto)]

#[cfg(test)]
mod assertions;
#[cfg(test)]
mod bounds;
#[cfg(test)]
mod ranges;
#[cfg(test)]
mod tags;
#[cfg(test)]
mod values;
