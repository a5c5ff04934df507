//! Tests of the public calls of the crates from `asn1_model` to `asn1_dec`, and of `asn1_limits`, `asn1_samples`,
//! `asn1_recursive`, `asn1_clash` and `asn1_rules`.
//!
//! A crate that has tests is proved twice, so those that need no private item are together here, and the crates below are
//! proved once. They try what no contract says: values from outside (worked examples, a standard's tables), printed texts,
//! and that each call which allocates succeeds where there is memory. The tests of the crates below `asn1_model` are in
//! `test_values`.
//!
//! | Module | What it tries |
//! |---|---|
//! | `model` | what the definitions of records give: groups, CHOICE types, orders, heights, first tags, well-formed records |
//! | `fields` | field tables: canonical order, components with distinct tags |
//! | `components` | types with components that cannot be, a group inside a group, tables in static memory |
//! | `choices` | CHOICE types that cannot be, and one with an alternative after the extension marker |
//! | `enumerations` | an ENUMERATED type: its numbers and names |
//! | `types` | sets, open types and wrappers: worked values, and copies |
//! | `limits` | limits of each kind at types that have them, on both sides of an end |
//! | `encoder` | the number of elements that a codec gets beside the records |
//! | `errors` | the texts of all errors |
//! | `samples` | a type whose constraints take memory, and sets of values that are equal by a part |
//! | `packed` | types that are written and not read, and an entry point, in packed bytes |
//! | `streams` | what an `Iter` has unread, consumed and moved, and what comes out of pieces |
//! | `clash` | the search for components without distinct tags, against that of `asn1_fields` |
//!
//! The records that an example expects, and the types that it is about, are written out in `specs/`.
//!
//! A test is a list of calls of helpers; a helper makes one value, asserts, and drops it, which is the form that takes least
//! to prove.
#![tactic(auto)]

#[cfg(test)]
mod choices;
#[cfg(test)]
mod clash;
#[cfg(test)]
mod components;
#[cfg(test)]
mod encoder;
#[cfg(test)]
mod enumerations;
#[cfg(test)]
mod errors;
#[cfg(test)]
mod fields;
#[cfg(test)]
mod limits;
#[cfg(test)]
mod model;
#[cfg(test)]
mod packed;
#[cfg(test)]
mod samples;
#[cfg(test)]
mod streams;
#[cfg(test)]
mod types;
