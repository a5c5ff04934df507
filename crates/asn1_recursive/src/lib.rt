//! A sample CHOICE that holds itself, read by two functions of its own, without `asn1_circles`. `Node` of `asn1_samples` is a SEQUENCE
//! that does, and `asn1_compile` prints others.
//!
//! | Item | What it is | In `specs/` |
//! |---|---|---|
//! | [`Nested`] | a CHOICE with its own type inside, under a tag | `NestedAlternatives` |
//! | [`laws`] | the names of its alternatives | |
//!
//! The promises:
//!
//! - The type is well tagged (`nested_is_well_tagged`), so `round_trip` of `asn1_rules` holds of it.
//! - Each value is valid, whatever is inside (`each_nested_is_valid`).
//!
//! The meaning of a value is defined by recursion, and the table is proved to agree with it. The type is read by two functions that
//! call one another, with the calls of `asn1_nesting` between them. Each opens a scope first, so the depth left of the decoder ends
//! the recursion.
//!
//! The prover wants such a type, its table, its writer and its reader in one crate. Memory is taken by a codec, and in reading
//! for the values inside.
#![tactic(auto, using(asn1_tags::proofs::Leaves::tree_shapes))]

pub mod laws;
mod nested;

pub use nested::{Nested, each_nested_is_valid, nested_is_well_tagged};
