//! Bounds of whole numbers (X.680, 51.2 and 51.4), and their intersections.
//!
//! | Item | What it is | In `specs/` |
//! |---|---|---|
//! | [`Bounded`] | no bound, a single value, or a range with or without each of its ends | `Ends`, `Members` |
//! | `contains`, `in_bound` | whether a bound has a value, or a number of any size | `Members` |
//! | `intersect` | the common members of two bounds | `Intersection` |
//! | `range`, `effective_value` | the number of members, and the offset of a member | `Count` |
//! | `range_in_bytes` | in how many octets both ends can be written, and with which sign | `Octets` |
//! | [`WholeNumber`] | a type of ends: each built-in integer | |
//! | [`FitsI128`] | one whose numbers an `i128` can hold | |
//! | [`laws`] | derived comparisons, the text of a bound, and the number of each built-in integer | `BoundComparison`, `Text` |
//!
//! The main promises (docs/PROMISES.md has more):
//!
//! - A bound contains a number if and only if it is between the ends (`inside` of [`Bounded::contains`]).
//! - An intersection has the common members (`members`). `None` comes only if there are none (`disjoint`), and always then if
//!   neither side is inverted (`inhabited`).
//! - [`Bounded::range`] answers for each bound with both ends how many members it has, or the type's greatest number if there are
//!   more (`closed`, `counted`).
//! - [`Bounded::effective_value`] answers the offset of a value from the start of a range (`offset`). It requires that the value
//!   is not below the start (`above`), and that the offset fits (`fits`).
//! - `range_in_bytes` answers the least of 1, 2, 4 and 8 octets that holds both ends, or none, and whether numbers of the bound
//!   need a sign (`octets`, `signed`).
//!
//! For the crates above, `proofs/IntersectionLaws` proves that intersection commutes and associates if a bound without members
//! takes the place of `None`. No call takes memory.
#![tactic(auto)]

pub use bounded::Bounded;
pub use number::{FitsI128, WholeNumber};

mod bounded;
mod integers;
mod intersection;
pub mod laws;
mod number;
mod octets;
