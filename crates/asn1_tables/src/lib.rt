//! Values of open types: read of their octets by the type that something beside them tells, and written.
//!
//! | Item | What it is | In `specs/` |
//! |---|---|---|
//! | [`read_open`] | the value of a type that octets are read as | `OpenValues` |
//! | [`open_round_trip`] | writes a value as the octets of an open type, and reads it of these | `OpenValues` |
//!
//! The promises: [`read_open`] answers what `read_value` may answer of an output of these octets, or memory ran out; so each value that
//! it answers was read of records that this output carries. And a valid value of a well-tagged type comes back equal of the octets that
//! `write_value` makes of it, unless memory or depth refuses, with each codec for which the bytes of an output tell what it carries
//! (`back` of [`open_round_trip`]).
#![tactic(auto)]

mod reading;
mod round_trips;

pub use reading::read_open;
pub use round_trips::open_round_trip;
