//! `Open`, rasn's `types::Open`: a value of one of nine types, which can hold another such value.
//!
//! ```text
//! Open ::= CHOICE {
//!     BitString        BIT STRING,
//!     Bool             BOOLEAN,
//!     Integer          INTEGER,
//!     Null             NULL,
//!     ObjectIdentifier OBJECT IDENTIFIER,
//!     OctetString      OCTET STRING,
//!     UniversalString  UniversalString,
//!     VisibleString    VisibleString,
//!     InstanceOf       INSTANCE OF
//! }
//! ```
//!
//! X.681's open type is `Any` of `asn1_types`.
//!
//! | Item | What it is |
//! |---|---|
//! | [`Open`] | the CHOICE |
//! | [`open_is_well_tagged`], [`each_open_is_valid`] | its premises of the round trip |
//! | [`an_instance_is_three_deeper_than_its_value`] | how deep a value is nested |
//! | [`laws`] | the names, the tags and the indices of its alternatives, and when two values are equal |
//!
//! The promises:
//!
//! - An `Open` is well tagged, and each value is valid, however deep (contracts of the two).
//! - An INSTANCE OF is nested three deeper than the value in it (`instance`), and every other alternative takes one scope
//!   (`others`). So a NULL inside `k` INSTANCE OF takes `1 + 3k` scopes.
//! - Two values are equal if and only if they are of one alternative, and what they hold is equal
//!   ([`laws::values_are_equal_by_their_contents`]).
//!
//! `specs/OpenAlternatives` has the alternatives and the meaning of a value, which is defined by recursion. Tables, meaning and
//! writer are proved to agree. An `Open` is read by functions that call one another, with the calls of `asn1_nesting` between
//! them, which open and close its scopes. The depth left of the decoder ends the recursion.
//!
//! A call takes memory where a codec does, and reading for the strings, the numbers and the boxes.
#![tactic(auto, using(asn1_tags::proofs::Leaves::tree_shapes))]

pub mod laws;
mod open_reader;
mod open_value;

pub use open_value::{
    Open, an_instance_is_three_deeper_than_its_value, each_open_is_valid, open_is_well_tagged,
};
