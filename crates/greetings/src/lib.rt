//! The types of these modules of ASN.1, in files made by `asn1_compile`:
//!
//! - `Greetings`
#![tactic(auto, using(asn1_schema::proofs::Trees::tree_shapes))]

mod audience;
mod greeting;

pub use audience::{Audience, audience_has_one_spelling, audience_is_well_tagged};
pub use greeting::{Greeting, greeting_has_one_spelling, greeting_is_well_tagged};
