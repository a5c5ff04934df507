//! The types of these modules of ASN.1, in files made by `asn1_compile`:
//!
//! - `Signals`
#![tactic(auto, using(asn1_schema::proofs::Trees::tree_shapes))]

mod aliases;
mod answer;
mod answer_parts;
mod cause;
pub mod constants;
mod handling;
mod part;
mod request;
mod request_parts;
mod request_parts_object3;

pub use aliases::{Parts, Route};
pub use answer::{Answer, answer_has_one_spelling, answer_is_well_tagged};
pub use answer_parts::AnswerParts;
pub use cause::{Cause, cause_has_one_spelling, cause_is_well_tagged};
pub use handling::{Handling, handling_has_one_spelling, handling_is_well_tagged};
pub use part::{Part, part_has_one_spelling, part_is_well_tagged};
pub use request::{Request, request_has_one_spelling, request_is_well_tagged};
pub use request_parts::RequestParts;
pub use request_parts_object3::{
    RequestPartsObject3, request_parts_object3_has_one_spelling,
    request_parts_object3_is_well_tagged,
};
