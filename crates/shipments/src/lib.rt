//! The types of a module with constraints, as files for each type.
//!
//! ```text
//! Shipment ::= SEQUENCE {
//!     sender PrintableString (SIZE (1..64)),
//!     lines SEQUENCE SIZE (1..MAX) OF UTF8String,
//!     checksum [0] OCTET STRING (SIZE (16 | 20..32)) OPTIONAL,
//!     priority [1] INTEGER (1..10 | 20, ..., 30),
//!     code [2] IA5String (FROM ("0".."9" | "A".."F"))
//! }
//!
//! Destination ::= CHOICE {
//!     address UTF8String (SIZE (1..80)),
//!     code [0] NumericString (SIZE (5))
//! }
//!
//! Handling ::= SET {
//!     copies [0] INTEGER (1..10) DEFAULT 2,
//!     flags [1] BIT STRING { fragile(0), urgent(1) } (SIZE (8))
//! }
//! ```
//!
//! | Item | What it is |
//! |---|---|
//! | [`Shipment`] | the SEQUENCE |
//! | [`Destination`], [`Handling`] | the CHOICE and the SET |
//! | [`ChecksumSize`], [`Hexadecimal`] | a limit of two sizes, and an alphabet |
//!
//! The promises:
//!
//! - Each type is well tagged, and each of its values is valid (`shipment_is_well_tagged`, `shipment_is_valid` and the like).
//! - A shipment that is read back equals the one that was written, by any codec (`shipment_comes_back`). The call requires nothing.
//! - A program needs no test for a fact that a limit states (`first_line`), and none for a constant (`usual_copies`).
#![tactic(auto, using(asn1_schema::proofs::Trees::tree_shapes))]

mod destination;
mod handling;
mod limits;
mod shipment;
mod uses;

pub use destination::{Destination, destination_is_valid, destination_is_well_tagged};
pub use handling::{Handling, handling_is_valid, handling_is_well_tagged, usual_copies};
pub use limits::{ChecksumSize, Hexadecimal};
pub use shipment::{
    Shipment, shipment_has_one_spelling, shipment_is_valid, shipment_is_well_tagged,
};
pub use uses::{first_line, shipment_comes_back};
