//! Elements, the bytes of DER (X.690): identifier octets, length octets and contents octets; the DER of records; positions in
//! DER.
//!
//! | Item | What it is | In `specs/` |
//! |---|---|---|
//! | [`find_element`], [`Element`], [`is_one_element`] | the element with which some bytes begin, and whether they are one | `Elements` |
//! | [`read_identifier`], [`Identified`] | the identifier octets with which some bytes begin | `Identifiers`, `Base128`, `Cuts` |
//! | [`number_of`] | the number of some bytes, the highest first | `Lengths` |
//! | [`begin_element`], [`end_element`], [`ElementError`] | write an element around its contents octets | `Elements` |
//! | [`append_primitive`], [`append_contents`] | write an element of a content, and the contents octets alone | `Contents` |
//! | [`append_integer`], [`read_integer`] | the contents octets of an INTEGER and an ENUMERATED | `Integers` |
//! | [`append_arcs`], [`read_arcs`] | the contents octets of an OBJECT IDENTIFIER | `Arcs` |
//! | [`append_teletex`] | the contents octets of a TeletexString | `Contents` |
//! | [`ContentOrder`] | the order of the elements inside a record | `Bytes` |
//! | [`first_fault`] | the first position where an element is due and none begins | `Faults` |
//! | [`position_at_path`] | the position to which a path leads through elements that hold others | `Paths` |
//! | [`laws`], [`record_laws`], [`fault_laws`] | laws of elements, of the DER of records, and of positions | `Bytes`, `DistinctTags` |
//!
//! The errors of reading, the contents that are written, and the octets of bits and of a BMPString are those of `asn1_items`.
//!
//! The main promises (docs/PROMISES.md has more):
//!
//! - An element has the shortest identifier and length (`IsElement`), and [`find_element`] finds it, whatever follows, and
//!   nothing else (`found`, `only`; [`laws::elements_are_found`]).
//! - [`append_contents`] appends X.690's contents octets of every kind (`appended`), and refuses only contents without any
//!   (`refused`).
//! - An integer has the fewest octets of two's complement, and is read of these alone (`only`).
//! - The DER of a record is one element (`HasDer`), but a CHOICE has that of its alternative and a presence mark none
//!   ([`record_laws`], clause by clause).
//! - [`first_fault`] answers a position where an element is due and none begins, after elements alone, down to the depth
//!   (`fault`); if none, the bytes are elements down to it (`none`). Both never hold of the same bytes ([`fault_laws`]).
//!
//! [`find_element`] copies nothing, and reserves no memory by the length that bytes tell.
#![tactic(auto)]

mod arcs_read;
mod arcs_written;
mod base128;
mod content_order;
mod contents;
mod elements;
mod error;
mod fault;
pub mod fault_laws;
mod identifiers;
mod integers;
pub mod laws;
mod lengths;
mod path;
pub mod record_laws;
mod teletex;

pub use arcs_read::read_arcs;
pub use arcs_written::append_arcs;
pub use content_order::ContentOrder;
pub use contents::append_contents;
pub use elements::{
    Element, append_primitive, begin_element, end_element, find_element, is_one_element,
};
pub use error::ElementError;
pub use fault::first_fault;
pub use identifiers::{Identified, read_identifier};
pub use integers::{append_integer, read_integer};
pub use lengths::number_of;
pub use path::position_at_path;
pub use teletex::append_teletex;
