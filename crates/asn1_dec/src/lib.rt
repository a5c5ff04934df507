//! Reads values of ASN.1 types from codecs.
//!
//! A [`Decoder`] reads records, and a type implements [`Decode`] by calls of a decoder. So each type is read once for all codecs.
//!
//! | Item | What it is | In `specs/` of `asn1_laws` |
//! |---|---|---|
//! | [`Decoder`] | a codec: the primitive calls, and on these the calls for whole types | `Reading`, `ReadingTypes` |
//! | [`Decode`] | a type whose values are read, by four entry points | `Reading`, `Refusals` |
//! | [`DecodeFields`] | a type whose components are read in their order: a SEQUENCE or a group of additions | `ReadingTypes` |
//! | [`DecodeChoice`] | a CHOICE whose alternatives are read | `ReadingTypes` |
//! | [`DecodeSet`], [`keep_once`] | a SET whose components are read in whatever order they come | `SetParts` |
//! | [`finish_sequence`] | the end of a SEQUENCE whose components were read | `OpenSequences` |
//! | [`component_with_tag`] | the component of a SET that begins with a tag | |
//! | [`DecodeError`], [`Needed`] | why a value was not read | `DecodeErrors` |
//! | [`laws`] | the records that types refuse | `Refusals` |
//!
//! Each type of the language and of the lower crates that implements `AsnType` is read, but `u128`, references, slices, markers
//! of tags, and arrays: an array of octets is read, and another as an `Array` of `asn1_types`.
//!
//! The main promises (docs/PROMISES.md has more):
//!
//! - The records of a value are read as an equal value, and what follows them remains; an error is `Memory`, or `Depth` for
//!   records nested deeper than the depth left (`read` of each entry point). Premises: the type is well tagged under the asked
//!   tag, the value is valid and meets its type's invariant, and what follows a value that may be absent begins with no tag of
//!   its type.
//! - Records that a type states to refuse get the type's error, unless memory or depth refuses (`refuses`): a number outside its
//!   limits, a list of another length than the array's. For other records there is no promise about the answer.
//! - After an error of an entry point the decoder has failed; or the error is the type's own, and the decoder is past the value
//!   if it was before a valid one; or memory ran out for an alphabet of the type's constraints, and the decoder is unchanged
//!   (`after_reading`).
//! - A call of [`Decoder`] that fails makes it failed, and a failed decoder answers `Failed` (`keeps_depth`, `opens_nothing`,
//!   `takes_depth`, `gives_depth_back`). Where no depth is left, a call that opens a scope answers `Depth`, before anything but
//!   `Failed` (`depth_first`).
//! - The order inside sets means nothing to a decoder (`lawful`). A codec that states what remains in one order gets that law by
//!   `up_to_order` (`ReadingUpToOrder`).
//!
//! Calls that make values take memory, and so do constraints that have a permitted alphabet.
#![tactic(auto)]

mod boxes;
mod choices;
mod decode;
mod decode_set;
mod decoder;
mod defaults;
mod elements;
mod enumerations;
mod explicit_tags;
mod fields;
mod impls;
pub mod laws;
mod optionals;
mod sequences;
mod sets;
mod sets_of;
mod values;

pub use asn1_laws::{DecodeError, Needed};
pub use decode::{Decode, DecodeChoice, DecodeFields};
pub use decode_set::{DecodeSet, keep_once};
pub use decoder::Decoder;
pub use fields::component_with_tag;
pub use sequences::finish_sequence;
