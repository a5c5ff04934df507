//! The place in a value at which reading failed.
//!
//! | Item | What it is | In `specs/` |
//! |---|---|---|
//! | [`PathDecoder`] | a decoder that reads as another one does, and notes where in the value it is | `PathReader` |
//! | [`Place`], [`ElementTags`], [`Limits`] | the place: names of components and alternatives, elements before it, tags and limits of what is due there | |
//! | [`push_component_names`], [`alternative_name`] | the names that tables have | |
//!
//! A codec's error has no place in a value (docs/DECISIONS.md), and a type's error names one component at most. So who wants the place
//! reads the octets again with a [`PathDecoder`], of any codec, and asks it where it came to, or where an element lies that it was to
//! look for.
//!
//! The contracts promise that the depth left and failure are those of the decoder inside (`path_reader`), so reading with it ends and
//! nests no deeper. No contract covers the value or the error that it answers, nor the place, which the program test_texts shows. If
//! memory runs out, the place may be another.
#![tactic(auto)]

mod decoder;
mod names;
mod path;
mod place;

pub use decoder::PathDecoder;
pub use names::{alternative_name, push_component_names};
pub use place::{ElementTags, Limits, Place};
