//! Reads components into slots and alternatives by their tags, with one line of the type for each index.
//!
//! A slot is an option for a component, empty at first. A type lists its components once, each with its slot, and has a line for
//! each index: the call that reads this component. A CHOICE lists its alternatives, each with the variant that makes a value of
//! it, and has such lines too. A line that is one call of this crate needs no proof.
//!
//! | Item | What it is | In `specs/` |
//! |---|---|---|
//! | [`DecodeByIndex`] | a SEQUENCE or a group of additions: its slots, and the call for each component | `Slots` |
//! | [`decode_fields_by_index`] | reads components, and answers errors unchanged | `ReadSlots` |
//! | [`decode_fields_naming_errors`] | reads components; errors name the component | `ReadSlots` |
//! | [`decode_sequence_naming_errors`] | reads a SEQUENCE | `ReadSlots` |
//! | [`DecodeSetByIndex`], [`decode_set_by_index`] | a SET, whose components come in any order | `InSets` |
//! | [`required`], [`optional`], [`addition`], [`group`] | read a component into its slot, and answer [`Decoded`] | `Filling` |
//! | [`decode_unique`] | the same in a SET | `Filling` |
//! | [`component_of_group`], [`missing_in_group`], [`group_of_slots`] | a group of additions of a SET, in slots of its own | `GroupsInSets` |
//! | [`required_with_constraints`], [`decode_unique_with_constraints`] | the same, under constraints | `Filling` |
//! | [`missing`], [`or_default`], [`or_empty`] | the name of an empty slot, and values with a default | `Slots` |
//! | [`DecodeChoiceByIndex`], [`alternative`] | a CHOICE: its cases, and the call for each alternative | `Cases` |
//! | [`from_tag_by_index`], [`from_tag_by_table`] | read the alternative that can begin with a tag | `TagIndices` |
//! | [`index_of_tag`] | its index | `TagIndices` |
//! | [`Tagging`] | the tagging of a component or an alternative | `Taggings` |
//! | [`NotRead`], [`in_component`] | a component that was not read, and its error with its name | `ReadSlots` |
//! | [`laws`] | a component with a default is absent if it has the default, and only then | `Slots` |
//! | [`written_alike`] | types whose equal values are written alike | |
//!
//! The main promises (docs/PROMISES.md has more):
//!
//! - [`decode_sequence_naming_errors`] and [`decode_set_by_index`] keep the contract of `Decode` of `asn1_dec` (`read`,
//!   `after_reading`), and the calls for components alone that of `decode_fields` (`read`). Premises: the layout is that of the
//!   type's components (`laid_out`) and their kind fits (`kind`); in a SET each component can be read in one
//!   (`can_be_read`), and slots are empty at first (`empty_at_first`).
//! - If the records of a valid value of a well-tagged type remain, and the value meets its type's invariant, a call for a
//!   component leaves an equal value in the empty slot, or memory or depth refuses (`read`). If it may be absent, what follows
//!   has to begin with none of its tags.
//! - A success fills the slot of a required component (`is_full` of `Fills`). In a SET a component that comes again is refused by
//!   its name (`twice` of `FillsOnce`).
//! - No error of [`decode_fields_naming_errors`] or [`decode_unique`] lacks a name, unless it is about the decoder or the whole
//!   input (`named`). Tests alone show that the name is that of this component.
//! - [`from_tag_by_index`] and [`from_tag_by_table`] read as `from_tag` of `asn1_dec`, if the type's alternatives are those of
//!   its cases (`read`). A tag that no alternative has is refused with the type's name, unless memory runs out (`unknown`).
#![tactic(auto)]

mod by_index;
mod calls;
mod cases;
mod choice_by_index;
mod constrained;
mod errors;
mod group_in_set;
pub mod laws;
mod set_by_index;
mod slot_values;
mod tag_indices;
mod tagged;
mod tagging;
pub mod written_alike;

pub use by_index::{
    DecodeByIndex, NotRead, decode_fields_by_index, decode_fields_naming_errors,
    decode_sequence_naming_errors,
};
pub use calls::{Decoded, addition, decode_unique, group, optional, required};
pub use cases::alternative;
pub use choice_by_index::{DecodeChoiceByIndex, from_tag_by_index, from_tag_by_table};
pub use constrained::{decode_unique_with_constraints, required_with_constraints};
pub use errors::in_component;
pub use group_in_set::{component_of_group, group_of_slots, missing_in_group};
pub use set_by_index::{DecodeSetByIndex, decode_set_by_index};
pub use slot_values::{missing, or_default, or_empty};
pub use tag_indices::index_of_tag;
pub use tagging::Tagging;
