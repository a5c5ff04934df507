//! The types of ASN.1 that are made of others: sets of values, open types, tagged types and INSTANCE OF.
//!
//! The crate also exports names of `asn1_tags`, `asn1_bounds`, `asn1_model`, `asn1_fields` and `asn1_components`: `Tag`,
//! `AsnType`, `Field`, `FieldTable`, `ConstructedType`, `Choice`, `Enumerated` and the like.
//!
//! | Item | What it is |
//! |---|---|
//! | [`SetOf`] | a SET OF: elements in no order, each as often as it occurs |
//! | [`SequenceOf`], [`Array`] | a SEQUENCE OF: a vector; of a fixed length: an array, in a struct of its own |
//! | [`Any`] | a value of an open type, as the bytes that a codec makes of it |
//! | [`Implicit`], [`Explicit`] | a value under another tag, which replaces its own, or comes before it |
//! | [`InstanceOf`] | the name of a type, and a value of that type |
//! | [`CodecString`], [`Utf8`] | a kind of string, as a codec writes and reads it; the marker of UTF8String |
//! | [`AnyStr`], [`AnyString`] | a string of whatever kind, as a codec is given it, and as it has read it |
//! | [`StringKind`], [`OctetKind`] | a kind of string, by which a codec tells it from others |
//!
//! The main promises (docs/PROMISES.md has more):
//!
//! - Two sets are equal if and only if some rearrangement of the second is element by element equal to the first
//!   (`equal_sets_have_the_same_elements`, `SetOf::eq_slice`, by `SameElements` of `specs/Multisets.antt`).
//! - `SetOf::insert` puts the element last (`inserted`), or gives it back (`given_back`) and changes nothing (`unchanged`);
//!   `SetOf::remove` takes the first equal one (`found`, `taken`). `from_slice`, `from_array` and `try_clone` hold clones
//!   (`clones`).
//! - An `Array` means what its array means (`laws::arrays_are_their_elements`).
//! - `CodecString::from_any` makes a string of the units of one of its kind (`found`), and of no other (`only`).
//! - `Any`, `Implicit`, `Explicit` and `InstanceOf` are compared, ordered, hashed and cloned by what they hold
//!   (`laws::values_are_compared_by_what_they_hold`). `Implicit` and `Explicit` are written by what they hold, and a set as a
//!   vector of its elements (`laws::values_are_written_as_what_they_hold`).
//!
//! Each type means a word of `specs/Kinds.antt`, as `set_of_type`. `specs/Words.antt` has the words for a type of your own,
//! from all crates below; `specs/AnyStrings.antt` the content of a string of whatever kind; `specs/formers` how a set holds
//! elements of its own type. A call that allocates fails only if memory runs out.
#![tactic(auto, using(asn1_tags::proofs::Leaves::tree_shapes))]

mod any;
mod any_string;
mod array;
mod codec_string;
mod explicit;
mod implicit;
mod instance_of;
pub mod laws;
mod sequence_of;
mod set_of;

pub use any::Any;
pub use any_string::{AnyStr, AnyString, OctetKind, StringKind};
pub use array::Array;
pub use asn1_bounds::{
    Bounded, ConstraintTable, Constraints, Extensible, PermittedAlphabet, Size, Value,
};
pub use asn1_components::{
    Choice, ChoiceType, Constructed, ConstructedType, DiscriminantIter, Enumerated,
    EnumeratedItems, EnumerationItem, FieldTable, ItemIdentifierIter, VariantIter,
    alternatives_are_as_in_records, components_are_identified_by_tags, field_in,
    tables_are_in_order, the_chosen_tag_identifies_the_alternative, written_number,
};
pub use asn1_fields::{
    Field, FieldIter, FieldPresence, Fields, IdentifierIter, OptionalFieldIter, TableField,
    at_most_one_rearrangement_is_canonical, first_sequence_clash, first_set_clash, is_canonical,
};
pub use asn1_model::{
    AsnType, StringType, TreeForm, TypeTable, order_inside_sets_is_not_seen,
    records_of_a_valid_value_are_well_formed, tag,
};
pub use asn1_tags::{Class, Identifier, Tag, TagTree};
pub use codec_string::{CodecString, Utf8};
pub use explicit::Explicit;
pub use implicit::Implicit;
pub use instance_of::InstanceOf;
pub use sequence_of::SequenceOf;
pub use set_of::{SetOf, equal_sets_have_the_same_elements};
