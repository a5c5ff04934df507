//! The meaning of ASN.1 types to every codec: the tables that a schema has of a type, and the records of its values.
//!
//! A codec sees no type but records: a content under a tag, a scope with others inside, the bytes of an open type, and presence
//! marks. `docs/MODEL.md` explains this with a worked value.
//!
//! | Item | What it is | In `specs/` |
//! |---|---|---|
//! | [`AsnType`] | a type: its table, and by `meaning` what its values are, with the law of types | `Meaning`, `Kinds`, `Composites` |
//! | [`StringType`] | what a kind of string is: its tag, its name, and what its units are to a codec | |
//! | [`TypeTable`], [`TreeForm`] | what a schema says of a type; how its tree of tags follows from its tag | `TypeTables` |
//! | [`tag`] | markers of the tags that X.680 assigns | |
//! | [`can_begin_with`] | whether a value can begin with a tag, by the tree of its type | `Tags` |
//! | [`laws`] | the meaning of each type of this crate, written out | `BeginningTags`, `Premises` |
//!
//! Types of ASN.1 are here `()`, `bool`, the built-in integers, `Integer`, `ConstrainedInteger`, every kind of string, `&str`,
//! `ObjectIdentifier`, `Option`, references, `Box`, `Cow`, `Vec`, arrays, `&[T]` and `PhantomData`.
//!
//! The main promises (docs/PROMISES.md has more):
//!
//! - Each function of `AsnType` answers what `meaning` says, so the tables of a type and its records cannot disagree.
//! - A value of a well-tagged type is one record, no mark, which begins with one of the type's tags (`one_record` of
//!   `Meaning`).
//! - The records of a valid value are well formed (`records_of_a_valid_value_are_well_formed`).
//! - Records that are the same up to the order inside sets begin with the same tags and are nested as deep
//!   (`order_inside_sets_is_not_seen`).
//!
//! `specs/Records.antt` has the records and their heights, `RecordTables` the tables that they carry, `TaggedTypes` types
//! inside others, `Orders` sameness up to order, `WellFormed` what a valid value's records are, `ConstraintSets` sets of
//! constraints. `AsnType::constraints` takes memory if the type has a permitted alphabet (`without_alphabet`); no other call
//! takes any.
#![tactic(auto, using(asn1_tags::proofs::Leaves::tree_shapes))]

mod asn_type;
mod first_tags;
mod impls;
pub mod laws;
mod orders;
mod strings;
pub mod tag;
mod type_table;
mod well_formed;

pub use asn_type::AsnType;
pub use first_tags::can_begin_with;
pub use orders::order_inside_sets_is_not_seen;
pub use strings::StringType;
pub use type_table::{TreeForm, TypeTable};
pub use well_formed::records_of_a_valid_value_are_well_formed;
