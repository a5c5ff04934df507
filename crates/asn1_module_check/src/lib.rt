//! Finds components of a schema that share a tag although X.680 forbids it.
//!
//! A reader identifies a component that may be absent, a component of a SET and an alternative of a CHOICE by its tag, so the
//! tags of such components have to differ (X.680, 25.6, 27.3 and 29.3). A component among the additions may be absent.
//!
//! | Item | What it is |
//! |---|---|
//! | [`list_constructed`] | each SEQUENCE, SET, CHOICE and group of a schema, with the first tags of its components |
//! | [`list_type`] | the same of a type beside the schema, as one in an object |
//! | [`Constructed`], [`ConstructedKind`], [`ComponentName`] | one of these |
//! | [`check_constructed`] | a problem for each type of such a list that has a clash: its first two components that share a tag |
//! | [`check_tags`] | the same of all types of a schema |
//! | [`check_extensible_choices`] | a problem for each extensible CHOICE of a SET but the first, which no contract covers |
//! | [`check_extensible_choices_in`] | the same for a type that the schema does not define |
//!
//! A problem has the place of the second component, and a text with the tag.
//!
//! The contracts promise:
//!
//! - [`check_tags`] finds no problem if and only if no type inside the schema, at any depth, has components that share a tag
//!   which must not (`accepted`; `IsFreeOfClashes` in `specs/DistinctTags`, in the words of `asn1_fields`). The types inside a
//!   schema are those of `types_of` in `asn1_resolved`.
//! - [`list_constructed`] lists the tables of all these types, in the order of the text (`complete`; `schema_tables` in
//!   `specs/Tables`), [`list_type`] those inside one type (`tables_in`). The tags with which a type begins are `first_tags` in
//!   `specs/FirstTags`: a reference begins as its definition, a CHOICE as each of its alternatives. A type with more than 100,000
//!   tags, and one that leads to no tag, counts as one that begins with any.
//! - [`check_constructed`] finds no problem if and only if no table of its list has a clash (`accepted`; `HasDistinctTags`).
//!
//! No contract covers the texts. The calls return for every schema, and fail only if memory runs out.
#![tactic(auto)]

mod clashes;
mod constructed;
mod extensible_choices;
mod first_tags;
mod list;
mod messages;
mod problems;
mod tables;

pub use constructed::{ComponentName, Constructed, ConstructedKind};
pub use extensible_choices::{check_extensible_choices, check_extensible_choices_in};
pub use list::{list_constructed, list_type};
pub use problems::{check_constructed, check_tags};
