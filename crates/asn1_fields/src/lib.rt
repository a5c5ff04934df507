//! Field tables of SEQUENCE and SET types, and X.680's rules on their tags as calls on a table.
//!
//! | Item | What it is | In `src/` | In `specs/` |
//! |---|---|---|---|
//! | [`Field`] | a row of a table: index, tag, tree of tags, presence and name | `field.rt` | `FieldViews` |
//! | [`FieldPresence`] | whether a component is always there, OPTIONAL or has a DEFAULT | `presence.rt` | `FieldViews` |
//! | [`Fields`] | a table of a known number of fields | `fields.rt` | `FieldLists` |
//! | [`TableField`] | an element of an array of which a table is made: a `Field` | `table_field.rt` | |
//! | [`FieldIter`] and the like | its fields, those that may be absent, and its names | `iterators.rt` | `FieldLists` |
//! | [`laws`] | laws of equality, order, default and clones | `laws.rt` | `FieldOrder` |
//! | [`first_sequence_clash`], [`first_set_clash`] | the rules on distinct tags | `distinct_tags.rt` | `DistinctTags` |
//! | [`is_canonical`] | the canonical order | `canonical_order.rt` | `CanonicalOrder` |
//!
//! The main promises (docs/PROMISES.md has more):
//!
//! - `first_sequence_clash` and `first_set_clash` answer the least pair of indices that breaks X.680's rule (`IsSequenceClash`,
//!   `IsSetClash`), and `None` if and only if there is none (`least`).
//! - `is_canonical` is true if and only if no field's smallest tag is above the next one's (`ordered`). Of all rearrangements
//!   of a table whose smallest tags differ, at most one is canonical (`at_most_one_rearrangement_is_canonical`).
//! - `Fields::from_static` has the fields of its array; `from_slice` answers a table if and only if a slice has as many as the
//!   type says (`counted`). Each iterator gives its items once, in the order of the table, and knows how many are left
//!   (`exact`).
//! - Fields are equal if and only if they say the same (`field_equal`), and go by what they say, part after part
//!   (`field_order`).
//!
//! No call takes memory. For proofs in other crates `proofs/` has `SharedTags`, `Clashes`, `CanonicalTest`, and `AlikeTables`:
//! the rules look at nothing of a tree but its leaves, and whether a choice of nothing is in it.
#![tactic(auto)]

mod canonical_order;
mod distinct_tags;
mod field;
mod fields;
mod iterators;
pub mod laws;
mod presence;
mod table_field;

pub use canonical_order::{at_most_one_rearrangement_is_canonical, is_canonical};
pub use distinct_tags::{first_sequence_clash, first_set_clash};
pub use field::Field;
pub use fields::Fields;
pub use iterators::{FieldIter, IdentifierIter, OptionalFieldIter};
pub use presence::FieldPresence;
pub use table_field::TableField;
