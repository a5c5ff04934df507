//! The lists of which constructed types are made: components, alternatives and items (X.680, 20, 25, 27 and 29).
//!
//! A type states its list once. The records of its values, its table, its tags and which values are valid follow from that list.
//!
//! | Item | What it is | In `specs/` |
//! |---|---|---|
//! | [`FieldTable`] | the components of a SEQUENCE, a SET or a group, and their table | `ComponentTypes`, `ComponentLists` |
//! | [`ConstructedType`] | a type whose meaning is that of its components | `Components` |
//! | [`Constructed`], [`field_in`] | a type whose table is in static memory | |
//! | [`components_are_identified_by_tags`] | the law for readers of components | `Following` |
//! | [`tables_are_in_order`] | the law of the tables | |
//! | [`Choice`] | the alternatives of a CHOICE, and their names | `Alternatives` |
//! | [`ChoiceType`] | a type whose meaning is that of its alternatives | `ChoiceTypes`, `UntaggedItself` |
//! | [`the_chosen_tag_identifies_the_alternative`] | the law for decoders of a CHOICE | `ChosenTags` |
//! | [`alternatives_are_as_in_records`] | the law of the table that records carry | |
//! | [`EnumeratedItems`], [`EnumerationItem`] | the tables of an ENUMERATED, and a row of them | `Enumerations`, `ItemTables` |
//! | [`Enumerated`] | a type whose meaning is that of its items | `EnumerationTypes`, `EnumerationLaws` |
//! | [`written_number`] | the number in the records of a value | |
//! | [`EnumeratedTable`] | numbers and names of items, as a codec knows them | `Labels`, `LabelLaws` |
//! | [`VariantIter`], [`DiscriminantIter`] | the values of a table, and these with their numbers | `ItemTables` |
//! | [`ItemIdentifierIter`] | the names of a table | `ItemTables` |
//! | [`laws`] | the laws of the iterators | |
//!
//! The main promises (docs/PROMISES.md has more):
//!
//! - A type means what its list means: the law `agrees` of [`ConstructedType`], [`ChoiceType`] and [`Enumerated`], which each
//!   implementation proves.
//! - The calls on a table answer the table of the list (their contracts). The root of a SET's table is in canonical order
//!   (`canonical`), and records carry the table (`as_in_records` of [`tables_are_in_order`]).
//! - In a well-tagged SEQUENCE, what follows a component that may be absent begins with none of its tags (`sequence`). So it is
//!   in a group with distinct tags, if what follows the group begins with none of the group's (`group`). In a well-tagged SET no
//!   two components share a tag (`set`).
//! - In a well-tagged CHOICE the chosen alternative is one record that begins with one of its own tags, and no other alternative
//!   has that tag (X.680, 29.3).
//! - The number or the name of an item gives its value back, and nothing else does (`back`, `only` of `from_discriminant` and
//!   `from_identifier`).
//!
//! No call takes memory.
#![tactic(auto)]

mod choices;
mod constructed;
mod enumerated;
mod enumerated_items;
mod enumerated_table;
mod field_table;
mod following;
mod items;
mod iterators;
pub mod laws;
mod table_order;

pub use choices::{
    Choice, ChoiceType, alternatives_are_as_in_records, the_chosen_tag_identifies_the_alternative,
};
pub use constructed::{Constructed, field_in};
pub use enumerated::{Enumerated, written_number};
pub use enumerated_items::EnumeratedItems;
pub use enumerated_table::EnumeratedTable;
pub use field_table::{ConstructedType, FieldTable};
pub use following::components_are_identified_by_tags;
pub use items::EnumerationItem;
pub use iterators::{DiscriminantIter, ItemIdentifierIter, VariantIter};
pub use table_order::tables_are_in_order;
