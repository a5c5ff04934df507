//! Tags of ASN.1 types, and trees of tags.
//!
//! | Item | What it is | In `specs/` |
//! |---|---|---|
//! | [`Class`] | one of the four classes of tags | `Tags` |
//! | [`Tag`], `tag!` | a class and a number, with a constant for each type of X.680; a macro that writes one | `Tags` |
//! | [`TagTree`] | the tags with which a type's encoding can begin: a tag, or the trees of a CHOICE | `Trees`, `Order` |
//! | [`Variants`], [`VariantsError`] | the tags of trees in one list, with a table for quick look-ups or none | `TagTables` |
//! | [`Identifier`] | the name of a type, with a constant for each type of X.680, or no name | `Names` |
//! | [`laws`] | the derives and the texts of these | `Derives` |
//!
//! The main promises (docs/PROMISES.md has more). A tree is seen as its `shape`, and is asked about its `leaves`, the tags from
//! left to right:
//!
//! - `Tag::const_cmp` and `Ord` are the canonical order (`canonical`, `as_ord`).
//! - `TagTree::smallest_tag` is the smallest of the leaves (`IsSmallest`). `is_unique`, `is_unique_set`, `tag_contains`,
//!   `shares_leaf`, `has_empty_choice` and `can_begin_with` are exact; `leaf_count` is the number of leaves wherever it fits.
//! - `leaf_position` is the first index of a tag among the leaves (`first`), and `leaf_at` the leaf at an index (`leaf`); each
//!   gives back what the other was asked (`back`), `leaf_at` if no tag is at two leaves.
//! - `Ord` of trees is total, and answers `Equal` for trees of one shape alone (`same`, `equal`).
//! - `Variants::with_table` succeeds, unless memory runs out, if and only if the table fits (`fits`, `fitting`), and else says
//!   where it fails first (`mismatch`). `find_counted` gives the first index of a tag, with a table in at most as many
//!   comparisons as the length has binary digits (`index`, `comparisons`).
//!
//! `new`, `from_static`, `from_slice`, `with_table` and `try_clone` of `Variants` take memory. For proofs in other crates
//! `proofs/` has `Leaves`, `Smallest`, `TagListTests`, `Positions`, `Fitting` and `Searching`.
#![tactic(auto)]

mod classes;
mod error;
mod flattened;
pub mod laws;
mod leaf_positions;
mod names;
mod order;
mod searches;
mod tables;
mod tags;
mod trees;
mod universal;
mod walks;

pub use classes::Class;
pub use error::VariantsError;
pub use flattened::Variants;
pub use names::Identifier;
pub use tags::Tag;
pub use trees::TagTree;
