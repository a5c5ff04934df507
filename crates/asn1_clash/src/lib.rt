//! A check that the components of a SEQUENCE or a SET have distinct tags, by sorting.
//!
//! `asn1_fields` has the rules of X.680 on distinct tags, and calls that compare each two components and take no memory.
//! This crate gives the same answers for large tables: leaves are sorted and neighbours compared, so the cost is in line
//! with the number of leaves times its logarithm, and the calls take memory. A compiler checks field tables with it, and a
//! program the components that it has read.
//!
//! | Item | What it is |
//! |---|---|
//! | [`FlatTree`] | a tree of tags as the rules look at it: its leaves, and whether a choice of nothing is in it |
//! | [`TreeSummary`] | whether a tag occurs twice in a tree, its smallest tag, and how many leaves it has |
//! | [`FlatComponent`] | a component: whether it may be absent, and its tree |
//! | [`find_sequence_clash`], [`find_set_clash`] | the least pair of components that do not have distinct tags |
//! | [`is_canonical`] | whether components are in canonical order |
//!
//! The contracts promise:
//!
//! - `find_sequence_clash` and `find_set_clash` answer the least pair of indices that breaks X.680's rule, and `None` if
//!   and only if there is none (`least`, and `report` as a function). The rules, and what the least pair is, are words of
//!   `asn1_fields` (`specs/DistinctTags.antt`), and so is the canonical order, which `is_canonical` decides (`ordered`,
//!   `report`). The answers are those for each table of which these are the flat components (`report_of_table`,
//!   `least_of_table`), so a caller with a field table gets the answers of the calls of `asn1_fields`.
//! - A flat tree is seen as a tree again, with the leaves side by side (`tree_view`, `component_view` in
//!   `specs/Views.antt`; `flat` in `specs/Flat.antt`). `FlatTree::of` and `FlatComponent::of_fields` make the flat form of
//!   what they are given (`flattened`; of a tree its leaves, `tags`, and whether it represents every tag,
//!   `empty_choice`).
//! - A `TreeSummary` says that no tag occurs twice (`unique`), the smallest tag (`smallest`) and the number of leaves
//!   (`count`); the leaves stay the same (`same_leaves`).
//!
//! Calls fail only if memory runs out.
//!
//! For proofs in other crates, `proofs/Flat.antt` shows that the rules depend on the flat form of a tree alone.
#![tactic(auto)]

mod flat_component;
mod flat_tree;
mod order;
mod search;
mod summary;

pub use flat_component::FlatComponent;
pub use flat_tree::FlatTree;
pub use order::is_canonical;
pub use search::{find_sequence_clash, find_set_clash};
pub use summary::TreeSummary;
