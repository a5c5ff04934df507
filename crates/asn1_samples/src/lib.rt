//! Sample types, written and read: one of each kind, and those that are hard for a codec.
//!
//! | Type | What it is |
//! |---|---|
//! | [`Person`] | a SEQUENCE of two components |
//! | [`Notice`] | a SEQUENCE with a component under an explicit tag, which may be absent |
//! | [`Pair`] | a SEQUENCE of any two types |
//! | [`Profile`], [`Contact`] | a SEQUENCE with an option, a default and a group of additions, and the group |
//! | [`Visit`] | a SEQUENCE with an addition after such a group |
//! | [`Badge`] | a SET |
//! | [`Ticket`] | a SET with a default |
//! | [`Gauge`] | a SET with components under constraints of their own |
//! | [`Shape`], [`Corner`] | a CHOICE, and one that is an alternative of it without a tag |
//! | [`Color`] | an ENUMERATED with an extension marker |
//! | [`Envelope`] | a SEQUENCE with an open type |
//! | [`Labelled`] | a SEQUENCE that is compared by one of its components |
//! | [`Settings`] | a SEQUENCE whose default is such a value |
//! | [`Node`] | a SEQUENCE that holds itself, in a list |
//! | [`Plate`] | a string with a permitted alphabet |
//! | [`personnel`] | the record of X.690, annex A: a SET under a tag, a `DEFAULT {}`, and explicit tags |
//!
//! A type states its components, alternatives or items once. Most are written and read by a line for each, with no proof of their
//! own (`asn1_slots`). Three show the other forms of readers, which have proofs: an [`Envelope`] reads its components one after
//! another (`decode_fields`), a [`Badge`] reads parts (`DecodeSet`), and a [`Node`] is read by functions that call one another. A
//! [`Shape`] looks for its alternative in a table of leaves. Errors of [`Notice`], [`Pair`], [`Visit`], [`Ticket`], [`Gauge`] and
//! the types of [`personnel`] with components name a component. docs/TYPES.md explains how such types are written.
//!
//! The main promises (docs/PROMISES.md has more):
//!
//! - Each type is well tagged (`person_is_well_tagged` and the like), a [`Pair`] if its first type is, and its second under the
//!   tag that it has there. So `round_trip` of `asn1_rules` holds of it.
//! - An [`Envelope`] is valid if and only if the codec accepts its body as one value (`envelope_is_valid`), a [`Pair`] if and
//!   only if what it holds is (`pair_is_valid`), and each [`Node`] is (`each_node_is_valid`). [`laws`] has the valid values of
//!   the others.
//! - The records of each value are written out (`sequences_have_their_records` and the like of [`laws`]; `specs/SampleRecords`),
//!   of a personnel record those without children (`specs/PersonnelRecords`), and those of a node by those of its children
//!   (`node_has_its_records`; `specs/NodeComponents`). A node is nested two deeper than its children
//!   (`node_is_two_higher_than_its_children`).
//! - The table of leaves of a [`Shape`] fits them (`the_table_of_a_shape_fits`).
//!
//! `specs/BadgeParts` and `specs/ComponentNames` have the parts of a badge and the names of components. Memory is taken by a
//! codec, by values that are read, by the alphabet of a [`Plate`] and by the table of a [`Shape`].
#![tactic(auto, using(asn1_tags::proofs::Leaves::tree_shapes))]

mod badge;
mod color;
mod contact;
mod corner;
mod envelope;
mod gauge;
mod labelled;
pub mod laws;
mod node;
mod node_reader;
mod notice;
mod pair;
mod person;
pub mod personnel;
mod plate;
mod profile;
mod settings;
mod shape;
mod ticket;
mod visit;

pub use badge::{Badge, badge_is_well_tagged, badge_table_is_canonical};
pub use color::{Color, color_is_well_tagged};
pub use contact::Contact;
pub use corner::{Corner, corner_is_well_tagged};
pub use envelope::{Envelope, envelope_is_valid, envelope_is_well_tagged};
pub use gauge::{Gauge, gauge_is_well_tagged};
pub use labelled::{Labelled, labelled_is_well_tagged};
pub use node::{
    Node, each_node_is_valid, node_has_its_records, node_is_two_higher_than_its_children,
    node_is_well_tagged,
};
pub use notice::{Notice, notice_is_well_tagged};
pub use pair::{Pair, pair_is_valid, pair_is_well_tagged};
pub use person::{Person, person_is_well_tagged};
pub use plate::{Plate, plate_is_well_tagged};
pub use profile::{Profile, profile_is_well_tagged};
pub use settings::{Settings, settings_is_well_tagged};
pub use shape::{Shape, shape_is_well_tagged};
pub use ticket::{Ticket, ticket_is_well_tagged};
pub use visit::{Visit, visit_is_well_tagged};
