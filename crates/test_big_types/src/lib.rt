//! Types of the sizes that modules have, with no proof of their own.
//!
//! | Type | What it is |
//! |---|---|
//! | [`Address`] | a SEQUENCE of twelve strings |
//! | [`Consignment`] | a SEQUENCE of fifteen components, with large types, options and defaults among them |
//! | [`Member`], [`Reach`], [`Home`], [`Standing`] | a SEQUENCE with three groups of additions, and another addition |
//! | [`Measurement`] | a CHOICE of 25 alternatives |
//! | [`Element`] | an ENUMERATED of 46 items |
//! | [`Dossier`], [`Seal`] | a SEQUENCE with a SET under a tag, which may be absent |
//! | [`Tray`] | a SET with two groups of additions, and another addition, as `asn1_compile` prints it |
#![tactic(auto, using(asn1_schema::proofs::Trees::tree_shapes))]

mod address;
mod consignment;
mod dossier;
mod element;
mod home;
mod measurement;
mod member;
mod reach;
mod seal;
mod standing;
mod tray;
mod tray_additions;
mod tray_additions2;

pub use address::{Address, address_is_well_tagged};
pub use consignment::{Consignment, Strings, consignment_is_well_tagged};
pub use dossier::{Dossier, dossier_is_well_tagged};
pub use element::{Element, element_is_well_tagged};
pub use home::Home;
pub use measurement::{Measurement, measurement_is_well_tagged};
pub use member::{Member, member_is_well_tagged};
pub use reach::Reach;
pub use seal::{Seal, seal_is_well_tagged};
pub use standing::Standing;
pub use tray::{Tray, tray_is_well_tagged};
pub use tray_additions::TrayAdditions;
pub use tray_additions2::TrayAdditions2;
