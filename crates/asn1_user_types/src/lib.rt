//! Types of a shop, as a user of the layer writes them: code, clauses and proofs name `asn1_schema` alone.
//!
//! | Type | What it is |
//! |---|---|
//! | [`Price`] | a SEQUENCE |
//! | [`Currency`] | an ENUMERATED |
//! | [`Payment`] | a CHOICE |
//! | [`Order`] | a SET, with a SET OF inside |
//! | [`Signed`] | a SEQUENCE of any type |
//! | [`Parcel`] | a CHOICE that holds itself (`specs/ParcelAlternatives`) |
//!
//! The promises:
//!
//! - A [`Price`], a [`Currency`] and an [`Order`] are well tagged, and a [`Signed`] is if its content is (`price_is_well_tagged`
//!   and the like). For a [`Parcel`] it is a lemma (proofs/ParcelLaws); for a [`Payment`] no clause says it, but the proof of
//!   `signed_payment_comes_back` uses it.
//! - Each [`Price`], [`Currency`] and [`Order`] is valid, and a [`Signed`] if and only if its content is (`price_is_valid` and
//!   the like).
//! - A signed order or payment that is read back equals the one that was written, by any codec (`signed_order_comes_back`,
//!   `signed_payment_comes_back`).
//!
//! So `my_types: asn1_schema` is enough in `crates.txt` for each kind of type. Only a clause with the meaning of a CHOICE by its
//! type, as `⟦<Payment as AsnType>⟧.meaning`, needs `asn1_tags` there too. docs/TYPES.md explains how such types are written;
//! `asn1_samples` and `asn1_recursive` have more of each kind, over the crates below `asn1_schema`.
#![tactic(auto, using(asn1_schema::proofs::Trees::tree_shapes))]

mod currency;
mod order;
mod parcel;
mod parcel_reader;
mod payment;
mod price;
mod signed;
mod validity;

pub use currency::{Currency, currency_is_well_tagged};
pub use order::{Order, order_is_well_tagged};
pub use parcel::Parcel;
pub use payment::Payment;
pub use price::{Price, price_is_well_tagged};
pub use signed::{
    Signed, signed_is_well_tagged, signed_order_comes_back, signed_payment_comes_back,
};
pub use validity::{currency_is_valid, order_is_valid, price_is_valid, signed_is_valid};
