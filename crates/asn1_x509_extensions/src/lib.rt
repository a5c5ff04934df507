//! The standard extensions of certificates (RFC 5280, 4.2): their types, written and read by any codec.
//!
//! | Item | What it is |
//! |---|---|
//! | [`GeneralName`], [`GeneralNames`] | a name of one of nine kinds |
//! | [`AnotherName`], [`EdiPartyName`], [`OrAddress`] | three of these kinds; of an address of X.400 its components, unread |
//! | [`SubjectAltName`], [`IssuerAltName`] | the further names of the subject of a certificate, and of its issuer |
//! | [`BasicConstraints`] | whether a certificate is that of an authority |
//! | [`KeyUsage`], [`KeyUsageNames`], [`ExtKeyUsageSyntax`] | the usages and purposes of a key |
//! | [`SubjectKeyIdentifier`], [`AuthorityKeyIdentifier`] | the key of a certificate, and the key that signed it |
//!
//! The types are in files made by `asn1_compile` of `examples/modules/x509_extensions.asn1`. Their types of other crates:
//!
//! - `Name` is `asn1_x509::Name`
//! - `DirectoryString` is `asn1_x509::DirectoryString`
//! - `CertificateSerialNumber` is `asn1_x509::CertificateSerialNumber`
//!
//! The promises:
//!
//! - Each type is well tagged (`general_name_is_well_tagged` and the like), so `round_trip` of `asn1_schema` holds of it.
//! - A [`GeneralName`] is valid if and only if the codec accepts each open type in it as one value (`general_name_is_valid`;
//!   `specs/OpenNames`), an [`AnotherName`] if and only if it accepts its value, and an [`AuthorityKeyIdentifier`] if and only if
//!   it accepts those in the names of the issuer (`another_name_is_valid`, `authority_key_identifier_is_valid`).
//! - Each [`EdiPartyName`], [`BasicConstraints`], [`KeyUsage`], [`ExtKeyUsageSyntax`] and [`SubjectKeyIdentifier`] is valid, one
//!   with a negative path length too (`basic_constraints_is_valid`, `key_extensions_are_valid` and the like).
//!
//! The value of an [`asn1_x509::Extension`] is the bytes that a codec writes of one of these. The caller ensures the other
//! constraints of the schema: a list has an element, a path length is not negative, and a text has a length within its limits.
#![tactic(auto, using(asn1_schema::proofs::Trees::tree_shapes))]

mod aliases;
mod another_name;
mod authority_key_identifier;
mod basic_constraints;
mod edi_party_name;
mod general_name;
mod laws;
mod valid;

pub use aliases::{
    ExtKeyUsageSyntax, GeneralNames, IssuerAltName, KeyIdentifier, KeyPurposeId, KeyUsage,
    KeyUsageNames, OrAddress, SubjectAltName, SubjectKeyIdentifier,
};
pub use another_name::{AnotherName, another_name_has_one_spelling, another_name_is_well_tagged};
pub use authority_key_identifier::{
    AuthorityKeyIdentifier, authority_key_identifier_is_well_tagged,
};
pub use basic_constraints::{
    BasicConstraints, basic_constraints_has_one_spelling, basic_constraints_is_well_tagged,
};
pub use edi_party_name::{EdiPartyName, edi_party_name_is_well_tagged};
pub use general_name::{GeneralName, general_name_is_well_tagged};
pub use laws::key_extensions_are_well_tagged;
pub use valid::{
    another_name_is_valid, authority_key_identifier_is_valid, basic_constraints_is_valid,
    edi_party_name_is_valid, general_name_is_valid, key_extensions_are_valid,
};
