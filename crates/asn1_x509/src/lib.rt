//! Certificates (RFC 5280, 4.1): their types, written and read by any codec.
//!
//! | Item | What it is |
//! |---|---|
//! | [`Certificate`], [`TbsCertificate`] | a certificate, and the part of it that is signed |
//! | [`Signed`] | a value of any type, with its signature |
//! | [`Name`], [`RelativeDistinguishedName`], [`AttributeTypeAndValue`] | the subject of a certificate, and its issuer |
//! | [`DirectoryString`] | a text in one of five kinds of string |
//! | [`Validity`], [`Time`] | the time in which a certificate is valid |
//! | [`AlgorithmIdentifier`], [`SubjectPublicKeyInfo`], [`RsaPublicKey`] | an algorithm, a public key, and a key of RSA |
//! | [`Extension`], [`Extensions`] | the extensions of a certificate |
//!
//! The types but [`Signed`] are in files made by `asn1_compile` of `examples/modules/x509.asn1`.
//!
//! The promises:
//!
//! - Each type is well tagged (`certificate_is_well_tagged` and the like), a [`Signed`] if the signed type is. So `round_trip` of
//!   `asn1_schema` holds of it.
//! - A certificate, and each of its parts, is valid if and only if the codec accepts each open type in it as one value: the
//!   parameters of its algorithms and the values of the attributes in its names (`certificate_is_valid` and the like;
//!   `specs/OpenValues`). Times, texts, RSA keys and extensions are valid whatever is in them.
//! - A version that is the first is its default, and is not written: `first_version_is_absent` states it of a certificate without
//!   unique names and extensions (`specs/CertificateRecords`).
//! - Equal values of a type are written alike, and in each value the components of a SET have distinct tags
//!   (`certificate_has_one_spelling` and the like). So equal certificates have the same records, up to the order inside sets
//!   (`equal_certificates_have_the_same_records`).
//!
//! The caller ensures the other constraints of the schema: a list has an element, and a text is a time.
#![tactic(auto, using(asn1_schema::proofs::Trees::tree_shapes))]

mod algorithm_identifier;
mod aliases;
mod attribute_type_and_value;
mod certificate;
mod directory_string;
mod extension;
mod laws;
mod name;
mod rsa_public_key;
mod signed;
mod subject_public_key_info;
mod tbs_certificate;
mod time;
mod valid;
mod validity;

pub use algorithm_identifier::{
    AlgorithmIdentifier, algorithm_identifier_has_one_spelling, algorithm_identifier_is_well_tagged,
};
pub use aliases::{
    AttributeType, AttributeValue, CertificateSerialNumber, Extensions, RdnSequence,
    RelativeDistinguishedName, UniqueIdentifier, Version, VersionNames,
};
pub use attribute_type_and_value::{
    AttributeTypeAndValue, attribute_type_and_value_has_one_spelling,
    attribute_type_and_value_is_well_tagged,
};
pub use certificate::{Certificate, certificate_has_one_spelling, certificate_is_well_tagged};
pub use directory_string::{
    DirectoryString, directory_string_has_one_spelling, directory_string_is_well_tagged,
};
pub use extension::{Extension, extension_has_one_spelling, extension_is_well_tagged};
pub use laws::{equal_certificates_have_the_same_records, first_version_is_absent};
pub use name::{Name, name_has_one_spelling, name_is_well_tagged};
pub use rsa_public_key::{
    RsaPublicKey, rsa_public_key_has_one_spelling, rsa_public_key_is_well_tagged,
};
pub use signed::{Signed, signed_is_valid, signed_is_well_tagged};
pub use subject_public_key_info::{
    SubjectPublicKeyInfo, subject_public_key_info_has_one_spelling,
    subject_public_key_info_is_well_tagged,
};
pub use tbs_certificate::{
    TbsCertificate, tbs_certificate_has_one_spelling, tbs_certificate_is_well_tagged,
};
pub use time::{Time, time_has_one_spelling, time_is_well_tagged};
pub use valid::{
    algorithm_identifier_is_valid, attribute_type_and_value_is_valid, certificate_is_valid,
    directory_string_is_valid, extension_is_valid, name_is_valid, rsa_public_key_is_valid,
    subject_public_key_info_is_valid, tbs_certificate_is_valid, time_is_valid, validity_is_valid,
};
pub use validity::{Validity, validity_has_one_spelling, validity_is_well_tagged};
