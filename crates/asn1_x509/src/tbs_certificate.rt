//! `TBSCertificate` of the module `PKIX1Explicit88`.
//!
//! ```text
//! TBSCertificate ::= SEQUENCE {
//!     version [0] Version DEFAULT v1,
//!     serialNumber CertificateSerialNumber,
//!     signature AlgorithmIdentifier,
//!     issuer Name,
//!     validity Validity,
//!     subject Name,
//!     subjectPublicKeyInfo SubjectPublicKeyInfo,
//!     issuerUniqueID [1] IMPLICIT UniqueIdentifier OPTIONAL,
//!     subjectUniqueID [2] IMPLICIT UniqueIdentifier OPTIONAL,
//!     extensions [3] Extensions OPTIONAL
//! }
//! ```
ghost use Rattle.std.specs.Prelude.{[], codes, pos, ◌∷◌};
ghost use Rattle.asn1_schema.specs.Words.{IsWellTagged, constructed_agrees, constructed_type, context, default_slot, explicitly_tagged, optional_slot, required_slot, sequence_of_slots, tagged, untagged};
ghost use Rattle.asn1_model.specs.DistinctSets.{SetsAreDistinct};
ghost use Rattle.asn1_model.specs.WrittenAlike.{AreWrittenAlike};

use crate::algorithm_identifier::{AlgorithmIdentifier, algorithm_identifier_has_one_spelling};
use crate::aliases::{CertificateSerialNumber, Extensions, UniqueIdentifier, Version};
use crate::extension::{Extension, extension_has_one_spelling};
use crate::name::{Name, name_has_one_spelling};
use crate::subject_public_key_info::{
    SubjectPublicKeyInfo, subject_public_key_info_has_one_spelling,
};
use crate::validity::{Validity, validity_has_one_spelling};
use asn1_schema::{
    AsnType, Constraints, ConstructedType, Decode, DecodeByIndex, DecodeError, Decoded, Decoder,
    Encode, EncodeError, EncodeFields, Encoder, Field, FieldTable, Identifier, Tag, Tagging,
    TypeTable, decode_sequence_naming_errors, encode_explicit_optional, optional, or_default,
    required,
};
use asn1_spelling::{equal_lists_are_written_alike, sets_in_lists_are_distinct};
use asn1_tags::tag;
use std::alloc::{AllocError, Global};

/// `TBSCertificate` of the module `PKIX1Explicit88`.
#[derive(PartialEq, Eq, Debug, Drop)]
pub struct TbsCertificate {
    /// `version [0] Version DEFAULT v1`
    pub version: Version,
    /// `serialNumber CertificateSerialNumber`
    pub serial_number: CertificateSerialNumber,
    /// `signature AlgorithmIdentifier`
    pub signature: AlgorithmIdentifier,
    /// `issuer Name`
    pub issuer: Name,
    /// `validity Validity`
    pub validity: Validity,
    /// `subject Name`
    pub subject: Name,
    /// `subjectPublicKeyInfo SubjectPublicKeyInfo`
    pub subject_public_key_info: SubjectPublicKeyInfo,
    /// `issuerUniqueID [1] IMPLICIT UniqueIdentifier OPTIONAL`
    pub issuer_unique_id: Option<UniqueIdentifier>,
    /// `subjectUniqueID [2] IMPLICIT UniqueIdentifier OPTIONAL`
    pub subject_unique_id: Option<UniqueIdentifier>,
    /// `extensions [3] Extensions OPTIONAL`
    pub extensions: Option<Extensions>,
}

impl DecodeByIndex for TbsCertificate {
    type Slots = (
        Option<Version>,
        Option<CertificateSerialNumber>,
        Option<AlgorithmIdentifier>,
        Option<Name>,
        Option<Validity>,
        Option<Name>,
        Option<SubjectPublicKeyInfo>,
        Option<UniqueIdentifier>,
        Option<UniqueIdentifier>,
        Option<Extensions>,
    );

    ghost layout = { default_slot (codes "version") (λ v. v.version) (pos 0) (λ s. s.0) (explicitly_tagged (context 0) ⟦<Version as AsnType>⟧.meaning) ⟦<Version as PartialEq>⟧.eq ∷
        required_slot (codes "serialNumber") (λ v. v.serial_number) (λ s. s.1) (untagged ⟦<CertificateSerialNumber as AsnType>⟧.meaning) ⟦<CertificateSerialNumber as PartialEq>⟧.eq ∷
        required_slot (codes "signature") (λ v. v.signature) (λ s. s.2) (untagged ⟦<AlgorithmIdentifier as AsnType>⟧.meaning) ⟦<AlgorithmIdentifier as PartialEq>⟧.eq ∷
        required_slot (codes "issuer") (λ v. v.issuer) (λ s. s.3) (untagged ⟦<Name as AsnType>⟧.meaning) ⟦<Name as PartialEq>⟧.eq ∷
        required_slot (codes "validity") (λ v. v.validity) (λ s. s.4) (untagged ⟦<Validity as AsnType>⟧.meaning) ⟦<Validity as PartialEq>⟧.eq ∷
        required_slot (codes "subject") (λ v. v.subject) (λ s. s.5) (untagged ⟦<Name as AsnType>⟧.meaning) ⟦<Name as PartialEq>⟧.eq ∷
        required_slot (codes "subjectPublicKeyInfo") (λ v. v.subject_public_key_info) (λ s. s.6) (untagged ⟦<SubjectPublicKeyInfo as AsnType>⟧.meaning) ⟦<SubjectPublicKeyInfo as PartialEq>⟧.eq ∷
        optional_slot (codes "issuerUniqueID") (λ v. v.issuer_unique_id) (λ s. s.7) (tagged (context 1) ⟦<UniqueIdentifier as AsnType>⟧.meaning) ⟦<UniqueIdentifier as PartialEq>⟧.eq ∷
        optional_slot (codes "subjectUniqueID") (λ v. v.subject_unique_id) (λ s. s.8) (tagged (context 2) ⟦<UniqueIdentifier as AsnType>⟧.meaning) ⟦<UniqueIdentifier as PartialEq>⟧.eq ∷
        optional_slot (codes "extensions") (λ v. v.extensions) (λ s. s.9) (explicitly_tagged (context 3) ⟦<Extensions as AsnType>⟧.meaning) ⟦<Extensions as PartialEq>⟧.eq ∷ [] };

    fn full(_alloc: Global, slots: Self::Slots) -> Result<Self, AllocError> {
        Ok(Self {
            version: or_default(slots.0, Version::from_i128(0)),
            serial_number: slots.1.unwrap(),
            signature: slots.2.unwrap(),
            issuer: slots.3.unwrap(),
            validity: slots.4.unwrap(),
            subject: slots.5.unwrap(),
            subject_public_key_info: slots.6.unwrap(),
            issuer_unique_id: slots.7,
            subject_unique_id: slots.8,
            extensions: slots.9,
        })
    }

    fn decode_field<D: Decoder>(index: usize, slots: &mut Self::Slots, decoder: &mut D) -> Decoded {
        match index {
            0 => optional(&mut slots.0, decoder, Tagging::Explicit(tag!(context 0))),
            1 => required(&mut slots.1, decoder, Tagging::Untagged),
            2 => required(&mut slots.2, decoder, Tagging::Untagged),
            3 => required(&mut slots.3, decoder, Tagging::Untagged),
            4 => required(&mut slots.4, decoder, Tagging::Untagged),
            5 => required(&mut slots.5, decoder, Tagging::Untagged),
            6 => required(&mut slots.6, decoder, Tagging::Untagged),
            7 => optional(&mut slots.7, decoder, Tagging::Tagged(tag!(context 1))),
            8 => optional(&mut slots.8, decoder, Tagging::Tagged(tag!(context 2))),
            9 => optional(&mut slots.9, decoder, Tagging::Explicit(tag!(context 3))),
            _ => Ok(()),
        }
    }
}

impl FieldTable for TbsCertificate {
    ghost components = { sequence_of_slots ⟦<TbsCertificate as DecodeByIndex>⟧.layout };

    fn field_count() -> usize {
        10
    }

    fn field_at(index: usize) -> Option<Field<'static>> {
        match index {
            0 => Some(Field::new_default_explicit(0, tag!(context 0), "version")),
            1 => Some(Field::new_required_type::<CertificateSerialNumber>(1, "serialNumber")),
            2 => Some(Field::new_required_type::<AlgorithmIdentifier>(2, "signature")),
            3 => Some(Field::new_required_type::<Name>(3, "issuer")),
            4 => Some(Field::new_required_type::<Validity>(4, "validity")),
            5 => Some(Field::new_required_type::<Name>(5, "subject")),
            6 => Some(Field::new_required_type::<SubjectPublicKeyInfo>(6, "subjectPublicKeyInfo")),
            7 => Some(Field::new_optional_type_with_tag::<UniqueIdentifier>(
                7,
                tag!(context 1),
                "issuerUniqueID",
            )),
            8 => Some(Field::new_optional_type_with_tag::<UniqueIdentifier>(
                8,
                tag!(context 2),
                "subjectUniqueID",
            )),
            9 => Some(Field::new_optional_explicit(9, tag!(context 3), "extensions")),
            _ => None,
        }
    }

    fn extension_index() -> Option<usize> {
        None
    }
}

impl AsnType for TbsCertificate {
    ghost meaning = { constructed_type (codes "TBSCertificate") ⟦<TbsCertificate as FieldTable>⟧.components };

    fn table() -> TypeTable {
        TypeTable::new(Tag::SEQUENCE, Identifier(Some("TBSCertificate")))
    }

    fn is_present(&self) -> bool {
        true
    }
}

impl ConstructedType for TbsCertificate {
    ghost agrees = { constructed_agrees };
}

/// A `TbsCertificate` can be inside other types.
pub fn tbs_certificate_is_well_tagged()
    ensures { IsWellTagged ⟦<TbsCertificate as AsnType>⟧.meaning }
{}

/// Equal values are written alike, and in each value the components of a SET have distinct tags. With `tbs_certificate_is_well_tagged`
/// it follows that the DER of a value is its only spelling (`well_tagged_types_have_one_spelling` of `asn1_der`).
pub fn tbs_certificate_has_one_spelling()
    ensures alike { AreWrittenAlike ⟦<TbsCertificate as AsnType>⟧.meaning
        ⟦<TbsCertificate as PartialEq>⟧.eq }
    ensures distinct { SetsAreDistinct ⟦<TbsCertificate as AsnType>⟧.meaning }
{
    algorithm_identifier_has_one_spelling();
    name_has_one_spelling();
    validity_has_one_spelling();
    subject_public_key_info_has_one_spelling();
    extension_has_one_spelling();
    equal_lists_are_written_alike::<Extension>();
    sets_in_lists_are_distinct::<Extension>();
}

impl Encode for TbsCertificate {
    fn encode_with_tag_and_constraints<E: Encoder>(
        &self,
        encoder: &mut E,
        tag: Tag,
        _constraints: &Constraints<'_>,
        name: Identifier,
    ) -> Result<(), EncodeError> {
        encoder.encode_sequence(tag, self, name)
    }
}

impl EncodeFields for TbsCertificate {
    fn encode_field<E: Encoder>(&self, index: usize, encoder: &mut E) -> Result<(), EncodeError> {
        match index {
            0 => encoder.encode_default_with_explicit_prefix(
                tag!(context 0),
                &self.version,
                |_| Ok(Version::from_i128(0)),
                Version::identifier(),
            ),
            1 => self.serial_number.encode(encoder),
            2 => self.signature.encode(encoder),
            3 => self.issuer.encode(encoder),
            4 => self.validity.encode(encoder),
            5 => self.subject.encode(encoder),
            6 => self.subject_public_key_info.encode(encoder),
            7 => self
                .issuer_unique_id
                .encode_with_tag(encoder, tag!(context 1)),
            8 => self
                .subject_unique_id
                .encode_with_tag(encoder, tag!(context 2)),
            9 => encode_explicit_optional(encoder, tag!(context 3), &self.extensions),
            _ => Ok(()),
        }
    }
}

impl Decode for TbsCertificate {
    fn decode_with_tag_and_constraints<D: Decoder>(
        decoder: &mut D,
        tag: Tag,
        constraints: &Constraints<'_>,
    ) -> Result<Self, DecodeError> {
        decode_sequence_naming_errors(decoder, tag, constraints)
    }
}
