//! `AuthorityKeyIdentifier` of the module `PKIX1Implicit88`.
//!
//! ```text
//! AuthorityKeyIdentifier ::= SEQUENCE {
//!     keyIdentifier [0] KeyIdentifier OPTIONAL,
//!     authorityCertIssuer [1] GeneralNames OPTIONAL,
//!     authorityCertSerialNumber [2] CertificateSerialNumber OPTIONAL
//! }
//! ```
ghost use Rattle.std.specs.Prelude.{[], codes, ◌∷◌};
ghost use Rattle.asn1_schema.specs.Words.{IsWellTagged, constructed_agrees, constructed_type, context, optional_slot, sequence_of_slots, tagged};

use crate::aliases::{GeneralNames, KeyIdentifier};
use asn1_schema::{
    AsnType, Constraints, ConstructedType, Decode, DecodeByIndex, DecodeError, Decoded, Decoder,
    Encode, EncodeError, EncodeFields, Encoder, Field, FieldTable, Identifier, Tag, Tagging,
    TypeTable, decode_sequence_naming_errors, optional,
};
use asn1_tags::tag;
use asn1_x509::CertificateSerialNumber;
use std::alloc::{AllocError, Global};

/// `AuthorityKeyIdentifier` of the module `PKIX1Implicit88`.
#[derive(PartialEq, Eq, Debug, Drop)]
pub struct AuthorityKeyIdentifier {
    /// `keyIdentifier [0] KeyIdentifier OPTIONAL`
    pub key_identifier: Option<KeyIdentifier>,
    /// `authorityCertIssuer [1] GeneralNames OPTIONAL`
    pub authority_cert_issuer: Option<GeneralNames>,
    /// `authorityCertSerialNumber [2] CertificateSerialNumber OPTIONAL`
    pub authority_cert_serial_number: Option<CertificateSerialNumber>,
}

impl DecodeByIndex for AuthorityKeyIdentifier {
    type Slots = (
        Option<KeyIdentifier>,
        Option<GeneralNames>,
        Option<CertificateSerialNumber>,
    );

    ghost layout = { optional_slot (codes "keyIdentifier") (λ v. v.key_identifier) (λ s. s.0) (tagged (context 0) ⟦<KeyIdentifier as AsnType>⟧.meaning) ⟦<KeyIdentifier as PartialEq>⟧.eq ∷
        optional_slot (codes "authorityCertIssuer") (λ v. v.authority_cert_issuer) (λ s. s.1) (tagged (context 1) ⟦<GeneralNames as AsnType>⟧.meaning) ⟦<GeneralNames as PartialEq>⟧.eq ∷
        optional_slot (codes "authorityCertSerialNumber") (λ v. v.authority_cert_serial_number) (λ s. s.2) (tagged (context 2) ⟦<CertificateSerialNumber as AsnType>⟧.meaning) ⟦<CertificateSerialNumber as PartialEq>⟧.eq ∷ [] };

    fn full(_alloc: Global, slots: Self::Slots) -> Result<Self, AllocError> {
        Ok(Self {
            key_identifier: slots.0,
            authority_cert_issuer: slots.1,
            authority_cert_serial_number: slots.2,
        })
    }

    fn decode_field<D: Decoder>(index: usize, slots: &mut Self::Slots, decoder: &mut D) -> Decoded {
        match index {
            0 => optional(&mut slots.0, decoder, Tagging::Tagged(tag!(context 0))),
            1 => optional(&mut slots.1, decoder, Tagging::Tagged(tag!(context 1))),
            2 => optional(&mut slots.2, decoder, Tagging::Tagged(tag!(context 2))),
            _ => Ok(()),
        }
    }
}

impl FieldTable for AuthorityKeyIdentifier {
    ghost components = { sequence_of_slots ⟦<AuthorityKeyIdentifier as DecodeByIndex>⟧.layout };

    fn field_count() -> usize {
        3
    }

    fn field_at(index: usize) -> Option<Field<'static>> {
        match index {
            0 => Some(Field::new_optional_type_with_tag::<KeyIdentifier>(
                0,
                tag!(context 0),
                "keyIdentifier",
            )),
            1 => Some(Field::new_optional_type_with_tag::<GeneralNames>(
                1,
                tag!(context 1),
                "authorityCertIssuer",
            )),
            2 => Some(Field::new_optional_type_with_tag::<CertificateSerialNumber>(
                2,
                tag!(context 2),
                "authorityCertSerialNumber",
            )),
            _ => None,
        }
    }

    fn extension_index() -> Option<usize> {
        None
    }
}

impl AsnType for AuthorityKeyIdentifier {
    ghost meaning = { constructed_type (codes "AuthorityKeyIdentifier") ⟦<AuthorityKeyIdentifier as FieldTable>⟧.components };

    fn table() -> TypeTable {
        TypeTable::new(Tag::SEQUENCE, Identifier(Some("AuthorityKeyIdentifier")))
    }

    fn is_present(&self) -> bool {
        true
    }
}

impl ConstructedType for AuthorityKeyIdentifier {
    ghost agrees = { constructed_agrees };
}

/// An `AuthorityKeyIdentifier` can be inside other types.
pub fn authority_key_identifier_is_well_tagged()
    ensures { IsWellTagged ⟦<AuthorityKeyIdentifier as AsnType>⟧.meaning }
{}

impl Encode for AuthorityKeyIdentifier {
    fn encode_with_tag_and_constraints<E: Encoder>(
        &self,
        encoder: &mut E,
        tag: Tag,
        _constraints: &Constraints<'_>,
        name: Identifier,
    ) -> Result<(), EncodeError> {
        encoder.encode_sequence(tag, self, name)
    }
}

impl EncodeFields for AuthorityKeyIdentifier {
    fn encode_field<E: Encoder>(&self, index: usize, encoder: &mut E) -> Result<(), EncodeError> {
        match index {
            0 => self
                .key_identifier
                .encode_with_tag(encoder, tag!(context 0)),
            1 => self
                .authority_cert_issuer
                .encode_with_tag(encoder, tag!(context 1)),
            2 => self
                .authority_cert_serial_number
                .encode_with_tag(encoder, tag!(context 2)),
            _ => Ok(()),
        }
    }
}

impl Decode for AuthorityKeyIdentifier {
    fn decode_with_tag_and_constraints<D: Decoder>(
        decoder: &mut D,
        tag: Tag,
        constraints: &Constraints<'_>,
    ) -> Result<Self, DecodeError> {
        decode_sequence_naming_errors(decoder, tag, constraints)
    }
}
