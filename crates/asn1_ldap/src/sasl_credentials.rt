//! `SaslCredentials ::= SEQUENCE { mechanism LDAPString, credentials OCTET STRING OPTIONAL }`
ghost use Rattle.std.specs.Prelude.{[], codes, ◌∷◌};
ghost use Rattle.asn1_schema.specs.Words.{IsWellTagged, constructed_agrees, constructed_type, extensible_sequence_after, optional_slot, required_slot, untagged};
ghost use Rattle.asn1_model.specs.DistinctSets.{SetsAreDistinct};
ghost use Rattle.asn1_model.specs.WrittenAlike.{AreWrittenAlike};

use crate::aliases::LdapString;
use asn1_schema::{
    AsnType, Constraints, ConstructedType, Decode, DecodeByIndex, DecodeError, Decoded, Decoder,
    Encode, EncodeError, EncodeFields, Encoder, Field, FieldTable, Identifier, OctetString, Tag,
    Tagging, TypeTable, decode_sequence_naming_errors, optional, required,
};
use std::alloc::{AllocError, Global};

/// `SaslCredentials` of the module `Lightweight-Directory-Access-Protocol-V3`.
#[derive(PartialEq, Eq, Debug, Drop)]
pub struct SaslCredentials {
    /// `mechanism LDAPString`
    pub mechanism: LdapString,
    /// `credentials OCTET STRING OPTIONAL`
    pub credentials: Option<OctetString>,
}

impl DecodeByIndex for SaslCredentials {
    type Slots = (Option<LdapString>, Option<OctetString>);

    ghost layout = { required_slot (codes "mechanism") (λ v. v.mechanism) (λ s. s.0) (untagged ⟦<LdapString as AsnType>⟧.meaning) ⟦<LdapString as PartialEq>⟧.eq ∷
        optional_slot (codes "credentials") (λ v. v.credentials) (λ s. s.1) (untagged ⟦<OctetString as AsnType>⟧.meaning) ⟦<OctetString as PartialEq>⟧.eq ∷ [] };

    fn full(_alloc: Global, slots: Self::Slots) -> Result<Self, AllocError> {
        Ok(Self {
            mechanism: slots.0.unwrap(),
            credentials: slots.1,
        })
    }

    fn decode_field<D: Decoder>(index: usize, slots: &mut Self::Slots, decoder: &mut D) -> Decoded {
        match index {
            0 => required(&mut slots.0, decoder, Tagging::Untagged),
            1 => optional(&mut slots.1, decoder, Tagging::Untagged),
            _ => Ok(()),
        }
    }
}

impl FieldTable for SaslCredentials {
    ghost components = { extensible_sequence_after 2 ⟦<SaslCredentials as DecodeByIndex>⟧.layout };

    fn field_count() -> usize {
        2
    }

    fn field_at(index: usize) -> Option<Field<'static>> {
        match index {
            0 => Some(Field::new_required_type::<LdapString>(0, "mechanism")),
            1 => Some(Field::new_optional_type::<OctetString>(1, "credentials")),
            _ => None,
        }
    }

    fn extension_index() -> Option<usize> {
        Some(2)
    }
}

impl AsnType for SaslCredentials {
    ghost meaning = { constructed_type (codes "SaslCredentials") ⟦<SaslCredentials as FieldTable>⟧.components };

    fn table() -> TypeTable {
        TypeTable::new(Tag::SEQUENCE, Identifier(Some("SaslCredentials")))
    }

    fn is_present(&self) -> bool {
        true
    }
}

impl ConstructedType for SaslCredentials {
    ghost agrees = { constructed_agrees };
}

/// A `SaslCredentials` can be inside other types.
pub fn sasl_credentials_is_well_tagged()
    ensures { IsWellTagged ⟦<SaslCredentials as AsnType>⟧.meaning }
{}

/// Equal values are written alike, and in each value the components of a SET have distinct tags. With `sasl_credentials_is_well_tagged`
/// it follows that the DER of a value is its only spelling (`well_tagged_types_have_one_spelling` of `asn1_der`).
pub fn sasl_credentials_has_one_spelling()
    ensures alike { AreWrittenAlike ⟦<SaslCredentials as AsnType>⟧.meaning
        ⟦<SaslCredentials as PartialEq>⟧.eq }
    ensures distinct { SetsAreDistinct ⟦<SaslCredentials as AsnType>⟧.meaning }
{}

impl Encode for SaslCredentials {
    fn encode_with_tag_and_constraints<E: Encoder>(
        &self,
        encoder: &mut E,
        tag: Tag,
        _constraints: &Constraints<'_>,
        name: Identifier,
    ) -> Result<(), EncodeError> {
        encoder.encode_sequence(tag, self, name)
    }
}

impl EncodeFields for SaslCredentials {
    fn encode_field<E: Encoder>(&self, index: usize, encoder: &mut E) -> Result<(), EncodeError> {
        match index {
            0 => self.mechanism.encode(encoder),
            1 => self.credentials.encode(encoder),
            _ => Ok(()),
        }
    }
}

impl Decode for SaslCredentials {
    fn decode_with_tag_and_constraints<D: Decoder>(
        decoder: &mut D,
        tag: Tag,
        constraints: &Constraints<'_>,
    ) -> Result<Self, DecodeError> {
        decode_sequence_naming_errors(decoder, tag, constraints)
    }
}
