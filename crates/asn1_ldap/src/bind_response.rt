//! `BindResponse` of the module `Lightweight-Directory-Access-Protocol-V3`.
//!
//! ```text
//! BindResponse ::= [APPLICATION 1] SEQUENCE {
//!     COMPONENTS OF LDAPResult,
//!     serverSaslCreds [7] OCTET STRING OPTIONAL
//! }
//! ```
ghost use Rattle.std.specs.Prelude.{[], codes, ◌∷◌};
ghost use Rattle.asn1_schema.specs.Words.{IsWellTagged, application, constructed_agrees, constructed_type_under, context, extensible_sequence_after, optional_slot, required_slot, tagged, untagged};
ghost use Rattle.asn1_model.specs.DistinctSets.{SetsAreDistinct};
ghost use Rattle.asn1_model.specs.WrittenAlike.{AreWrittenAlike};

use crate::aliases::{LdapString, Ldapdn, Referral, Uri};
use crate::ldap_result_result_code::{
    LdapResultResultCode, ldap_result_result_code_has_one_spelling,
};
use asn1_schema::{
    AsnType, Constraints, ConstructedType, Decode, DecodeByIndex, DecodeError, Decoded, Decoder,
    Encode, EncodeError, EncodeFields, Encoder, Field, FieldTable, Identifier, OctetString, Tag,
    Tagging, TypeTable, decode_sequence_naming_errors, optional, required,
};
use asn1_spelling::{equal_lists_are_written_alike, sets_in_lists_are_distinct};
use asn1_tags::tag;
use std::alloc::{AllocError, Global};

/// `BindResponse` of the module `Lightweight-Directory-Access-Protocol-V3`.
#[derive(PartialEq, Eq, Debug, Drop)]
pub struct BindResponse {
    /// `resultCode ENUMERATED { .. }`
    pub result_code: LdapResultResultCode,
    /// `matchedDN LDAPDN`
    pub matched_dn: Ldapdn,
    /// `diagnosticMessage LDAPString`
    pub diagnostic_message: LdapString,
    /// `referral [3] Referral OPTIONAL`
    pub referral: Option<Referral>,
    /// `serverSaslCreds [7] OCTET STRING OPTIONAL`
    pub server_sasl_creds: Option<OctetString>,
}

impl DecodeByIndex for BindResponse {
    type Slots = (
        Option<LdapResultResultCode>,
        Option<Ldapdn>,
        Option<LdapString>,
        Option<Referral>,
        Option<OctetString>,
    );

    ghost layout = { required_slot (codes "resultCode") (λ v. v.result_code) (λ s. s.0) (untagged ⟦<LdapResultResultCode as AsnType>⟧.meaning) ⟦<LdapResultResultCode as PartialEq>⟧.eq ∷
        required_slot (codes "matchedDN") (λ v. v.matched_dn) (λ s. s.1) (untagged ⟦<Ldapdn as AsnType>⟧.meaning) ⟦<Ldapdn as PartialEq>⟧.eq ∷
        required_slot (codes "diagnosticMessage") (λ v. v.diagnostic_message) (λ s. s.2) (untagged ⟦<LdapString as AsnType>⟧.meaning) ⟦<LdapString as PartialEq>⟧.eq ∷
        optional_slot (codes "referral") (λ v. v.referral) (λ s. s.3) (tagged (context 3) ⟦<Referral as AsnType>⟧.meaning) ⟦<Referral as PartialEq>⟧.eq ∷
        optional_slot (codes "serverSaslCreds") (λ v. v.server_sasl_creds) (λ s. s.4) (tagged (context 7) ⟦<OctetString as AsnType>⟧.meaning) ⟦<OctetString as PartialEq>⟧.eq ∷ [] };

    fn full(_alloc: Global, slots: Self::Slots) -> Result<Self, AllocError> {
        Ok(Self {
            result_code: slots.0.unwrap(),
            matched_dn: slots.1.unwrap(),
            diagnostic_message: slots.2.unwrap(),
            referral: slots.3,
            server_sasl_creds: slots.4,
        })
    }

    fn decode_field<D: Decoder>(index: usize, slots: &mut Self::Slots, decoder: &mut D) -> Decoded {
        match index {
            0 => required(&mut slots.0, decoder, Tagging::Untagged),
            1 => required(&mut slots.1, decoder, Tagging::Untagged),
            2 => required(&mut slots.2, decoder, Tagging::Untagged),
            3 => optional(&mut slots.3, decoder, Tagging::Tagged(tag!(context 3))),
            4 => optional(&mut slots.4, decoder, Tagging::Tagged(tag!(context 7))),
            _ => Ok(()),
        }
    }
}

impl FieldTable for BindResponse {
    ghost components = { extensible_sequence_after 5 ⟦<BindResponse as DecodeByIndex>⟧.layout };

    fn field_count() -> usize {
        5
    }

    fn field_at(index: usize) -> Option<Field<'static>> {
        match index {
            0 => Some(Field::new_required_type::<LdapResultResultCode>(0, "resultCode")),
            1 => Some(Field::new_required_type::<Ldapdn>(1, "matchedDN")),
            2 => Some(Field::new_required_type::<LdapString>(2, "diagnosticMessage")),
            3 => Some(Field::new_optional_type_with_tag::<Referral>(
                3,
                tag!(context 3),
                "referral",
            )),
            4 => Some(Field::new_optional_type_with_tag::<OctetString>(
                4,
                tag!(context 7),
                "serverSaslCreds",
            )),
            _ => None,
        }
    }

    fn extension_index() -> Option<usize> {
        Some(5)
    }
}

impl AsnType for BindResponse {
    ghost meaning = { constructed_type_under ⟦<BindResponse as FieldTable>⟧.components (application 1) (codes "BindResponse") };

    fn table() -> TypeTable {
        TypeTable::new(tag!(application 1), Identifier(Some("BindResponse")))
    }

    fn is_present(&self) -> bool {
        true
    }
}

impl ConstructedType for BindResponse {
    ghost agrees = { constructed_agrees };
}

/// A `BindResponse` can be inside other types.
pub fn bind_response_is_well_tagged()
    ensures { IsWellTagged ⟦<BindResponse as AsnType>⟧.meaning }
{}

/// Equal values are written alike, and in each value the components of a SET have distinct tags. With `bind_response_is_well_tagged`
/// it follows that the DER of a value is its only spelling (`well_tagged_types_have_one_spelling` of `asn1_der`).
pub fn bind_response_has_one_spelling()
    ensures alike { AreWrittenAlike ⟦<BindResponse as AsnType>⟧.meaning
        ⟦<BindResponse as PartialEq>⟧.eq }
    ensures distinct { SetsAreDistinct ⟦<BindResponse as AsnType>⟧.meaning }
{
    ldap_result_result_code_has_one_spelling();
    equal_lists_are_written_alike::<Uri>();
    sets_in_lists_are_distinct::<Uri>();
}

impl Encode for BindResponse {
    fn encode_with_tag_and_constraints<E: Encoder>(
        &self,
        encoder: &mut E,
        tag: Tag,
        _constraints: &Constraints<'_>,
        name: Identifier,
    ) -> Result<(), EncodeError> {
        encoder.encode_sequence(tag, self, name)
    }
}

impl EncodeFields for BindResponse {
    fn encode_field<E: Encoder>(&self, index: usize, encoder: &mut E) -> Result<(), EncodeError> {
        match index {
            0 => self.result_code.encode(encoder),
            1 => self.matched_dn.encode(encoder),
            2 => self.diagnostic_message.encode(encoder),
            3 => self.referral.encode_with_tag(encoder, tag!(context 3)),
            4 => self
                .server_sasl_creds
                .encode_with_tag(encoder, tag!(context 7)),
            _ => Ok(()),
        }
    }
}

impl Decode for BindResponse {
    fn decode_with_tag_and_constraints<D: Decoder>(
        decoder: &mut D,
        tag: Tag,
        constraints: &Constraints<'_>,
    ) -> Result<Self, DecodeError> {
        decode_sequence_naming_errors(decoder, tag, constraints)
    }
}
