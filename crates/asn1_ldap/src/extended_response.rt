//! `ExtendedResponse` of the module `Lightweight-Directory-Access-Protocol-V3`.
//!
//! ```text
//! ExtendedResponse ::= [APPLICATION 24] SEQUENCE {
//!     COMPONENTS OF LDAPResult,
//!     responseName [10] LDAPOID OPTIONAL,
//!     responseValue [11] OCTET STRING OPTIONAL
//! }
//! ```
ghost use Rattle.std.specs.Prelude.{[], codes, ◌∷◌};
ghost use Rattle.asn1_schema.specs.Words.{IsWellTagged, application, constructed_agrees, constructed_type_under, context, extensible_sequence_after, optional_slot, required_slot, tagged, untagged};
ghost use Rattle.asn1_model.specs.DistinctSets.{SetsAreDistinct};
ghost use Rattle.asn1_model.specs.WrittenAlike.{AreWrittenAlike};

use crate::aliases::{LdapString, Ldapdn, Ldapoid, Referral, Uri};
use crate::ldap_result_result_code::{
    LdapResultResultCode, ldap_result_result_code_has_one_spelling,
};
use asn1_schema::{
    AsnType, Constraints, ConstructedType, Decode, DecodeByIndex, DecodeError, Decoded, Decoder,
    Encode, EncodeError, EncodeFields, Encoder, Field, FieldTable, Identifier, OctetString, Tag,
    Tagging, TypeTable, decode_sequence_naming_errors, optional, required,
};
use asn1_spelling::{equal_lists_are_written_alike, sets_in_lists_are_distinct};
use asn1_tags::tag;
use std::alloc::{AllocError, Global};

/// `ExtendedResponse` of the module `Lightweight-Directory-Access-Protocol-V3`.
#[derive(PartialEq, Eq, Debug, Drop)]
pub struct ExtendedResponse {
    /// `resultCode ENUMERATED { .. }`
    pub result_code: LdapResultResultCode,
    /// `matchedDN LDAPDN`
    pub matched_dn: Ldapdn,
    /// `diagnosticMessage LDAPString`
    pub diagnostic_message: LdapString,
    /// `referral [3] Referral OPTIONAL`
    pub referral: Option<Referral>,
    /// `responseName [10] LDAPOID OPTIONAL`
    pub response_name: Option<Ldapoid>,
    /// `responseValue [11] OCTET STRING OPTIONAL`
    pub response_value: Option<OctetString>,
}

impl DecodeByIndex for ExtendedResponse {
    type Slots = (
        Option<LdapResultResultCode>,
        Option<Ldapdn>,
        Option<LdapString>,
        Option<Referral>,
        Option<Ldapoid>,
        Option<OctetString>,
    );

    ghost layout = { required_slot (codes "resultCode") (λ v. v.result_code) (λ s. s.0) (untagged ⟦<LdapResultResultCode as AsnType>⟧.meaning) ⟦<LdapResultResultCode as PartialEq>⟧.eq ∷
        required_slot (codes "matchedDN") (λ v. v.matched_dn) (λ s. s.1) (untagged ⟦<Ldapdn as AsnType>⟧.meaning) ⟦<Ldapdn as PartialEq>⟧.eq ∷
        required_slot (codes "diagnosticMessage") (λ v. v.diagnostic_message) (λ s. s.2) (untagged ⟦<LdapString as AsnType>⟧.meaning) ⟦<LdapString as PartialEq>⟧.eq ∷
        optional_slot (codes "referral") (λ v. v.referral) (λ s. s.3) (tagged (context 3) ⟦<Referral as AsnType>⟧.meaning) ⟦<Referral as PartialEq>⟧.eq ∷
        optional_slot (codes "responseName") (λ v. v.response_name) (λ s. s.4) (tagged (context 10) ⟦<Ldapoid as AsnType>⟧.meaning) ⟦<Ldapoid as PartialEq>⟧.eq ∷
        optional_slot (codes "responseValue") (λ v. v.response_value) (λ s. s.5) (tagged (context 11) ⟦<OctetString as AsnType>⟧.meaning) ⟦<OctetString as PartialEq>⟧.eq ∷ [] };

    fn full(_alloc: Global, slots: Self::Slots) -> Result<Self, AllocError> {
        Ok(Self {
            result_code: slots.0.unwrap(),
            matched_dn: slots.1.unwrap(),
            diagnostic_message: slots.2.unwrap(),
            referral: slots.3,
            response_name: slots.4,
            response_value: slots.5,
        })
    }

    fn decode_field<D: Decoder>(index: usize, slots: &mut Self::Slots, decoder: &mut D) -> Decoded {
        match index {
            0 => required(&mut slots.0, decoder, Tagging::Untagged),
            1 => required(&mut slots.1, decoder, Tagging::Untagged),
            2 => required(&mut slots.2, decoder, Tagging::Untagged),
            3 => optional(&mut slots.3, decoder, Tagging::Tagged(tag!(context 3))),
            4 => optional(&mut slots.4, decoder, Tagging::Tagged(tag!(context 10))),
            5 => optional(&mut slots.5, decoder, Tagging::Tagged(tag!(context 11))),
            _ => Ok(()),
        }
    }
}

impl FieldTable for ExtendedResponse {
    ghost components = { extensible_sequence_after 6 ⟦<ExtendedResponse as DecodeByIndex>⟧.layout };

    fn field_count() -> usize {
        6
    }

    fn field_at(index: usize) -> Option<Field<'static>> {
        match index {
            0 => Some(Field::new_required_type::<LdapResultResultCode>(0, "resultCode")),
            1 => Some(Field::new_required_type::<Ldapdn>(1, "matchedDN")),
            2 => Some(Field::new_required_type::<LdapString>(2, "diagnosticMessage")),
            3 => Some(Field::new_optional_type_with_tag::<Referral>(
                3,
                tag!(context 3),
                "referral",
            )),
            4 => Some(Field::new_optional_type_with_tag::<Ldapoid>(
                4,
                tag!(context 10),
                "responseName",
            )),
            5 => Some(Field::new_optional_type_with_tag::<OctetString>(
                5,
                tag!(context 11),
                "responseValue",
            )),
            _ => None,
        }
    }

    fn extension_index() -> Option<usize> {
        Some(6)
    }
}

impl AsnType for ExtendedResponse {
    ghost meaning = { constructed_type_under ⟦<ExtendedResponse as FieldTable>⟧.components (application 24) (codes "ExtendedResponse") };

    fn table() -> TypeTable {
        TypeTable::new(tag!(application 24), Identifier(Some("ExtendedResponse")))
    }

    fn is_present(&self) -> bool {
        true
    }
}

impl ConstructedType for ExtendedResponse {
    ghost agrees = { constructed_agrees };
}

/// An `ExtendedResponse` can be inside other types.
pub fn extended_response_is_well_tagged()
    ensures { IsWellTagged ⟦<ExtendedResponse as AsnType>⟧.meaning }
{}

/// Equal values are written alike, and in each value the components of a SET have distinct tags. With `extended_response_is_well_tagged`
/// it follows that the DER of a value is its only spelling (`well_tagged_types_have_one_spelling` of `asn1_der`).
pub fn extended_response_has_one_spelling()
    ensures alike { AreWrittenAlike ⟦<ExtendedResponse as AsnType>⟧.meaning
        ⟦<ExtendedResponse as PartialEq>⟧.eq }
    ensures distinct { SetsAreDistinct ⟦<ExtendedResponse as AsnType>⟧.meaning }
{
    ldap_result_result_code_has_one_spelling();
    equal_lists_are_written_alike::<Uri>();
    sets_in_lists_are_distinct::<Uri>();
}

impl Encode for ExtendedResponse {
    fn encode_with_tag_and_constraints<E: Encoder>(
        &self,
        encoder: &mut E,
        tag: Tag,
        _constraints: &Constraints<'_>,
        name: Identifier,
    ) -> Result<(), EncodeError> {
        encoder.encode_sequence(tag, self, name)
    }
}

impl EncodeFields for ExtendedResponse {
    fn encode_field<E: Encoder>(&self, index: usize, encoder: &mut E) -> Result<(), EncodeError> {
        match index {
            0 => self.result_code.encode(encoder),
            1 => self.matched_dn.encode(encoder),
            2 => self.diagnostic_message.encode(encoder),
            3 => self.referral.encode_with_tag(encoder, tag!(context 3)),
            4 => self
                .response_name
                .encode_with_tag(encoder, tag!(context 10)),
            5 => self
                .response_value
                .encode_with_tag(encoder, tag!(context 11)),
            _ => Ok(()),
        }
    }
}

impl Decode for ExtendedResponse {
    fn decode_with_tag_and_constraints<D: Decoder>(
        decoder: &mut D,
        tag: Tag,
        constraints: &Constraints<'_>,
    ) -> Result<Self, DecodeError> {
        decode_sequence_naming_errors(decoder, tag, constraints)
    }
}
