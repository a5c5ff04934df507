//! `LDAPResult` of the module `Lightweight-Directory-Access-Protocol-V3`.
//!
//! ```text
//! LDAPResult ::= SEQUENCE {
//!     resultCode ENUMERATED { .. },
//!     matchedDN LDAPDN,
//!     diagnosticMessage LDAPString,
//!     referral [3] Referral OPTIONAL
//! }
//! ```
ghost use Rattle.std.specs.Prelude.{[], codes, ◌∷◌};
ghost use Rattle.asn1_schema.specs.Words.{IsWellTagged, constructed_agrees, constructed_type, context, extensible_sequence_after, optional_slot, required_slot, tagged, untagged};
ghost use Rattle.asn1_model.specs.DistinctSets.{SetsAreDistinct};
ghost use Rattle.asn1_model.specs.WrittenAlike.{AreWrittenAlike};

use crate::aliases::{LdapString, Ldapdn, Referral, Uri};
use crate::ldap_result_result_code::{
    LdapResultResultCode, ldap_result_result_code_has_one_spelling,
};
use asn1_schema::{
    AsnType, Constraints, ConstructedType, Decode, DecodeByIndex, DecodeError, Decoded, Decoder,
    Encode, EncodeError, EncodeFields, Encoder, Field, FieldTable, Identifier, Tag, Tagging,
    TypeTable, decode_sequence_naming_errors, optional, required,
};
use asn1_spelling::{equal_lists_are_written_alike, sets_in_lists_are_distinct};
use asn1_tags::tag;
use std::alloc::{AllocError, Global};

/// `LDAPResult` of the module `Lightweight-Directory-Access-Protocol-V3`.
#[derive(PartialEq, Eq, Debug, Drop)]
pub struct LdapResult {
    /// `resultCode ENUMERATED { .. }`
    pub result_code: LdapResultResultCode,
    /// `matchedDN LDAPDN`
    pub matched_dn: Ldapdn,
    /// `diagnosticMessage LDAPString`
    pub diagnostic_message: LdapString,
    /// `referral [3] Referral OPTIONAL`
    pub referral: Option<Referral>,
}

impl DecodeByIndex for LdapResult {
    type Slots = (
        Option<LdapResultResultCode>,
        Option<Ldapdn>,
        Option<LdapString>,
        Option<Referral>,
    );

    ghost layout = { required_slot (codes "resultCode") (λ v. v.result_code) (λ s. s.0) (untagged ⟦<LdapResultResultCode as AsnType>⟧.meaning) ⟦<LdapResultResultCode as PartialEq>⟧.eq ∷
        required_slot (codes "matchedDN") (λ v. v.matched_dn) (λ s. s.1) (untagged ⟦<Ldapdn as AsnType>⟧.meaning) ⟦<Ldapdn as PartialEq>⟧.eq ∷
        required_slot (codes "diagnosticMessage") (λ v. v.diagnostic_message) (λ s. s.2) (untagged ⟦<LdapString as AsnType>⟧.meaning) ⟦<LdapString as PartialEq>⟧.eq ∷
        optional_slot (codes "referral") (λ v. v.referral) (λ s. s.3) (tagged (context 3) ⟦<Referral as AsnType>⟧.meaning) ⟦<Referral as PartialEq>⟧.eq ∷ [] };

    fn full(_alloc: Global, slots: Self::Slots) -> Result<Self, AllocError> {
        Ok(Self {
            result_code: slots.0.unwrap(),
            matched_dn: slots.1.unwrap(),
            diagnostic_message: slots.2.unwrap(),
            referral: slots.3,
        })
    }

    fn decode_field<D: Decoder>(index: usize, slots: &mut Self::Slots, decoder: &mut D) -> Decoded {
        match index {
            0 => required(&mut slots.0, decoder, Tagging::Untagged),
            1 => required(&mut slots.1, decoder, Tagging::Untagged),
            2 => required(&mut slots.2, decoder, Tagging::Untagged),
            3 => optional(&mut slots.3, decoder, Tagging::Tagged(tag!(context 3))),
            _ => Ok(()),
        }
    }
}

impl FieldTable for LdapResult {
    ghost components = { extensible_sequence_after 4 ⟦<LdapResult as DecodeByIndex>⟧.layout };

    fn field_count() -> usize {
        4
    }

    fn field_at(index: usize) -> Option<Field<'static>> {
        match index {
            0 => Some(Field::new_required_type::<LdapResultResultCode>(0, "resultCode")),
            1 => Some(Field::new_required_type::<Ldapdn>(1, "matchedDN")),
            2 => Some(Field::new_required_type::<LdapString>(2, "diagnosticMessage")),
            3 => Some(Field::new_optional_type_with_tag::<Referral>(
                3,
                tag!(context 3),
                "referral",
            )),
            _ => None,
        }
    }

    fn extension_index() -> Option<usize> {
        Some(4)
    }
}

impl AsnType for LdapResult {
    ghost meaning = { constructed_type (codes "LDAPResult") ⟦<LdapResult as FieldTable>⟧.components };

    fn table() -> TypeTable {
        TypeTable::new(Tag::SEQUENCE, Identifier(Some("LDAPResult")))
    }

    fn is_present(&self) -> bool {
        true
    }
}

impl ConstructedType for LdapResult {
    ghost agrees = { constructed_agrees };
}

/// A `LdapResult` can be inside other types.
pub fn ldap_result_is_well_tagged()
    ensures { IsWellTagged ⟦<LdapResult as AsnType>⟧.meaning }
{}

/// Equal values are written alike, and in each value the components of a SET have distinct tags. With `ldap_result_is_well_tagged`
/// it follows that the DER of a value is its only spelling (`well_tagged_types_have_one_spelling` of `asn1_der`).
pub fn ldap_result_has_one_spelling()
    ensures alike { AreWrittenAlike ⟦<LdapResult as AsnType>⟧.meaning
        ⟦<LdapResult as PartialEq>⟧.eq }
    ensures distinct { SetsAreDistinct ⟦<LdapResult as AsnType>⟧.meaning }
{
    ldap_result_result_code_has_one_spelling();
    equal_lists_are_written_alike::<Uri>();
    sets_in_lists_are_distinct::<Uri>();
}

impl Encode for LdapResult {
    fn encode_with_tag_and_constraints<E: Encoder>(
        &self,
        encoder: &mut E,
        tag: Tag,
        _constraints: &Constraints<'_>,
        name: Identifier,
    ) -> Result<(), EncodeError> {
        encoder.encode_sequence(tag, self, name)
    }
}

impl EncodeFields for LdapResult {
    fn encode_field<E: Encoder>(&self, index: usize, encoder: &mut E) -> Result<(), EncodeError> {
        match index {
            0 => self.result_code.encode(encoder),
            1 => self.matched_dn.encode(encoder),
            2 => self.diagnostic_message.encode(encoder),
            3 => self.referral.encode_with_tag(encoder, tag!(context 3)),
            _ => Ok(()),
        }
    }
}

impl Decode for LdapResult {
    fn decode_with_tag_and_constraints<D: Decoder>(
        decoder: &mut D,
        tag: Tag,
        constraints: &Constraints<'_>,
    ) -> Result<Self, DecodeError> {
        decode_sequence_naming_errors(decoder, tag, constraints)
    }
}
