//! `ModifyDNRequest` of the module `Lightweight-Directory-Access-Protocol-V3`.
//!
//! ```text
//! ModifyDNRequest ::= [APPLICATION 12] SEQUENCE {
//!     entry LDAPDN,
//!     newrdn RelativeLDAPDN,
//!     deleteoldrdn BOOLEAN,
//!     newSuperior [0] LDAPDN OPTIONAL
//! }
//! ```
ghost use Rattle.std.specs.Prelude.{[], codes, ◌∷◌};
ghost use Rattle.asn1_schema.specs.Words.{IsWellTagged, application, constructed_agrees, constructed_type_under, context, extensible_sequence_after, optional_slot, required_slot, tagged, untagged};
ghost use Rattle.asn1_model.specs.DistinctSets.{SetsAreDistinct};
ghost use Rattle.asn1_model.specs.WrittenAlike.{AreWrittenAlike};

use crate::aliases::{Ldapdn, RelativeLdapdn};
use asn1_schema::{
    AsnType, Constraints, ConstructedType, Decode, DecodeByIndex, DecodeError, Decoded, Decoder,
    Encode, EncodeError, EncodeFields, Encoder, Field, FieldTable, Identifier, Tag, Tagging,
    TypeTable, decode_sequence_naming_errors, optional, required,
};
use asn1_tags::tag;
use std::alloc::{AllocError, Global};

/// `ModifyDNRequest` of the module `Lightweight-Directory-Access-Protocol-V3`.
#[derive(PartialEq, Eq, Debug, Drop)]
pub struct ModifyDnRequest {
    /// `entry LDAPDN`
    pub entry: Ldapdn,
    /// `newrdn RelativeLDAPDN`
    pub newrdn: RelativeLdapdn,
    /// `deleteoldrdn BOOLEAN`
    pub deleteoldrdn: bool,
    /// `newSuperior [0] LDAPDN OPTIONAL`
    pub new_superior: Option<Ldapdn>,
}

impl DecodeByIndex for ModifyDnRequest {
    type Slots = (
        Option<Ldapdn>,
        Option<RelativeLdapdn>,
        Option<bool>,
        Option<Ldapdn>,
    );

    ghost layout = { required_slot (codes "entry") (λ v. v.entry) (λ s. s.0) (untagged ⟦<Ldapdn as AsnType>⟧.meaning) ⟦<Ldapdn as PartialEq>⟧.eq ∷
        required_slot (codes "newrdn") (λ v. v.newrdn) (λ s. s.1) (untagged ⟦<RelativeLdapdn as AsnType>⟧.meaning) ⟦<RelativeLdapdn as PartialEq>⟧.eq ∷
        required_slot (codes "deleteoldrdn") (λ v. v.deleteoldrdn) (λ s. s.2) (untagged ⟦<bool as AsnType>⟧.meaning) ⟦<bool as PartialEq>⟧.eq ∷
        optional_slot (codes "newSuperior") (λ v. v.new_superior) (λ s. s.3) (tagged (context 0) ⟦<Ldapdn as AsnType>⟧.meaning) ⟦<Ldapdn as PartialEq>⟧.eq ∷ [] };

    fn full(_alloc: Global, slots: Self::Slots) -> Result<Self, AllocError> {
        Ok(Self {
            entry: slots.0.unwrap(),
            newrdn: slots.1.unwrap(),
            deleteoldrdn: slots.2.unwrap(),
            new_superior: slots.3,
        })
    }

    fn decode_field<D: Decoder>(index: usize, slots: &mut Self::Slots, decoder: &mut D) -> Decoded {
        match index {
            0 => required(&mut slots.0, decoder, Tagging::Untagged),
            1 => required(&mut slots.1, decoder, Tagging::Untagged),
            2 => required(&mut slots.2, decoder, Tagging::Untagged),
            3 => optional(&mut slots.3, decoder, Tagging::Tagged(tag!(context 0))),
            _ => Ok(()),
        }
    }
}

impl FieldTable for ModifyDnRequest {
    ghost components = { extensible_sequence_after 4 ⟦<ModifyDnRequest as DecodeByIndex>⟧.layout };

    fn field_count() -> usize {
        4
    }

    fn field_at(index: usize) -> Option<Field<'static>> {
        match index {
            0 => Some(Field::new_required_type::<Ldapdn>(0, "entry")),
            1 => Some(Field::new_required_type::<RelativeLdapdn>(1, "newrdn")),
            2 => Some(Field::new_required_type::<bool>(2, "deleteoldrdn")),
            3 => Some(Field::new_optional_type_with_tag::<Ldapdn>(
                3,
                tag!(context 0),
                "newSuperior",
            )),
            _ => None,
        }
    }

    fn extension_index() -> Option<usize> {
        Some(4)
    }
}

impl AsnType for ModifyDnRequest {
    ghost meaning = { constructed_type_under ⟦<ModifyDnRequest as FieldTable>⟧.components (application 12) (codes "ModifyDNRequest") };

    fn table() -> TypeTable {
        TypeTable::new(tag!(application 12), Identifier(Some("ModifyDNRequest")))
    }

    fn is_present(&self) -> bool {
        true
    }
}

impl ConstructedType for ModifyDnRequest {
    ghost agrees = { constructed_agrees };
}

/// A `ModifyDnRequest` can be inside other types.
pub fn modify_dn_request_is_well_tagged()
    ensures { IsWellTagged ⟦<ModifyDnRequest as AsnType>⟧.meaning }
{}

/// Equal values are written alike, and in each value the components of a SET have distinct tags. With `modify_dn_request_is_well_tagged`
/// it follows that the DER of a value is its only spelling (`well_tagged_types_have_one_spelling` of `asn1_der`).
pub fn modify_dn_request_has_one_spelling()
    ensures alike { AreWrittenAlike ⟦<ModifyDnRequest as AsnType>⟧.meaning
        ⟦<ModifyDnRequest as PartialEq>⟧.eq }
    ensures distinct { SetsAreDistinct ⟦<ModifyDnRequest as AsnType>⟧.meaning }
{}

impl Encode for ModifyDnRequest {
    fn encode_with_tag_and_constraints<E: Encoder>(
        &self,
        encoder: &mut E,
        tag: Tag,
        _constraints: &Constraints<'_>,
        name: Identifier,
    ) -> Result<(), EncodeError> {
        encoder.encode_sequence(tag, self, name)
    }
}

impl EncodeFields for ModifyDnRequest {
    fn encode_field<E: Encoder>(&self, index: usize, encoder: &mut E) -> Result<(), EncodeError> {
        match index {
            0 => self.entry.encode(encoder),
            1 => self.newrdn.encode(encoder),
            2 => self.deleteoldrdn.encode(encoder),
            3 => self.new_superior.encode_with_tag(encoder, tag!(context 0)),
            _ => Ok(()),
        }
    }
}

impl Decode for ModifyDnRequest {
    fn decode_with_tag_and_constraints<D: Decoder>(
        decoder: &mut D,
        tag: Tag,
        constraints: &Constraints<'_>,
    ) -> Result<Self, DecodeError> {
        decode_sequence_naming_errors(decoder, tag, constraints)
    }
}
