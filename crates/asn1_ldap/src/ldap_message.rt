//! `LDAPMessage` of the module `Lightweight-Directory-Access-Protocol-V3`.
//!
//! ```text
//! LDAPMessage ::= SEQUENCE {
//!     messageID MessageID,
//!     protocolOp CHOICE { .. },
//!     controls [0] Controls OPTIONAL
//! }
//! ```
ghost use Rattle.std.specs.Prelude.{[], codes, ◌∷◌};
ghost use Rattle.asn1_schema.specs.Words.{IsWellTagged, constructed_agrees, constructed_type, context, extensible_sequence_after, optional_slot, required_slot, tagged, untagged};

use crate::aliases::{Controls, MessageId};
use crate::ldap_message_protocol_op::LdapMessageProtocolOp;
use asn1_schema::{
    AsnType, Constraints, ConstructedType, Decode, DecodeByIndex, DecodeError, Decoded, Decoder,
    Encode, EncodeError, EncodeFields, Encoder, Field, FieldTable, Identifier, Tag, Tagging,
    TypeTable, decode_sequence_naming_errors, optional, required,
};
use asn1_tags::tag;
use std::alloc::{AllocError, Global};

/// `LDAPMessage` of the module `Lightweight-Directory-Access-Protocol-V3`.
#[derive(PartialEq, Eq, Debug, Drop)]
pub struct LdapMessage {
    /// `messageID MessageID`
    pub message_id: MessageId,
    /// `protocolOp CHOICE { .. }`
    pub protocol_op: LdapMessageProtocolOp,
    /// `controls [0] Controls OPTIONAL`
    pub controls: Option<Controls>,
}

impl DecodeByIndex for LdapMessage {
    type Slots = (
        Option<MessageId>,
        Option<LdapMessageProtocolOp>,
        Option<Controls>,
    );

    ghost layout = { required_slot (codes "messageID") (λ v. v.message_id) (λ s. s.0) (untagged ⟦<MessageId as AsnType>⟧.meaning) ⟦<MessageId as PartialEq>⟧.eq ∷
        required_slot (codes "protocolOp") (λ v. v.protocol_op) (λ s. s.1) (untagged ⟦<LdapMessageProtocolOp as AsnType>⟧.meaning) ⟦<LdapMessageProtocolOp as PartialEq>⟧.eq ∷
        optional_slot (codes "controls") (λ v. v.controls) (λ s. s.2) (tagged (context 0) ⟦<Controls as AsnType>⟧.meaning) ⟦<Controls as PartialEq>⟧.eq ∷ [] };

    fn full(_alloc: Global, slots: Self::Slots) -> Result<Self, AllocError> {
        Ok(Self {
            message_id: slots.0.unwrap(),
            protocol_op: slots.1.unwrap(),
            controls: slots.2,
        })
    }

    fn decode_field<D: Decoder>(index: usize, slots: &mut Self::Slots, decoder: &mut D) -> Decoded {
        match index {
            0 => required(&mut slots.0, decoder, Tagging::Untagged),
            1 => required(&mut slots.1, decoder, Tagging::Untagged),
            2 => optional(&mut slots.2, decoder, Tagging::Tagged(tag!(context 0))),
            _ => Ok(()),
        }
    }
}

impl FieldTable for LdapMessage {
    ghost components = { extensible_sequence_after 3 ⟦<LdapMessage as DecodeByIndex>⟧.layout };

    fn field_count() -> usize {
        3
    }

    fn field_at(index: usize) -> Option<Field<'static>> {
        match index {
            0 => Some(Field::new_required_type::<MessageId>(0, "messageID")),
            1 => Some(Field::new_required_type::<LdapMessageProtocolOp>(1, "protocolOp")),
            2 => Some(Field::new_optional_type_with_tag::<Controls>(
                2,
                tag!(context 0),
                "controls",
            )),
            _ => None,
        }
    }

    fn extension_index() -> Option<usize> {
        Some(3)
    }
}

impl AsnType for LdapMessage {
    ghost meaning = { constructed_type (codes "LDAPMessage") ⟦<LdapMessage as FieldTable>⟧.components };

    fn table() -> TypeTable {
        TypeTable::new(Tag::SEQUENCE, Identifier(Some("LDAPMessage")))
    }

    fn is_present(&self) -> bool {
        true
    }
}

impl ConstructedType for LdapMessage {
    ghost agrees = { constructed_agrees };
}

/// A `LdapMessage` can be inside other types.
#[tactic(auto, using(asn1_schema::proofs::Trees::tree_shapes, crate::proofs::FilterTags::knot_can))]
pub fn ldap_message_is_well_tagged()
    ensures { IsWellTagged ⟦<LdapMessage as AsnType>⟧.meaning }
{}

impl Encode for LdapMessage {
    fn encode_with_tag_and_constraints<E: Encoder>(
        &self,
        encoder: &mut E,
        tag: Tag,
        _constraints: &Constraints<'_>,
        name: Identifier,
    ) -> Result<(), EncodeError> {
        encoder.encode_sequence(tag, self, name)
    }
}

impl EncodeFields for LdapMessage {
    fn encode_field<E: Encoder>(&self, index: usize, encoder: &mut E) -> Result<(), EncodeError> {
        match index {
            0 => self.message_id.encode(encoder),
            1 => self.protocol_op.encode(encoder),
            2 => self.controls.encode_with_tag(encoder, tag!(context 0)),
            _ => Ok(()),
        }
    }
}

impl Decode for LdapMessage {
    fn decode_with_tag_and_constraints<D: Decoder>(
        decoder: &mut D,
        tag: Tag,
        constraints: &Constraints<'_>,
    ) -> Result<Self, DecodeError> {
        decode_sequence_naming_errors(decoder, tag, constraints)
    }
}
