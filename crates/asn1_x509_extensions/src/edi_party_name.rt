//! `EDIPartyName` of the module `PKIX1Implicit88`.
//!
//! ```text
//! EDIPartyName ::= SEQUENCE {
//!     nameAssigner [0] DirectoryString OPTIONAL,
//!     partyName [1] DirectoryString
//! }
//! ```
ghost use Rattle.std.specs.Prelude.{[], codes, ◌∷◌};
ghost use Rattle.asn1_schema.specs.Words.{IsWellTagged, constructed_agrees, constructed_type, context, explicitly_tagged, optional_slot, required_slot, sequence_of_slots};

use asn1_schema::{
    AsnType, Constraints, ConstructedType, Decode, DecodeByIndex, DecodeError, Decoded, Decoder,
    Encode, EncodeError, EncodeFields, Encoder, Field, FieldTable, Identifier, Tag, Tagging,
    TypeTable, decode_sequence_naming_errors, encode_explicit_optional, optional, required,
};
use asn1_tags::tag;
use asn1_x509::DirectoryString;
use std::alloc::{AllocError, Global};

/// `EDIPartyName` of the module `PKIX1Implicit88`.
#[derive(PartialEq, Eq, Debug, Drop)]
pub struct EdiPartyName {
    /// `nameAssigner [0] DirectoryString OPTIONAL`
    pub name_assigner: Option<DirectoryString>,
    /// `partyName [1] DirectoryString`
    pub party_name: DirectoryString,
}

impl DecodeByIndex for EdiPartyName {
    type Slots = (Option<DirectoryString>, Option<DirectoryString>);

    ghost layout = { optional_slot (codes "nameAssigner") (λ v. v.name_assigner) (λ s. s.0) (explicitly_tagged (context 0) ⟦<DirectoryString as AsnType>⟧.meaning) ⟦<DirectoryString as PartialEq>⟧.eq ∷
        required_slot (codes "partyName") (λ v. v.party_name) (λ s. s.1) (explicitly_tagged (context 1) ⟦<DirectoryString as AsnType>⟧.meaning) ⟦<DirectoryString as PartialEq>⟧.eq ∷ [] };

    fn full(_alloc: Global, slots: Self::Slots) -> Result<Self, AllocError> {
        Ok(Self {
            name_assigner: slots.0,
            party_name: slots.1.unwrap(),
        })
    }

    fn decode_field<D: Decoder>(index: usize, slots: &mut Self::Slots, decoder: &mut D) -> Decoded {
        match index {
            0 => optional(&mut slots.0, decoder, Tagging::Explicit(tag!(context 0))),
            1 => required(&mut slots.1, decoder, Tagging::Explicit(tag!(context 1))),
            _ => Ok(()),
        }
    }
}

impl FieldTable for EdiPartyName {
    ghost components = { sequence_of_slots ⟦<EdiPartyName as DecodeByIndex>⟧.layout };

    fn field_count() -> usize {
        2
    }

    fn field_at(index: usize) -> Option<Field<'static>> {
        match index {
            0 => Some(Field::new_optional_explicit(0, tag!(context 0), "nameAssigner")),
            1 => Some(Field::new_required_explicit(1, tag!(context 1), "partyName")),
            _ => None,
        }
    }

    fn extension_index() -> Option<usize> {
        None
    }
}

impl AsnType for EdiPartyName {
    ghost meaning = { constructed_type (codes "EDIPartyName") ⟦<EdiPartyName as FieldTable>⟧.components };

    fn table() -> TypeTable {
        TypeTable::new(Tag::SEQUENCE, Identifier(Some("EDIPartyName")))
    }

    fn is_present(&self) -> bool {
        true
    }
}

impl ConstructedType for EdiPartyName {
    ghost agrees = { constructed_agrees };
}

/// An `EdiPartyName` can be inside other types.
pub fn edi_party_name_is_well_tagged()
    ensures { IsWellTagged ⟦<EdiPartyName as AsnType>⟧.meaning }
{}

impl Encode for EdiPartyName {
    fn encode_with_tag_and_constraints<E: Encoder>(
        &self,
        encoder: &mut E,
        tag: Tag,
        _constraints: &Constraints<'_>,
        name: Identifier,
    ) -> Result<(), EncodeError> {
        encoder.encode_sequence(tag, self, name)
    }
}

impl EncodeFields for EdiPartyName {
    fn encode_field<E: Encoder>(&self, index: usize, encoder: &mut E) -> Result<(), EncodeError> {
        match index {
            0 => encode_explicit_optional(encoder, tag!(context 0), &self.name_assigner),
            1 => encoder.encode_explicit_prefix(
                tag!(context 1),
                &self.party_name,
                DirectoryString::identifier(),
            ),
            _ => Ok(()),
        }
    }
}

impl Decode for EdiPartyName {
    fn decode_with_tag_and_constraints<D: Decoder>(
        decoder: &mut D,
        tag: Tag,
        constraints: &Constraints<'_>,
    ) -> Result<Self, DecodeError> {
        decode_sequence_naming_errors(decoder, tag, constraints)
    }
}
