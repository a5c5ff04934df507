//! `Notice ::= SEQUENCE { id [0] INTEGER (0..255), urgent [1] EXPLICIT BOOLEAN OPTIONAL, text [2] UTF8String }`
ghost use Rattle.std.specs.Prelude.{[], ◌∷◌, codes};
ghost use Rattle.asn1_slots.specs.Slots.{optional_slot, required_slot, sequence_of_slots};
ghost use Rattle.asn1_types.specs.Words.{context, tagged, explicitly_tagged, constructed_type, constructed_agrees, IsWellTagged};

use asn1_dec::{Decode, DecodeError, Decoder};
use asn1_enc::{Encode, EncodeError, EncodeFields, Encoder, encode_explicit_optional};
use asn1_slots::{
    DecodeByIndex, Decoded, Tagging, decode_sequence_naming_errors, optional, required,
};
use asn1_tags::tag;
use asn1_types::{
    AsnType, Constraints, ConstructedType, Field, FieldTable, Identifier, Tag, TypeTable,
};
use asn1_values::Utf8String;
use std::alloc::{AllocError, Global};

/// A message, and whether it is urgent.
#[derive(PartialEq, Eq, Debug, Drop)]
pub struct Notice {
    /// `id [0] INTEGER (0..255)`
    pub id: u8,
    /// `urgent [1] EXPLICIT BOOLEAN OPTIONAL`
    pub urgent: Option<bool>,
    /// `text [2] UTF8String`
    pub text: Utf8String,
}

impl DecodeByIndex for Notice {
    type Slots = (Option<u8>, Option<bool>, Option<Utf8String>);

    ghost layout = { required_slot (codes "id") (λ n. n.id) (λ s. s.0) (tagged (context 0) ⟦<u8 as AsnType>⟧.meaning) ⟦<u8 as PartialEq>⟧.eq ∷
        optional_slot (codes "urgent") (λ n. n.urgent) (λ s. s.1) (explicitly_tagged (context 1) ⟦<bool as AsnType>⟧.meaning) ⟦<bool as PartialEq>⟧.eq ∷
        required_slot (codes "text") (λ n. n.text) (λ s. s.2) (tagged (context 2) ⟦<Utf8String as AsnType>⟧.meaning) ⟦<Utf8String as PartialEq>⟧.eq ∷ [] };

    fn full(_alloc: Global, slots: Self::Slots) -> Result<Notice, AllocError> {
        Ok(Notice {
            id: slots.0.unwrap(),
            urgent: slots.1,
            text: slots.2.unwrap(),
        })
    }

    fn decode_field<D: Decoder>(index: usize, slots: &mut Self::Slots, decoder: &mut D) -> Decoded {
        match index {
            0 => required(&mut slots.0, decoder, Tagging::Tagged(tag!(context 0))),
            1 => optional(&mut slots.1, decoder, Tagging::Explicit(tag!(context 1))),
            2 => required(&mut slots.2, decoder, Tagging::Tagged(tag!(context 2))),
            _ => Ok(()),
        }
    }
}

impl FieldTable for Notice {
    ghost components = { sequence_of_slots ⟦<Notice as DecodeByIndex>⟧.layout };

    fn field_count() -> usize {
        3
    }

    fn field_at(index: usize) -> Option<Field<'static>> {
        match index {
            0 => Some(Field::new_required_type_with_tag::<u8>(0, tag!(context 0), "id")),
            1 => Some(Field::new_optional_explicit(1, tag!(context 1), "urgent")),
            2 => Some(Field::new_required_type_with_tag::<Utf8String>(2, tag!(context 2), "text")),
            _ => None,
        }
    }

    fn extension_index() -> Option<usize> {
        None
    }
}

impl AsnType for Notice {
    ghost meaning = { constructed_type (codes "Notice") ⟦<Notice as FieldTable>⟧.components };

    fn table() -> TypeTable {
        TypeTable::new(Tag::SEQUENCE, Identifier(Some("Notice")))
    }

    fn is_present(&self) -> bool {
        true
    }
}

impl ConstructedType for Notice {
    ghost agrees = { constructed_agrees };
}

/// A `Notice` is well tagged: what follows `urgent` begins with another tag.
pub fn notice_is_well_tagged()
    ensures { IsWellTagged ⟦<Notice as AsnType>⟧.meaning }
{}

impl Encode for Notice {
    fn encode_with_tag_and_constraints<E: Encoder>(
        &self,
        encoder: &mut E,
        tag: Tag,
        _constraints: &Constraints<'_>,
        name: Identifier,
    ) -> Result<(), EncodeError> {
        encoder.encode_sequence(tag, self, name)
    }
}

impl EncodeFields for Notice {
    fn encode_field<E: Encoder>(&self, index: usize, encoder: &mut E) -> Result<(), EncodeError> {
        match index {
            0 => self.id.encode_with_tag(encoder, tag!(context 0)),
            1 => encode_explicit_optional(encoder, tag!(context 1), &self.urgent),
            2 => self.text.encode_with_tag(encoder, tag!(context 2)),
            _ => Ok(()),
        }
    }
}

impl Decode for Notice {
    fn decode_with_tag_and_constraints<D: Decoder>(
        decoder: &mut D,
        tag: Tag,
        constraints: &Constraints<'_>,
    ) -> Result<Notice, DecodeError> {
        decode_sequence_naming_errors(decoder, tag, constraints)
    }
}
