//! `Settings ::= SEQUENCE { entry [0] Labelled DEFAULT { key 1, note 0 } }`
ghost use Rattle.std.specs.Prelude.{[], ◌∷◌, codes};
ghost use Rattle.asn1_slots.specs.Slots.{default_slot, sequence_of_slots};
ghost use Rattle.asn1_types.specs.Words.{context, tagged, constructed_type, constructed_agrees, IsWellTagged};

use crate::labelled::Labelled;
use asn1_dec::{Decode, DecodeError, DecodeFields, Decoder};
use asn1_enc::{Encode, EncodeError, EncodeFields, Encoder};
use asn1_slots::{DecodeByIndex, Decoded, Tagging, decode_fields_by_index, optional, or_default};
use asn1_tags::tag;
use asn1_types::{
    AsnType, Constraints, ConstructedType, Field, FieldTable, Identifier, Tag, TypeTable,
};
use std::alloc::{AllocError, Global};

/// A setting with a default. An entry with the key of the default is the default, and its note is not written.
#[derive(PartialEq, Eq, Debug, Drop)]
pub struct Settings {
    /// `entry [0] Labelled DEFAULT { key 1, note 0 }`
    pub entry: Labelled,
}

impl DecodeByIndex for Settings {
    type Slots = (Option<Labelled>,);

    ghost layout = { default_slot (codes "entry") (λ s. s.entry) (record { key = 1; note = 0 }) (λ s. s.0) (tagged (context 0) ⟦<Labelled as AsnType>⟧.meaning) ⟦<Labelled as PartialEq>⟧.eq ∷ [] };

    fn full(_alloc: Global, slots: Self::Slots) -> Result<Settings, AllocError> {
        Ok(Settings {
            entry: or_default(slots.0, Labelled { key: 1, note: 0 }),
        })
    }

    fn decode_field<D: Decoder>(index: usize, slots: &mut Self::Slots, decoder: &mut D) -> Decoded {
        match index {
            0 => optional(&mut slots.0, decoder, Tagging::Tagged(tag!(context 0))),
            _ => Ok(()),
        }
    }
}

impl FieldTable for Settings {
    ghost components = { sequence_of_slots ⟦<Settings as DecodeByIndex>⟧.layout };

    fn field_count() -> usize {
        1
    }

    fn field_at(index: usize) -> Option<Field<'static>> {
        match index {
            0 => Some(Field::new_default_type_with_tag::<Labelled>(0, tag!(context 0), "entry")),
            _ => None,
        }
    }

    fn extension_index() -> Option<usize> {
        None
    }
}

impl AsnType for Settings {
    ghost meaning = { constructed_type (codes "Settings") ⟦<Settings as FieldTable>⟧.components };

    fn table() -> TypeTable {
        TypeTable::new(Tag::SEQUENCE, Identifier(Some("Settings")))
    }

    fn is_present(&self) -> bool {
        true
    }
}

impl ConstructedType for Settings {
    ghost agrees = { constructed_agrees };
}

/// A `Settings` is well tagged.
pub fn settings_is_well_tagged()
    ensures { IsWellTagged ⟦<Settings as AsnType>⟧.meaning }
{}

impl Encode for Settings {
    fn encode_with_tag_and_constraints<E: Encoder>(
        &self,
        encoder: &mut E,
        tag: Tag,
        _constraints: &Constraints<'_>,
        name: Identifier,
    ) -> Result<(), EncodeError> {
        encoder.encode_sequence(tag, self, name)
    }
}

impl EncodeFields for Settings {
    fn encode_field<E: Encoder>(&self, index: usize, encoder: &mut E) -> Result<(), EncodeError> {
        match index {
            0 => encoder.encode_default_with_tag(
                tag!(context 0),
                &self.entry,
                |_| Ok(Labelled { key: 1, note: 0 }),
                Labelled::identifier(),
            ),
            _ => Ok(()),
        }
    }
}

impl Decode for Settings {
    fn decode_with_tag_and_constraints<D: Decoder>(
        decoder: &mut D,
        tag: Tag,
        _constraints: &Constraints<'_>,
    ) -> Result<Settings, DecodeError> {
        decoder.decode_sequence(tag)
    }
}

impl DecodeFields for Settings {
    fn decode_fields<D: Decoder>(decoder: &mut D) -> Result<Settings, DecodeError> {
        decode_fields_by_index(decoder)
    }
}
