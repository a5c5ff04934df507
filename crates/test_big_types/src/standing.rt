//! `[[ level [6] INTEGER (0..255), photo [7] OCTET STRING OPTIONAL ]]`: a group of additions of a `Member`.
ghost use Rattle.std.specs.Prelude.{[], codes, ◌∷◌};
ghost use Rattle.asn1_schema.specs.Words.{context, optional_slot, required_slot, sequence_of_slots, tagged};

use asn1_schema::{
    AsnType, DecodeByIndex, DecodeError, DecodeFields, Decoded, Decoder, Encode, EncodeError,
    EncodeFields, Encoder, Field, FieldTable, OctetString, Tag, TagTree, Tagging,
    decode_fields_by_index, optional, required,
};
use asn1_tags::tag;
use std::alloc::{AllocError, Global};

/// A group of additions of a `Member`.
#[derive(PartialEq, Eq, Debug, Drop)]
pub struct Standing {
    /// `level [6] INTEGER (0..255)`
    pub level: u8,
    /// `photo [7] OCTET STRING OPTIONAL`
    pub photo: Option<OctetString>,
}

/// The trees of the components, which are those of the group.
pub(crate) const STANDING: &[TagTree<'static>] = &[
    TagTree::Leaf(tag!(context 6)),
    TagTree::Leaf(tag!(context 7)),
];

impl DecodeByIndex for Standing {
    type Slots = (Option<u8>, Option<OctetString>);

    ghost layout = { required_slot (codes "level") (λ v. v.level) (λ s. s.0) (tagged (context 6) ⟦<u8 as AsnType>⟧.meaning) ⟦<u8 as PartialEq>⟧.eq ∷
        optional_slot (codes "photo") (λ v. v.photo) (λ s. s.1) (tagged (context 7) ⟦<OctetString as AsnType>⟧.meaning) ⟦<OctetString as PartialEq>⟧.eq ∷ [] };

    fn full(_alloc: Global, slots: Self::Slots) -> Result<Standing, AllocError> {
        Ok(Standing {
            level: slots.0.unwrap(),
            photo: slots.1,
        })
    }

    fn decode_field<D: Decoder>(index: usize, slots: &mut Self::Slots, decoder: &mut D) -> Decoded {
        match index {
            0 => required(&mut slots.0, decoder, Tagging::Tagged(tag!(context 6))),
            1 => optional(&mut slots.1, decoder, Tagging::Tagged(tag!(context 7))),
            _ => Ok(()),
        }
    }
}

impl FieldTable for Standing {
    ghost components = { sequence_of_slots ⟦<Standing as DecodeByIndex>⟧.layout };

    fn field_count() -> usize {
        2
    }

    fn field_at(index: usize) -> Option<Field<'static>> {
        match index {
            0 => Some(Field::new_required_type_with_tag::<u8>(0, tag!(context 6), "level")),
            1 => Some(Field::new_optional_type_with_tag::<OctetString>(
                1,
                tag!(context 7),
                "photo",
            )),
            _ => None,
        }
    }

    fn extension_index() -> Option<usize> {
        None
    }
}

impl EncodeFields for Standing {
    fn encode_field<E: Encoder>(&self, index: usize, encoder: &mut E) -> Result<(), EncodeError> {
        match index {
            0 => self.level.encode_with_tag(encoder, tag!(context 6)),
            1 => self.photo.encode_with_tag(encoder, tag!(context 7)),
            _ => Ok(()),
        }
    }
}

impl DecodeFields for Standing {
    fn decode_fields<D: Decoder>(decoder: &mut D) -> Result<Standing, DecodeError> {
        decode_fields_by_index(decoder)
    }
}
