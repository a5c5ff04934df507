//! `[[ spoon [0] BOOLEAN, sugar [2] INTEGER (0..255) OPTIONAL ]]`
ghost use Rattle.std.specs.Prelude.{[], codes, ◌∷◌};
ghost use Rattle.asn1_schema.specs.Words.{context, optional_slot, required_slot, sequence_of_slots, tagged};

use asn1_schema::{
    AsnType, DecodeSetByIndex, Decoded, Decoder, Encode, EncodeError, EncodeFields, Encoder, Field,
    FieldTable, Tag, TagTree, Tagging, decode_unique, missing,
};
use asn1_tags::tag;
use std::alloc::{AllocError, Global};

/// A group of additions to `Tray`.
#[derive(PartialEq, Eq, Debug, Drop)]
pub struct TrayAdditions {
    /// `spoon [0] BOOLEAN`
    pub spoon: bool,
    /// `sugar [2] INTEGER (0..255) OPTIONAL`
    pub sugar: Option<u8>,
}

/// The trees of the components, which are those of the group.
pub(crate) const TRAY_ADDITIONS: &[TagTree<'static>] = &[
    TagTree::Leaf(tag!(context 0)),
    TagTree::Leaf(tag!(context 2)),
];

impl DecodeSetByIndex for TrayAdditions {
    type Slots = (Option<bool>, Option<u8>);

    ghost layout = { required_slot (codes "spoon") (λ v. v.spoon) (λ s. s.0) (tagged (context 0) ⟦<bool as AsnType>⟧.meaning) ⟦<bool as PartialEq>⟧.eq ∷
        optional_slot (codes "sugar") (λ v. v.sugar) (λ s. s.1) (tagged (context 2) ⟦<u8 as AsnType>⟧.meaning) ⟦<u8 as PartialEq>⟧.eq ∷ [] };

    fn full(_alloc: Global, slots: Self::Slots) -> Result<Self, AllocError> {
        Ok(Self {
            spoon: slots.0.unwrap(),
            sugar: slots.1,
        })
    }

    fn missing_at(index: usize, slots: &Self::Slots) -> Option<&'static str> {
        match index {
            0 => missing(&slots.0, "spoon"),
            _ => None,
        }
    }

    fn decode_field<D: Decoder>(
        index: usize,
        _tag: Tag,
        slots: &mut Self::Slots,
        decoder: &mut D,
    ) -> Decoded {
        match index {
            0 => decode_unique(
                &mut slots.0,
                decoder,
                Tagging::Tagged(tag!(context 0)),
                "spoon",
            ),
            1 => decode_unique(
                &mut slots.1,
                decoder,
                Tagging::Tagged(tag!(context 2)),
                "sugar",
            ),
            _ => Ok(()),
        }
    }
}

impl FieldTable for TrayAdditions {
    ghost components = { sequence_of_slots ⟦<TrayAdditions as DecodeSetByIndex>⟧.layout };

    fn field_count() -> usize {
        2
    }

    fn field_at(index: usize) -> Option<Field<'static>> {
        match index {
            0 => Some(Field::new_required_type_with_tag::<bool>(0, tag!(context 0), "spoon")),
            1 => Some(Field::new_optional_type_with_tag::<u8>(1, tag!(context 2), "sugar")),
            _ => None,
        }
    }

    fn extension_index() -> Option<usize> {
        None
    }
}

impl EncodeFields for TrayAdditions {
    fn encode_field<E: Encoder>(&self, index: usize, encoder: &mut E) -> Result<(), EncodeError> {
        match index {
            0 => self.spoon.encode_with_tag(encoder, tag!(context 0)),
            1 => self.sugar.encode_with_tag(encoder, tag!(context 2)),
            _ => Ok(()),
        }
    }
}
