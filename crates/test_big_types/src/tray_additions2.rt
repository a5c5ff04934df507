//! `[[ cake [4] UTF8String OPTIONAL ]]`
ghost use Rattle.std.specs.Prelude.{[], codes, ◌∷◌};
ghost use Rattle.asn1_schema.specs.Words.{context, optional_slot, sequence_of_slots, tagged};

use asn1_schema::{
    AsnType, DecodeSetByIndex, Decoded, Decoder, Encode, EncodeError, EncodeFields, Encoder, Field,
    FieldTable, Tag, TagTree, Tagging, Utf8String, decode_unique,
};
use asn1_tags::tag;
use std::alloc::{AllocError, Global};

/// A group of additions to `Tray`.
#[derive(PartialEq, Eq, Debug, Drop)]
pub struct TrayAdditions2 {
    /// `cake [4] UTF8String OPTIONAL`
    pub cake: Option<Utf8String>,
}

/// The trees of the components, which are those of the group.
pub(crate) const TRAY_ADDITIONS2: &[TagTree<'static>] = &[TagTree::Leaf(tag!(context 4))];

impl DecodeSetByIndex for TrayAdditions2 {
    type Slots = (Option<Utf8String>,);

    ghost layout = { optional_slot (codes "cake") (λ v. v.cake) (λ s. s.0) (tagged (context 4) ⟦<Utf8String as AsnType>⟧.meaning) ⟦<Utf8String as PartialEq>⟧.eq ∷ [] };

    fn full(_alloc: Global, slots: Self::Slots) -> Result<Self, AllocError> {
        Ok(Self { cake: slots.0 })
    }

    fn missing_at(_index: usize, _slots: &Self::Slots) -> Option<&'static str> {
        None
    }

    fn decode_field<D: Decoder>(
        index: usize,
        _tag: Tag,
        slots: &mut Self::Slots,
        decoder: &mut D,
    ) -> Decoded {
        match index {
            0 => decode_unique(
                &mut slots.0,
                decoder,
                Tagging::Tagged(tag!(context 4)),
                "cake",
            ),
            _ => Ok(()),
        }
    }
}

impl FieldTable for TrayAdditions2 {
    ghost components = { sequence_of_slots ⟦<TrayAdditions2 as DecodeSetByIndex>⟧.layout };

    fn field_count() -> usize {
        1
    }

    fn field_at(index: usize) -> Option<Field<'static>> {
        match index {
            0 => Some(Field::new_optional_type_with_tag::<Utf8String>(0, tag!(context 4), "cake")),
            _ => None,
        }
    }

    fn extension_index() -> Option<usize> {
        None
    }
}

impl EncodeFields for TrayAdditions2 {
    fn encode_field<E: Encoder>(&self, index: usize, encoder: &mut E) -> Result<(), EncodeError> {
        match index {
            0 => self.cake.encode_with_tag(encoder, tag!(context 4)),
            _ => Ok(()),
        }
    }
}
