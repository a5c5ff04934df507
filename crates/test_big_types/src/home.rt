//! `[[ street [3] UTF8String OPTIONAL, city [4] UTF8String OPTIONAL, country [5] PrintableString OPTIONAL ]]`: a group of additions of a `Member`.
ghost use Rattle.std.specs.Prelude.{[], codes, ◌∷◌};
ghost use Rattle.asn1_schema.specs.Words.{context, optional_slot, sequence_of_slots, tagged};

use asn1_schema::{
    AsnType, DecodeByIndex, DecodeError, DecodeFields, Decoded, Decoder, Encode, EncodeError,
    EncodeFields, Encoder, Field, FieldTable, PrintableString, Tag, TagTree, Tagging, Utf8String,
    decode_fields_by_index, optional,
};
use asn1_tags::tag;
use std::alloc::{AllocError, Global};

/// A group of additions of a `Member`.
#[derive(PartialEq, Eq, Debug, Drop)]
pub struct Home {
    /// `street [3] UTF8String OPTIONAL`
    pub street: Option<Utf8String>,
    /// `city [4] UTF8String OPTIONAL`
    pub city: Option<Utf8String>,
    /// `country [5] PrintableString OPTIONAL`
    pub country: Option<PrintableString>,
}

/// The trees of the components, which are those of the group.
pub(crate) const HOME: &[TagTree<'static>] = &[
    TagTree::Leaf(tag!(context 3)),
    TagTree::Leaf(tag!(context 4)),
    TagTree::Leaf(tag!(context 5)),
];

impl DecodeByIndex for Home {
    type Slots = (
        Option<Utf8String>,
        Option<Utf8String>,
        Option<PrintableString>,
    );

    ghost layout = { optional_slot (codes "street") (λ v. v.street) (λ s. s.0) (tagged (context 3) ⟦<Utf8String as AsnType>⟧.meaning) ⟦<Utf8String as PartialEq>⟧.eq ∷
        optional_slot (codes "city") (λ v. v.city) (λ s. s.1) (tagged (context 4) ⟦<Utf8String as AsnType>⟧.meaning) ⟦<Utf8String as PartialEq>⟧.eq ∷
        optional_slot (codes "country") (λ v. v.country) (λ s. s.2)
        (tagged (context 5) ⟦<PrintableString as AsnType>⟧.meaning) ⟦<PrintableString as PartialEq>⟧.eq ∷ [] };

    fn full(_alloc: Global, slots: Self::Slots) -> Result<Home, AllocError> {
        Ok(Home {
            street: slots.0,
            city: slots.1,
            country: slots.2,
        })
    }

    fn decode_field<D: Decoder>(index: usize, slots: &mut Self::Slots, decoder: &mut D) -> Decoded {
        match index {
            0 => optional(&mut slots.0, decoder, Tagging::Tagged(tag!(context 3))),
            1 => optional(&mut slots.1, decoder, Tagging::Tagged(tag!(context 4))),
            2 => optional(&mut slots.2, decoder, Tagging::Tagged(tag!(context 5))),
            _ => Ok(()),
        }
    }
}

impl FieldTable for Home {
    ghost components = { sequence_of_slots ⟦<Home as DecodeByIndex>⟧.layout };

    fn field_count() -> usize {
        3
    }

    fn field_at(index: usize) -> Option<Field<'static>> {
        match index {
            0 => Some(Field::new_optional_type_with_tag::<Utf8String>(
                0,
                tag!(context 3),
                "street",
            )),
            1 => Some(Field::new_optional_type_with_tag::<Utf8String>(1, tag!(context 4), "city")),
            2 => Some(Field::new_optional_type_with_tag::<PrintableString>(
                2,
                tag!(context 5),
                "country",
            )),
            _ => None,
        }
    }

    fn extension_index() -> Option<usize> {
        None
    }
}

impl EncodeFields for Home {
    fn encode_field<E: Encoder>(&self, index: usize, encoder: &mut E) -> Result<(), EncodeError> {
        match index {
            0 => self.street.encode_with_tag(encoder, tag!(context 3)),
            1 => self.city.encode_with_tag(encoder, tag!(context 4)),
            2 => self.country.encode_with_tag(encoder, tag!(context 5)),
            _ => Ok(()),
        }
    }
}

impl DecodeFields for Home {
    fn decode_fields<D: Decoder>(decoder: &mut D) -> Result<Home, DecodeError> {
        decode_fields_by_index(decoder)
    }
}
