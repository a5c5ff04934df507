//! `[[ phone [1] NumericString OPTIONAL, mail [2] IA5String OPTIONAL ]]`: a group of additions of a `Member`.
ghost use Rattle.std.specs.Prelude.{[], codes, ◌∷◌};
ghost use Rattle.asn1_schema.specs.Words.{context, optional_slot, sequence_of_slots, tagged};

use asn1_schema::{
    AsnType, DecodeByIndex, DecodeError, DecodeFields, Decoded, Decoder, Encode, EncodeError,
    EncodeFields, Encoder, Field, FieldTable, Ia5String, NumericString, Tag, TagTree, Tagging,
    decode_fields_by_index, optional,
};
use asn1_tags::tag;
use std::alloc::{AllocError, Global};

/// A group of additions of a `Member`.
#[derive(PartialEq, Eq, Debug, Drop)]
pub struct Reach {
    /// `phone [1] NumericString OPTIONAL`
    pub phone: Option<NumericString>,
    /// `mail [2] IA5String OPTIONAL`
    pub mail: Option<Ia5String>,
}

/// The trees of the components, which are those of the group.
pub(crate) const REACH: &[TagTree<'static>] = &[
    TagTree::Leaf(tag!(context 1)),
    TagTree::Leaf(tag!(context 2)),
];

impl DecodeByIndex for Reach {
    type Slots = (Option<NumericString>, Option<Ia5String>);

    ghost layout = { optional_slot (codes "phone") (λ v. v.phone) (λ s. s.0) (tagged (context 1) ⟦<NumericString as AsnType>⟧.meaning) ⟦<NumericString as PartialEq>⟧.eq ∷
        optional_slot (codes "mail") (λ v. v.mail) (λ s. s.1) (tagged (context 2) ⟦<Ia5String as AsnType>⟧.meaning) ⟦<Ia5String as PartialEq>⟧.eq ∷ [] };

    fn full(_alloc: Global, slots: Self::Slots) -> Result<Reach, AllocError> {
        Ok(Reach {
            phone: slots.0,
            mail: slots.1,
        })
    }

    fn decode_field<D: Decoder>(index: usize, slots: &mut Self::Slots, decoder: &mut D) -> Decoded {
        match index {
            0 => optional(&mut slots.0, decoder, Tagging::Tagged(tag!(context 1))),
            1 => optional(&mut slots.1, decoder, Tagging::Tagged(tag!(context 2))),
            _ => Ok(()),
        }
    }
}

impl FieldTable for Reach {
    ghost components = { sequence_of_slots ⟦<Reach as DecodeByIndex>⟧.layout };

    fn field_count() -> usize {
        2
    }

    fn field_at(index: usize) -> Option<Field<'static>> {
        match index {
            0 => Some(Field::new_optional_type_with_tag::<NumericString>(
                0,
                tag!(context 1),
                "phone",
            )),
            1 => Some(Field::new_optional_type_with_tag::<Ia5String>(1, tag!(context 2), "mail")),
            _ => None,
        }
    }

    fn extension_index() -> Option<usize> {
        None
    }
}

impl EncodeFields for Reach {
    fn encode_field<E: Encoder>(&self, index: usize, encoder: &mut E) -> Result<(), EncodeError> {
        match index {
            0 => self.phone.encode_with_tag(encoder, tag!(context 1)),
            1 => self.mail.encode_with_tag(encoder, tag!(context 2)),
            _ => Ok(()),
        }
    }
}

impl DecodeFields for Reach {
    fn decode_fields<D: Decoder>(decoder: &mut D) -> Result<Reach, DecodeError> {
        decode_fields_by_index(decoder)
    }
}
