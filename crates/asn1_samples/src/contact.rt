//! `[[ phone [3] NumericString OPTIONAL, mail [4] IA5String OPTIONAL ]]`: the group of additions of a `Profile`.
ghost use Rattle.std.specs.Prelude.{[], ◌∷◌, codes};
ghost use Rattle.asn1_slots.specs.Slots.{optional_slot, sequence_of_slots};
ghost use Rattle.asn1_types.specs.Words.{context, tagged};

use asn1_dec::{DecodeError, DecodeFields, Decoder};
use asn1_enc::{Encode, EncodeError, EncodeFields, Encoder};
use asn1_slots::{DecodeByIndex, Decoded, Tagging, decode_fields_by_index, optional};
use asn1_tags::tag;
use asn1_types::{AsnType, Field, FieldTable, Tag, TagTree};
use asn1_values::{Ia5String, NumericString};
use std::alloc::{AllocError, Global};

/// How to reach someone: a group of additions, which has no tag of its own.
#[derive(PartialEq, Eq, Debug, Drop)]
pub struct Contact {
    /// `phone [3] NumericString OPTIONAL`
    pub phone: Option<NumericString>,
    /// `mail [4] IA5String OPTIONAL`
    pub mail: Option<Ia5String>,
}

/// The trees of the components, which are those of the group.
pub(crate) const CONTACT: &[TagTree<'static>] = &[
    TagTree::Leaf(tag!(context 3)),
    TagTree::Leaf(tag!(context 4)),
];

impl DecodeByIndex for Contact {
    type Slots = (Option<NumericString>, Option<Ia5String>);

    ghost layout = { optional_slot (codes "phone") (λ c. c.phone) (λ s. s.0) (tagged (context 3) ⟦<NumericString as AsnType>⟧.meaning) ⟦<NumericString as PartialEq>⟧.eq ∷
        optional_slot (codes "mail") (λ c. c.mail) (λ s. s.1) (tagged (context 4) ⟦<Ia5String as AsnType>⟧.meaning) ⟦<Ia5String as PartialEq>⟧.eq ∷ [] };

    fn full(_alloc: Global, slots: Self::Slots) -> Result<Contact, AllocError> {
        Ok(Contact {
            phone: slots.0,
            mail: slots.1,
        })
    }

    fn decode_field<D: Decoder>(index: usize, slots: &mut Self::Slots, decoder: &mut D) -> Decoded {
        match index {
            0 => optional(&mut slots.0, decoder, Tagging::Tagged(tag!(context 3))),
            1 => optional(&mut slots.1, decoder, Tagging::Tagged(tag!(context 4))),
            _ => Ok(()),
        }
    }
}

impl FieldTable for Contact {
    ghost components = { sequence_of_slots ⟦<Contact as DecodeByIndex>⟧.layout };

    fn field_count() -> usize {
        2
    }

    fn field_at(index: usize) -> Option<Field<'static>> {
        match index {
            0 => Some(Field::new_optional_type_with_tag::<NumericString>(
                0,
                tag!(context 3),
                "phone",
            )),
            1 => Some(Field::new_optional_type_with_tag::<Ia5String>(1, tag!(context 4), "mail")),
            _ => None,
        }
    }

    fn extension_index() -> Option<usize> {
        None
    }
}

impl EncodeFields for Contact {
    fn encode_field<E: Encoder>(&self, index: usize, encoder: &mut E) -> Result<(), EncodeError> {
        match index {
            0 => self.phone.encode_with_tag(encoder, tag!(context 3)),
            1 => self.mail.encode_with_tag(encoder, tag!(context 4)),
            _ => Ok(()),
        }
    }
}

impl DecodeFields for Contact {
    fn decode_fields<D: Decoder>(decoder: &mut D) -> Result<Contact, DecodeError> {
        decode_fields_by_index(decoder)
    }
}
