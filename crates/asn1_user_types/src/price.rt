//! `Price ::= SEQUENCE { amount INTEGER (0..4294967295), currency Currency }`
ghost use Rattle.std.specs.Prelude.{[], codes, ◌∷◌};
ghost use Rattle.asn1_schema.specs.Words.{IsWellTagged, constructed_agrees, constructed_type, required_slot, sequence_of_slots, untagged};

use crate::currency::Currency;
use asn1_schema::{
    AsnType, Constraints, ConstructedType, Decode, DecodeByIndex, DecodeError, Decoded, Decoder,
    Encode, EncodeError, EncodeFields, Encoder, Field, FieldTable, Identifier, Tag, Tagging,
    TypeTable, decode_sequence_naming_errors, required,
};
use std::alloc::{AllocError, Global};

/// The price of an article.
#[derive(PartialEq, Eq, Debug, Drop)]
pub struct Price {
    /// `amount INTEGER (0..4294967295)`
    pub amount: u32,
    /// `currency Currency`
    pub currency: Currency,
}

impl DecodeByIndex for Price {
    type Slots = (Option<u32>, Option<Currency>);

    ghost layout = { required_slot (codes "amount") (λ p. p.amount) (λ s. s.0) (untagged ⟦<u32 as AsnType>⟧.meaning) ⟦<u32 as PartialEq>⟧.eq ∷
        required_slot (codes "currency") (λ p. p.currency) (λ s. s.1) (untagged ⟦<Currency as AsnType>⟧.meaning) ⟦<Currency as PartialEq>⟧.eq ∷ [] };

    fn full(_alloc: Global, slots: Self::Slots) -> Result<Price, AllocError> {
        Ok(Price {
            amount: slots.0.unwrap(),
            currency: slots.1.unwrap(),
        })
    }

    fn decode_field<D: Decoder>(index: usize, slots: &mut Self::Slots, decoder: &mut D) -> Decoded {
        match index {
            0 => required(&mut slots.0, decoder, Tagging::Untagged),
            1 => required(&mut slots.1, decoder, Tagging::Untagged),
            _ => Ok(()),
        }
    }
}

impl FieldTable for Price {
    ghost components = { sequence_of_slots ⟦<Price as DecodeByIndex>⟧.layout };

    fn field_count() -> usize {
        2
    }

    fn field_at(index: usize) -> Option<Field<'static>> {
        match index {
            0 => Some(Field::new_required_type::<u32>(0, "amount")),
            1 => Some(Field::new_required_type::<Currency>(1, "currency")),
            _ => None,
        }
    }

    fn extension_index() -> Option<usize> {
        None
    }
}

impl AsnType for Price {
    ghost meaning = { constructed_type (codes "Price") ⟦<Price as FieldTable>⟧.components };

    fn table() -> TypeTable {
        TypeTable::new(Tag::SEQUENCE, Identifier(Some("Price")))
    }

    fn is_present(&self) -> bool {
        true
    }
}

impl ConstructedType for Price {
    ghost agrees = { constructed_agrees };
}

/// A `Price` is well tagged.
pub fn price_is_well_tagged()
    ensures { IsWellTagged ⟦<Price as AsnType>⟧.meaning }
{}

impl Encode for Price {
    fn encode_with_tag_and_constraints<E: Encoder>(
        &self,
        encoder: &mut E,
        tag: Tag,
        _constraints: &Constraints<'_>,
        name: Identifier,
    ) -> Result<(), EncodeError> {
        encoder.encode_sequence(tag, self, name)
    }
}

impl EncodeFields for Price {
    fn encode_field<E: Encoder>(&self, index: usize, encoder: &mut E) -> Result<(), EncodeError> {
        match index {
            0 => self.amount.encode(encoder),
            1 => self.currency.encode(encoder),
            _ => Ok(()),
        }
    }
}

impl Decode for Price {
    fn decode_with_tag_and_constraints<D: Decoder>(
        decoder: &mut D,
        tag: Tag,
        constraints: &Constraints<'_>,
    ) -> Result<Price, DecodeError> {
        decode_sequence_naming_errors(decoder, tag, constraints)
    }
}
