//! `Order ::= SET { price Price, goods SET OF UTF8String }`
ghost use Rattle.std.specs.Prelude.{[], codes, ◌∷◌};
ghost use Rattle.asn1_schema.specs.Words.{IsWellTagged, constructed_agrees, constructed_type, required_slot, set_of_slots, untagged};

use crate::price::Price;
use asn1_schema::{
    AsnType, Constraints, ConstructedType, Decode, DecodeError, DecodeSetByIndex, Decoded, Decoder,
    Encode, EncodeError, EncodeFields, Encoder, Field, FieldTable, Identifier, SetOf, Tag, Tagging,
    TypeTable, Utf8String, decode_set_by_index, decode_unique, missing,
};
use std::alloc::{AllocError, Global};

/// The articles of an order, in any order.
pub type Goods = SetOf<Utf8String>;

/// An order of a customer.
#[derive(PartialEq, Eq, Debug, Drop)]
pub struct Order {
    /// `price Price`
    pub price: Price,
    /// `goods SET OF UTF8String`
    pub goods: Goods,
}

impl DecodeSetByIndex for Order {
    type Slots = (Option<Price>, Option<Goods>);

    ghost layout = { required_slot (codes "price") (λ o. o.price) (λ s. s.0) (untagged ⟦<Price as AsnType>⟧.meaning) ⟦<Price as PartialEq>⟧.eq ∷
        required_slot (codes "goods") (λ o. o.goods) (λ s. s.1) (untagged ⟦<Goods as AsnType>⟧.meaning) ⟦<Goods as PartialEq>⟧.eq ∷ [] };

    fn full(_alloc: Global, slots: Self::Slots) -> Result<Order, AllocError> {
        Ok(Order {
            price: slots.0.unwrap(),
            goods: slots.1.unwrap(),
        })
    }

    fn missing_at(index: usize, slots: &Self::Slots) -> Option<&'static str> {
        match index {
            0 => missing(&slots.0, "price"),
            1 => missing(&slots.1, "goods"),
            _ => None,
        }
    }

    fn decode_field<D: Decoder>(
        index: usize,
        _tag: Tag,
        slots: &mut Self::Slots,
        decoder: &mut D,
    ) -> Decoded {
        match index {
            0 => decode_unique(&mut slots.0, decoder, Tagging::Untagged, "price"),
            1 => decode_unique(&mut slots.1, decoder, Tagging::Untagged, "goods"),
            _ => Ok(()),
        }
    }
}

impl FieldTable for Order {
    ghost components = { set_of_slots ⟦<Order as DecodeSetByIndex>⟧.layout };

    fn field_count() -> usize {
        2
    }

    fn field_at(index: usize) -> Option<Field<'static>> {
        match index {
            0 => Some(Field::new_required_type::<Price>(0, "price")),
            1 => Some(Field::new_required_type::<Goods>(1, "goods")),
            _ => None,
        }
    }

    fn extension_index() -> Option<usize> {
        None
    }
}

impl AsnType for Order {
    ghost meaning = { constructed_type (codes "Order") ⟦<Order as FieldTable>⟧.components };

    fn table() -> TypeTable {
        TypeTable::new(Tag::SET, Identifier(Some("Order")))
    }

    fn is_present(&self) -> bool {
        true
    }
}

impl ConstructedType for Order {
    ghost agrees = { constructed_agrees };
}

/// An `Order` is well tagged: no two of its components share a tag.
pub fn order_is_well_tagged()
    ensures { IsWellTagged ⟦<Order as AsnType>⟧.meaning }
{}

impl Encode for Order {
    fn encode_with_tag_and_constraints<E: Encoder>(
        &self,
        encoder: &mut E,
        tag: Tag,
        _constraints: &Constraints<'_>,
        name: Identifier,
    ) -> Result<(), EncodeError> {
        encoder.encode_set(tag, self, name)
    }
}

impl EncodeFields for Order {
    fn encode_field<E: Encoder>(&self, index: usize, encoder: &mut E) -> Result<(), EncodeError> {
        match index {
            0 => self.price.encode(encoder),
            1 => self.goods.encode(encoder),
            _ => Ok(()),
        }
    }
}

impl Decode for Order {
    fn decode_with_tag_and_constraints<D: Decoder>(
        decoder: &mut D,
        tag: Tag,
        constraints: &Constraints<'_>,
    ) -> Result<Order, DecodeError> {
        decode_set_by_index(decoder, tag, constraints)
    }
}
