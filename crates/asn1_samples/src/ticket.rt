//! `Ticket ::= SET { seat [0] INTEGER (0..65535), name [1] UTF8String OPTIONAL, paid [2] BOOLEAN DEFAULT FALSE }`
ghost use Rattle.std.specs.Prelude.{[], ◌∷◌, false, codes};
ghost use Rattle.asn1_slots.specs.Slots.{default_slot, optional_slot, required_slot, set_of_slots};
ghost use Rattle.asn1_types.specs.Words.{context, tagged, constructed_type, constructed_agrees, IsWellTagged};

use asn1_dec::{Decode, DecodeError, Decoder};
use asn1_enc::{Encode, EncodeError, EncodeFields, Encoder};
use asn1_slots::{
    DecodeSetByIndex, Decoded, Tagging, decode_set_by_index, decode_unique, missing, or_default,
};
use asn1_tags::tag;
use asn1_types::{
    AsnType, Constraints, ConstructedType, Field, FieldTable, Identifier, Tag, TypeTable,
};
use asn1_values::Utf8String;
use std::alloc::{AllocError, Global};

/// A seat, the name of the guest if it is known, and whether it is paid: a SET with a default.
#[derive(PartialEq, Eq, Debug, Drop)]
pub struct Ticket {
    /// `seat [0] INTEGER (0..65535)`
    pub seat: u16,
    /// `name [1] UTF8String OPTIONAL`
    pub name: Option<Utf8String>,
    /// `paid [2] BOOLEAN DEFAULT FALSE`
    pub paid: bool,
}

const SEAT: Tag = tag!(context 0);

const NAME: Tag = tag!(context 1);

const PAID: Tag = tag!(context 2);

impl DecodeSetByIndex for Ticket {
    type Slots = (Option<u16>, Option<Utf8String>, Option<bool>);

    ghost layout = { required_slot (codes "seat") (λ t. t.seat) (λ s. s.0) (tagged (context 0) ⟦<u16 as AsnType>⟧.meaning) ⟦<u16 as PartialEq>⟧.eq ∷
        optional_slot (codes "name") (λ t. t.name) (λ s. s.1) (tagged (context 1) ⟦<Utf8String as AsnType>⟧.meaning) ⟦<Utf8String as PartialEq>⟧.eq ∷
        default_slot (codes "paid") (λ t. t.paid) false (λ s. s.2) (tagged (context 2) ⟦<bool as AsnType>⟧.meaning) ⟦<bool as PartialEq>⟧.eq ∷ [] };

    fn full(_alloc: Global, slots: Self::Slots) -> Result<Ticket, AllocError> {
        Ok(Ticket {
            seat: slots.0.unwrap(),
            name: slots.1,
            paid: or_default(slots.2, false),
        })
    }

    fn missing_at(index: usize, slots: &Self::Slots) -> Option<&'static str> {
        match index {
            0 => missing(&slots.0, "seat"),
            _ => None,
        }
    }

    fn decode_field<D: Decoder>(
        index: usize,
        _tag: Tag,
        slots: &mut Self::Slots,
        decoder: &mut D,
    ) -> Decoded {
        match index {
            0 => decode_unique(&mut slots.0, decoder, Tagging::Tagged(SEAT), "seat"),
            1 => decode_unique(&mut slots.1, decoder, Tagging::Tagged(NAME), "name"),
            2 => decode_unique(&mut slots.2, decoder, Tagging::Tagged(PAID), "paid"),
            _ => Ok(()),
        }
    }
}

impl FieldTable for Ticket {
    ghost components = { set_of_slots ⟦<Ticket as DecodeSetByIndex>⟧.layout };

    fn field_count() -> usize {
        3
    }

    fn field_at(index: usize) -> Option<Field<'static>> {
        match index {
            0 => Some(Field::new_required_type_with_tag::<u16>(0, SEAT, "seat")),
            1 => Some(Field::new_optional_type_with_tag::<Utf8String>(1, NAME, "name")),
            2 => Some(Field::new_default_type_with_tag::<bool>(2, PAID, "paid")),
            _ => None,
        }
    }

    fn extension_index() -> Option<usize> {
        None
    }
}

impl AsnType for Ticket {
    ghost meaning = { constructed_type (codes "Ticket") ⟦<Ticket as FieldTable>⟧.components };

    fn table() -> TypeTable {
        TypeTable::new(Tag::SET, Identifier(Some("Ticket")))
    }

    fn is_present(&self) -> bool {
        true
    }
}

impl ConstructedType for Ticket {
    ghost agrees = { constructed_agrees };
}

/// A `Ticket` is well tagged: no two of its components share a tag.
pub fn ticket_is_well_tagged()
    ensures { IsWellTagged ⟦<Ticket as AsnType>⟧.meaning }
{}

impl Encode for Ticket {
    fn encode_with_tag_and_constraints<E: Encoder>(
        &self,
        encoder: &mut E,
        tag: Tag,
        _constraints: &Constraints<'_>,
        name: Identifier,
    ) -> Result<(), EncodeError> {
        encoder.encode_set(tag, self, name)
    }
}

impl EncodeFields for Ticket {
    fn encode_field<E: Encoder>(&self, index: usize, encoder: &mut E) -> Result<(), EncodeError> {
        match index {
            0 => self.seat.encode_with_tag(encoder, SEAT),
            1 => self.name.encode_with_tag(encoder, NAME),
            2 => encoder.encode_default_with_tag(
                PAID,
                &self.paid,
                |_| Ok(false),
                bool::identifier(),
            ),
            _ => Ok(()),
        }
    }
}

impl Decode for Ticket {
    fn decode_with_tag_and_constraints<D: Decoder>(
        decoder: &mut D,
        tag: Tag,
        constraints: &Constraints<'_>,
    ) -> Result<Ticket, DecodeError> {
        decode_set_by_index(decoder, tag, constraints)
    }
}
