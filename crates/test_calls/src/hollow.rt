//! `Hollow ::= SET { nothing NULL }`, whose component is written as nothing.
ghost use Rattle.asn1_slots.specs.Slots.{required_slot, set_of_slots};
ghost use Rattle.asn1_types.specs.Words.{constructed_agrees, constructed_type, untagged};
ghost use Rattle.std.specs.Prelude.{[], ◌∷◌, codes};

use asn1_dec::{Decode, DecodeError, Decoder};
use asn1_enc::{Encode, EncodeError, EncodeFields, Encoder};
use asn1_slots::{DecodeSetByIndex, Decoded, Tagging, decode_set_by_index, decode_unique, missing};
use asn1_types::{
    AsnType, Constraints, ConstructedType, Field, FieldTable, Identifier, Tag, TypeTable,
};
use std::alloc::{AllocError, Global};
use std::marker::PhantomData;

/// A SET with a component that takes no byte.
#[derive(PartialEq, Eq, Debug, Drop)]
pub struct Hollow {
    /// `nothing NULL`
    pub nothing: PhantomData<u8>,
}

impl DecodeSetByIndex for Hollow {
    type Slots = (Option<PhantomData<u8>>,);

    ghost layout = { required_slot (codes "nothing") (λ h. h.nothing) (λ s. s.0) (untagged ⟦<PhantomData<u8> as AsnType>⟧.meaning) ⟦<PhantomData<u8> as PartialEq>⟧.eq ∷ [] };

    fn full(_alloc: Global, slots: Self::Slots) -> Result<Hollow, AllocError> {
        Ok(Hollow {
            nothing: slots.0.unwrap(),
        })
    }

    fn missing_at(index: usize, slots: &Self::Slots) -> Option<&'static str> {
        match index {
            0 => missing(&slots.0, "nothing"),
            _ => None,
        }
    }

    fn decode_field<D: Decoder>(
        index: usize,
        _tag: Tag,
        slots: &mut Self::Slots,
        decoder: &mut D,
    ) -> Decoded {
        match index {
            0 => decode_unique(&mut slots.0, decoder, Tagging::Untagged, "nothing"),
            _ => Ok(()),
        }
    }
}

impl FieldTable for Hollow {
    ghost components = { set_of_slots ⟦<Hollow as DecodeSetByIndex>⟧.layout };

    fn field_count() -> usize {
        1
    }

    fn field_at(index: usize) -> Option<Field<'static>> {
        match index {
            0 => Some(Field::new_required_type::<PhantomData<u8>>(0, "nothing")),
            _ => None,
        }
    }

    fn extension_index() -> Option<usize> {
        None
    }
}

impl AsnType for Hollow {
    ghost meaning = { constructed_type (codes "Hollow") ⟦<Hollow as FieldTable>⟧.components };

    fn table() -> TypeTable {
        TypeTable::new(Tag::SET, Identifier(Some("Hollow")))
    }

    fn is_present(&self) -> bool {
        true
    }
}

impl ConstructedType for Hollow {
    ghost agrees = { constructed_agrees };
}

impl Encode for Hollow {
    fn encode_with_tag_and_constraints<E: Encoder>(
        &self,
        encoder: &mut E,
        tag: Tag,
        _constraints: &Constraints<'_>,
        name: Identifier,
    ) -> Result<(), EncodeError> {
        encoder.encode_set(tag, self, name)
    }
}

impl EncodeFields for Hollow {
    fn encode_field<E: Encoder>(&self, index: usize, encoder: &mut E) -> Result<(), EncodeError> {
        match index {
            0 => self.nothing.encode(encoder),
            _ => Ok(()),
        }
    }
}

impl Decode for Hollow {
    fn decode_with_tag_and_constraints<D: Decoder>(
        decoder: &mut D,
        tag: Tag,
        constraints: &Constraints<'_>,
    ) -> Result<Hollow, DecodeError> {
        decode_set_by_index(decoder, tag, constraints)
    }
}
