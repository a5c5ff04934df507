//! `AttributeTypeAndValue ::= SEQUENCE { type AttributeType, value AttributeValue }`
ghost use Rattle.std.specs.Prelude.{[], codes, ◌∷◌};
ghost use Rattle.asn1_schema.specs.Words.{IsWellTagged, constructed_agrees, constructed_type, required_slot, sequence_of_slots, untagged};
ghost use Rattle.asn1_model.specs.DistinctSets.{SetsAreDistinct};
ghost use Rattle.asn1_model.specs.WrittenAlike.{AreWrittenAlike};

use crate::aliases::{AttributeType, AttributeValue};
use asn1_schema::{
    AsnType, Constraints, ConstructedType, Decode, DecodeByIndex, DecodeError, Decoded, Decoder,
    Encode, EncodeError, EncodeFields, Encoder, Field, FieldTable, Identifier, Tag, Tagging,
    TypeTable, decode_sequence_naming_errors, required,
};
use std::alloc::{AllocError, Global};

/// `AttributeTypeAndValue` of the module `PKIX1Explicit88`.
#[derive(PartialEq, Eq, Debug, Drop)]
pub struct AttributeTypeAndValue {
    /// `type AttributeType`
    pub type_: AttributeType,
    /// `value AttributeValue`
    pub value: AttributeValue,
}

impl DecodeByIndex for AttributeTypeAndValue {
    type Slots = (Option<AttributeType>, Option<AttributeValue>);

    ghost layout = { required_slot (codes "type") (λ v. v.type_) (λ s. s.0) (untagged ⟦<AttributeType as AsnType>⟧.meaning) ⟦<AttributeType as PartialEq>⟧.eq ∷
        required_slot (codes "value") (λ v. v.value) (λ s. s.1) (untagged ⟦<AttributeValue as AsnType>⟧.meaning) ⟦<AttributeValue as PartialEq>⟧.eq ∷ [] };

    fn full(_alloc: Global, slots: Self::Slots) -> Result<Self, AllocError> {
        Ok(Self {
            type_: slots.0.unwrap(),
            value: slots.1.unwrap(),
        })
    }

    fn decode_field<D: Decoder>(index: usize, slots: &mut Self::Slots, decoder: &mut D) -> Decoded {
        match index {
            0 => required(&mut slots.0, decoder, Tagging::Untagged),
            1 => required(&mut slots.1, decoder, Tagging::Untagged),
            _ => Ok(()),
        }
    }
}

impl FieldTable for AttributeTypeAndValue {
    ghost components = { sequence_of_slots ⟦<AttributeTypeAndValue as DecodeByIndex>⟧.layout };

    fn field_count() -> usize {
        2
    }

    fn field_at(index: usize) -> Option<Field<'static>> {
        match index {
            0 => Some(Field::new_required_type::<AttributeType>(0, "type")),
            1 => Some(Field::new_required_type::<AttributeValue>(1, "value")),
            _ => None,
        }
    }

    fn extension_index() -> Option<usize> {
        None
    }
}

impl AsnType for AttributeTypeAndValue {
    ghost meaning = { constructed_type (codes "AttributeTypeAndValue") ⟦<AttributeTypeAndValue as FieldTable>⟧.components };

    fn table() -> TypeTable {
        TypeTable::new(Tag::SEQUENCE, Identifier(Some("AttributeTypeAndValue")))
    }

    fn is_present(&self) -> bool {
        true
    }
}

impl ConstructedType for AttributeTypeAndValue {
    ghost agrees = { constructed_agrees };
}

/// An `AttributeTypeAndValue` can be inside other types.
pub fn attribute_type_and_value_is_well_tagged()
    ensures { IsWellTagged ⟦<AttributeTypeAndValue as AsnType>⟧.meaning }
{}

/// Equal values are written alike, and in each value the components of a SET have distinct tags. With `attribute_type_and_value_is_well_tagged`
/// it follows that the DER of a value is its only spelling (`well_tagged_types_have_one_spelling` of `asn1_der`).
pub fn attribute_type_and_value_has_one_spelling()
    ensures alike { AreWrittenAlike ⟦<AttributeTypeAndValue as AsnType>⟧.meaning
        ⟦<AttributeTypeAndValue as PartialEq>⟧.eq }
    ensures distinct { SetsAreDistinct ⟦<AttributeTypeAndValue as AsnType>⟧.meaning }
{}

impl Encode for AttributeTypeAndValue {
    fn encode_with_tag_and_constraints<E: Encoder>(
        &self,
        encoder: &mut E,
        tag: Tag,
        _constraints: &Constraints<'_>,
        name: Identifier,
    ) -> Result<(), EncodeError> {
        encoder.encode_sequence(tag, self, name)
    }
}

impl EncodeFields for AttributeTypeAndValue {
    fn encode_field<E: Encoder>(&self, index: usize, encoder: &mut E) -> Result<(), EncodeError> {
        match index {
            0 => self.type_.encode(encoder),
            1 => self.value.encode(encoder),
            _ => Ok(()),
        }
    }
}

impl Decode for AttributeTypeAndValue {
    fn decode_with_tag_and_constraints<D: Decoder>(
        decoder: &mut D,
        tag: Tag,
        constraints: &Constraints<'_>,
    ) -> Result<Self, DecodeError> {
        decode_sequence_naming_errors(decoder, tag, constraints)
    }
}
