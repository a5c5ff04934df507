//! `PartialAttribute ::= SEQUENCE { type AttributeDescription, vals SET OF value AttributeValue }`
ghost use Rattle.std.specs.Prelude.{[], codes, ◌∷◌};
ghost use Rattle.asn1_schema.specs.Words.{IsWellTagged, constructed_agrees, constructed_type, extensible_sequence_after, required_slot, untagged};
ghost use Rattle.asn1_model.specs.DistinctSets.{SetsAreDistinct};
ghost use Rattle.asn1_model.specs.WrittenAlike.{AreWrittenAlike};

use crate::aliases::{AttributeDescription, AttributeValue};
use asn1_schema::{
    AsnType, Constraints, ConstructedType, Decode, DecodeByIndex, DecodeError, Decoded, Decoder,
    Encode, EncodeError, EncodeFields, Encoder, Field, FieldTable, Identifier, SetOf, Tag, Tagging,
    TypeTable, decode_sequence_naming_errors, required,
};
use asn1_spelling::{equal_sets_of_are_written_alike, sets_in_sets_of_are_distinct};
use std::alloc::{AllocError, Global};

/// `PartialAttribute` of the module `Lightweight-Directory-Access-Protocol-V3`.
#[derive(PartialEq, Eq, Debug, Drop)]
pub struct PartialAttribute {
    /// `type AttributeDescription`
    pub type_: AttributeDescription,
    /// `vals SET OF value AttributeValue`
    pub vals: SetOf<AttributeValue>,
}

impl DecodeByIndex for PartialAttribute {
    type Slots = (Option<AttributeDescription>, Option<SetOf<AttributeValue>>);

    ghost layout = { required_slot (codes "type") (λ v. v.type_) (λ s. s.0) (untagged ⟦<AttributeDescription as AsnType>⟧.meaning) ⟦<AttributeDescription as PartialEq>⟧.eq ∷
        required_slot (codes "vals") (λ v. v.vals) (λ s. s.1) (untagged ⟦<SetOf<AttributeValue> as AsnType>⟧.meaning) ⟦<SetOf<AttributeValue> as PartialEq>⟧.eq ∷ [] };

    fn full(_alloc: Global, slots: Self::Slots) -> Result<Self, AllocError> {
        Ok(Self {
            type_: slots.0.unwrap(),
            vals: slots.1.unwrap(),
        })
    }

    fn decode_field<D: Decoder>(index: usize, slots: &mut Self::Slots, decoder: &mut D) -> Decoded {
        match index {
            0 => required(&mut slots.0, decoder, Tagging::Untagged),
            1 => required(&mut slots.1, decoder, Tagging::Untagged),
            _ => Ok(()),
        }
    }
}

impl FieldTable for PartialAttribute {
    ghost components = { extensible_sequence_after 2 ⟦<PartialAttribute as DecodeByIndex>⟧.layout };

    fn field_count() -> usize {
        2
    }

    fn field_at(index: usize) -> Option<Field<'static>> {
        match index {
            0 => Some(Field::new_required_type::<AttributeDescription>(0, "type")),
            1 => Some(Field::new_required_type::<SetOf<AttributeValue>>(1, "vals")),
            _ => None,
        }
    }

    fn extension_index() -> Option<usize> {
        Some(2)
    }
}

impl AsnType for PartialAttribute {
    ghost meaning = { constructed_type (codes "PartialAttribute") ⟦<PartialAttribute as FieldTable>⟧.components };

    fn table() -> TypeTable {
        TypeTable::new(Tag::SEQUENCE, Identifier(Some("PartialAttribute")))
    }

    fn is_present(&self) -> bool {
        true
    }
}

impl ConstructedType for PartialAttribute {
    ghost agrees = { constructed_agrees };
}

/// A `PartialAttribute` can be inside other types.
pub fn partial_attribute_is_well_tagged()
    ensures { IsWellTagged ⟦<PartialAttribute as AsnType>⟧.meaning }
{}

/// Equal values are written alike, and in each value the components of a SET have distinct tags. With `partial_attribute_is_well_tagged`
/// it follows that the DER of a value is its only spelling (`well_tagged_types_have_one_spelling` of `asn1_der`).
pub fn partial_attribute_has_one_spelling()
    ensures alike { AreWrittenAlike ⟦<PartialAttribute as AsnType>⟧.meaning
        ⟦<PartialAttribute as PartialEq>⟧.eq }
    ensures distinct { SetsAreDistinct ⟦<PartialAttribute as AsnType>⟧.meaning }
{
    equal_sets_of_are_written_alike::<AttributeValue>();
    sets_in_sets_of_are_distinct::<AttributeValue>();
}

impl Encode for PartialAttribute {
    fn encode_with_tag_and_constraints<E: Encoder>(
        &self,
        encoder: &mut E,
        tag: Tag,
        _constraints: &Constraints<'_>,
        name: Identifier,
    ) -> Result<(), EncodeError> {
        encoder.encode_sequence(tag, self, name)
    }
}

impl EncodeFields for PartialAttribute {
    fn encode_field<E: Encoder>(&self, index: usize, encoder: &mut E) -> Result<(), EncodeError> {
        match index {
            0 => self.type_.encode(encoder),
            1 => self.vals.encode(encoder),
            _ => Ok(()),
        }
    }
}

impl Decode for PartialAttribute {
    fn decode_with_tag_and_constraints<D: Decoder>(
        decoder: &mut D,
        tag: Tag,
        constraints: &Constraints<'_>,
    ) -> Result<Self, DecodeError> {
        decode_sequence_naming_errors(decoder, tag, constraints)
    }
}
