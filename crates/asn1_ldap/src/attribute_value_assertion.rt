//! `AttributeValueAssertion` of the module `Lightweight-Directory-Access-Protocol-V3`.
//!
//! ```text
//! AttributeValueAssertion ::= SEQUENCE {
//!     attributeDesc AttributeDescription,
//!     assertionValue AssertionValue
//! }
//! ```
ghost use Rattle.std.specs.Prelude.{[], codes, ◌∷◌};
ghost use Rattle.asn1_schema.specs.Words.{IsWellTagged, constructed_agrees, constructed_type, extensible_sequence_after, required_slot, untagged};
ghost use Rattle.asn1_model.specs.DistinctSets.{SetsAreDistinct};
ghost use Rattle.asn1_model.specs.WrittenAlike.{AreWrittenAlike};

use crate::aliases::{AssertionValue, AttributeDescription};
use asn1_schema::{
    AsnType, Constraints, ConstructedType, Decode, DecodeByIndex, DecodeError, Decoded, Decoder,
    Encode, EncodeError, EncodeFields, Encoder, Field, FieldTable, Identifier, Tag, Tagging,
    TypeTable, decode_sequence_naming_errors, required,
};
use std::alloc::{AllocError, Global};

/// `AttributeValueAssertion` of the module `Lightweight-Directory-Access-Protocol-V3`.
#[derive(PartialEq, Eq, Debug, Drop)]
pub struct AttributeValueAssertion {
    /// `attributeDesc AttributeDescription`
    pub attribute_desc: AttributeDescription,
    /// `assertionValue AssertionValue`
    pub assertion_value: AssertionValue,
}

impl DecodeByIndex for AttributeValueAssertion {
    type Slots = (Option<AttributeDescription>, Option<AssertionValue>);

    ghost layout = { required_slot (codes "attributeDesc") (λ v. v.attribute_desc) (λ s. s.0) (untagged ⟦<AttributeDescription as AsnType>⟧.meaning) ⟦<AttributeDescription as PartialEq>⟧.eq ∷
        required_slot (codes "assertionValue") (λ v. v.assertion_value) (λ s. s.1) (untagged ⟦<AssertionValue as AsnType>⟧.meaning) ⟦<AssertionValue as PartialEq>⟧.eq ∷ [] };

    fn full(_alloc: Global, slots: Self::Slots) -> Result<Self, AllocError> {
        Ok(Self {
            attribute_desc: slots.0.unwrap(),
            assertion_value: slots.1.unwrap(),
        })
    }

    fn decode_field<D: Decoder>(index: usize, slots: &mut Self::Slots, decoder: &mut D) -> Decoded {
        match index {
            0 => required(&mut slots.0, decoder, Tagging::Untagged),
            1 => required(&mut slots.1, decoder, Tagging::Untagged),
            _ => Ok(()),
        }
    }
}

impl FieldTable for AttributeValueAssertion {
    ghost components = { extensible_sequence_after 2 ⟦<AttributeValueAssertion as DecodeByIndex>⟧.layout };

    fn field_count() -> usize {
        2
    }

    fn field_at(index: usize) -> Option<Field<'static>> {
        match index {
            0 => Some(Field::new_required_type::<AttributeDescription>(0, "attributeDesc")),
            1 => Some(Field::new_required_type::<AssertionValue>(1, "assertionValue")),
            _ => None,
        }
    }

    fn extension_index() -> Option<usize> {
        Some(2)
    }
}

impl AsnType for AttributeValueAssertion {
    ghost meaning = { constructed_type (codes "AttributeValueAssertion") ⟦<AttributeValueAssertion as FieldTable>⟧.components };

    fn table() -> TypeTable {
        TypeTable::new(Tag::SEQUENCE, Identifier(Some("AttributeValueAssertion")))
    }

    fn is_present(&self) -> bool {
        true
    }
}

impl ConstructedType for AttributeValueAssertion {
    ghost agrees = { constructed_agrees };
}

/// An `AttributeValueAssertion` can be inside other types.
pub fn attribute_value_assertion_is_well_tagged()
    ensures { IsWellTagged ⟦<AttributeValueAssertion as AsnType>⟧.meaning }
{}

/// Equal values are written alike, and in each value the components of a SET have distinct tags. With `attribute_value_assertion_is_well_tagged`
/// it follows that the DER of a value is its only spelling (`well_tagged_types_have_one_spelling` of `asn1_der`).
pub fn attribute_value_assertion_has_one_spelling()
    ensures alike { AreWrittenAlike ⟦<AttributeValueAssertion as AsnType>⟧.meaning
        ⟦<AttributeValueAssertion as PartialEq>⟧.eq }
    ensures distinct { SetsAreDistinct ⟦<AttributeValueAssertion as AsnType>⟧.meaning }
{}

impl Encode for AttributeValueAssertion {
    fn encode_with_tag_and_constraints<E: Encoder>(
        &self,
        encoder: &mut E,
        tag: Tag,
        _constraints: &Constraints<'_>,
        name: Identifier,
    ) -> Result<(), EncodeError> {
        encoder.encode_sequence(tag, self, name)
    }
}

impl EncodeFields for AttributeValueAssertion {
    fn encode_field<E: Encoder>(&self, index: usize, encoder: &mut E) -> Result<(), EncodeError> {
        match index {
            0 => self.attribute_desc.encode(encoder),
            1 => self.assertion_value.encode(encoder),
            _ => Ok(()),
        }
    }
}

impl Decode for AttributeValueAssertion {
    fn decode_with_tag_and_constraints<D: Decoder>(
        decoder: &mut D,
        tag: Tag,
        constraints: &Constraints<'_>,
    ) -> Result<Self, DecodeError> {
        decode_sequence_naming_errors(decoder, tag, constraints)
    }
}
