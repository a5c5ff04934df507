//! `AnotherName ::= SEQUENCE { type-id OBJECT IDENTIFIER, value [0] EXPLICIT ANY DEFINED BY type-id }`
ghost use Rattle.std.specs.Prelude.{[], codes, ◌∷◌};
ghost use Rattle.asn1_schema.specs.Words.{IsWellTagged, constructed_agrees, constructed_type, context, explicitly_tagged, required_slot, sequence_of_slots, untagged};
ghost use Rattle.asn1_model.specs.DistinctSets.{SetsAreDistinct};
ghost use Rattle.asn1_model.specs.WrittenAlike.{AreWrittenAlike};

use asn1_schema::{
    Any, AsnType, Constraints, ConstructedType, Decode, DecodeByIndex, DecodeError, Decoded,
    Decoder, Encode, EncodeError, EncodeFields, Encoder, Field, FieldTable, Identifier,
    ObjectIdentifier, Tag, Tagging, TypeTable, decode_sequence_naming_errors, required,
};
use asn1_tags::tag;
use std::alloc::{AllocError, Global};

/// `AnotherName` of the module `PKIX1Implicit88`.
#[derive(PartialEq, Eq, Debug, Drop)]
pub struct AnotherName {
    /// `type-id OBJECT IDENTIFIER`
    pub type_id: ObjectIdentifier,
    /// `value [0] EXPLICIT ANY DEFINED BY type-id`
    pub value: Any,
}

impl DecodeByIndex for AnotherName {
    type Slots = (Option<ObjectIdentifier>, Option<Any>);

    ghost layout = { required_slot (codes "type-id") (λ v. v.type_id) (λ s. s.0) (untagged ⟦<ObjectIdentifier as AsnType>⟧.meaning) ⟦<ObjectIdentifier as PartialEq>⟧.eq ∷
        required_slot (codes "value") (λ v. v.value) (λ s. s.1) (explicitly_tagged (context 0) ⟦<Any as AsnType>⟧.meaning) ⟦<Any as PartialEq>⟧.eq ∷ [] };

    fn full(_alloc: Global, slots: Self::Slots) -> Result<Self, AllocError> {
        Ok(Self {
            type_id: slots.0.unwrap(),
            value: slots.1.unwrap(),
        })
    }

    fn decode_field<D: Decoder>(index: usize, slots: &mut Self::Slots, decoder: &mut D) -> Decoded {
        match index {
            0 => required(&mut slots.0, decoder, Tagging::Untagged),
            1 => required(&mut slots.1, decoder, Tagging::Explicit(tag!(context 0))),
            _ => Ok(()),
        }
    }
}

impl FieldTable for AnotherName {
    ghost components = { sequence_of_slots ⟦<AnotherName as DecodeByIndex>⟧.layout };

    fn field_count() -> usize {
        2
    }

    fn field_at(index: usize) -> Option<Field<'static>> {
        match index {
            0 => Some(Field::new_required_type::<ObjectIdentifier>(0, "type-id")),
            1 => Some(Field::new_required_explicit(1, tag!(context 0), "value")),
            _ => None,
        }
    }

    fn extension_index() -> Option<usize> {
        None
    }
}

impl AsnType for AnotherName {
    ghost meaning = { constructed_type (codes "AnotherName") ⟦<AnotherName as FieldTable>⟧.components };

    fn table() -> TypeTable {
        TypeTable::new(Tag::SEQUENCE, Identifier(Some("AnotherName")))
    }

    fn is_present(&self) -> bool {
        true
    }
}

impl ConstructedType for AnotherName {
    ghost agrees = { constructed_agrees };
}

/// An `AnotherName` can be inside other types.
pub fn another_name_is_well_tagged()
    ensures { IsWellTagged ⟦<AnotherName as AsnType>⟧.meaning }
{}

/// Equal values are written alike, and in each value the components of a SET have distinct tags. With `another_name_is_well_tagged`
/// it follows that the DER of a value is its only spelling (`well_tagged_types_have_one_spelling` of `asn1_der`).
pub fn another_name_has_one_spelling()
    ensures alike { AreWrittenAlike ⟦<AnotherName as AsnType>⟧.meaning
        ⟦<AnotherName as PartialEq>⟧.eq }
    ensures distinct { SetsAreDistinct ⟦<AnotherName as AsnType>⟧.meaning }
{}

impl Encode for AnotherName {
    fn encode_with_tag_and_constraints<E: Encoder>(
        &self,
        encoder: &mut E,
        tag: Tag,
        _constraints: &Constraints<'_>,
        name: Identifier,
    ) -> Result<(), EncodeError> {
        encoder.encode_sequence(tag, self, name)
    }
}

impl EncodeFields for AnotherName {
    fn encode_field<E: Encoder>(&self, index: usize, encoder: &mut E) -> Result<(), EncodeError> {
        match index {
            0 => self.type_id.encode(encoder),
            1 => encoder.encode_explicit_prefix(tag!(context 0), &self.value, Any::identifier()),
            _ => Ok(()),
        }
    }
}

impl Decode for AnotherName {
    fn decode_with_tag_and_constraints<D: Decoder>(
        decoder: &mut D,
        tag: Tag,
        constraints: &Constraints<'_>,
    ) -> Result<Self, DecodeError> {
        decode_sequence_naming_errors(decoder, tag, constraints)
    }
}
