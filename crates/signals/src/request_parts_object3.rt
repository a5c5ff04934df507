//! `{ PART 12 IF UNKNOWN pass HOLDS SEQUENCE { from UTF8String, until [0] INTEGER OPTIONAL } }`
ghost use Rattle.std.specs.Prelude.{[], codes, ◌∷◌};
ghost use Rattle.asn1_schema.specs.Words.{IsWellTagged, constructed_agrees, constructed_type, context, optional_slot, required_slot, sequence_of_slots, tagged, untagged};
ghost use Rattle.asn1_model.specs.DistinctSets.{SetsAreDistinct};
ghost use Rattle.asn1_model.specs.WrittenAlike.{AreWrittenAlike};

use asn1_schema::{
    AsnType, Constraints, ConstructedType, Decode, DecodeByIndex, DecodeError, Decoded, Decoder,
    Encode, EncodeError, EncodeFields, Encoder, Field, FieldTable, Identifier, Integer, Tag,
    Tagging, TypeTable, Utf8String, decode_sequence_naming_errors, optional, required,
};
use asn1_tags::tag;
use std::alloc::{AllocError, Global};

/// The type of `Object3` in `RequestParts`.
#[derive(PartialEq, Eq, Debug, Drop)]
pub struct RequestPartsObject3 {
    /// `from UTF8String`
    pub from: Utf8String,
    /// `until [0] INTEGER OPTIONAL`
    pub until: Option<Integer>,
}

impl DecodeByIndex for RequestPartsObject3 {
    type Slots = (Option<Utf8String>, Option<Integer>);

    ghost layout = { required_slot (codes "from") (λ v. v.from) (λ s. s.0) (untagged ⟦<Utf8String as AsnType>⟧.meaning) ⟦<Utf8String as PartialEq>⟧.eq ∷
        optional_slot (codes "until") (λ v. v.until) (λ s. s.1) (tagged (context 0) ⟦<Integer as AsnType>⟧.meaning) ⟦<Integer as PartialEq>⟧.eq ∷ [] };

    fn full(_alloc: Global, slots: Self::Slots) -> Result<Self, AllocError> {
        Ok(Self {
            from: slots.0.unwrap(),
            until: slots.1,
        })
    }

    fn decode_field<D: Decoder>(index: usize, slots: &mut Self::Slots, decoder: &mut D) -> Decoded {
        match index {
            0 => required(&mut slots.0, decoder, Tagging::Untagged),
            1 => optional(&mut slots.1, decoder, Tagging::Tagged(tag!(context 0))),
            _ => Ok(()),
        }
    }
}

impl FieldTable for RequestPartsObject3 {
    ghost components = { sequence_of_slots ⟦<RequestPartsObject3 as DecodeByIndex>⟧.layout };

    fn field_count() -> usize {
        2
    }

    fn field_at(index: usize) -> Option<Field<'static>> {
        match index {
            0 => Some(Field::new_required_type::<Utf8String>(0, "from")),
            1 => Some(Field::new_optional_type_with_tag::<Integer>(1, tag!(context 0), "until")),
            _ => None,
        }
    }

    fn extension_index() -> Option<usize> {
        None
    }
}

impl AsnType for RequestPartsObject3 {
    ghost meaning = { constructed_type (codes "Object3") ⟦<RequestPartsObject3 as FieldTable>⟧.components };

    fn table() -> TypeTable {
        TypeTable::new(Tag::SEQUENCE, Identifier(Some("Object3")))
    }

    fn is_present(&self) -> bool {
        true
    }
}

impl ConstructedType for RequestPartsObject3 {
    ghost agrees = { constructed_agrees };
}

/// A `RequestPartsObject3` can be inside other types.
pub fn request_parts_object3_is_well_tagged()
    ensures { IsWellTagged ⟦<RequestPartsObject3 as AsnType>⟧.meaning }
{}

/// Equal values are written alike, and in each value the components of a SET have distinct tags. With `request_parts_object3_is_well_tagged`
/// it follows that the DER of a value is its only spelling (`well_tagged_types_have_one_spelling` of `asn1_der`).
pub fn request_parts_object3_has_one_spelling()
    ensures alike { AreWrittenAlike ⟦<RequestPartsObject3 as AsnType>⟧.meaning
        ⟦<RequestPartsObject3 as PartialEq>⟧.eq }
    ensures distinct { SetsAreDistinct ⟦<RequestPartsObject3 as AsnType>⟧.meaning }
{}

impl Encode for RequestPartsObject3 {
    fn encode_with_tag_and_constraints<E: Encoder>(
        &self,
        encoder: &mut E,
        tag: Tag,
        _constraints: &Constraints<'_>,
        name: Identifier,
    ) -> Result<(), EncodeError> {
        encoder.encode_sequence(tag, self, name)
    }
}

impl EncodeFields for RequestPartsObject3 {
    fn encode_field<E: Encoder>(&self, index: usize, encoder: &mut E) -> Result<(), EncodeError> {
        match index {
            0 => self.from.encode(encoder),
            1 => self.until.encode_with_tag(encoder, tag!(context 0)),
            _ => Ok(()),
        }
    }
}

impl Decode for RequestPartsObject3 {
    fn decode_with_tag_and_constraints<D: Decoder>(
        decoder: &mut D,
        tag: Tag,
        constraints: &Constraints<'_>,
    ) -> Result<Self, DecodeError> {
        decode_sequence_naming_errors(decoder, tag, constraints)
    }
}
