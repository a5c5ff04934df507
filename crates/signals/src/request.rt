//! `Request ::= SEQUENCE { parts [0] Parts {{RequestParts}}, ... }`
ghost use Rattle.std.specs.Prelude.{[], codes, ◌∷◌};
ghost use Rattle.asn1_schema.specs.Words.{IsWellTagged, constructed_agrees, constructed_type, context, extensible_sequence_after, required_slot, tagged};
ghost use Rattle.asn1_model.specs.DistinctSets.{SetsAreDistinct};
ghost use Rattle.asn1_model.specs.WrittenAlike.{AreWrittenAlike};

use crate::aliases::Parts;
use crate::part::{Part, part_has_one_spelling};
use asn1_schema::{
    AsnType, Constraints, ConstructedType, Decode, DecodeByIndex, DecodeError, Decoded, Decoder,
    Encode, EncodeError, EncodeFields, Encoder, Field, FieldTable, Identifier, Tag, Tagging,
    TypeTable, decode_sequence_naming_errors, required,
};
use asn1_spelling::{equal_lists_are_written_alike, sets_in_lists_are_distinct};
use asn1_tags::tag;
use std::alloc::{AllocError, Global};

/// `Request` of the module `Signals`.
#[derive(PartialEq, Eq, Debug, Drop)]
pub struct Request {
    /// `parts [0] Parts {{RequestParts}}`
    pub parts: Parts,
}

impl DecodeByIndex for Request {
    type Slots = (Option<Parts>,);

    ghost layout = { required_slot (codes "parts") (λ v. v.parts) (λ s. s.0) (tagged (context 0) ⟦<Parts as AsnType>⟧.meaning) ⟦<Parts as PartialEq>⟧.eq ∷ [] };

    fn full(_alloc: Global, slots: Self::Slots) -> Result<Self, AllocError> {
        Ok(Self {
            parts: slots.0.unwrap(),
        })
    }

    fn decode_field<D: Decoder>(index: usize, slots: &mut Self::Slots, decoder: &mut D) -> Decoded {
        match index {
            0 => required(&mut slots.0, decoder, Tagging::Tagged(tag!(context 0))),
            _ => Ok(()),
        }
    }
}

impl FieldTable for Request {
    ghost components = { extensible_sequence_after 1 ⟦<Request as DecodeByIndex>⟧.layout };

    fn field_count() -> usize {
        1
    }

    fn field_at(index: usize) -> Option<Field<'static>> {
        match index {
            0 => Some(Field::new_required_type_with_tag::<Parts>(0, tag!(context 0), "parts")),
            _ => None,
        }
    }

    fn extension_index() -> Option<usize> {
        Some(1)
    }
}

impl AsnType for Request {
    ghost meaning = { constructed_type (codes "Request") ⟦<Request as FieldTable>⟧.components };

    fn table() -> TypeTable {
        TypeTable::new(Tag::SEQUENCE, Identifier(Some("Request")))
    }

    fn is_present(&self) -> bool {
        true
    }
}

impl ConstructedType for Request {
    ghost agrees = { constructed_agrees };
}

/// A `Request` can be inside other types.
pub fn request_is_well_tagged()
    ensures { IsWellTagged ⟦<Request as AsnType>⟧.meaning }
{}

/// Equal values are written alike, and in each value the components of a SET have distinct tags. With `request_is_well_tagged`
/// it follows that the DER of a value is its only spelling (`well_tagged_types_have_one_spelling` of `asn1_der`).
pub fn request_has_one_spelling()
    ensures alike { AreWrittenAlike ⟦<Request as AsnType>⟧.meaning
        ⟦<Request as PartialEq>⟧.eq }
    ensures distinct { SetsAreDistinct ⟦<Request as AsnType>⟧.meaning }
{
    part_has_one_spelling();
    equal_lists_are_written_alike::<Part>();
    sets_in_lists_are_distinct::<Part>();
}

impl Encode for Request {
    fn encode_with_tag_and_constraints<E: Encoder>(
        &self,
        encoder: &mut E,
        tag: Tag,
        _constraints: &Constraints<'_>,
        name: Identifier,
    ) -> Result<(), EncodeError> {
        encoder.encode_sequence(tag, self, name)
    }
}

impl EncodeFields for Request {
    fn encode_field<E: Encoder>(&self, index: usize, encoder: &mut E) -> Result<(), EncodeError> {
        match index {
            0 => self.parts.encode_with_tag(encoder, tag!(context 0)),
            _ => Ok(()),
        }
    }
}

impl Decode for Request {
    fn decode_with_tag_and_constraints<D: Decoder>(
        decoder: &mut D,
        tag: Tag,
        constraints: &Constraints<'_>,
    ) -> Result<Self, DecodeError> {
        decode_sequence_naming_errors(decoder, tag, constraints)
    }
}
