//! `Part` of the module `Signals`.
//!
//! ```text
//! Part {PART : Known} ::= SEQUENCE {
//!     number [0] PART.&number ({Known}),
//!     handling [1] PART.&handling ({Known}{@number}),
//!     content [2] PART.&Content ({Known}{@number})
//! }
//! ```
ghost use Rattle.std.specs.Prelude.{[], codes, ◌∷◌};
ghost use Rattle.asn1_schema.specs.Words.{IsWellTagged, constructed_agrees, constructed_type, context, explicitly_tagged, required_slot, sequence_of_slots, tagged};
ghost use Rattle.asn1_model.specs.DistinctSets.{SetsAreDistinct};
ghost use Rattle.asn1_model.specs.WrittenAlike.{AreWrittenAlike};

use crate::handling::{Handling, handling_has_one_spelling};
use asn1_schema::{
    Any, AsnType, Constraints, ConstructedType, Decode, DecodeByIndex, DecodeError, Decoded,
    Decoder, Encode, EncodeError, EncodeFields, Encoder, Field, FieldTable, Identifier, Tag,
    Tagging, TypeTable, decode_sequence_naming_errors, required,
};
use asn1_tags::tag;
use std::alloc::{AllocError, Global};

/// `Part` of the module `Signals`.
#[derive(PartialEq, Eq, Debug, Drop)]
pub struct Part {
    /// `number [0] PART.&number ({Known})`
    pub number: u16,
    /// `handling [1] PART.&handling ({Known}{@number})`
    pub handling: Handling,
    /// `content [2] PART.&Content ({Known}{@number})`
    pub content: Any,
}

impl DecodeByIndex for Part {
    type Slots = (Option<u16>, Option<Handling>, Option<Any>);

    ghost layout = { required_slot (codes "number") (λ v. v.number) (λ s. s.0) (tagged (context 0) ⟦<u16 as AsnType>⟧.meaning) ⟦<u16 as PartialEq>⟧.eq ∷
        required_slot (codes "handling") (λ v. v.handling) (λ s. s.1) (tagged (context 1) ⟦<Handling as AsnType>⟧.meaning) ⟦<Handling as PartialEq>⟧.eq ∷
        required_slot (codes "content") (λ v. v.content) (λ s. s.2) (explicitly_tagged (context 2) ⟦<Any as AsnType>⟧.meaning) ⟦<Any as PartialEq>⟧.eq ∷ [] };

    fn full(_alloc: Global, slots: Self::Slots) -> Result<Self, AllocError> {
        Ok(Self {
            number: slots.0.unwrap(),
            handling: slots.1.unwrap(),
            content: slots.2.unwrap(),
        })
    }

    fn decode_field<D: Decoder>(index: usize, slots: &mut Self::Slots, decoder: &mut D) -> Decoded {
        match index {
            0 => required(&mut slots.0, decoder, Tagging::Tagged(tag!(context 0))),
            1 => required(&mut slots.1, decoder, Tagging::Tagged(tag!(context 1))),
            2 => required(&mut slots.2, decoder, Tagging::Explicit(tag!(context 2))),
            _ => Ok(()),
        }
    }
}

impl FieldTable for Part {
    ghost components = { sequence_of_slots ⟦<Part as DecodeByIndex>⟧.layout };

    fn field_count() -> usize {
        3
    }

    fn field_at(index: usize) -> Option<Field<'static>> {
        match index {
            0 => Some(Field::new_required_type_with_tag::<u16>(0, tag!(context 0), "number")),
            1 => Some(Field::new_required_type_with_tag::<Handling>(
                1,
                tag!(context 1),
                "handling",
            )),
            2 => Some(Field::new_required_explicit(2, tag!(context 2), "content")),
            _ => None,
        }
    }

    fn extension_index() -> Option<usize> {
        None
    }
}

impl AsnType for Part {
    ghost meaning = { constructed_type (codes "Part") ⟦<Part as FieldTable>⟧.components };

    fn table() -> TypeTable {
        TypeTable::new(Tag::SEQUENCE, Identifier(Some("Part")))
    }

    fn is_present(&self) -> bool {
        true
    }
}

impl ConstructedType for Part {
    ghost agrees = { constructed_agrees };
}

/// A `Part` can be inside other types.
pub fn part_is_well_tagged()
    ensures { IsWellTagged ⟦<Part as AsnType>⟧.meaning }
{}

/// Equal values are written alike, and in each value the components of a SET have distinct tags. With `part_is_well_tagged`
/// it follows that the DER of a value is its only spelling (`well_tagged_types_have_one_spelling` of `asn1_der`).
pub fn part_has_one_spelling()
    ensures alike { AreWrittenAlike ⟦<Part as AsnType>⟧.meaning
        ⟦<Part as PartialEq>⟧.eq }
    ensures distinct { SetsAreDistinct ⟦<Part as AsnType>⟧.meaning }
{
    handling_has_one_spelling();
}

impl Encode for Part {
    fn encode_with_tag_and_constraints<E: Encoder>(
        &self,
        encoder: &mut E,
        tag: Tag,
        _constraints: &Constraints<'_>,
        name: Identifier,
    ) -> Result<(), EncodeError> {
        encoder.encode_sequence(tag, self, name)
    }
}

impl EncodeFields for Part {
    fn encode_field<E: Encoder>(&self, index: usize, encoder: &mut E) -> Result<(), EncodeError> {
        match index {
            0 => self.number.encode_with_tag(encoder, tag!(context 0)),
            1 => self.handling.encode_with_tag(encoder, tag!(context 1)),
            2 => encoder.encode_explicit_prefix(tag!(context 2), &self.content, Any::identifier()),
            _ => Ok(()),
        }
    }
}

impl Decode for Part {
    fn decode_with_tag_and_constraints<D: Decoder>(
        decoder: &mut D,
        tag: Tag,
        constraints: &Constraints<'_>,
    ) -> Result<Self, DecodeError> {
        decode_sequence_naming_errors(decoder, tag, constraints)
    }
}
