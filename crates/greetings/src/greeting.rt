//! `Greeting ::= SEQUENCE { text UTF8String, times INTEGER (0..255) DEFAULT 1, to Audience OPTIONAL }`
ghost use Rattle.std.specs.Prelude.{[], codes, ◌∷◌};
ghost use Rattle.asn1_schema.specs.Words.{IsWellTagged, constructed_agrees, constructed_type, context, default_slot, explicitly_tagged, optional_slot, required_slot, sequence_of_slots, tagged};
ghost use Rattle.asn1_model.specs.DistinctSets.{SetsAreDistinct};
ghost use Rattle.asn1_model.specs.WrittenAlike.{AreWrittenAlike};

use crate::audience::{Audience, audience_has_one_spelling};
use asn1_schema::{
    AsnType, Constraints, ConstructedType, Decode, DecodeByIndex, DecodeError, Decoded, Decoder,
    Encode, EncodeError, EncodeFields, Encoder, Field, FieldTable, Identifier, Tag, Tagging,
    TypeTable, Utf8String, decode_sequence_naming_errors, encode_explicit_optional, optional,
    or_default, required,
};
use asn1_tags::tag;
use std::alloc::{AllocError, Global};

/// `Greeting` of the module `Greetings`.
#[derive(PartialEq, Eq, Debug, Drop)]
pub struct Greeting {
    /// `text UTF8String`
    pub text: Utf8String,
    /// `times INTEGER (0..255) DEFAULT 1`
    pub times: u8,
    /// `to Audience OPTIONAL`
    pub to: Option<Audience>,
}

impl DecodeByIndex for Greeting {
    type Slots = (Option<Utf8String>, Option<u8>, Option<Audience>);

    ghost layout = { required_slot (codes "text") (λ v. v.text) (λ s. s.0) (tagged (context 0) ⟦<Utf8String as AsnType>⟧.meaning) ⟦<Utf8String as PartialEq>⟧.eq ∷
        default_slot (codes "times") (λ v. v.times) 1 (λ s. s.1) (tagged (context 1) ⟦<u8 as AsnType>⟧.meaning) ⟦<u8 as PartialEq>⟧.eq ∷
        optional_slot (codes "to") (λ v. v.to) (λ s. s.2) (explicitly_tagged (context 2) ⟦<Audience as AsnType>⟧.meaning) ⟦<Audience as PartialEq>⟧.eq ∷ [] };

    fn full(_alloc: Global, slots: Self::Slots) -> Result<Self, AllocError> {
        Ok(Self {
            text: slots.0.unwrap(),
            times: or_default(slots.1, 1),
            to: slots.2,
        })
    }

    fn decode_field<D: Decoder>(index: usize, slots: &mut Self::Slots, decoder: &mut D) -> Decoded {
        match index {
            0 => required(&mut slots.0, decoder, Tagging::Tagged(tag!(context 0))),
            1 => optional(&mut slots.1, decoder, Tagging::Tagged(tag!(context 1))),
            2 => optional(&mut slots.2, decoder, Tagging::Explicit(tag!(context 2))),
            _ => Ok(()),
        }
    }
}

impl FieldTable for Greeting {
    ghost components = { sequence_of_slots ⟦<Greeting as DecodeByIndex>⟧.layout };

    fn field_count() -> usize {
        3
    }

    fn field_at(index: usize) -> Option<Field<'static>> {
        match index {
            0 => Some(Field::new_required_type_with_tag::<Utf8String>(0, tag!(context 0), "text")),
            1 => Some(Field::new_default_type_with_tag::<u8>(1, tag!(context 1), "times")),
            2 => Some(Field::new_optional_explicit(2, tag!(context 2), "to")),
            _ => None,
        }
    }

    fn extension_index() -> Option<usize> {
        None
    }
}

impl AsnType for Greeting {
    ghost meaning = { constructed_type (codes "Greeting") ⟦<Greeting as FieldTable>⟧.components };

    fn table() -> TypeTable {
        TypeTable::new(Tag::SEQUENCE, Identifier(Some("Greeting")))
    }

    fn is_present(&self) -> bool {
        true
    }
}

impl ConstructedType for Greeting {
    ghost agrees = { constructed_agrees };
}

/// A `Greeting` can be inside other types.
pub fn greeting_is_well_tagged()
    ensures { IsWellTagged ⟦<Greeting as AsnType>⟧.meaning }
{}

/// Equal values are written alike, and in each value the components of a SET have distinct tags. With `greeting_is_well_tagged`
/// it follows that the DER of a value is its only spelling (`well_tagged_types_have_one_spelling` of `asn1_der`).
pub fn greeting_has_one_spelling()
    ensures alike { AreWrittenAlike ⟦<Greeting as AsnType>⟧.meaning
        ⟦<Greeting as PartialEq>⟧.eq }
    ensures distinct { SetsAreDistinct ⟦<Greeting as AsnType>⟧.meaning }
{
    audience_has_one_spelling();
}

impl Encode for Greeting {
    fn encode_with_tag_and_constraints<E: Encoder>(
        &self,
        encoder: &mut E,
        tag: Tag,
        _constraints: &Constraints<'_>,
        name: Identifier,
    ) -> Result<(), EncodeError> {
        encoder.encode_sequence(tag, self, name)
    }
}

impl EncodeFields for Greeting {
    fn encode_field<E: Encoder>(&self, index: usize, encoder: &mut E) -> Result<(), EncodeError> {
        match index {
            0 => self.text.encode_with_tag(encoder, tag!(context 0)),
            1 => encoder.encode_default_with_tag(
                tag!(context 1),
                &self.times,
                |_| Ok(1),
                u8::identifier(),
            ),
            2 => encode_explicit_optional(encoder, tag!(context 2), &self.to),
            _ => Ok(()),
        }
    }
}

impl Decode for Greeting {
    fn decode_with_tag_and_constraints<D: Decoder>(
        decoder: &mut D,
        tag: Tag,
        constraints: &Constraints<'_>,
    ) -> Result<Self, DecodeError> {
        decode_sequence_naming_errors(decoder, tag, constraints)
    }
}
