//! `Person ::= SEQUENCE { age INTEGER, name UTF8String }`
ghost use Rattle.std.specs.Prelude.{[], ◌∷◌, codes};
ghost use Rattle.asn1_slots.specs.Slots.{required_slot, sequence_of_slots};
ghost use Rattle.asn1_types.specs.Words.{untagged, constructed_type, constructed_agrees, IsWellTagged};

use asn1_dec::{Decode, DecodeError, DecodeFields, Decoder};
use asn1_enc::{Encode, EncodeError, EncodeFields, Encoder};
use asn1_slots::{DecodeByIndex, Decoded, Tagging, decode_fields_by_index, required};
use asn1_types::{
    AsnType, Constraints, ConstructedType, Field, FieldTable, Identifier, Tag, TypeTable,
};
use asn1_values::{Integer, Utf8String};
use std::alloc::{AllocError, Global};

/// How old someone is, and their name.
#[derive(PartialEq, Eq, Debug, Drop)]
pub struct Person {
    /// `age INTEGER`
    pub age: Integer,
    /// `name UTF8String`
    pub name: Utf8String,
}

impl DecodeByIndex for Person {
    type Slots = (Option<Integer>, Option<Utf8String>);

    ghost layout = { required_slot (codes "age") (λ p. p.age) (λ s. s.0) (untagged ⟦<Integer as AsnType>⟧.meaning) ⟦<Integer as PartialEq>⟧.eq ∷
        required_slot (codes "name") (λ p. p.name) (λ s. s.1) (untagged ⟦<Utf8String as AsnType>⟧.meaning) ⟦<Utf8String as PartialEq>⟧.eq ∷ [] };

    fn full(_alloc: Global, slots: Self::Slots) -> Result<Person, AllocError> {
        Ok(Person {
            age: slots.0.unwrap(),
            name: slots.1.unwrap(),
        })
    }

    fn decode_field<D: Decoder>(index: usize, slots: &mut Self::Slots, decoder: &mut D) -> Decoded {
        match index {
            0 => required(&mut slots.0, decoder, Tagging::Untagged),
            1 => required(&mut slots.1, decoder, Tagging::Untagged),
            _ => Ok(()),
        }
    }
}

impl FieldTable for Person {
    ghost components = { sequence_of_slots ⟦<Person as DecodeByIndex>⟧.layout };

    fn field_count() -> usize {
        2
    }

    fn field_at(index: usize) -> Option<Field<'static>> {
        match index {
            0 => Some(Field::new_required_type::<Integer>(0, "age")),
            1 => Some(Field::new_required_type::<Utf8String>(1, "name")),
            _ => None,
        }
    }

    fn extension_index() -> Option<usize> {
        None
    }
}

impl AsnType for Person {
    ghost meaning = { constructed_type (codes "Person") ⟦<Person as FieldTable>⟧.components };

    fn table() -> TypeTable {
        TypeTable::new(Tag::SEQUENCE, Identifier(Some("Person")))
    }

    fn is_present(&self) -> bool {
        true
    }
}

impl ConstructedType for Person {
    ghost agrees = { constructed_agrees };
}

/// A `Person` is well tagged.
pub fn person_is_well_tagged()
    ensures { IsWellTagged ⟦<Person as AsnType>⟧.meaning }
{}

impl Encode for Person {
    fn encode_with_tag_and_constraints<E: Encoder>(
        &self,
        encoder: &mut E,
        tag: Tag,
        _constraints: &Constraints<'_>,
        name: Identifier,
    ) -> Result<(), EncodeError> {
        encoder.encode_sequence(tag, self, name)
    }
}

impl EncodeFields for Person {
    fn encode_field<E: Encoder>(&self, index: usize, encoder: &mut E) -> Result<(), EncodeError> {
        match index {
            0 => self.age.encode(encoder),
            1 => self.name.encode(encoder),
            _ => Ok(()),
        }
    }
}

impl Decode for Person {
    fn decode_with_tag_and_constraints<D: Decoder>(
        decoder: &mut D,
        tag: Tag,
        _constraints: &Constraints<'_>,
    ) -> Result<Person, DecodeError> {
        decoder.decode_sequence(tag)
    }
}

impl DecodeFields for Person {
    fn decode_fields<D: Decoder>(decoder: &mut D) -> Result<Person, DecodeError> {
        decode_fields_by_index(decoder)
    }
}
