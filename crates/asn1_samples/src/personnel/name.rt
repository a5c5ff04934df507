//! `Name ::= [APPLICATION 1] IMPLICIT SEQUENCE { givenName VisibleString, initial VisibleString, familyName VisibleString }`
ghost use Rattle.std.specs.Prelude.{[], codes, ◌∷◌, List, Bool, ℕ};
ghost use Rattle.asn1_slots.specs.Slots.{required_slot, sequence_of_slots};
ghost use Rattle.asn1_types.specs.Words.{IsWellTagged, application, constructed_agrees, constructed_type_under, untagged};

use asn1_dec::{Decode, DecodeError, Decoder};
use asn1_enc::{Encode, EncodeError, EncodeFields, Encoder};
use asn1_slots::{DecodeByIndex, Decoded, Tagging, decode_sequence_naming_errors, required};
use asn1_types::{
    AsnType, Class, Constraints, ConstructedType, Field, FieldTable, Identifier, Tag, TypeTable,
};
use asn1_values::VisibleString;
use std::alloc::{AllocError, Global};

/// The name of a person.
#[derive(PartialEq, Eq, Debug, Drop)]
pub struct Name {
    /// `givenName VisibleString`
    pub given_name: VisibleString,
    /// `initial VisibleString`
    pub initial: VisibleString,
    /// `familyName VisibleString`
    pub family_name: VisibleString,
}

/// `[APPLICATION 1]`
const NAME: Tag = Tag {
    class: Class::Application,
    value: 1,
};

impl DecodeByIndex for Name {
    type Slots = (
        Option<VisibleString>,
        Option<VisibleString>,
        Option<VisibleString>,
    );

    ghost layout = { required_slot (codes "givenName") (λ v. v.given_name) (λ s. s.0)
        (untagged ⟦<VisibleString as AsnType>⟧.meaning) ⟦<VisibleString as PartialEq>⟧.eq ∷
        required_slot (codes "initial") (λ v. v.initial) (λ s. s.1)
        (untagged ⟦<VisibleString as AsnType>⟧.meaning) ⟦<VisibleString as PartialEq>⟧.eq ∷
        required_slot (codes "familyName") (λ v. v.family_name) (λ s. s.2)
        (untagged ⟦<VisibleString as AsnType>⟧.meaning) ⟦<VisibleString as PartialEq>⟧.eq ∷ [] };

    fn full(_alloc: Global, slots: Self::Slots) -> Result<Name, AllocError> {
        Ok(Name {
            given_name: slots.0.unwrap(),
            initial: slots.1.unwrap(),
            family_name: slots.2.unwrap(),
        })
    }

    fn decode_field<D: Decoder>(index: usize, slots: &mut Self::Slots, decoder: &mut D) -> Decoded {
        match index {
            0 => required(&mut slots.0, decoder, Tagging::Untagged),
            1 => required(&mut slots.1, decoder, Tagging::Untagged),
            2 => required(&mut slots.2, decoder, Tagging::Untagged),
            _ => Ok(()),
        }
    }
}

impl FieldTable for Name {
    ghost components = { sequence_of_slots ⟦<Name as DecodeByIndex>⟧.layout };

    fn field_count() -> usize {
        3
    }

    fn field_at(index: usize) -> Option<Field<'static>> {
        match index {
            0 => Some(Field::new_required_type::<VisibleString>(0, "givenName")),
            1 => Some(Field::new_required_type::<VisibleString>(1, "initial")),
            2 => Some(Field::new_required_type::<VisibleString>(2, "familyName")),
            _ => None,
        }
    }

    fn extension_index() -> Option<usize> {
        None
    }
}

impl AsnType for Name {
    ghost meaning = { constructed_type_under ⟦<Name as FieldTable>⟧.components (application 1) (codes "Name") };

    fn table() -> TypeTable {
        TypeTable::new(NAME, Identifier(Some("Name")))
    }

    fn is_present(&self) -> bool {
        true
    }
}

impl ConstructedType for Name {
    ghost agrees = { constructed_agrees };
}

/// A `Name` is well tagged.
pub fn name_is_well_tagged()
    ensures { IsWellTagged ⟦<Name as AsnType>⟧.meaning }
{}

/// Each `Name` is valid.
pub fn name_is_valid(name: &Name)
    ensures { (accepts : List ℕ → Bool) →
        ⟦<Name as AsnType>⟧.meaning.IsValid accepts name.now }
{}

impl Encode for Name {
    fn encode_with_tag_and_constraints<E: Encoder>(
        &self,
        encoder: &mut E,
        tag: Tag,
        _constraints: &Constraints<'_>,
        name: Identifier,
    ) -> Result<(), EncodeError> {
        encoder.encode_sequence(tag, self, name)
    }
}

impl EncodeFields for Name {
    fn encode_field<E: Encoder>(&self, index: usize, encoder: &mut E) -> Result<(), EncodeError> {
        match index {
            0 => self.given_name.encode(encoder),
            1 => self.initial.encode(encoder),
            2 => self.family_name.encode(encoder),
            _ => Ok(()),
        }
    }
}

impl Decode for Name {
    fn decode_with_tag_and_constraints<D: Decoder>(
        decoder: &mut D,
        tag: Tag,
        constraints: &Constraints<'_>,
    ) -> Result<Name, DecodeError> {
        decode_sequence_naming_errors(decoder, tag, constraints)
    }
}
