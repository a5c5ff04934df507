//! `ChildInformation ::= SET { name Name, dateOfBirth [0] Date }`
ghost use Rattle.std.specs.Prelude.{[], codes, ◌∷◌, List, Bool, ℕ};
ghost use Rattle.asn1_slots.specs.Slots.{required_slot, set_of_slots};
ghost use Rattle.asn1_types.specs.Words.{IsWellTagged, constructed_agrees, constructed_type, context, explicitly_tagged, untagged};

use crate::personnel::{Date, Name};
use asn1_dec::{Decode, DecodeError, Decoder};
use asn1_enc::{Encode, EncodeError, EncodeFields, Encoder};
use asn1_slots::{DecodeSetByIndex, Decoded, Tagging, decode_set_by_index, decode_unique, missing};
use asn1_types::{
    AsnType, Class, Constraints, ConstructedType, Field, FieldTable, Identifier, Tag, TypeTable,
};
use std::alloc::{AllocError, Global};

/// A child: a SET of two components.
#[derive(PartialEq, Eq, Debug, Drop)]
pub struct ChildInformation {
    /// `name Name`
    pub name: Name,
    /// `dateOfBirth [0] Date`
    pub date_of_birth: Date,
}

const DATE_OF_BIRTH: Tag = Tag {
    class: Class::Context,
    value: 0,
};

impl DecodeSetByIndex for ChildInformation {
    type Slots = (Option<Name>, Option<Date>);

    ghost layout = { required_slot (codes "name") (λ v. v.name) (λ s. s.0)
        (untagged ⟦<Name as AsnType>⟧.meaning) ⟦<Name as PartialEq>⟧.eq ∷
        required_slot (codes "dateOfBirth") (λ v. v.date_of_birth) (λ s. s.1)
        (explicitly_tagged (context 0) ⟦<Date as AsnType>⟧.meaning) ⟦<Date as PartialEq>⟧.eq ∷ [] };

    fn full(_alloc: Global, slots: Self::Slots) -> Result<ChildInformation, AllocError> {
        Ok(ChildInformation {
            name: slots.0.unwrap(),
            date_of_birth: slots.1.unwrap(),
        })
    }

    fn missing_at(index: usize, slots: &Self::Slots) -> Option<&'static str> {
        match index {
            0 => missing(&slots.0, "name"),
            1 => missing(&slots.1, "dateOfBirth"),
            _ => None,
        }
    }

    fn decode_field<D: Decoder>(
        index: usize,
        _tag: Tag,
        slots: &mut Self::Slots,
        decoder: &mut D,
    ) -> Decoded {
        match index {
            0 => decode_unique(&mut slots.0, decoder, Tagging::Untagged, "name"),
            1 => decode_unique(
                &mut slots.1,
                decoder,
                Tagging::Explicit(DATE_OF_BIRTH),
                "dateOfBirth",
            ),
            _ => Ok(()),
        }
    }
}

impl FieldTable for ChildInformation {
    ghost components = { set_of_slots ⟦<ChildInformation as DecodeSetByIndex>⟧.layout };

    fn field_count() -> usize {
        2
    }

    fn field_at(index: usize) -> Option<Field<'static>> {
        match index {
            0 => Some(Field::new_required_type::<Name>(0, "name")),
            1 => Some(Field::new_required_explicit(1, DATE_OF_BIRTH, "dateOfBirth")),
            _ => None,
        }
    }

    fn extension_index() -> Option<usize> {
        None
    }
}

impl AsnType for ChildInformation {
    ghost meaning = { constructed_type (codes "ChildInformation") ⟦<ChildInformation as FieldTable>⟧.components };

    fn table() -> TypeTable {
        TypeTable::new(Tag::SET, Identifier(Some("ChildInformation")))
    }

    fn is_present(&self) -> bool {
        true
    }
}

impl ConstructedType for ChildInformation {
    ghost agrees = { constructed_agrees };
}

/// A `ChildInformation` is well tagged: no two of its components share a tag.
pub fn child_information_is_well_tagged()
    ensures { IsWellTagged ⟦<ChildInformation as AsnType>⟧.meaning }
{}

/// Each `ChildInformation` is valid.
pub fn child_information_is_valid(child: &ChildInformation)
    ensures { (accepts : List ℕ → Bool) →
        ⟦<ChildInformation as AsnType>⟧.meaning.IsValid accepts child.now }
{}

impl Encode for ChildInformation {
    fn encode_with_tag_and_constraints<E: Encoder>(
        &self,
        encoder: &mut E,
        tag: Tag,
        _constraints: &Constraints<'_>,
        name: Identifier,
    ) -> Result<(), EncodeError> {
        encoder.encode_set(tag, self, name)
    }
}

impl EncodeFields for ChildInformation {
    fn encode_field<E: Encoder>(&self, index: usize, encoder: &mut E) -> Result<(), EncodeError> {
        match index {
            0 => self.name.encode(encoder),
            1 => encoder.encode_explicit_prefix(
                DATE_OF_BIRTH,
                &self.date_of_birth,
                Date::identifier(),
            ),
            _ => Ok(()),
        }
    }
}

impl Decode for ChildInformation {
    fn decode_with_tag_and_constraints<D: Decoder>(
        decoder: &mut D,
        tag: Tag,
        constraints: &Constraints<'_>,
    ) -> Result<ChildInformation, DecodeError> {
        decode_set_by_index(decoder, tag, constraints)
    }
}
