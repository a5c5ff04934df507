//! `BasicConstraints` of the module `PKIX1Implicit88`.
//!
//! ```text
//! BasicConstraints ::= SEQUENCE {
//!     cA BOOLEAN DEFAULT FALSE,
//!     pathLenConstraint INTEGER (0..MAX) OPTIONAL
//! }
//! ```
ghost use Rattle.std.specs.Prelude.{[], codes, false, ◌∷◌};
ghost use Rattle.asn1_schema.specs.Words.{IsWellTagged, constructed_agrees, constructed_type, default_slot, optional_slot, sequence_of_slots, untagged};
ghost use Rattle.asn1_model.specs.DistinctSets.{SetsAreDistinct};
ghost use Rattle.asn1_model.specs.WrittenAlike.{AreWrittenAlike};

use asn1_schema::{
    AsnType, Constraints, ConstructedType, Decode, DecodeByIndex, DecodeError, Decoded, Decoder,
    Encode, EncodeError, EncodeFields, Encoder, Field, FieldTable, Identifier, Integer, Tag,
    Tagging, TypeTable, decode_sequence_naming_errors, optional, or_default,
};
use std::alloc::{AllocError, Global};

/// `BasicConstraints` of the module `PKIX1Implicit88`.
#[derive(PartialEq, Eq, Debug, Drop)]
pub struct BasicConstraints {
    /// `cA BOOLEAN DEFAULT FALSE`
    pub ca: bool,
    /// `pathLenConstraint INTEGER (0..MAX) OPTIONAL`
    pub path_len_constraint: Option<Integer>,
}

impl DecodeByIndex for BasicConstraints {
    type Slots = (Option<bool>, Option<Integer>);

    ghost layout = { default_slot (codes "cA") (λ v. v.ca) false (λ s. s.0) (untagged ⟦<bool as AsnType>⟧.meaning) ⟦<bool as PartialEq>⟧.eq ∷
        optional_slot (codes "pathLenConstraint") (λ v. v.path_len_constraint) (λ s. s.1) (untagged ⟦<Integer as AsnType>⟧.meaning) ⟦<Integer as PartialEq>⟧.eq ∷ [] };

    fn full(_alloc: Global, slots: Self::Slots) -> Result<Self, AllocError> {
        Ok(Self {
            ca: or_default(slots.0, false),
            path_len_constraint: slots.1,
        })
    }

    fn decode_field<D: Decoder>(index: usize, slots: &mut Self::Slots, decoder: &mut D) -> Decoded {
        match index {
            0 => optional(&mut slots.0, decoder, Tagging::Untagged),
            1 => optional(&mut slots.1, decoder, Tagging::Untagged),
            _ => Ok(()),
        }
    }
}

impl FieldTable for BasicConstraints {
    ghost components = { sequence_of_slots ⟦<BasicConstraints as DecodeByIndex>⟧.layout };

    fn field_count() -> usize {
        2
    }

    fn field_at(index: usize) -> Option<Field<'static>> {
        match index {
            0 => Some(Field::new_default_type::<bool>(0, "cA")),
            1 => Some(Field::new_optional_type::<Integer>(1, "pathLenConstraint")),
            _ => None,
        }
    }

    fn extension_index() -> Option<usize> {
        None
    }
}

impl AsnType for BasicConstraints {
    ghost meaning = { constructed_type (codes "BasicConstraints") ⟦<BasicConstraints as FieldTable>⟧.components };

    fn table() -> TypeTable {
        TypeTable::new(Tag::SEQUENCE, Identifier(Some("BasicConstraints")))
    }

    fn is_present(&self) -> bool {
        true
    }
}

impl ConstructedType for BasicConstraints {
    ghost agrees = { constructed_agrees };
}

/// A `BasicConstraints` can be inside other types.
pub fn basic_constraints_is_well_tagged()
    ensures { IsWellTagged ⟦<BasicConstraints as AsnType>⟧.meaning }
{}

/// Equal values are written alike, and in each value the components of a SET have distinct tags. With `basic_constraints_is_well_tagged`
/// it follows that the DER of a value is its only spelling (`well_tagged_types_have_one_spelling` of `asn1_der`).
pub fn basic_constraints_has_one_spelling()
    ensures alike { AreWrittenAlike ⟦<BasicConstraints as AsnType>⟧.meaning
        ⟦<BasicConstraints as PartialEq>⟧.eq }
    ensures distinct { SetsAreDistinct ⟦<BasicConstraints as AsnType>⟧.meaning }
{}

impl Encode for BasicConstraints {
    fn encode_with_tag_and_constraints<E: Encoder>(
        &self,
        encoder: &mut E,
        tag: Tag,
        _constraints: &Constraints<'_>,
        name: Identifier,
    ) -> Result<(), EncodeError> {
        encoder.encode_sequence(tag, self, name)
    }
}

impl EncodeFields for BasicConstraints {
    fn encode_field<E: Encoder>(&self, index: usize, encoder: &mut E) -> Result<(), EncodeError> {
        match index {
            0 => encoder.encode_default(&self.ca, |_| Ok(false), bool::identifier()),
            1 => self.path_len_constraint.encode(encoder),
            _ => Ok(()),
        }
    }
}

impl Decode for BasicConstraints {
    fn decode_with_tag_and_constraints<D: Decoder>(
        decoder: &mut D,
        tag: Tag,
        constraints: &Constraints<'_>,
    ) -> Result<Self, DecodeError> {
        decode_sequence_naming_errors(decoder, tag, constraints)
    }
}
