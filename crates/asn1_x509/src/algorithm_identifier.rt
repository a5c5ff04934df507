//! `AlgorithmIdentifier` of the module `PKIX1Explicit88`.
//!
//! ```text
//! AlgorithmIdentifier ::= SEQUENCE {
//!     algorithm OBJECT IDENTIFIER,
//!     parameters ANY DEFINED BY algorithm OPTIONAL
//! }
//! ```
ghost use Rattle.std.specs.Prelude.{[], codes, ◌∷◌};
ghost use Rattle.asn1_schema.specs.Words.{IsWellTagged, constructed_agrees, constructed_type, optional_slot, required_slot, sequence_of_slots, untagged};
ghost use Rattle.asn1_model.specs.DistinctSets.{SetsAreDistinct};
ghost use Rattle.asn1_model.specs.WrittenAlike.{AreWrittenAlike};

use asn1_schema::{
    Any, AsnType, Constraints, ConstructedType, Decode, DecodeByIndex, DecodeError, Decoded,
    Decoder, Encode, EncodeError, EncodeFields, Encoder, Field, FieldTable, Identifier,
    ObjectIdentifier, Tag, Tagging, TypeTable, decode_sequence_naming_errors, optional, required,
};
use std::alloc::{AllocError, Global};

/// `AlgorithmIdentifier` of the module `PKIX1Explicit88`.
#[derive(PartialEq, Eq, Debug, Drop)]
pub struct AlgorithmIdentifier {
    /// `algorithm OBJECT IDENTIFIER`
    pub algorithm: ObjectIdentifier,
    /// `parameters ANY DEFINED BY algorithm OPTIONAL`
    pub parameters: Option<Any>,
}

impl DecodeByIndex for AlgorithmIdentifier {
    type Slots = (Option<ObjectIdentifier>, Option<Any>);

    ghost layout = { required_slot (codes "algorithm") (λ v. v.algorithm) (λ s. s.0) (untagged ⟦<ObjectIdentifier as AsnType>⟧.meaning) ⟦<ObjectIdentifier as PartialEq>⟧.eq ∷
        optional_slot (codes "parameters") (λ v. v.parameters) (λ s. s.1) (untagged ⟦<Any as AsnType>⟧.meaning) ⟦<Any as PartialEq>⟧.eq ∷ [] };

    fn full(_alloc: Global, slots: Self::Slots) -> Result<Self, AllocError> {
        Ok(Self {
            algorithm: slots.0.unwrap(),
            parameters: slots.1,
        })
    }

    fn decode_field<D: Decoder>(index: usize, slots: &mut Self::Slots, decoder: &mut D) -> Decoded {
        match index {
            0 => required(&mut slots.0, decoder, Tagging::Untagged),
            1 => optional(&mut slots.1, decoder, Tagging::Untagged),
            _ => Ok(()),
        }
    }
}

impl FieldTable for AlgorithmIdentifier {
    ghost components = { sequence_of_slots ⟦<AlgorithmIdentifier as DecodeByIndex>⟧.layout };

    fn field_count() -> usize {
        2
    }

    fn field_at(index: usize) -> Option<Field<'static>> {
        match index {
            0 => Some(Field::new_required_type::<ObjectIdentifier>(0, "algorithm")),
            1 => Some(Field::new_optional_type::<Any>(1, "parameters")),
            _ => None,
        }
    }

    fn extension_index() -> Option<usize> {
        None
    }
}

impl AsnType for AlgorithmIdentifier {
    ghost meaning = { constructed_type (codes "AlgorithmIdentifier") ⟦<AlgorithmIdentifier as FieldTable>⟧.components };

    fn table() -> TypeTable {
        TypeTable::new(Tag::SEQUENCE, Identifier(Some("AlgorithmIdentifier")))
    }

    fn is_present(&self) -> bool {
        true
    }
}

impl ConstructedType for AlgorithmIdentifier {
    ghost agrees = { constructed_agrees };
}

/// An `AlgorithmIdentifier` can be inside other types.
pub fn algorithm_identifier_is_well_tagged()
    ensures { IsWellTagged ⟦<AlgorithmIdentifier as AsnType>⟧.meaning }
{}

/// Equal values are written alike, and in each value the components of a SET have distinct tags. With `algorithm_identifier_is_well_tagged`
/// it follows that the DER of a value is its only spelling (`well_tagged_types_have_one_spelling` of `asn1_der`).
pub fn algorithm_identifier_has_one_spelling()
    ensures alike { AreWrittenAlike ⟦<AlgorithmIdentifier as AsnType>⟧.meaning
        ⟦<AlgorithmIdentifier as PartialEq>⟧.eq }
    ensures distinct { SetsAreDistinct ⟦<AlgorithmIdentifier as AsnType>⟧.meaning }
{}

impl Encode for AlgorithmIdentifier {
    fn encode_with_tag_and_constraints<E: Encoder>(
        &self,
        encoder: &mut E,
        tag: Tag,
        _constraints: &Constraints<'_>,
        name: Identifier,
    ) -> Result<(), EncodeError> {
        encoder.encode_sequence(tag, self, name)
    }
}

impl EncodeFields for AlgorithmIdentifier {
    fn encode_field<E: Encoder>(&self, index: usize, encoder: &mut E) -> Result<(), EncodeError> {
        match index {
            0 => self.algorithm.encode(encoder),
            1 => self.parameters.encode(encoder),
            _ => Ok(()),
        }
    }
}

impl Decode for AlgorithmIdentifier {
    fn decode_with_tag_and_constraints<D: Decoder>(
        decoder: &mut D,
        tag: Tag,
        constraints: &Constraints<'_>,
    ) -> Result<Self, DecodeError> {
        decode_sequence_naming_errors(decoder, tag, constraints)
    }
}
