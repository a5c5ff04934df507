//! `SubjectPublicKeyInfo ::= SEQUENCE { algorithm AlgorithmIdentifier, subjectPublicKey BIT STRING }`
ghost use Rattle.std.specs.Prelude.{[], codes, ◌∷◌};
ghost use Rattle.asn1_schema.specs.Words.{IsWellTagged, constructed_agrees, constructed_type, required_slot, sequence_of_slots, untagged};
ghost use Rattle.asn1_model.specs.DistinctSets.{SetsAreDistinct};
ghost use Rattle.asn1_model.specs.WrittenAlike.{AreWrittenAlike};

use crate::algorithm_identifier::{AlgorithmIdentifier, algorithm_identifier_has_one_spelling};
use asn1_schema::{
    AsnType, BitVec, Constraints, ConstructedType, Decode, DecodeByIndex, DecodeError, Decoded,
    Decoder, Encode, EncodeError, EncodeFields, Encoder, Field, FieldTable, Identifier, Tag,
    Tagging, TypeTable, decode_sequence_naming_errors, required,
};
use std::alloc::{AllocError, Global};

/// `SubjectPublicKeyInfo` of the module `PKIX1Explicit88`.
#[derive(PartialEq, Eq, Debug, Drop)]
pub struct SubjectPublicKeyInfo {
    /// `algorithm AlgorithmIdentifier`
    pub algorithm: AlgorithmIdentifier,
    /// `subjectPublicKey BIT STRING`
    pub subject_public_key: BitVec,
}

impl DecodeByIndex for SubjectPublicKeyInfo {
    type Slots = (Option<AlgorithmIdentifier>, Option<BitVec>);

    ghost layout = { required_slot (codes "algorithm") (λ v. v.algorithm) (λ s. s.0) (untagged ⟦<AlgorithmIdentifier as AsnType>⟧.meaning) ⟦<AlgorithmIdentifier as PartialEq>⟧.eq ∷
        required_slot (codes "subjectPublicKey") (λ v. v.subject_public_key) (λ s. s.1) (untagged ⟦<BitVec as AsnType>⟧.meaning) ⟦<BitVec as PartialEq>⟧.eq ∷ [] };

    fn full(_alloc: Global, slots: Self::Slots) -> Result<Self, AllocError> {
        Ok(Self {
            algorithm: slots.0.unwrap(),
            subject_public_key: slots.1.unwrap(),
        })
    }

    fn decode_field<D: Decoder>(index: usize, slots: &mut Self::Slots, decoder: &mut D) -> Decoded {
        match index {
            0 => required(&mut slots.0, decoder, Tagging::Untagged),
            1 => required(&mut slots.1, decoder, Tagging::Untagged),
            _ => Ok(()),
        }
    }
}

impl FieldTable for SubjectPublicKeyInfo {
    ghost components = { sequence_of_slots ⟦<SubjectPublicKeyInfo as DecodeByIndex>⟧.layout };

    fn field_count() -> usize {
        2
    }

    fn field_at(index: usize) -> Option<Field<'static>> {
        match index {
            0 => Some(Field::new_required_type::<AlgorithmIdentifier>(0, "algorithm")),
            1 => Some(Field::new_required_type::<BitVec>(1, "subjectPublicKey")),
            _ => None,
        }
    }

    fn extension_index() -> Option<usize> {
        None
    }
}

impl AsnType for SubjectPublicKeyInfo {
    ghost meaning = { constructed_type (codes "SubjectPublicKeyInfo") ⟦<SubjectPublicKeyInfo as FieldTable>⟧.components };

    fn table() -> TypeTable {
        TypeTable::new(Tag::SEQUENCE, Identifier(Some("SubjectPublicKeyInfo")))
    }

    fn is_present(&self) -> bool {
        true
    }
}

impl ConstructedType for SubjectPublicKeyInfo {
    ghost agrees = { constructed_agrees };
}

/// A `SubjectPublicKeyInfo` can be inside other types.
pub fn subject_public_key_info_is_well_tagged()
    ensures { IsWellTagged ⟦<SubjectPublicKeyInfo as AsnType>⟧.meaning }
{}

/// Equal values are written alike, and in each value the components of a SET have distinct tags. With `subject_public_key_info_is_well_tagged`
/// it follows that the DER of a value is its only spelling (`well_tagged_types_have_one_spelling` of `asn1_der`).
pub fn subject_public_key_info_has_one_spelling()
    ensures alike { AreWrittenAlike ⟦<SubjectPublicKeyInfo as AsnType>⟧.meaning
        ⟦<SubjectPublicKeyInfo as PartialEq>⟧.eq }
    ensures distinct { SetsAreDistinct ⟦<SubjectPublicKeyInfo as AsnType>⟧.meaning }
{
    algorithm_identifier_has_one_spelling();
}

impl Encode for SubjectPublicKeyInfo {
    fn encode_with_tag_and_constraints<E: Encoder>(
        &self,
        encoder: &mut E,
        tag: Tag,
        _constraints: &Constraints<'_>,
        name: Identifier,
    ) -> Result<(), EncodeError> {
        encoder.encode_sequence(tag, self, name)
    }
}

impl EncodeFields for SubjectPublicKeyInfo {
    fn encode_field<E: Encoder>(&self, index: usize, encoder: &mut E) -> Result<(), EncodeError> {
        match index {
            0 => self.algorithm.encode(encoder),
            1 => self.subject_public_key.encode(encoder),
            _ => Ok(()),
        }
    }
}

impl Decode for SubjectPublicKeyInfo {
    fn decode_with_tag_and_constraints<D: Decoder>(
        decoder: &mut D,
        tag: Tag,
        constraints: &Constraints<'_>,
    ) -> Result<Self, DecodeError> {
        decode_sequence_naming_errors(decoder, tag, constraints)
    }
}
