//! `SIGNED{ToBeSigned} ::= SEQUENCE { toBeSigned ToBeSigned, algorithmIdentifier AlgorithmIdentifier, encrypted BIT STRING }`
//! (X.509, 6.2.1)
ghost use Rattle.std.specs.Prelude.{Bool, List, [], codes, ℕ, ◌↔◌, ◌∷◌};
ghost use Rattle.asn1_schema.specs.Words.{IsWellTagged, constructed_agrees, constructed_type, required, required_slot, sequence, untagged};
ghost use Rattle.asn1_x509.specs.OpenValues.{ParametersAreAccepted};

use crate::algorithm_identifier::AlgorithmIdentifier;
use asn1_schema::{
    AsnType, BitVec, Constraints, ConstructedType, Decode, DecodeByIndex, DecodeError, Decoded,
    Decoder, Encode, EncodeError, EncodeFields, Encoder, Field, FieldTable, Identifier, Tag,
    Tagging, TypeTable, decode_sequence_naming_errors, required,
};
use std::alloc::{AllocError, Global};

/// A value of any type, with its signature.
#[derive(PartialEq, Eq, Debug, Drop)]
pub struct Signed<T> {
    /// `toBeSigned ToBeSigned`
    pub to_be_signed: T,
    /// `algorithmIdentifier AlgorithmIdentifier`
    pub algorithm_identifier: AlgorithmIdentifier,
    /// `encrypted BIT STRING`
    pub encrypted: BitVec,
}

impl<T: Decode> DecodeByIndex for Signed<T> {
    type Slots = (Option<T>, Option<AlgorithmIdentifier>, Option<BitVec>);

    ghost layout = { required_slot (codes "toBeSigned") (λ v. v.to_be_signed) (λ s. s.0)
        (untagged T.meaning) T.eq ∷
        required_slot (codes "algorithmIdentifier") (λ v. v.algorithm_identifier) (λ s. s.1)
        (untagged ⟦<AlgorithmIdentifier as AsnType>⟧.meaning)
        ⟦<AlgorithmIdentifier as PartialEq>⟧.eq ∷
        required_slot (codes "encrypted") (λ v. v.encrypted) (λ s. s.2)
        (untagged ⟦<BitVec as AsnType>⟧.meaning) ⟦<BitVec as PartialEq>⟧.eq ∷ [] };

    fn full(_alloc: Global, slots: Self::Slots) -> Result<Signed<T>, AllocError> {
        Ok(Signed {
            to_be_signed: slots.0.unwrap(),
            algorithm_identifier: slots.1.unwrap(),
            encrypted: slots.2.unwrap(),
        })
    }

    fn decode_field<D: Decoder>(index: usize, slots: &mut Self::Slots, decoder: &mut D) -> Decoded {
        match index {
            0 => required(&mut slots.0, decoder, Tagging::Untagged),
            1 => required(&mut slots.1, decoder, Tagging::Untagged),
            2 => required(&mut slots.2, decoder, Tagging::Untagged),
            _ => Ok(()),
        }
    }
}

impl<T: AsnType> FieldTable for Signed<T> {
    ghost components = { sequence (
        required (codes "toBeSigned") (λ v. v.to_be_signed) (untagged T.meaning) ∷
        required (codes "algorithmIdentifier") (λ v. v.algorithm_identifier)
        (untagged ⟦<AlgorithmIdentifier as AsnType>⟧.meaning) ∷
        required (codes "encrypted") (λ v. v.encrypted)
        (untagged ⟦<BitVec as AsnType>⟧.meaning) ∷ []) };

    fn field_count() -> usize {
        3
    }

    fn field_at(index: usize) -> Option<Field<'static>> {
        match index {
            0 => Some(Field::new_required_type::<T>(0, "toBeSigned")),
            1 => Some(Field::new_required_type::<AlgorithmIdentifier>(1, "algorithmIdentifier")),
            2 => Some(Field::new_required_type::<BitVec>(2, "encrypted")),
            _ => None,
        }
    }

    fn extension_index() -> Option<usize> {
        None
    }
}

impl<T: AsnType> AsnType for Signed<T> {
    ghost meaning = { constructed_type (codes "SIGNED") ⟦<Signed<T> as FieldTable>⟧.components };

    fn table() -> TypeTable {
        TypeTable::new(Tag::SEQUENCE, Identifier(Some("SIGNED")))
    }

    fn is_present(&self) -> bool {
        true
    }
}

impl<T: AsnType> ConstructedType for Signed<T> {
    ghost agrees = { constructed_agrees };
}

/// A `Signed` can be inside other types if the signed value can be a component.
pub fn signed_is_well_tagged<T: AsnType>()
    ensures { IsWellTagged T.meaning → IsWellTagged ⟦<Signed<T> as AsnType>⟧.meaning }
{}

/// A `Signed` is valid if and only if the signed value is, and the codec accepts the parameters of the algorithm, if there are any.
pub fn signed_is_valid<T: AsnType>(signed: &Signed<T>)
    ensures { (accepts : List ℕ → Bool) →
        ⟦<Signed<T> as AsnType>⟧.meaning.IsValid accepts signed.now ↔ (T.meaning.IsValid accepts
        signed.now.to_be_signed × ParametersAreAccepted accepts signed.now.algorithm_identifier) }
{}

impl<T: Encode> Encode for Signed<T> {
    fn encode_with_tag_and_constraints<E: Encoder>(
        &self,
        encoder: &mut E,
        tag: Tag,
        _constraints: &Constraints<'_>,
        name: Identifier,
    ) -> Result<(), EncodeError> {
        encoder.encode_sequence(tag, self, name)
    }
}

impl<T: Encode> EncodeFields for Signed<T> {
    fn encode_field<E: Encoder>(&self, index: usize, encoder: &mut E) -> Result<(), EncodeError> {
        match index {
            0 => self.to_be_signed.encode(encoder),
            1 => self.algorithm_identifier.encode(encoder),
            2 => self.encrypted.encode(encoder),
            _ => Ok(()),
        }
    }
}

impl<T: Decode> Decode for Signed<T> {
    fn decode_with_tag_and_constraints<D: Decoder>(
        decoder: &mut D,
        tag: Tag,
        constraints: &Constraints<'_>,
    ) -> Result<Signed<T>, DecodeError> {
        decode_sequence_naming_errors(decoder, tag, constraints)
    }
}
