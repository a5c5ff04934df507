//! `Pair{T, U} ::= SEQUENCE { first T, second [0] U OPTIONAL }`
ghost use Rattle.std.specs.Prelude.{◌↔◌, ℕ, Bool, List, [], ◌∷◌, IfSome, codes};
ghost use Rattle.asn1_slots.specs.Slots.{optional_slot, required_slot};
ghost use Rattle.asn1_types.specs.Words.{context, tagged, untagged, required, optional, sequence, constructed_type, constructed_agrees, IsWellTagged, IsWellTaggedUnder};

use asn1_dec::{Decode, DecodeError, Decoder};
use asn1_enc::{Encode, EncodeError, EncodeFields, Encoder};
use asn1_slots::{
    DecodeByIndex, Decoded, Tagging, decode_sequence_naming_errors, optional, required,
};
use asn1_tags::tag;
use asn1_types::{
    AsnType, Constraints, ConstructedType, Field, FieldTable, Identifier, Tag, TypeTable,
};
use std::alloc::{AllocError, Global};

/// A value of one type, and perhaps one of another.
#[derive(PartialEq, Eq, Debug, Drop)]
pub struct Pair<T, U> {
    /// `first T`
    pub first: T,
    /// `second [0] U OPTIONAL`
    pub second: Option<U>,
}

impl<T: Decode, U: Decode> DecodeByIndex for Pair<T, U> {
    type Slots = (Option<T>, Option<U>);

    ghost layout = { required_slot (codes "first") (λ p. p.first) (λ s. s.0) (untagged T.meaning) T.eq ∷
        optional_slot (codes "second") (λ p. p.second) (λ s. s.1) (tagged (context 0) U.meaning) U.eq ∷ [] };

    fn full(_alloc: Global, slots: Self::Slots) -> Result<Pair<T, U>, AllocError> {
        Ok(Pair {
            first: slots.0.unwrap(),
            second: slots.1,
        })
    }

    fn decode_field<D: Decoder>(index: usize, slots: &mut Self::Slots, decoder: &mut D) -> Decoded {
        match index {
            0 => required(&mut slots.0, decoder, Tagging::Untagged),
            1 => optional(&mut slots.1, decoder, Tagging::Tagged(tag!(context 0))),
            _ => Ok(()),
        }
    }
}

impl<T: AsnType, U: AsnType> FieldTable for Pair<T, U> {
    ghost components = { sequence (
        required (codes "first") (λ p. p.first) (untagged T.meaning) ∷
        optional (codes "second") (λ p. p.second) (tagged (context 0) U.meaning) ∷ []) };

    fn field_count() -> usize {
        2
    }

    fn field_at(index: usize) -> Option<Field<'static>> {
        match index {
            0 => Some(Field::new_required_type::<T>(0, "first")),
            1 => Some(Field::new_optional_type_with_tag::<U>(1, tag!(context 0), "second")),
            _ => None,
        }
    }

    fn extension_index() -> Option<usize> {
        None
    }
}

impl<T: AsnType, U: AsnType> AsnType for Pair<T, U> {
    ghost meaning = { constructed_type (codes "Pair") ⟦<Pair<T, U> as FieldTable>⟧.components };

    fn table() -> TypeTable {
        TypeTable::new(Tag::SEQUENCE, Identifier(Some("Pair")))
    }

    fn is_present(&self) -> bool {
        true
    }
}

impl<T: AsnType, U: AsnType> ConstructedType for Pair<T, U> {
    ghost agrees = { constructed_agrees };
}

/// A `Pair` is well tagged if its first type is, and its second under `[0]`.
pub fn pair_is_well_tagged<T: AsnType, U: AsnType>()
    ensures { IsWellTagged T.meaning → IsWellTaggedUnder U.meaning (context 0) →
        IsWellTagged ⟦<Pair<T, U> as AsnType>⟧.meaning }
{}

/// A `Pair` is valid if and only if its first is, and its second where there is one.
pub fn pair_is_valid<T: AsnType, U: AsnType>(pair: &Pair<T, U>)
    ensures { (accepts : List ℕ → Bool) →
        ⟦<Pair<T, U> as AsnType>⟧.meaning.IsValid accepts pair.now ↔ (T.meaning.IsValid accepts
        pair.now.first × IfSome pair.now.second (U.meaning.IsValid accepts)) }
{}

impl<T: Encode, U: Encode> Encode for Pair<T, U> {
    fn encode_with_tag_and_constraints<E: Encoder>(
        &self,
        encoder: &mut E,
        tag: Tag,
        _constraints: &Constraints<'_>,
        name: Identifier,
    ) -> Result<(), EncodeError> {
        encoder.encode_sequence(tag, self, name)
    }
}

impl<T: Encode, U: Encode> EncodeFields for Pair<T, U> {
    fn encode_field<E: Encoder>(&self, index: usize, encoder: &mut E) -> Result<(), EncodeError> {
        match index {
            0 => self.first.encode(encoder),
            1 => self.second.encode_with_tag(encoder, tag!(context 0)),
            _ => Ok(()),
        }
    }
}

impl<T: Decode, U: Decode> Decode for Pair<T, U> {
    fn decode_with_tag_and_constraints<D: Decoder>(
        decoder: &mut D,
        tag: Tag,
        constraints: &Constraints<'_>,
    ) -> Result<Pair<T, U>, DecodeError> {
        decode_sequence_naming_errors(decoder, tag, constraints)
    }
}
