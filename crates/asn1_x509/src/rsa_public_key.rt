//! `RSAPublicKey ::= SEQUENCE { modulus INTEGER, publicExponent INTEGER }`
ghost use Rattle.std.specs.Prelude.{[], codes, ◌∷◌};
ghost use Rattle.asn1_schema.specs.Words.{IsWellTagged, constructed_agrees, constructed_type, required_slot, sequence_of_slots, untagged};
ghost use Rattle.asn1_model.specs.DistinctSets.{SetsAreDistinct};
ghost use Rattle.asn1_model.specs.WrittenAlike.{AreWrittenAlike};

use asn1_schema::{
    AsnType, Constraints, ConstructedType, Decode, DecodeByIndex, DecodeError, Decoded, Decoder,
    Encode, EncodeError, EncodeFields, Encoder, Field, FieldTable, Identifier, Integer, Tag,
    Tagging, TypeTable, decode_sequence_naming_errors, required,
};
use std::alloc::{AllocError, Global};

/// `RSAPublicKey` of the module `PKIX1Explicit88`.
#[derive(PartialEq, Eq, Debug, Drop)]
pub struct RsaPublicKey {
    /// `modulus INTEGER`
    pub modulus: Integer,
    /// `publicExponent INTEGER`
    pub public_exponent: Integer,
}

impl DecodeByIndex for RsaPublicKey {
    type Slots = (Option<Integer>, Option<Integer>);

    ghost layout = { required_slot (codes "modulus") (λ v. v.modulus) (λ s. s.0) (untagged ⟦<Integer as AsnType>⟧.meaning) ⟦<Integer as PartialEq>⟧.eq ∷
        required_slot (codes "publicExponent") (λ v. v.public_exponent) (λ s. s.1) (untagged ⟦<Integer as AsnType>⟧.meaning) ⟦<Integer as PartialEq>⟧.eq ∷ [] };

    fn full(_alloc: Global, slots: Self::Slots) -> Result<Self, AllocError> {
        Ok(Self {
            modulus: slots.0.unwrap(),
            public_exponent: slots.1.unwrap(),
        })
    }

    fn decode_field<D: Decoder>(index: usize, slots: &mut Self::Slots, decoder: &mut D) -> Decoded {
        match index {
            0 => required(&mut slots.0, decoder, Tagging::Untagged),
            1 => required(&mut slots.1, decoder, Tagging::Untagged),
            _ => Ok(()),
        }
    }
}

impl FieldTable for RsaPublicKey {
    ghost components = { sequence_of_slots ⟦<RsaPublicKey as DecodeByIndex>⟧.layout };

    fn field_count() -> usize {
        2
    }

    fn field_at(index: usize) -> Option<Field<'static>> {
        match index {
            0 => Some(Field::new_required_type::<Integer>(0, "modulus")),
            1 => Some(Field::new_required_type::<Integer>(1, "publicExponent")),
            _ => None,
        }
    }

    fn extension_index() -> Option<usize> {
        None
    }
}

impl AsnType for RsaPublicKey {
    ghost meaning = { constructed_type (codes "RSAPublicKey") ⟦<RsaPublicKey as FieldTable>⟧.components };

    fn table() -> TypeTable {
        TypeTable::new(Tag::SEQUENCE, Identifier(Some("RSAPublicKey")))
    }

    fn is_present(&self) -> bool {
        true
    }
}

impl ConstructedType for RsaPublicKey {
    ghost agrees = { constructed_agrees };
}

/// A `RsaPublicKey` can be inside other types.
pub fn rsa_public_key_is_well_tagged()
    ensures { IsWellTagged ⟦<RsaPublicKey as AsnType>⟧.meaning }
{}

/// Equal values are written alike, and in each value the components of a SET have distinct tags. With `rsa_public_key_is_well_tagged`
/// it follows that the DER of a value is its only spelling (`well_tagged_types_have_one_spelling` of `asn1_der`).
pub fn rsa_public_key_has_one_spelling()
    ensures alike { AreWrittenAlike ⟦<RsaPublicKey as AsnType>⟧.meaning
        ⟦<RsaPublicKey as PartialEq>⟧.eq }
    ensures distinct { SetsAreDistinct ⟦<RsaPublicKey as AsnType>⟧.meaning }
{}

impl Encode for RsaPublicKey {
    fn encode_with_tag_and_constraints<E: Encoder>(
        &self,
        encoder: &mut E,
        tag: Tag,
        _constraints: &Constraints<'_>,
        name: Identifier,
    ) -> Result<(), EncodeError> {
        encoder.encode_sequence(tag, self, name)
    }
}

impl EncodeFields for RsaPublicKey {
    fn encode_field<E: Encoder>(&self, index: usize, encoder: &mut E) -> Result<(), EncodeError> {
        match index {
            0 => self.modulus.encode(encoder),
            1 => self.public_exponent.encode(encoder),
            _ => Ok(()),
        }
    }
}

impl Decode for RsaPublicKey {
    fn decode_with_tag_and_constraints<D: Decoder>(
        decoder: &mut D,
        tag: Tag,
        constraints: &Constraints<'_>,
    ) -> Result<Self, DecodeError> {
        decode_sequence_naming_errors(decoder, tag, constraints)
    }
}
