//! `Validity ::= SEQUENCE { notBefore Time, notAfter Time }`
ghost use Rattle.std.specs.Prelude.{[], codes, ◌∷◌};
ghost use Rattle.asn1_schema.specs.Words.{IsWellTagged, constructed_agrees, constructed_type, required_slot, sequence_of_slots, untagged};
ghost use Rattle.asn1_model.specs.DistinctSets.{SetsAreDistinct};
ghost use Rattle.asn1_model.specs.WrittenAlike.{AreWrittenAlike};

use crate::time::{Time, time_has_one_spelling};
use asn1_schema::{
    AsnType, Constraints, ConstructedType, Decode, DecodeByIndex, DecodeError, Decoded, Decoder,
    Encode, EncodeError, EncodeFields, Encoder, Field, FieldTable, Identifier, Tag, Tagging,
    TypeTable, decode_sequence_naming_errors, required,
};
use std::alloc::{AllocError, Global};

/// `Validity` of the module `PKIX1Explicit88`.
#[derive(PartialEq, Eq, Debug, Drop)]
pub struct Validity {
    /// `notBefore Time`
    pub not_before: Time,
    /// `notAfter Time`
    pub not_after: Time,
}

impl DecodeByIndex for Validity {
    type Slots = (Option<Time>, Option<Time>);

    ghost layout = { required_slot (codes "notBefore") (λ v. v.not_before) (λ s. s.0) (untagged ⟦<Time as AsnType>⟧.meaning) ⟦<Time as PartialEq>⟧.eq ∷
        required_slot (codes "notAfter") (λ v. v.not_after) (λ s. s.1) (untagged ⟦<Time as AsnType>⟧.meaning) ⟦<Time as PartialEq>⟧.eq ∷ [] };

    fn full(_alloc: Global, slots: Self::Slots) -> Result<Self, AllocError> {
        Ok(Self {
            not_before: slots.0.unwrap(),
            not_after: slots.1.unwrap(),
        })
    }

    fn decode_field<D: Decoder>(index: usize, slots: &mut Self::Slots, decoder: &mut D) -> Decoded {
        match index {
            0 => required(&mut slots.0, decoder, Tagging::Untagged),
            1 => required(&mut slots.1, decoder, Tagging::Untagged),
            _ => Ok(()),
        }
    }
}

impl FieldTable for Validity {
    ghost components = { sequence_of_slots ⟦<Validity as DecodeByIndex>⟧.layout };

    fn field_count() -> usize {
        2
    }

    fn field_at(index: usize) -> Option<Field<'static>> {
        match index {
            0 => Some(Field::new_required_type::<Time>(0, "notBefore")),
            1 => Some(Field::new_required_type::<Time>(1, "notAfter")),
            _ => None,
        }
    }

    fn extension_index() -> Option<usize> {
        None
    }
}

impl AsnType for Validity {
    ghost meaning = { constructed_type (codes "Validity") ⟦<Validity as FieldTable>⟧.components };

    fn table() -> TypeTable {
        TypeTable::new(Tag::SEQUENCE, Identifier(Some("Validity")))
    }

    fn is_present(&self) -> bool {
        true
    }
}

impl ConstructedType for Validity {
    ghost agrees = { constructed_agrees };
}

/// A `Validity` can be inside other types.
pub fn validity_is_well_tagged()
    ensures { IsWellTagged ⟦<Validity as AsnType>⟧.meaning }
{}

/// Equal values are written alike, and in each value the components of a SET have distinct tags. With `validity_is_well_tagged`
/// it follows that the DER of a value is its only spelling (`well_tagged_types_have_one_spelling` of `asn1_der`).
pub fn validity_has_one_spelling()
    ensures alike { AreWrittenAlike ⟦<Validity as AsnType>⟧.meaning
        ⟦<Validity as PartialEq>⟧.eq }
    ensures distinct { SetsAreDistinct ⟦<Validity as AsnType>⟧.meaning }
{
    time_has_one_spelling();
}

impl Encode for Validity {
    fn encode_with_tag_and_constraints<E: Encoder>(
        &self,
        encoder: &mut E,
        tag: Tag,
        _constraints: &Constraints<'_>,
        name: Identifier,
    ) -> Result<(), EncodeError> {
        encoder.encode_sequence(tag, self, name)
    }
}

impl EncodeFields for Validity {
    fn encode_field<E: Encoder>(&self, index: usize, encoder: &mut E) -> Result<(), EncodeError> {
        match index {
            0 => self.not_before.encode(encoder),
            1 => self.not_after.encode(encoder),
            _ => Ok(()),
        }
    }
}

impl Decode for Validity {
    fn decode_with_tag_and_constraints<D: Decoder>(
        decoder: &mut D,
        tag: Tag,
        constraints: &Constraints<'_>,
    ) -> Result<Self, DecodeError> {
        decode_sequence_naming_errors(decoder, tag, constraints)
    }
}
