//! `CompareRequest ::= [APPLICATION 14] SEQUENCE { entry LDAPDN, ava AttributeValueAssertion }`
ghost use Rattle.std.specs.Prelude.{[], codes, ◌∷◌};
ghost use Rattle.asn1_schema.specs.Words.{IsWellTagged, application, constructed_agrees, constructed_type_under, extensible_sequence_after, required_slot, untagged};
ghost use Rattle.asn1_model.specs.DistinctSets.{SetsAreDistinct};
ghost use Rattle.asn1_model.specs.WrittenAlike.{AreWrittenAlike};

use crate::aliases::Ldapdn;
use crate::attribute_value_assertion::{
    AttributeValueAssertion, attribute_value_assertion_has_one_spelling,
};
use asn1_schema::{
    AsnType, Constraints, ConstructedType, Decode, DecodeByIndex, DecodeError, Decoded, Decoder,
    Encode, EncodeError, EncodeFields, Encoder, Field, FieldTable, Identifier, Tag, Tagging,
    TypeTable, decode_sequence_naming_errors, required,
};
use asn1_tags::tag;
use std::alloc::{AllocError, Global};

/// `CompareRequest` of the module `Lightweight-Directory-Access-Protocol-V3`.
#[derive(PartialEq, Eq, Debug, Drop)]
pub struct CompareRequest {
    /// `entry LDAPDN`
    pub entry: Ldapdn,
    /// `ava AttributeValueAssertion`
    pub ava: AttributeValueAssertion,
}

impl DecodeByIndex for CompareRequest {
    type Slots = (Option<Ldapdn>, Option<AttributeValueAssertion>);

    ghost layout = { required_slot (codes "entry") (λ v. v.entry) (λ s. s.0) (untagged ⟦<Ldapdn as AsnType>⟧.meaning) ⟦<Ldapdn as PartialEq>⟧.eq ∷
        required_slot (codes "ava") (λ v. v.ava) (λ s. s.1) (untagged ⟦<AttributeValueAssertion as AsnType>⟧.meaning) ⟦<AttributeValueAssertion as PartialEq>⟧.eq ∷ [] };

    fn full(_alloc: Global, slots: Self::Slots) -> Result<Self, AllocError> {
        Ok(Self {
            entry: slots.0.unwrap(),
            ava: slots.1.unwrap(),
        })
    }

    fn decode_field<D: Decoder>(index: usize, slots: &mut Self::Slots, decoder: &mut D) -> Decoded {
        match index {
            0 => required(&mut slots.0, decoder, Tagging::Untagged),
            1 => required(&mut slots.1, decoder, Tagging::Untagged),
            _ => Ok(()),
        }
    }
}

impl FieldTable for CompareRequest {
    ghost components = { extensible_sequence_after 2 ⟦<CompareRequest as DecodeByIndex>⟧.layout };

    fn field_count() -> usize {
        2
    }

    fn field_at(index: usize) -> Option<Field<'static>> {
        match index {
            0 => Some(Field::new_required_type::<Ldapdn>(0, "entry")),
            1 => Some(Field::new_required_type::<AttributeValueAssertion>(1, "ava")),
            _ => None,
        }
    }

    fn extension_index() -> Option<usize> {
        Some(2)
    }
}

impl AsnType for CompareRequest {
    ghost meaning = { constructed_type_under ⟦<CompareRequest as FieldTable>⟧.components (application 14) (codes "CompareRequest") };

    fn table() -> TypeTable {
        TypeTable::new(tag!(application 14), Identifier(Some("CompareRequest")))
    }

    fn is_present(&self) -> bool {
        true
    }
}

impl ConstructedType for CompareRequest {
    ghost agrees = { constructed_agrees };
}

/// A `CompareRequest` can be inside other types.
pub fn compare_request_is_well_tagged()
    ensures { IsWellTagged ⟦<CompareRequest as AsnType>⟧.meaning }
{}

/// Equal values are written alike, and in each value the components of a SET have distinct tags. With `compare_request_is_well_tagged`
/// it follows that the DER of a value is its only spelling (`well_tagged_types_have_one_spelling` of `asn1_der`).
pub fn compare_request_has_one_spelling()
    ensures alike { AreWrittenAlike ⟦<CompareRequest as AsnType>⟧.meaning
        ⟦<CompareRequest as PartialEq>⟧.eq }
    ensures distinct { SetsAreDistinct ⟦<CompareRequest as AsnType>⟧.meaning }
{
    attribute_value_assertion_has_one_spelling();
}

impl Encode for CompareRequest {
    fn encode_with_tag_and_constraints<E: Encoder>(
        &self,
        encoder: &mut E,
        tag: Tag,
        _constraints: &Constraints<'_>,
        name: Identifier,
    ) -> Result<(), EncodeError> {
        encoder.encode_sequence(tag, self, name)
    }
}

impl EncodeFields for CompareRequest {
    fn encode_field<E: Encoder>(&self, index: usize, encoder: &mut E) -> Result<(), EncodeError> {
        match index {
            0 => self.entry.encode(encoder),
            1 => self.ava.encode(encoder),
            _ => Ok(()),
        }
    }
}

impl Decode for CompareRequest {
    fn decode_with_tag_and_constraints<D: Decoder>(
        decoder: &mut D,
        tag: Tag,
        constraints: &Constraints<'_>,
    ) -> Result<Self, DecodeError> {
        decode_sequence_naming_errors(decoder, tag, constraints)
    }
}
