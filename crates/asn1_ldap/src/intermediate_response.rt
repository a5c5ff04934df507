//! `IntermediateResponse` of the module `Lightweight-Directory-Access-Protocol-V3`.
//!
//! ```text
//! IntermediateResponse ::= [APPLICATION 25] SEQUENCE {
//!     responseName [0] LDAPOID OPTIONAL,
//!     responseValue [1] OCTET STRING OPTIONAL
//! }
//! ```
ghost use Rattle.std.specs.Prelude.{[], codes, ◌∷◌};
ghost use Rattle.asn1_schema.specs.Words.{IsWellTagged, application, constructed_agrees, constructed_type_under, context, extensible_sequence_after, optional_slot, tagged};
ghost use Rattle.asn1_model.specs.DistinctSets.{SetsAreDistinct};
ghost use Rattle.asn1_model.specs.WrittenAlike.{AreWrittenAlike};

use crate::aliases::Ldapoid;
use asn1_schema::{
    AsnType, Constraints, ConstructedType, Decode, DecodeByIndex, DecodeError, Decoded, Decoder,
    Encode, EncodeError, EncodeFields, Encoder, Field, FieldTable, Identifier, OctetString, Tag,
    Tagging, TypeTable, decode_sequence_naming_errors, optional,
};
use asn1_tags::tag;
use std::alloc::{AllocError, Global};

/// `IntermediateResponse` of the module `Lightweight-Directory-Access-Protocol-V3`.
#[derive(PartialEq, Eq, Debug, Drop)]
pub struct IntermediateResponse {
    /// `responseName [0] LDAPOID OPTIONAL`
    pub response_name: Option<Ldapoid>,
    /// `responseValue [1] OCTET STRING OPTIONAL`
    pub response_value: Option<OctetString>,
}

impl DecodeByIndex for IntermediateResponse {
    type Slots = (Option<Ldapoid>, Option<OctetString>);

    ghost layout = { optional_slot (codes "responseName") (λ v. v.response_name) (λ s. s.0) (tagged (context 0) ⟦<Ldapoid as AsnType>⟧.meaning) ⟦<Ldapoid as PartialEq>⟧.eq ∷
        optional_slot (codes "responseValue") (λ v. v.response_value) (λ s. s.1) (tagged (context 1) ⟦<OctetString as AsnType>⟧.meaning) ⟦<OctetString as PartialEq>⟧.eq ∷ [] };

    fn full(_alloc: Global, slots: Self::Slots) -> Result<Self, AllocError> {
        Ok(Self {
            response_name: slots.0,
            response_value: slots.1,
        })
    }

    fn decode_field<D: Decoder>(index: usize, slots: &mut Self::Slots, decoder: &mut D) -> Decoded {
        match index {
            0 => optional(&mut slots.0, decoder, Tagging::Tagged(tag!(context 0))),
            1 => optional(&mut slots.1, decoder, Tagging::Tagged(tag!(context 1))),
            _ => Ok(()),
        }
    }
}

impl FieldTable for IntermediateResponse {
    ghost components = { extensible_sequence_after 2 ⟦<IntermediateResponse as DecodeByIndex>⟧.layout };

    fn field_count() -> usize {
        2
    }

    fn field_at(index: usize) -> Option<Field<'static>> {
        match index {
            0 => Some(Field::new_optional_type_with_tag::<Ldapoid>(
                0,
                tag!(context 0),
                "responseName",
            )),
            1 => Some(Field::new_optional_type_with_tag::<OctetString>(
                1,
                tag!(context 1),
                "responseValue",
            )),
            _ => None,
        }
    }

    fn extension_index() -> Option<usize> {
        Some(2)
    }
}

impl AsnType for IntermediateResponse {
    ghost meaning = { constructed_type_under ⟦<IntermediateResponse as FieldTable>⟧.components (application 25) (codes "IntermediateResponse") };

    fn table() -> TypeTable {
        TypeTable::new(
            tag!(application 25),
            Identifier(Some("IntermediateResponse")),
        )
    }

    fn is_present(&self) -> bool {
        true
    }
}

impl ConstructedType for IntermediateResponse {
    ghost agrees = { constructed_agrees };
}

/// An `IntermediateResponse` can be inside other types.
pub fn intermediate_response_is_well_tagged()
    ensures { IsWellTagged ⟦<IntermediateResponse as AsnType>⟧.meaning }
{}

/// Equal values are written alike, and in each value the components of a SET have distinct tags. With `intermediate_response_is_well_tagged`
/// it follows that the DER of a value is its only spelling (`well_tagged_types_have_one_spelling` of `asn1_der`).
pub fn intermediate_response_has_one_spelling()
    ensures alike { AreWrittenAlike ⟦<IntermediateResponse as AsnType>⟧.meaning
        ⟦<IntermediateResponse as PartialEq>⟧.eq }
    ensures distinct { SetsAreDistinct ⟦<IntermediateResponse as AsnType>⟧.meaning }
{}

impl Encode for IntermediateResponse {
    fn encode_with_tag_and_constraints<E: Encoder>(
        &self,
        encoder: &mut E,
        tag: Tag,
        _constraints: &Constraints<'_>,
        name: Identifier,
    ) -> Result<(), EncodeError> {
        encoder.encode_sequence(tag, self, name)
    }
}

impl EncodeFields for IntermediateResponse {
    fn encode_field<E: Encoder>(&self, index: usize, encoder: &mut E) -> Result<(), EncodeError> {
        match index {
            0 => self.response_name.encode_with_tag(encoder, tag!(context 0)),
            1 => self
                .response_value
                .encode_with_tag(encoder, tag!(context 1)),
            _ => Ok(()),
        }
    }
}

impl Decode for IntermediateResponse {
    fn decode_with_tag_and_constraints<D: Decoder>(
        decoder: &mut D,
        tag: Tag,
        constraints: &Constraints<'_>,
    ) -> Result<Self, DecodeError> {
        decode_sequence_naming_errors(decoder, tag, constraints)
    }
}
