//! `ExtendedRequest` of the module `Lightweight-Directory-Access-Protocol-V3`.
//!
//! ```text
//! ExtendedRequest ::= [APPLICATION 23] SEQUENCE {
//!     requestName [0] LDAPOID,
//!     requestValue [1] OCTET STRING OPTIONAL
//! }
//! ```
ghost use Rattle.std.specs.Prelude.{[], codes, ◌∷◌};
ghost use Rattle.asn1_schema.specs.Words.{IsWellTagged, application, constructed_agrees, constructed_type_under, context, extensible_sequence_after, optional_slot, required_slot, tagged};
ghost use Rattle.asn1_model.specs.DistinctSets.{SetsAreDistinct};
ghost use Rattle.asn1_model.specs.WrittenAlike.{AreWrittenAlike};

use crate::aliases::Ldapoid;
use asn1_schema::{
    AsnType, Constraints, ConstructedType, Decode, DecodeByIndex, DecodeError, Decoded, Decoder,
    Encode, EncodeError, EncodeFields, Encoder, Field, FieldTable, Identifier, OctetString, Tag,
    Tagging, TypeTable, decode_sequence_naming_errors, optional, required,
};
use asn1_tags::tag;
use std::alloc::{AllocError, Global};

/// `ExtendedRequest` of the module `Lightweight-Directory-Access-Protocol-V3`.
#[derive(PartialEq, Eq, Debug, Drop)]
pub struct ExtendedRequest {
    /// `requestName [0] LDAPOID`
    pub request_name: Ldapoid,
    /// `requestValue [1] OCTET STRING OPTIONAL`
    pub request_value: Option<OctetString>,
}

impl DecodeByIndex for ExtendedRequest {
    type Slots = (Option<Ldapoid>, Option<OctetString>);

    ghost layout = { required_slot (codes "requestName") (λ v. v.request_name) (λ s. s.0) (tagged (context 0) ⟦<Ldapoid as AsnType>⟧.meaning) ⟦<Ldapoid as PartialEq>⟧.eq ∷
        optional_slot (codes "requestValue") (λ v. v.request_value) (λ s. s.1) (tagged (context 1) ⟦<OctetString as AsnType>⟧.meaning) ⟦<OctetString as PartialEq>⟧.eq ∷ [] };

    fn full(_alloc: Global, slots: Self::Slots) -> Result<Self, AllocError> {
        Ok(Self {
            request_name: slots.0.unwrap(),
            request_value: slots.1,
        })
    }

    fn decode_field<D: Decoder>(index: usize, slots: &mut Self::Slots, decoder: &mut D) -> Decoded {
        match index {
            0 => required(&mut slots.0, decoder, Tagging::Tagged(tag!(context 0))),
            1 => optional(&mut slots.1, decoder, Tagging::Tagged(tag!(context 1))),
            _ => Ok(()),
        }
    }
}

impl FieldTable for ExtendedRequest {
    ghost components = { extensible_sequence_after 2 ⟦<ExtendedRequest as DecodeByIndex>⟧.layout };

    fn field_count() -> usize {
        2
    }

    fn field_at(index: usize) -> Option<Field<'static>> {
        match index {
            0 => Some(Field::new_required_type_with_tag::<Ldapoid>(
                0,
                tag!(context 0),
                "requestName",
            )),
            1 => Some(Field::new_optional_type_with_tag::<OctetString>(
                1,
                tag!(context 1),
                "requestValue",
            )),
            _ => None,
        }
    }

    fn extension_index() -> Option<usize> {
        Some(2)
    }
}

impl AsnType for ExtendedRequest {
    ghost meaning = { constructed_type_under ⟦<ExtendedRequest as FieldTable>⟧.components (application 23) (codes "ExtendedRequest") };

    fn table() -> TypeTable {
        TypeTable::new(tag!(application 23), Identifier(Some("ExtendedRequest")))
    }

    fn is_present(&self) -> bool {
        true
    }
}

impl ConstructedType for ExtendedRequest {
    ghost agrees = { constructed_agrees };
}

/// An `ExtendedRequest` can be inside other types.
pub fn extended_request_is_well_tagged()
    ensures { IsWellTagged ⟦<ExtendedRequest as AsnType>⟧.meaning }
{}

/// Equal values are written alike, and in each value the components of a SET have distinct tags. With `extended_request_is_well_tagged`
/// it follows that the DER of a value is its only spelling (`well_tagged_types_have_one_spelling` of `asn1_der`).
pub fn extended_request_has_one_spelling()
    ensures alike { AreWrittenAlike ⟦<ExtendedRequest as AsnType>⟧.meaning
        ⟦<ExtendedRequest as PartialEq>⟧.eq }
    ensures distinct { SetsAreDistinct ⟦<ExtendedRequest as AsnType>⟧.meaning }
{}

impl Encode for ExtendedRequest {
    fn encode_with_tag_and_constraints<E: Encoder>(
        &self,
        encoder: &mut E,
        tag: Tag,
        _constraints: &Constraints<'_>,
        name: Identifier,
    ) -> Result<(), EncodeError> {
        encoder.encode_sequence(tag, self, name)
    }
}

impl EncodeFields for ExtendedRequest {
    fn encode_field<E: Encoder>(&self, index: usize, encoder: &mut E) -> Result<(), EncodeError> {
        match index {
            0 => self.request_name.encode_with_tag(encoder, tag!(context 0)),
            1 => self.request_value.encode_with_tag(encoder, tag!(context 1)),
            _ => Ok(()),
        }
    }
}

impl Decode for ExtendedRequest {
    fn decode_with_tag_and_constraints<D: Decoder>(
        decoder: &mut D,
        tag: Tag,
        constraints: &Constraints<'_>,
    ) -> Result<Self, DecodeError> {
        decode_sequence_naming_errors(decoder, tag, constraints)
    }
}
