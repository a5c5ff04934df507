//! `AddRequest ::= [APPLICATION 8] SEQUENCE { entry LDAPDN, attributes AttributeList }`
ghost use Rattle.std.specs.Prelude.{[], codes, ◌∷◌};
ghost use Rattle.asn1_schema.specs.Words.{IsWellTagged, application, constructed_agrees, constructed_type_under, extensible_sequence_after, required_slot, untagged};
ghost use Rattle.asn1_model.specs.DistinctSets.{SetsAreDistinct};
ghost use Rattle.asn1_model.specs.WrittenAlike.{AreWrittenAlike};

use crate::aliases::{Attribute, AttributeList, Ldapdn};
use crate::partial_attribute::partial_attribute_has_one_spelling;
use asn1_schema::{
    AsnType, Constraints, ConstructedType, Decode, DecodeByIndex, DecodeError, Decoded, Decoder,
    Encode, EncodeError, EncodeFields, Encoder, Field, FieldTable, Identifier, Tag, Tagging,
    TypeTable, decode_sequence_naming_errors, required,
};
use asn1_spelling::{equal_lists_are_written_alike, sets_in_lists_are_distinct};
use asn1_tags::tag;
use std::alloc::{AllocError, Global};

/// `AddRequest` of the module `Lightweight-Directory-Access-Protocol-V3`.
#[derive(PartialEq, Eq, Debug, Drop)]
pub struct AddRequest {
    /// `entry LDAPDN`
    pub entry: Ldapdn,
    /// `attributes AttributeList`
    pub attributes: AttributeList,
}

impl DecodeByIndex for AddRequest {
    type Slots = (Option<Ldapdn>, Option<AttributeList>);

    ghost layout = { required_slot (codes "entry") (λ v. v.entry) (λ s. s.0) (untagged ⟦<Ldapdn as AsnType>⟧.meaning) ⟦<Ldapdn as PartialEq>⟧.eq ∷
        required_slot (codes "attributes") (λ v. v.attributes) (λ s. s.1) (untagged ⟦<AttributeList as AsnType>⟧.meaning) ⟦<AttributeList as PartialEq>⟧.eq ∷ [] };

    fn full(_alloc: Global, slots: Self::Slots) -> Result<Self, AllocError> {
        Ok(Self {
            entry: slots.0.unwrap(),
            attributes: slots.1.unwrap(),
        })
    }

    fn decode_field<D: Decoder>(index: usize, slots: &mut Self::Slots, decoder: &mut D) -> Decoded {
        match index {
            0 => required(&mut slots.0, decoder, Tagging::Untagged),
            1 => required(&mut slots.1, decoder, Tagging::Untagged),
            _ => Ok(()),
        }
    }
}

impl FieldTable for AddRequest {
    ghost components = { extensible_sequence_after 2 ⟦<AddRequest as DecodeByIndex>⟧.layout };

    fn field_count() -> usize {
        2
    }

    fn field_at(index: usize) -> Option<Field<'static>> {
        match index {
            0 => Some(Field::new_required_type::<Ldapdn>(0, "entry")),
            1 => Some(Field::new_required_type::<AttributeList>(1, "attributes")),
            _ => None,
        }
    }

    fn extension_index() -> Option<usize> {
        Some(2)
    }
}

impl AsnType for AddRequest {
    ghost meaning = { constructed_type_under ⟦<AddRequest as FieldTable>⟧.components (application 8) (codes "AddRequest") };

    fn table() -> TypeTable {
        TypeTable::new(tag!(application 8), Identifier(Some("AddRequest")))
    }

    fn is_present(&self) -> bool {
        true
    }
}

impl ConstructedType for AddRequest {
    ghost agrees = { constructed_agrees };
}

/// An `AddRequest` can be inside other types.
pub fn add_request_is_well_tagged()
    ensures { IsWellTagged ⟦<AddRequest as AsnType>⟧.meaning }
{}

/// Equal values are written alike, and in each value the components of a SET have distinct tags. With `add_request_is_well_tagged`
/// it follows that the DER of a value is its only spelling (`well_tagged_types_have_one_spelling` of `asn1_der`).
pub fn add_request_has_one_spelling()
    ensures alike { AreWrittenAlike ⟦<AddRequest as AsnType>⟧.meaning
        ⟦<AddRequest as PartialEq>⟧.eq }
    ensures distinct { SetsAreDistinct ⟦<AddRequest as AsnType>⟧.meaning }
{
    partial_attribute_has_one_spelling();
    equal_lists_are_written_alike::<Attribute>();
    sets_in_lists_are_distinct::<Attribute>();
}

impl Encode for AddRequest {
    fn encode_with_tag_and_constraints<E: Encoder>(
        &self,
        encoder: &mut E,
        tag: Tag,
        _constraints: &Constraints<'_>,
        name: Identifier,
    ) -> Result<(), EncodeError> {
        encoder.encode_sequence(tag, self, name)
    }
}

impl EncodeFields for AddRequest {
    fn encode_field<E: Encoder>(&self, index: usize, encoder: &mut E) -> Result<(), EncodeError> {
        match index {
            0 => self.entry.encode(encoder),
            1 => self.attributes.encode(encoder),
            _ => Ok(()),
        }
    }
}

impl Decode for AddRequest {
    fn decode_with_tag_and_constraints<D: Decoder>(
        decoder: &mut D,
        tag: Tag,
        constraints: &Constraints<'_>,
    ) -> Result<Self, DecodeError> {
        decode_sequence_naming_errors(decoder, tag, constraints)
    }
}
