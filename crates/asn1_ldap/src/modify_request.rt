//! `ModifyRequest` of the module `Lightweight-Directory-Access-Protocol-V3`.
//!
//! ```text
//! ModifyRequest ::= [APPLICATION 6] SEQUENCE {
//!     object LDAPDN,
//!     changes SEQUENCE OF change SEQUENCE { .. }
//! }
//! ```
ghost use Rattle.std.specs.Prelude.{[], codes, ◌∷◌};
ghost use Rattle.asn1_schema.specs.Words.{IsWellTagged, application, constructed_agrees, constructed_type_under, extensible_sequence_after, required_slot, untagged};
ghost use Rattle.asn1_model.specs.DistinctSets.{SetsAreDistinct};
ghost use Rattle.asn1_model.specs.WrittenAlike.{AreWrittenAlike};

use crate::aliases::Ldapdn;
use crate::modify_request_changes_element::{
    ModifyRequestChangesElement, modify_request_changes_element_has_one_spelling,
};
use asn1_schema::{
    AsnType, Constraints, ConstructedType, Decode, DecodeByIndex, DecodeError, Decoded, Decoder,
    Encode, EncodeError, EncodeFields, Encoder, Field, FieldTable, Identifier, Tag, Tagging,
    TypeTable, decode_sequence_naming_errors, required,
};
use asn1_spelling::{equal_lists_are_written_alike, sets_in_lists_are_distinct};
use asn1_tags::tag;
use std::alloc::{AllocError, Global};

/// `ModifyRequest` of the module `Lightweight-Directory-Access-Protocol-V3`.
#[derive(PartialEq, Eq, Debug, Drop)]
pub struct ModifyRequest {
    /// `object LDAPDN`
    pub object: Ldapdn,
    /// `changes SEQUENCE OF change SEQUENCE { .. }`
    pub changes: Vec<ModifyRequestChangesElement>,
}

impl DecodeByIndex for ModifyRequest {
    type Slots = (Option<Ldapdn>, Option<Vec<ModifyRequestChangesElement>>);

    ghost layout = { required_slot (codes "object") (λ v. v.object) (λ s. s.0) (untagged ⟦<Ldapdn as AsnType>⟧.meaning) ⟦<Ldapdn as PartialEq>⟧.eq ∷
        required_slot (codes "changes") (λ v. v.changes) (λ s. s.1) (untagged ⟦<Vec<ModifyRequestChangesElement> as AsnType>⟧.meaning) ⟦<Vec<ModifyRequestChangesElement> as PartialEq>⟧.eq ∷ [] };

    fn full(_alloc: Global, slots: Self::Slots) -> Result<Self, AllocError> {
        Ok(Self {
            object: slots.0.unwrap(),
            changes: slots.1.unwrap(),
        })
    }

    fn decode_field<D: Decoder>(index: usize, slots: &mut Self::Slots, decoder: &mut D) -> Decoded {
        match index {
            0 => required(&mut slots.0, decoder, Tagging::Untagged),
            1 => required(&mut slots.1, decoder, Tagging::Untagged),
            _ => Ok(()),
        }
    }
}

impl FieldTable for ModifyRequest {
    ghost components = { extensible_sequence_after 2 ⟦<ModifyRequest as DecodeByIndex>⟧.layout };

    fn field_count() -> usize {
        2
    }

    fn field_at(index: usize) -> Option<Field<'static>> {
        match index {
            0 => Some(Field::new_required_type::<Ldapdn>(0, "object")),
            1 => Some(Field::new_required_type::<Vec<ModifyRequestChangesElement>>(1, "changes")),
            _ => None,
        }
    }

    fn extension_index() -> Option<usize> {
        Some(2)
    }
}

impl AsnType for ModifyRequest {
    ghost meaning = { constructed_type_under ⟦<ModifyRequest as FieldTable>⟧.components (application 6) (codes "ModifyRequest") };

    fn table() -> TypeTable {
        TypeTable::new(tag!(application 6), Identifier(Some("ModifyRequest")))
    }

    fn is_present(&self) -> bool {
        true
    }
}

impl ConstructedType for ModifyRequest {
    ghost agrees = { constructed_agrees };
}

/// A `ModifyRequest` can be inside other types.
pub fn modify_request_is_well_tagged()
    ensures { IsWellTagged ⟦<ModifyRequest as AsnType>⟧.meaning }
{}

/// Equal values are written alike, and in each value the components of a SET have distinct tags. With `modify_request_is_well_tagged`
/// it follows that the DER of a value is its only spelling (`well_tagged_types_have_one_spelling` of `asn1_der`).
pub fn modify_request_has_one_spelling()
    ensures alike { AreWrittenAlike ⟦<ModifyRequest as AsnType>⟧.meaning
        ⟦<ModifyRequest as PartialEq>⟧.eq }
    ensures distinct { SetsAreDistinct ⟦<ModifyRequest as AsnType>⟧.meaning }
{
    modify_request_changes_element_has_one_spelling();
    equal_lists_are_written_alike::<ModifyRequestChangesElement>();
    sets_in_lists_are_distinct::<ModifyRequestChangesElement>();
}

impl Encode for ModifyRequest {
    fn encode_with_tag_and_constraints<E: Encoder>(
        &self,
        encoder: &mut E,
        tag: Tag,
        _constraints: &Constraints<'_>,
        name: Identifier,
    ) -> Result<(), EncodeError> {
        encoder.encode_sequence(tag, self, name)
    }
}

impl EncodeFields for ModifyRequest {
    fn encode_field<E: Encoder>(&self, index: usize, encoder: &mut E) -> Result<(), EncodeError> {
        match index {
            0 => self.object.encode(encoder),
            1 => self.changes.encode(encoder),
            _ => Ok(()),
        }
    }
}

impl Decode for ModifyRequest {
    fn decode_with_tag_and_constraints<D: Decoder>(
        decoder: &mut D,
        tag: Tag,
        constraints: &Constraints<'_>,
    ) -> Result<Self, DecodeError> {
        decode_sequence_naming_errors(decoder, tag, constraints)
    }
}
