//! The type of `changes` in `ModifyRequest`.
//!
//! ```text
//! changes SEQUENCE OF change SEQUENCE {
//!     operation ENUMERATED { add(0), delete(1), replace(2), ..., increment(3) },
//!     modification PartialAttribute
//! }
//! ```
ghost use Rattle.std.specs.Prelude.{[], codes, ◌∷◌};
ghost use Rattle.asn1_schema.specs.Words.{IsWellTagged, constructed_agrees, constructed_type, extensible_sequence_after, required_slot, untagged};
ghost use Rattle.asn1_model.specs.DistinctSets.{SetsAreDistinct};
ghost use Rattle.asn1_model.specs.WrittenAlike.{AreWrittenAlike};

use crate::modify_request_changes_element_operation::{
    ModifyRequestChangesElementOperation, modify_request_changes_element_operation_has_one_spelling,
};
use crate::partial_attribute::{PartialAttribute, partial_attribute_has_one_spelling};
use asn1_schema::{
    AsnType, Constraints, ConstructedType, Decode, DecodeByIndex, DecodeError, Decoded, Decoder,
    Encode, EncodeError, EncodeFields, Encoder, Field, FieldTable, Identifier, Tag, Tagging,
    TypeTable, decode_sequence_naming_errors, required,
};
use std::alloc::{AllocError, Global};

/// The type of `changes` in `ModifyRequest`.
#[derive(PartialEq, Eq, Debug, Drop)]
pub struct ModifyRequestChangesElement {
    /// `operation ENUMERATED { add(0), delete(1), replace(2), ..., increment(3) }`
    pub operation: ModifyRequestChangesElementOperation,
    /// `modification PartialAttribute`
    pub modification: PartialAttribute,
}

impl DecodeByIndex for ModifyRequestChangesElement {
    type Slots = (
        Option<ModifyRequestChangesElementOperation>,
        Option<PartialAttribute>,
    );

    ghost layout = { required_slot (codes "operation") (λ v. v.operation) (λ s. s.0) (untagged ⟦<ModifyRequestChangesElementOperation as AsnType>⟧.meaning) ⟦<ModifyRequestChangesElementOperation as PartialEq>⟧.eq ∷
        required_slot (codes "modification") (λ v. v.modification) (λ s. s.1) (untagged ⟦<PartialAttribute as AsnType>⟧.meaning) ⟦<PartialAttribute as PartialEq>⟧.eq ∷ [] };

    fn full(_alloc: Global, slots: Self::Slots) -> Result<Self, AllocError> {
        Ok(Self {
            operation: slots.0.unwrap(),
            modification: slots.1.unwrap(),
        })
    }

    fn decode_field<D: Decoder>(index: usize, slots: &mut Self::Slots, decoder: &mut D) -> Decoded {
        match index {
            0 => required(&mut slots.0, decoder, Tagging::Untagged),
            1 => required(&mut slots.1, decoder, Tagging::Untagged),
            _ => Ok(()),
        }
    }
}

impl FieldTable for ModifyRequestChangesElement {
    ghost components = { extensible_sequence_after 2 ⟦<ModifyRequestChangesElement as DecodeByIndex>⟧.layout };

    fn field_count() -> usize {
        2
    }

    fn field_at(index: usize) -> Option<Field<'static>> {
        match index {
            0 => Some(Field::new_required_type::<ModifyRequestChangesElementOperation>(
                0,
                "operation",
            )),
            1 => Some(Field::new_required_type::<PartialAttribute>(1, "modification")),
            _ => None,
        }
    }

    fn extension_index() -> Option<usize> {
        Some(2)
    }
}

impl AsnType for ModifyRequestChangesElement {
    ghost meaning = { constructed_type (codes "changes") ⟦<ModifyRequestChangesElement as FieldTable>⟧.components };

    fn table() -> TypeTable {
        TypeTable::new(Tag::SEQUENCE, Identifier(Some("changes")))
    }

    fn is_present(&self) -> bool {
        true
    }
}

impl ConstructedType for ModifyRequestChangesElement {
    ghost agrees = { constructed_agrees };
}

/// A `ModifyRequestChangesElement` can be inside other types.
pub fn modify_request_changes_element_is_well_tagged()
    ensures { IsWellTagged ⟦<ModifyRequestChangesElement as AsnType>⟧.meaning }
{}

/// Equal values are written alike, and in each value the components of a SET have distinct tags. With `modify_request_changes_element_is_well_tagged`
/// it follows that the DER of a value is its only spelling (`well_tagged_types_have_one_spelling` of `asn1_der`).
pub fn modify_request_changes_element_has_one_spelling()
    ensures alike { AreWrittenAlike ⟦<ModifyRequestChangesElement as AsnType>⟧.meaning
        ⟦<ModifyRequestChangesElement as PartialEq>⟧.eq }
    ensures distinct { SetsAreDistinct ⟦<ModifyRequestChangesElement as AsnType>⟧.meaning }
{
    modify_request_changes_element_operation_has_one_spelling();
    partial_attribute_has_one_spelling();
}

impl Encode for ModifyRequestChangesElement {
    fn encode_with_tag_and_constraints<E: Encoder>(
        &self,
        encoder: &mut E,
        tag: Tag,
        _constraints: &Constraints<'_>,
        name: Identifier,
    ) -> Result<(), EncodeError> {
        encoder.encode_sequence(tag, self, name)
    }
}

impl EncodeFields for ModifyRequestChangesElement {
    fn encode_field<E: Encoder>(&self, index: usize, encoder: &mut E) -> Result<(), EncodeError> {
        match index {
            0 => self.operation.encode(encoder),
            1 => self.modification.encode(encoder),
            _ => Ok(()),
        }
    }
}

impl Decode for ModifyRequestChangesElement {
    fn decode_with_tag_and_constraints<D: Decoder>(
        decoder: &mut D,
        tag: Tag,
        constraints: &Constraints<'_>,
    ) -> Result<Self, DecodeError> {
        decode_sequence_naming_errors(decoder, tag, constraints)
    }
}
