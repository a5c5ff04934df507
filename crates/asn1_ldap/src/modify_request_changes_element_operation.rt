//! `operation ENUMERATED { add(0), delete(1), replace(2), ..., increment(3) }`
ghost use Rattle.std.specs.Prelude.{codes, refl};
ghost use Rattle.asn1_schema.specs.Words.{IsWellTagged, by_test, enumeration_agrees, enumeration_type, extensible_enumeration, items_of};
ghost use Rattle.asn1_ldap.specs.declared.modify_request_changes_element_operation.ModifyRequestChangesElementOperation.TheVariants.{Add, Delete, Replace, Increment};
ghost use Rattle.asn1_model.specs.DistinctSets.{SetsAreDistinct};
ghost use Rattle.asn1_model.specs.WrittenAlike.{AreWrittenAlike};

use asn1_schema::{
    AsnType, Constraints, Decode, DecodeError, Decoder, Encode, EncodeError, Encoder, Enumerated,
    EnumeratedItems, EnumerationItem, Identifier, Tag, TypeTable,
};

/// The type of `operation` in `ModifyRequestChangesElement`.
#[derive(Clone, Copy, PartialEq, Eq, Debug)]
pub enum ModifyRequestChangesElementOperation {
    /// `add(0)`
    Add,
    /// `delete(1)`
    Delete,
    /// `replace(2)`
    Replace,
    /// `increment(3)`
    Increment,
}

const ROOT: &[EnumerationItem<ModifyRequestChangesElementOperation>] = &[
    (ModifyRequestChangesElementOperation::Add, 0, "add"),
    (ModifyRequestChangesElementOperation::Delete, 1, "delete"),
    (ModifyRequestChangesElementOperation::Replace, 2, "replace"),
];

const ADDITIONS: &[EnumerationItem<ModifyRequestChangesElementOperation>] = &[(
    ModifyRequestChangesElementOperation::Increment,
    3,
    "increment",
)];

impl EnumeratedItems for ModifyRequestChangesElementOperation {
    ghost use Rattle.asn1_ldap.specs.declared.modify_request_changes_element_operation.TheConstants.{ADDITIONS, ROOT};

    ghost enumeration = { extensible_enumeration (items_of ROOT.now) (items_of ADDITIONS.now) };

    fn items() -> &'static [EnumerationItem<Self>] {
        ROOT
    }

    fn added_items() -> Option<&'static [EnumerationItem<Self>]> {
        Some(ADDITIONS)
    }
}

impl AsnType for ModifyRequestChangesElementOperation {
    ghost meaning = { enumeration_type (codes "operation") ⟦<ModifyRequestChangesElementOperation as EnumeratedItems>⟧.enumeration ⟦<ModifyRequestChangesElementOperation as PartialEq>⟧.eq };

    fn table() -> TypeTable {
        TypeTable::new(Tag::ENUMERATED, Identifier(Some("operation")))
    }

    fn is_present(&self) -> bool {
        true
    }
}

impl Enumerated for ModifyRequestChangesElementOperation {
    ghost complete = { elim [ Add ↦ refl | Delete ↦ refl | Replace ↦ refl | Increment ↦ refl ] };

    ghost lawful = { by_test refl };

    ghost agrees = { enumeration_agrees };
}

/// A `ModifyRequestChangesElementOperation` can be inside other types.
pub fn modify_request_changes_element_operation_is_well_tagged()
    ensures { IsWellTagged ⟦<ModifyRequestChangesElementOperation as AsnType>⟧.meaning }
{}

/// Equal values are written alike, and in each value the components of a SET have distinct tags. With `modify_request_changes_element_operation_is_well_tagged`
/// it follows that the DER of a value is its only spelling (`well_tagged_types_have_one_spelling` of `asn1_der`).
pub fn modify_request_changes_element_operation_has_one_spelling()
    ensures alike { AreWrittenAlike ⟦<ModifyRequestChangesElementOperation as AsnType>⟧.meaning
        ⟦<ModifyRequestChangesElementOperation as PartialEq>⟧.eq }
    ensures distinct { SetsAreDistinct ⟦<ModifyRequestChangesElementOperation as AsnType>⟧.meaning }
{}

impl Encode for ModifyRequestChangesElementOperation {
    fn encode_with_tag_and_constraints<E: Encoder>(
        &self,
        encoder: &mut E,
        tag: Tag,
        _constraints: &Constraints<'_>,
        name: Identifier,
    ) -> Result<(), EncodeError> {
        encoder.encode_enumerated(tag, self, name)
    }
}

impl Decode for ModifyRequestChangesElementOperation {
    fn decode_with_tag_and_constraints<D: Decoder>(
        decoder: &mut D,
        tag: Tag,
        _constraints: &Constraints<'_>,
    ) -> Result<Self, DecodeError> {
        decoder.decode_enumerated(tag)
    }
}
