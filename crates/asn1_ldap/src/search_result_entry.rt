//! `SearchResultEntry` of the module `Lightweight-Directory-Access-Protocol-V3`.
//!
//! ```text
//! SearchResultEntry ::= [APPLICATION 4] SEQUENCE {
//!     objectName LDAPDN,
//!     attributes PartialAttributeList
//! }
//! ```
ghost use Rattle.std.specs.Prelude.{[], codes, ◌∷◌};
ghost use Rattle.asn1_schema.specs.Words.{IsWellTagged, application, constructed_agrees, constructed_type_under, extensible_sequence_after, required_slot, untagged};
ghost use Rattle.asn1_model.specs.DistinctSets.{SetsAreDistinct};
ghost use Rattle.asn1_model.specs.WrittenAlike.{AreWrittenAlike};

use crate::aliases::{Ldapdn, PartialAttributeList};
use crate::partial_attribute::{PartialAttribute, partial_attribute_has_one_spelling};
use asn1_schema::{
    AsnType, Constraints, ConstructedType, Decode, DecodeByIndex, DecodeError, Decoded, Decoder,
    Encode, EncodeError, EncodeFields, Encoder, Field, FieldTable, Identifier, Tag, Tagging,
    TypeTable, decode_sequence_naming_errors, required,
};
use asn1_spelling::{equal_lists_are_written_alike, sets_in_lists_are_distinct};
use asn1_tags::tag;
use std::alloc::{AllocError, Global};

/// `SearchResultEntry` of the module `Lightweight-Directory-Access-Protocol-V3`.
#[derive(PartialEq, Eq, Debug, Drop)]
pub struct SearchResultEntry {
    /// `objectName LDAPDN`
    pub object_name: Ldapdn,
    /// `attributes PartialAttributeList`
    pub attributes: PartialAttributeList,
}

impl DecodeByIndex for SearchResultEntry {
    type Slots = (Option<Ldapdn>, Option<PartialAttributeList>);

    ghost layout = { required_slot (codes "objectName") (λ v. v.object_name) (λ s. s.0) (untagged ⟦<Ldapdn as AsnType>⟧.meaning) ⟦<Ldapdn as PartialEq>⟧.eq ∷
        required_slot (codes "attributes") (λ v. v.attributes) (λ s. s.1) (untagged ⟦<PartialAttributeList as AsnType>⟧.meaning) ⟦<PartialAttributeList as PartialEq>⟧.eq ∷ [] };

    fn full(_alloc: Global, slots: Self::Slots) -> Result<Self, AllocError> {
        Ok(Self {
            object_name: slots.0.unwrap(),
            attributes: slots.1.unwrap(),
        })
    }

    fn decode_field<D: Decoder>(index: usize, slots: &mut Self::Slots, decoder: &mut D) -> Decoded {
        match index {
            0 => required(&mut slots.0, decoder, Tagging::Untagged),
            1 => required(&mut slots.1, decoder, Tagging::Untagged),
            _ => Ok(()),
        }
    }
}

impl FieldTable for SearchResultEntry {
    ghost components = { extensible_sequence_after 2 ⟦<SearchResultEntry as DecodeByIndex>⟧.layout };

    fn field_count() -> usize {
        2
    }

    fn field_at(index: usize) -> Option<Field<'static>> {
        match index {
            0 => Some(Field::new_required_type::<Ldapdn>(0, "objectName")),
            1 => Some(Field::new_required_type::<PartialAttributeList>(1, "attributes")),
            _ => None,
        }
    }

    fn extension_index() -> Option<usize> {
        Some(2)
    }
}

impl AsnType for SearchResultEntry {
    ghost meaning = { constructed_type_under ⟦<SearchResultEntry as FieldTable>⟧.components (application 4) (codes "SearchResultEntry") };

    fn table() -> TypeTable {
        TypeTable::new(tag!(application 4), Identifier(Some("SearchResultEntry")))
    }

    fn is_present(&self) -> bool {
        true
    }
}

impl ConstructedType for SearchResultEntry {
    ghost agrees = { constructed_agrees };
}

/// A `SearchResultEntry` can be inside other types.
pub fn search_result_entry_is_well_tagged()
    ensures { IsWellTagged ⟦<SearchResultEntry as AsnType>⟧.meaning }
{}

/// Equal values are written alike, and in each value the components of a SET have distinct tags. With `search_result_entry_is_well_tagged`
/// it follows that the DER of a value is its only spelling (`well_tagged_types_have_one_spelling` of `asn1_der`).
pub fn search_result_entry_has_one_spelling()
    ensures alike { AreWrittenAlike ⟦<SearchResultEntry as AsnType>⟧.meaning
        ⟦<SearchResultEntry as PartialEq>⟧.eq }
    ensures distinct { SetsAreDistinct ⟦<SearchResultEntry as AsnType>⟧.meaning }
{
    partial_attribute_has_one_spelling();
    equal_lists_are_written_alike::<PartialAttribute>();
    sets_in_lists_are_distinct::<PartialAttribute>();
}

impl Encode for SearchResultEntry {
    fn encode_with_tag_and_constraints<E: Encoder>(
        &self,
        encoder: &mut E,
        tag: Tag,
        _constraints: &Constraints<'_>,
        name: Identifier,
    ) -> Result<(), EncodeError> {
        encoder.encode_sequence(tag, self, name)
    }
}

impl EncodeFields for SearchResultEntry {
    fn encode_field<E: Encoder>(&self, index: usize, encoder: &mut E) -> Result<(), EncodeError> {
        match index {
            0 => self.object_name.encode(encoder),
            1 => self.attributes.encode(encoder),
            _ => Ok(()),
        }
    }
}

impl Decode for SearchResultEntry {
    fn decode_with_tag_and_constraints<D: Decoder>(
        decoder: &mut D,
        tag: Tag,
        constraints: &Constraints<'_>,
    ) -> Result<Self, DecodeError> {
        decode_sequence_naming_errors(decoder, tag, constraints)
    }
}
