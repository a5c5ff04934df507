//! `SubstringFilter` of the module `Lightweight-Directory-Access-Protocol-V3`.
//!
//! ```text
//! SubstringFilter ::= SEQUENCE {
//!     type AttributeDescription,
//!     substrings SEQUENCE (SIZE (1..MAX)) OF substring CHOICE { .. }
//! }
//! ```
ghost use Rattle.std.specs.Prelude.{[], codes, ◌∷◌};
ghost use Rattle.asn1_schema.specs.Words.{IsWellTagged, constructed_agrees, constructed_type, extensible_sequence_after, required_slot, untagged};
ghost use Rattle.asn1_model.specs.DistinctSets.{SetsAreDistinct};
ghost use Rattle.asn1_model.specs.WrittenAlike.{AreWrittenAlike};

use crate::aliases::AttributeDescription;
use crate::substring_filter_substrings_element::{
    SubstringFilterSubstringsElement, substring_filter_substrings_element_has_one_spelling,
};
use asn1_schema::{
    AsnType, Constraints, ConstructedType, Decode, DecodeByIndex, DecodeError, Decoded, Decoder,
    Encode, EncodeError, EncodeFields, Encoder, Field, FieldTable, Identifier, Tag, Tagging,
    TypeTable, decode_sequence_naming_errors, required,
};
use asn1_spelling::{equal_lists_are_written_alike, sets_in_lists_are_distinct};
use std::alloc::{AllocError, Global};

/// `SubstringFilter` of the module `Lightweight-Directory-Access-Protocol-V3`.
#[derive(PartialEq, Eq, Debug, Drop)]
pub struct SubstringFilter {
    /// `type AttributeDescription`
    pub type_: AttributeDescription,
    /// `substrings SEQUENCE (SIZE (1..MAX)) OF substring CHOICE { .. }`
    pub substrings: Vec<SubstringFilterSubstringsElement>,
}

impl DecodeByIndex for SubstringFilter {
    type Slots = (
        Option<AttributeDescription>,
        Option<Vec<SubstringFilterSubstringsElement>>,
    );

    ghost layout = { required_slot (codes "type") (λ v. v.type_) (λ s. s.0) (untagged ⟦<AttributeDescription as AsnType>⟧.meaning) ⟦<AttributeDescription as PartialEq>⟧.eq ∷
        required_slot (codes "substrings") (λ v. v.substrings) (λ s. s.1) (untagged ⟦<Vec<SubstringFilterSubstringsElement> as AsnType>⟧.meaning) ⟦<Vec<SubstringFilterSubstringsElement> as PartialEq>⟧.eq ∷ [] };

    fn full(_alloc: Global, slots: Self::Slots) -> Result<Self, AllocError> {
        Ok(Self {
            type_: slots.0.unwrap(),
            substrings: slots.1.unwrap(),
        })
    }

    fn decode_field<D: Decoder>(index: usize, slots: &mut Self::Slots, decoder: &mut D) -> Decoded {
        match index {
            0 => required(&mut slots.0, decoder, Tagging::Untagged),
            1 => required(&mut slots.1, decoder, Tagging::Untagged),
            _ => Ok(()),
        }
    }
}

impl FieldTable for SubstringFilter {
    ghost components = { extensible_sequence_after 2 ⟦<SubstringFilter as DecodeByIndex>⟧.layout };

    fn field_count() -> usize {
        2
    }

    fn field_at(index: usize) -> Option<Field<'static>> {
        match index {
            0 => Some(Field::new_required_type::<AttributeDescription>(0, "type")),
            1 => Some(Field::new_required_type::<Vec<SubstringFilterSubstringsElement>>(
                1,
                "substrings",
            )),
            _ => None,
        }
    }

    fn extension_index() -> Option<usize> {
        Some(2)
    }
}

impl AsnType for SubstringFilter {
    ghost meaning = { constructed_type (codes "SubstringFilter") ⟦<SubstringFilter as FieldTable>⟧.components };

    fn table() -> TypeTable {
        TypeTable::new(Tag::SEQUENCE, Identifier(Some("SubstringFilter")))
    }

    fn is_present(&self) -> bool {
        true
    }
}

impl ConstructedType for SubstringFilter {
    ghost agrees = { constructed_agrees };
}

/// A `SubstringFilter` can be inside other types.
pub fn substring_filter_is_well_tagged()
    ensures { IsWellTagged ⟦<SubstringFilter as AsnType>⟧.meaning }
{}

/// Equal values are written alike, and in each value the components of a SET have distinct tags. With `substring_filter_is_well_tagged`
/// it follows that the DER of a value is its only spelling (`well_tagged_types_have_one_spelling` of `asn1_der`).
pub fn substring_filter_has_one_spelling()
    ensures alike { AreWrittenAlike ⟦<SubstringFilter as AsnType>⟧.meaning
        ⟦<SubstringFilter as PartialEq>⟧.eq }
    ensures distinct { SetsAreDistinct ⟦<SubstringFilter as AsnType>⟧.meaning }
{
    substring_filter_substrings_element_has_one_spelling();
    equal_lists_are_written_alike::<SubstringFilterSubstringsElement>();
    sets_in_lists_are_distinct::<SubstringFilterSubstringsElement>();
}

impl Encode for SubstringFilter {
    fn encode_with_tag_and_constraints<E: Encoder>(
        &self,
        encoder: &mut E,
        tag: Tag,
        _constraints: &Constraints<'_>,
        name: Identifier,
    ) -> Result<(), EncodeError> {
        encoder.encode_sequence(tag, self, name)
    }
}

impl EncodeFields for SubstringFilter {
    fn encode_field<E: Encoder>(&self, index: usize, encoder: &mut E) -> Result<(), EncodeError> {
        match index {
            0 => self.type_.encode(encoder),
            1 => self.substrings.encode(encoder),
            _ => Ok(()),
        }
    }
}

impl Decode for SubstringFilter {
    fn decode_with_tag_and_constraints<D: Decoder>(
        decoder: &mut D,
        tag: Tag,
        constraints: &Constraints<'_>,
    ) -> Result<Self, DecodeError> {
        decode_sequence_naming_errors(decoder, tag, constraints)
    }
}
