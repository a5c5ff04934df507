//! The type of `substrings` in `SubstringFilter`.
//!
//! ```text
//! substrings SEQUENCE (SIZE (1..MAX)) OF substring CHOICE {
//!     initial [0] AssertionValue,
//!     any [1] AssertionValue,
//!     final [2] AssertionValue
//! }
//! ```
ghost use Rattle.std.specs.Prelude.{[], codes, refl, ◌∷◌};
ghost use Rattle.asn1_schema.specs.Words.{IsWellTagged, choice_agrees, choice_of, context, extensible_choice_after, inl, inr, tagged, variant};
ghost use Rattle.asn1_ldap.specs.declared.substring_filter_substrings_element.SubstringFilterSubstringsElement.TheVariants.{Initial, Any, Final};
ghost use Rattle.asn1_model.specs.DistinctSets.{SetsAreDistinct};
ghost use Rattle.asn1_model.specs.WrittenAlike.{AreWrittenAlike};

use crate::aliases::AssertionValue;
use asn1_schema::{
    AsnType, Choice, ChoiceType, Constraints, Decode, DecodeChoice, DecodeChoiceByIndex,
    DecodeError, Decoder, Encode, EncodeChoice, EncodeError, Encoder, Identifier, Tag, TagTree,
    Tagging, TypeTable, alternative, from_tag_by_index,
};
use asn1_tags::tag;

/// The type of `substrings` in `SubstringFilter`.
#[derive(PartialEq, Eq, Debug, Drop)]
pub enum SubstringFilterSubstringsElement {
    /// `initial [0] AssertionValue`
    Initial(AssertionValue),
    /// `any [1] AssertionValue`
    Any(AssertionValue),
    /// `final [2] AssertionValue`
    Final(AssertionValue),
}

/// The trees of the alternatives.
pub(crate) const SUBSTRING_FILTER_SUBSTRINGS_ELEMENT: &[TagTree<'static>] = &[
    TagTree::Leaf(tag!(context 0)),
    TagTree::Leaf(tag!(context 1)),
    TagTree::Leaf(tag!(context 2)),
];

impl DecodeChoiceByIndex for SubstringFilterSubstringsElement {
    ghost cases = { variant (codes "initial") Initial (tagged (context 0) ⟦<AssertionValue as AsnType>⟧.meaning) ⟦<AssertionValue as PartialEq>⟧.eq ∷
        variant (codes "any") Any (tagged (context 1) ⟦<AssertionValue as AsnType>⟧.meaning) ⟦<AssertionValue as PartialEq>⟧.eq ∷
        variant (codes "final") Final (tagged (context 2) ⟦<AssertionValue as AsnType>⟧.meaning) ⟦<AssertionValue as PartialEq>⟧.eq ∷ [] };

    ghost case_of = { elim [ Initial x ↦ inl x | Any x ↦ inr (inl x) | Final x ↦ inr (inr (inl x)) ] };

    fn decode_alternative<D: Decoder>(index: usize, decoder: &mut D) -> Result<Self, DecodeError> {
        match index {
            0 => Ok(Self::Initial(alternative(decoder, Tagging::Tagged(tag!(context 0)))?)),
            1 => Ok(Self::Any(alternative(decoder, Tagging::Tagged(tag!(context 1)))?)),
            2 => Ok(Self::Final(alternative(decoder, Tagging::Tagged(tag!(context 2)))?)),
            _ => Err(DecodeError::NoValidChoice("substrings")),
        }
    }

    ghost made = { elim [ Initial x ↦ (refl, λ _. refl) | Any x ↦ (refl, λ _. refl) | Final x ↦ (refl, λ _. refl) ] };
}

impl Choice for SubstringFilterSubstringsElement {
    ghost alternatives = { extensible_choice_after 3 ⟦<SubstringFilterSubstringsElement as DecodeChoiceByIndex>⟧.cases };

    ghost pick = { ⟦<SubstringFilterSubstringsElement as DecodeChoiceByIndex>⟧.case_of };

    fn variants() -> &'static [TagTree<'static>] {
        &SUBSTRING_FILTER_SUBSTRINGS_ELEMENT[..3]
    }

    fn extended_variants() -> Option<&'static [TagTree<'static>]> {
        Some(&SUBSTRING_FILTER_SUBSTRINGS_ELEMENT[3..])
    }

    fn identifiers() -> &'static [&'static str] {
        &["initial", "any", "final"]
    }
}

impl AsnType for SubstringFilterSubstringsElement {
    ghost meaning = { choice_of (codes "substrings") ⟦<SubstringFilterSubstringsElement as Choice>⟧.alternatives ⟦<SubstringFilterSubstringsElement as Choice>⟧.pick };

    fn table() -> TypeTable {
        TypeTable::choice(
            Identifier(Some("substrings")),
            SUBSTRING_FILTER_SUBSTRINGS_ELEMENT,
        )
    }

    fn is_present(&self) -> bool {
        true
    }
}

impl ChoiceType for SubstringFilterSubstringsElement {
    ghost agrees = { choice_agrees };
}

/// A `SubstringFilterSubstringsElement` can be inside other types.
pub fn substring_filter_substrings_element_is_well_tagged()
    ensures { IsWellTagged ⟦<SubstringFilterSubstringsElement as AsnType>⟧.meaning }
{}

/// Equal values are written alike, and in each value the components of a SET have distinct tags. With `substring_filter_substrings_element_is_well_tagged`
/// it follows that the DER of a value is its only spelling (`well_tagged_types_have_one_spelling` of `asn1_der`).
pub fn substring_filter_substrings_element_has_one_spelling()
    ensures alike { AreWrittenAlike ⟦<SubstringFilterSubstringsElement as AsnType>⟧.meaning
        ⟦<SubstringFilterSubstringsElement as PartialEq>⟧.eq }
    ensures distinct { SetsAreDistinct ⟦<SubstringFilterSubstringsElement as AsnType>⟧.meaning }
{}

impl Encode for SubstringFilterSubstringsElement {
    fn encode_with_tag_and_constraints<E: Encoder>(
        &self,
        encoder: &mut E,
        tag: Tag,
        constraints: &Constraints<'_>,
        name: Identifier,
    ) -> Result<(), EncodeError> {
        encoder.encode_choice_with_tag(tag, constraints, self, name)
    }
}

impl EncodeChoice for SubstringFilterSubstringsElement {
    fn chosen_tag(&self) -> Tag {
        match self {
            Self::Initial(_) => tag!(context 0),
            Self::Any(_) => tag!(context 1),
            Self::Final(_) => tag!(context 2),
        }
    }

    fn encode_alternative<E: Encoder>(&self, encoder: &mut E) -> Result<(), EncodeError> {
        match self {
            Self::Initial(value) => value.encode_with_tag(encoder, tag!(context 0)),
            Self::Any(value) => value.encode_with_tag(encoder, tag!(context 1)),
            Self::Final(value) => value.encode_with_tag(encoder, tag!(context 2)),
        }
    }
}

impl Decode for SubstringFilterSubstringsElement {
    fn decode_with_tag_and_constraints<D: Decoder>(
        decoder: &mut D,
        tag: Tag,
        constraints: &Constraints<'_>,
    ) -> Result<Self, DecodeError> {
        decoder.decode_choice_with_tag(tag, constraints)
    }
}

impl DecodeChoice for SubstringFilterSubstringsElement {
    fn from_tag<D: Decoder>(decoder: &mut D, tag: Tag) -> Result<Self, DecodeError> {
        from_tag_by_index(decoder, tag)
    }
}
