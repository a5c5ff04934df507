//! `Filter` of the module `Lightweight-Directory-Access-Protocol-V3`.
//!
//! ```text
//! Filter ::= CHOICE {
//!     and [0] SET (SIZE (1..MAX)) OF filter Filter,
//!     or [1] SET (SIZE (1..MAX)) OF filter Filter,
//!     not [2] Filter,
//!     equalityMatch [3] AttributeValueAssertion,
//!     substrings [4] SubstringFilter,
//!     greaterOrEqual [5] AttributeValueAssertion,
//!     lessOrEqual [6] AttributeValueAssertion,
//!     present [7] AttributeDescription,
//!     approxMatch [8] AttributeValueAssertion,
//!     extensibleMatch [9] MatchingRuleAssertion,
//!     ...
//! }
//! ```
ghost use Rattle.std.specs.Prelude.{[], codes, refl, ◌∷◌};
ghost use Rattle.asn1_schema.specs.Words.{choice_agrees, context, explicitly_tagged, its_cases, tagged, variant};
ghost use Rattle.asn1_ldap.specs.declared.filter_of.FilterOf.TheVariants.{And, Or, Not, EqualityMatch, Substrings, GreaterOrEqual, LessOrEqual, Present, ApproxMatch, ExtensibleMatch};
ghost use Rattle.asn1_ldap.specs.FilterLists.{filter_of_alternatives, filter_of_meaning, filter_of_pick};

use crate::aliases::AttributeDescription;
use crate::attribute_value_assertion::AttributeValueAssertion;
use crate::matching_rule_assertion::MatchingRuleAssertion;
use crate::substring_filter::SubstringFilter;
use asn1_circles::{DecodeChoiceWith, Itself, ReadError, SetOfEach, alternative_with};
use asn1_schema::{
    AsnType, Choice, ChoiceType, Constraints, DecodeError, Decoder, Encode, EncodeChoice,
    EncodeError, Encoder, HoldsItself, Identifier, SetOf, Tag, TagTree, Tagging, TypeTable,
    alternative,
};
use asn1_tags::tag;

/// `Filter` of the module `Lightweight-Directory-Access-Protocol-V3`.
#[derive(PartialEq, Eq, Debug, Drop)]
pub enum FilterOf<T> {
    /// `and [0] SET (SIZE (1..MAX)) OF filter Filter`
    And(SetOf<T>),
    /// `or [1] SET (SIZE (1..MAX)) OF filter Filter`
    Or(SetOf<T>),
    /// `not [2] Filter`
    Not(T),
    /// `equalityMatch [3] AttributeValueAssertion`
    EqualityMatch(AttributeValueAssertion),
    /// `substrings [4] SubstringFilter`
    Substrings(SubstringFilter),
    /// `greaterOrEqual [5] AttributeValueAssertion`
    GreaterOrEqual(AttributeValueAssertion),
    /// `lessOrEqual [6] AttributeValueAssertion`
    LessOrEqual(AttributeValueAssertion),
    /// `present [7] AttributeDescription`
    Present(AttributeDescription),
    /// `approxMatch [8] AttributeValueAssertion`
    ApproxMatch(AttributeValueAssertion),
    /// `extensibleMatch [9] MatchingRuleAssertion`
    ExtensibleMatch(MatchingRuleAssertion),
}

/// The trees of the alternatives.
pub(crate) const FILTER_OF: &[TagTree<'static>] = &[
    TagTree::Leaf(tag!(context 0)),
    TagTree::Leaf(tag!(context 1)),
    TagTree::Leaf(tag!(context 2)),
    TagTree::Leaf(tag!(context 3)),
    TagTree::Leaf(tag!(context 4)),
    TagTree::Leaf(tag!(context 5)),
    TagTree::Leaf(tag!(context 6)),
    TagTree::Leaf(tag!(context 7)),
    TagTree::Leaf(tag!(context 8)),
    TagTree::Leaf(tag!(context 9)),
];

impl<T: AsnType> Choice for FilterOf<T> {
    ghost alternatives = { filter_of_alternatives T.meaning };

    ghost pick = { filter_of_pick T.meaning };

    fn variants() -> &'static [TagTree<'static>] {
        &FILTER_OF[..10]
    }

    fn extended_variants() -> Option<&'static [TagTree<'static>]> {
        Some(&FILTER_OF[10..])
    }

    fn identifiers() -> &'static [&'static str] {
        &[
            "and",
            "or",
            "not",
            "equalityMatch",
            "substrings",
            "greaterOrEqual",
            "lessOrEqual",
            "present",
            "approxMatch",
            "extensibleMatch",
        ]
    }
}

impl<T: AsnType> AsnType for FilterOf<T> {
    ghost meaning = { filter_of_meaning T.meaning };

    fn table() -> TypeTable {
        TypeTable::choice(Identifier(Some("Filter")), FILTER_OF)
    }

    fn is_present(&self) -> bool {
        true
    }
}

impl<T: AsnType> ChoiceType for FilterOf<T> {
    ghost agrees = { choice_agrees };
}

impl<T: Encode> Encode for FilterOf<T> {
    fn encode_with_tag_and_constraints<E: Encoder>(
        &self,
        encoder: &mut E,
        tag: Tag,
        constraints: &Constraints<'_>,
        name: Identifier,
    ) -> Result<(), EncodeError> {
        encoder.encode_choice_with_tag(tag, constraints, self, name)
    }
}

impl<T: Encode> EncodeChoice for FilterOf<T> {
    fn chosen_tag(&self) -> Tag {
        match self {
            Self::And(_) => tag!(context 0),
            Self::Or(_) => tag!(context 1),
            Self::Not(_) => tag!(context 2),
            Self::EqualityMatch(_) => tag!(context 3),
            Self::Substrings(_) => tag!(context 4),
            Self::GreaterOrEqual(_) => tag!(context 5),
            Self::LessOrEqual(_) => tag!(context 6),
            Self::Present(_) => tag!(context 7),
            Self::ApproxMatch(_) => tag!(context 8),
            Self::ExtensibleMatch(_) => tag!(context 9),
        }
    }

    fn encode_alternative<E: Encoder>(&self, encoder: &mut E) -> Result<(), EncodeError> {
        match self {
            Self::And(value) => value.encode_with_tag(encoder, tag!(context 0)),
            Self::Or(value) => value.encode_with_tag(encoder, tag!(context 1)),
            Self::Not(value) => encoder.encode_explicit_prefix(
                tag!(context 2),
                value,
                T::identifier(),
            ),
            Self::EqualityMatch(value) => value.encode_with_tag(encoder, tag!(context 3)),
            Self::Substrings(value) => value.encode_with_tag(encoder, tag!(context 4)),
            Self::GreaterOrEqual(value) => value.encode_with_tag(encoder, tag!(context 5)),
            Self::LessOrEqual(value) => value.encode_with_tag(encoder, tag!(context 6)),
            Self::Present(value) => value.encode_with_tag(encoder, tag!(context 7)),
            Self::ApproxMatch(value) => value.encode_with_tag(encoder, tag!(context 8)),
            Self::ExtensibleMatch(value) => value.encode_with_tag(encoder, tag!(context 9)),
        }
    }
}

impl<T: AsnType + Eq + Drop> HoldsItself for FilterOf<T> {
    ghost inside = { filter_of_meaning T.meaning };

    ghost cases = { variant (codes "and") And (tagged (context 0) ⟦<SetOf<T> as AsnType>⟧.meaning) ⟦<SetOf<T> as PartialEq>⟧.eq ∷
        variant (codes "or") Or (tagged (context 1) ⟦<SetOf<T> as AsnType>⟧.meaning) ⟦<SetOf<T> as PartialEq>⟧.eq ∷
        variant (codes "not") Not (explicitly_tagged (context 2) ⟦<T as AsnType>⟧.meaning) ⟦<T as PartialEq>⟧.eq ∷
        variant (codes "equalityMatch") EqualityMatch (tagged (context 3) ⟦<AttributeValueAssertion as AsnType>⟧.meaning) ⟦<AttributeValueAssertion as PartialEq>⟧.eq ∷
        variant (codes "substrings") Substrings (tagged (context 4) ⟦<SubstringFilter as AsnType>⟧.meaning) ⟦<SubstringFilter as PartialEq>⟧.eq ∷
        variant (codes "greaterOrEqual") GreaterOrEqual (tagged (context 5) ⟦<AttributeValueAssertion as AsnType>⟧.meaning) ⟦<AttributeValueAssertion as PartialEq>⟧.eq ∷
        variant (codes "lessOrEqual") LessOrEqual (tagged (context 6) ⟦<AttributeValueAssertion as AsnType>⟧.meaning) ⟦<AttributeValueAssertion as PartialEq>⟧.eq ∷
        variant (codes "present") Present (tagged (context 7) ⟦<AttributeDescription as AsnType>⟧.meaning) ⟦<AttributeDescription as PartialEq>⟧.eq ∷
        variant (codes "approxMatch") ApproxMatch (tagged (context 8) ⟦<AttributeValueAssertion as AsnType>⟧.meaning) ⟦<AttributeValueAssertion as PartialEq>⟧.eq ∷
        variant (codes "extensibleMatch") ExtensibleMatch (tagged (context 9) ⟦<MatchingRuleAssertion as AsnType>⟧.meaning) ⟦<MatchingRuleAssertion as PartialEq>⟧.eq ∷ [] };

    ghost case_of = { filter_of_pick T.meaning };

    ghost made = { elim [ And x ↦ (refl, λ _. refl) | Or x ↦ (refl, λ _. refl) | Not x ↦ (refl, λ _. refl) | EqualityMatch x ↦ (refl, λ _. refl) | Substrings x ↦ (refl, λ _. refl) | GreaterOrEqual x ↦ (refl, λ _. refl) | LessOrEqual x ↦ (refl, λ _. refl) | Present x ↦ (refl, λ _. refl) | ApproxMatch x ↦ (refl, λ _. refl) | ExtensibleMatch x ↦ (refl, λ _. refl) ] };

    ghost are_cases = { its_cases };

    ghost is_inside = { record { single = tt; records = λ _ _ _ _. refl; read = λ _ _ _ _ h. h; of_type = λ _ h. h; valid = λ _ _ h. h; constraints = refl } };
}

impl<T: AsnType + Eq + Drop> DecodeChoiceWith<T> for FilterOf<T> {
    fn decode_alternative_with<E: ReadError, D: Decoder, F: Fn(&mut D, Tag) -> Result<T, E>>(
        index: usize,
        decoder: &mut D,
        read: &F,
    ) -> Result<Self, DecodeError> {
        match index {
            0 => match alternative_with::<T, SetOf<T>, SetOfEach<Itself>, E, D, F>(
                decoder,
                Tagging::Tagged(tag!(context 0)),
                read,
            ) {
                Ok(value) => Ok(Self::And(value)),
                Err(error) => Err(error),
            },
            1 => match alternative_with::<T, SetOf<T>, SetOfEach<Itself>, E, D, F>(
                decoder,
                Tagging::Tagged(tag!(context 1)),
                read,
            ) {
                Ok(value) => Ok(Self::Or(value)),
                Err(error) => Err(error),
            },
            2 => match alternative_with::<T, T, Itself, E, D, F>(
                decoder,
                Tagging::Explicit(tag!(context 2)),
                read,
            ) {
                Ok(value) => Ok(Self::Not(value)),
                Err(error) => Err(error),
            },
            3 => match alternative(decoder, Tagging::Tagged(tag!(context 3))) {
                Ok(value) => Ok(Self::EqualityMatch(value)),
                Err(error) => Err(error),
            },
            4 => match alternative(decoder, Tagging::Tagged(tag!(context 4))) {
                Ok(value) => Ok(Self::Substrings(value)),
                Err(error) => Err(error),
            },
            5 => match alternative(decoder, Tagging::Tagged(tag!(context 5))) {
                Ok(value) => Ok(Self::GreaterOrEqual(value)),
                Err(error) => Err(error),
            },
            6 => match alternative(decoder, Tagging::Tagged(tag!(context 6))) {
                Ok(value) => Ok(Self::LessOrEqual(value)),
                Err(error) => Err(error),
            },
            7 => match alternative(decoder, Tagging::Tagged(tag!(context 7))) {
                Ok(value) => Ok(Self::Present(value)),
                Err(error) => Err(error),
            },
            8 => match alternative(decoder, Tagging::Tagged(tag!(context 8))) {
                Ok(value) => Ok(Self::ApproxMatch(value)),
                Err(error) => Err(error),
            },
            9 => match alternative(decoder, Tagging::Tagged(tag!(context 9))) {
                Ok(value) => Ok(Self::ExtensibleMatch(value)),
                Err(error) => Err(error),
            },
            _ => Err(DecodeError::NoValidChoice("Filter")),
        }
    }
}
