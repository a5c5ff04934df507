//! `Audience ::= CHOICE { everybody NULL, person UTF8String, ..., group UTF8String }`
ghost use Rattle.std.specs.Prelude.{[], codes, refl, ◌∷◌};
ghost use Rattle.asn1_schema.specs.Words.{IsWellTagged, choice_agrees, choice_of, context, extensible_choice_after, inl, inr, tagged, variant};
ghost use Rattle.greetings.specs.declared.audience.Audience.TheVariants.{Everybody, Person, Group};
ghost use Rattle.asn1_model.specs.DistinctSets.{SetsAreDistinct};
ghost use Rattle.asn1_model.specs.WrittenAlike.{AreWrittenAlike};

use asn1_schema::{
    AsnType, Choice, ChoiceType, Constraints, Decode, DecodeChoice, DecodeChoiceByIndex,
    DecodeError, Decoder, Encode, EncodeChoice, EncodeError, Encoder, Identifier, Tag, TagTree,
    Tagging, TypeTable, Utf8String, alternative, from_tag_by_index,
};
use asn1_tags::tag;

/// `Audience` of the module `Greetings`.
#[derive(PartialEq, Eq, Debug, Drop)]
pub enum Audience {
    /// `everybody NULL`
    Everybody(()),
    /// `person UTF8String`
    Person(Utf8String),
    /// `group UTF8String`
    Group(Utf8String),
}

/// The trees of the alternatives.
pub(crate) const AUDIENCE: &[TagTree<'static>] = &[
    TagTree::Leaf(tag!(context 0)),
    TagTree::Leaf(tag!(context 1)),
    TagTree::Leaf(tag!(context 2)),
];

impl DecodeChoiceByIndex for Audience {
    ghost cases = { variant (codes "everybody") Everybody (tagged (context 0) ⟦<() as AsnType>⟧.meaning) ⟦<() as PartialEq>⟧.eq ∷
        variant (codes "person") Person (tagged (context 1) ⟦<Utf8String as AsnType>⟧.meaning) ⟦<Utf8String as PartialEq>⟧.eq ∷
        variant (codes "group") Group (tagged (context 2) ⟦<Utf8String as AsnType>⟧.meaning) ⟦<Utf8String as PartialEq>⟧.eq ∷ [] };

    ghost case_of = { elim [ Everybody x ↦ inl x | Person x ↦ inr (inl x) | Group x ↦ inr (inr (inl x)) ] };

    fn decode_alternative<D: Decoder>(index: usize, decoder: &mut D) -> Result<Self, DecodeError> {
        match index {
            0 => Ok(Self::Everybody(alternative(decoder, Tagging::Tagged(tag!(context 0)))?)),
            1 => Ok(Self::Person(alternative(decoder, Tagging::Tagged(tag!(context 1)))?)),
            2 => Ok(Self::Group(alternative(decoder, Tagging::Tagged(tag!(context 2)))?)),
            _ => Err(DecodeError::NoValidChoice("Audience")),
        }
    }

    ghost made = { elim [ Everybody x ↦ (refl, λ _. refl) | Person x ↦ (refl, λ _. refl) | Group x ↦ (refl, λ _. refl) ] };
}

impl Choice for Audience {
    ghost alternatives = { extensible_choice_after 2 ⟦<Audience as DecodeChoiceByIndex>⟧.cases };

    ghost pick = { ⟦<Audience as DecodeChoiceByIndex>⟧.case_of };

    fn variants() -> &'static [TagTree<'static>] {
        &AUDIENCE[..2]
    }

    fn extended_variants() -> Option<&'static [TagTree<'static>]> {
        Some(&AUDIENCE[2..])
    }

    fn identifiers() -> &'static [&'static str] {
        &["everybody", "person", "group"]
    }
}

impl AsnType for Audience {
    ghost meaning = { choice_of (codes "Audience") ⟦<Audience as Choice>⟧.alternatives ⟦<Audience as Choice>⟧.pick };

    fn table() -> TypeTable {
        TypeTable::choice(Identifier(Some("Audience")), AUDIENCE)
    }

    fn is_present(&self) -> bool {
        true
    }
}

impl ChoiceType for Audience {
    ghost agrees = { choice_agrees };
}

/// An `Audience` can be inside other types.
pub fn audience_is_well_tagged()
    ensures { IsWellTagged ⟦<Audience as AsnType>⟧.meaning }
{}

/// Equal values are written alike, and in each value the components of a SET have distinct tags. With `audience_is_well_tagged`
/// it follows that the DER of a value is its only spelling (`well_tagged_types_have_one_spelling` of `asn1_der`).
pub fn audience_has_one_spelling()
    ensures alike { AreWrittenAlike ⟦<Audience as AsnType>⟧.meaning
        ⟦<Audience as PartialEq>⟧.eq }
    ensures distinct { SetsAreDistinct ⟦<Audience as AsnType>⟧.meaning }
{}

impl Encode for Audience {
    fn encode_with_tag_and_constraints<E: Encoder>(
        &self,
        encoder: &mut E,
        tag: Tag,
        constraints: &Constraints<'_>,
        name: Identifier,
    ) -> Result<(), EncodeError> {
        encoder.encode_choice_with_tag(tag, constraints, self, name)
    }
}

impl EncodeChoice for Audience {
    fn chosen_tag(&self) -> Tag {
        match self {
            Self::Everybody(_) => tag!(context 0),
            Self::Person(_) => tag!(context 1),
            Self::Group(_) => tag!(context 2),
        }
    }

    fn encode_alternative<E: Encoder>(&self, encoder: &mut E) -> Result<(), EncodeError> {
        match self {
            Self::Everybody(value) => value.encode_with_tag(encoder, tag!(context 0)),
            Self::Person(value) => value.encode_with_tag(encoder, tag!(context 1)),
            Self::Group(value) => value.encode_with_tag(encoder, tag!(context 2)),
        }
    }
}

impl Decode for Audience {
    fn decode_with_tag_and_constraints<D: Decoder>(
        decoder: &mut D,
        tag: Tag,
        constraints: &Constraints<'_>,
    ) -> Result<Self, DecodeError> {
        decoder.decode_choice_with_tag(tag, constraints)
    }
}

impl DecodeChoice for Audience {
    fn from_tag<D: Decoder>(decoder: &mut D, tag: Tag) -> Result<Self, DecodeError> {
        from_tag_by_index(decoder, tag)
    }
}
