//! `Destination ::= CHOICE { address UTF8String (SIZE (1..80)), code [0] NumericString (SIZE (5)) }`
ghost use Rattle.std.specs.Prelude.{[], ◌∷◌, ℕ, Bool, List, codes, refl};
ghost use Rattle.asn1_schema.specs.Words.{IsWellTagged, choice_agrees, choice_of, choice_of_cases, context, inl, inr, tagged, untagged, variant};
ghost use Rattle.shipments.specs.declared.destination.Destination.TheVariants.{Address, Code};

use asn1_limits::{Sizes, Within};
use asn1_schema::{
    AsnType, Choice, ChoiceType, Constraints, Decode, DecodeChoice, DecodeChoiceByIndex,
    DecodeError, Decoder, Encode, EncodeChoice, EncodeError, Encoder, Identifier, NumericString,
    Tag, TagTree, Tagging, TypeTable, Utf8String, alternative, from_tag_by_index,
};
use asn1_tags::tag;

/// `Destination` of the module `Shipments`.
#[derive(PartialEq, Eq, Debug, Drop)]
pub enum Destination {
    /// `address UTF8String (SIZE (1..80))`
    Address(Within<Utf8String, Sizes<1, 80>>),
    /// `code [0] NumericString (SIZE (5))`
    Code(Within<NumericString, Sizes<5, 5>>),
}

/// The trees of the alternatives.
pub(crate) const DESTINATION: &[TagTree<'static>] = &[
    TagTree::Leaf(Tag::UTF8_STRING),
    TagTree::Leaf(tag!(context 0)),
];

impl DecodeChoiceByIndex for Destination {
    ghost cases = { variant (codes "address") Address (untagged ⟦<Within<Utf8String, Sizes<1, 80>> as AsnType>⟧.meaning) ⟦<Within<Utf8String, Sizes<1, 80>> as PartialEq>⟧.eq ∷
        variant (codes "code") Code (tagged (context 0) ⟦<Within<NumericString, Sizes<5, 5>> as AsnType>⟧.meaning) ⟦<Within<NumericString, Sizes<5, 5>> as PartialEq>⟧.eq ∷ [] };

    ghost case_of = { elim [ Address x ↦ inl x | Code x ↦ inr (inl x) ] };

    fn decode_alternative<D: Decoder>(index: usize, decoder: &mut D) -> Result<Self, DecodeError> {
        match index {
            0 => Ok(Self::Address(alternative(decoder, Tagging::Untagged)?)),
            1 => Ok(Self::Code(alternative(decoder, Tagging::Tagged(tag!(context 0)))?)),
            _ => Err(DecodeError::NoValidChoice("Destination")),
        }
    }

    ghost made = { elim [ Address x ↦ (refl, λ _. refl) | Code x ↦ (refl, λ _. refl) ] };
}

impl Choice for Destination {
    ghost alternatives = { choice_of_cases ⟦<Destination as DecodeChoiceByIndex>⟧.cases };

    ghost pick = { ⟦<Destination as DecodeChoiceByIndex>⟧.case_of };

    fn variants() -> &'static [TagTree<'static>] {
        DESTINATION
    }

    fn extended_variants() -> Option<&'static [TagTree<'static>]> {
        None
    }

    fn identifiers() -> &'static [&'static str] {
        &["address", "code"]
    }
}

impl AsnType for Destination {
    ghost meaning = { choice_of (codes "Destination") ⟦<Destination as Choice>⟧.alternatives ⟦<Destination as Choice>⟧.pick };

    fn table() -> TypeTable {
        TypeTable::choice(Identifier(Some("Destination")), DESTINATION)
    }

    fn is_present(&self) -> bool {
        true
    }
}

impl ChoiceType for Destination {
    ghost agrees = { choice_agrees };
}

/// A `Destination` can be inside other types.
pub fn destination_is_well_tagged()
    ensures { IsWellTagged ⟦<Destination as AsnType>⟧.meaning }
{}

/// Each `Destination` is valid.
pub fn destination_is_valid(destination: &Destination)
    ensures { (accepts : List ℕ → Bool) →
        ⟦<Destination as AsnType>⟧.meaning.IsValid accepts destination.now }
{}

impl Encode for Destination {
    fn encode_with_tag_and_constraints<E: Encoder>(
        &self,
        encoder: &mut E,
        tag: Tag,
        constraints: &Constraints<'_>,
        name: Identifier,
    ) -> Result<(), EncodeError> {
        encoder.encode_choice_with_tag(tag, constraints, self, name)
    }
}

impl EncodeChoice for Destination {
    fn chosen_tag(&self) -> Tag {
        match self {
            Self::Address(_) => Tag::UTF8_STRING,
            Self::Code(_) => tag!(context 0),
        }
    }

    fn encode_alternative<E: Encoder>(&self, encoder: &mut E) -> Result<(), EncodeError> {
        match self {
            Self::Address(value) => value.encode(encoder),
            Self::Code(value) => value.encode_with_tag(encoder, tag!(context 0)),
        }
    }
}

impl Decode for Destination {
    fn decode_with_tag_and_constraints<D: Decoder>(
        decoder: &mut D,
        tag: Tag,
        constraints: &Constraints<'_>,
    ) -> Result<Self, DecodeError> {
        decoder.decode_choice_with_tag(tag, constraints)
    }
}

impl DecodeChoice for Destination {
    fn from_tag<D: Decoder>(decoder: &mut D, tag: Tag) -> Result<Self, DecodeError> {
        from_tag_by_index(decoder, tag)
    }
}
