//! `Time ::= CHOICE { utcTime UTCTime, generalTime GeneralizedTime }`
ghost use Rattle.std.specs.Prelude.{[], codes, refl, ◌∷◌};
ghost use Rattle.asn1_schema.specs.Words.{IsWellTagged, choice_agrees, choice_of, choice_of_cases, inl, inr, untagged, variant};
ghost use Rattle.asn1_x509.specs.declared.time.Time.TheVariants.{UtcTime, GeneralTime};
ghost use Rattle.asn1_model.specs.DistinctSets.{SetsAreDistinct};
ghost use Rattle.asn1_model.specs.WrittenAlike.{AreWrittenAlike};

use asn1_schema::{
    AsnType, Choice, ChoiceType, Constraints, Decode, DecodeChoice, DecodeChoiceByIndex,
    DecodeError, Decoder, Encode, EncodeChoice, EncodeError, Encoder, GeneralizedTime, Identifier,
    Tag, TagTree, Tagging, TypeTable, UtcTime, alternative, from_tag_by_index,
};

/// `Time` of the module `PKIX1Explicit88`.
#[derive(PartialEq, Eq, Debug, Drop)]
pub enum Time {
    /// `utcTime UTCTime`
    UtcTime(UtcTime),
    /// `generalTime GeneralizedTime`
    GeneralTime(GeneralizedTime),
}

/// The trees of the alternatives.
pub(crate) const TIME: &[TagTree<'static>] = &[
    TagTree::Leaf(Tag::UTC_TIME),
    TagTree::Leaf(Tag::GENERALIZED_TIME),
];

impl DecodeChoiceByIndex for Time {
    ghost cases = { variant (codes "utcTime") UtcTime (untagged ⟦<UtcTime as AsnType>⟧.meaning) ⟦<UtcTime as PartialEq>⟧.eq ∷
        variant (codes "generalTime") GeneralTime (untagged ⟦<GeneralizedTime as AsnType>⟧.meaning) ⟦<GeneralizedTime as PartialEq>⟧.eq ∷ [] };

    ghost case_of = { elim [ UtcTime x ↦ inl x | GeneralTime x ↦ inr (inl x) ] };

    fn decode_alternative<D: Decoder>(index: usize, decoder: &mut D) -> Result<Self, DecodeError> {
        match index {
            0 => Ok(Self::UtcTime(alternative(decoder, Tagging::Untagged)?)),
            1 => Ok(Self::GeneralTime(alternative(decoder, Tagging::Untagged)?)),
            _ => Err(DecodeError::NoValidChoice("Time")),
        }
    }

    ghost made = { elim [ UtcTime x ↦ (refl, λ _. refl) | GeneralTime x ↦ (refl, λ _. refl) ] };
}

impl Choice for Time {
    ghost alternatives = { choice_of_cases ⟦<Time as DecodeChoiceByIndex>⟧.cases };

    ghost pick = { ⟦<Time as DecodeChoiceByIndex>⟧.case_of };

    fn variants() -> &'static [TagTree<'static>] {
        TIME
    }

    fn extended_variants() -> Option<&'static [TagTree<'static>]> {
        None
    }

    fn identifiers() -> &'static [&'static str] {
        &["utcTime", "generalTime"]
    }
}

impl AsnType for Time {
    ghost meaning = { choice_of (codes "Time") ⟦<Time as Choice>⟧.alternatives ⟦<Time as Choice>⟧.pick };

    fn table() -> TypeTable {
        TypeTable::choice(Identifier(Some("Time")), TIME)
    }

    fn is_present(&self) -> bool {
        true
    }
}

impl ChoiceType for Time {
    ghost agrees = { choice_agrees };
}

/// A `Time` can be inside other types.
pub fn time_is_well_tagged()
    ensures { IsWellTagged ⟦<Time as AsnType>⟧.meaning }
{}

/// Equal values are written alike, and in each value the components of a SET have distinct tags. With `time_is_well_tagged`
/// it follows that the DER of a value is its only spelling (`well_tagged_types_have_one_spelling` of `asn1_der`).
pub fn time_has_one_spelling()
    ensures alike { AreWrittenAlike ⟦<Time as AsnType>⟧.meaning
        ⟦<Time as PartialEq>⟧.eq }
    ensures distinct { SetsAreDistinct ⟦<Time as AsnType>⟧.meaning }
{}

impl Encode for Time {
    fn encode_with_tag_and_constraints<E: Encoder>(
        &self,
        encoder: &mut E,
        tag: Tag,
        constraints: &Constraints<'_>,
        name: Identifier,
    ) -> Result<(), EncodeError> {
        encoder.encode_choice_with_tag(tag, constraints, self, name)
    }
}

impl EncodeChoice for Time {
    fn chosen_tag(&self) -> Tag {
        match self {
            Self::UtcTime(_) => Tag::UTC_TIME,
            Self::GeneralTime(_) => Tag::GENERALIZED_TIME,
        }
    }

    fn encode_alternative<E: Encoder>(&self, encoder: &mut E) -> Result<(), EncodeError> {
        match self {
            Self::UtcTime(value) => value.encode(encoder),
            Self::GeneralTime(value) => value.encode(encoder),
        }
    }
}

impl Decode for Time {
    fn decode_with_tag_and_constraints<D: Decoder>(
        decoder: &mut D,
        tag: Tag,
        constraints: &Constraints<'_>,
    ) -> Result<Self, DecodeError> {
        decoder.decode_choice_with_tag(tag, constraints)
    }
}

impl DecodeChoice for Time {
    fn from_tag<D: Decoder>(decoder: &mut D, tag: Tag) -> Result<Self, DecodeError> {
        from_tag_by_index(decoder, tag)
    }
}
