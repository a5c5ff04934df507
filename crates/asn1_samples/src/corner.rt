//! `Corner ::= CHOICE { left BOOLEAN, right OCTET STRING }`
ghost use Rattle.std.specs.Prelude.{[], ◌∷◌, codes, refl};
ghost use Rattle.asn1_slots.specs.Cases.{choice_of_cases, variant};
ghost use Rattle.asn1_types.specs.Words.{untagged, inl, inr, choice_of, choice_agrees, IsWellTagged};
ghost use Rattle.asn1_samples.specs.declared.corner.Corner.TheVariants.{Left, Right};

use asn1_dec::{Decode, DecodeChoice, DecodeError, Decoder};
use asn1_enc::{Encode, EncodeChoice, EncodeError, Encoder};
use asn1_slots::{DecodeChoiceByIndex, Tagging, alternative, from_tag_by_index};
use asn1_types::{AsnType, Choice, ChoiceType, Constraints, Identifier, Tag, TagTree, TypeTable};
use asn1_values::OctetString;

/// A corner of a figure.
#[derive(PartialEq, Eq, Debug, Drop)]
pub enum Corner {
    /// `left BOOLEAN`
    Left(bool),
    /// `right OCTET STRING`
    Right(OctetString),
}

/// The trees of the alternatives.
pub(crate) const CORNER: &[TagTree<'static>] = &[
    TagTree::Leaf(Tag::BOOL),
    TagTree::Leaf(Tag::OCTET_STRING),
];

impl DecodeChoiceByIndex for Corner {
    ghost cases = { variant (codes "left") Left (untagged ⟦<bool as AsnType>⟧.meaning) ⟦<bool as PartialEq>⟧.eq ∷
        variant (codes "right") Right (untagged ⟦<OctetString as AsnType>⟧.meaning) ⟦<OctetString as PartialEq>⟧.eq ∷ [] };

    ghost case_of = { elim [ Left flag ↦ inl flag | Right octets ↦ inr (inl octets) ] };

    fn decode_alternative<D: Decoder>(index: usize, decoder: &mut D) -> Result<Self, DecodeError> {
        match index {
            0 => Ok(Corner::Left(alternative(decoder, Tagging::Untagged)?)),
            1 => Ok(Corner::Right(alternative(decoder, Tagging::Untagged)?)),
            _ => Err(DecodeError::NoValidChoice("Corner")),
        }
    }

    ghost made = { elim [ Left flag ↦ (refl, λ _. refl) | Right octets ↦ (refl, λ _. refl) ] };
}

impl Choice for Corner {
    ghost alternatives = { choice_of_cases ⟦<Corner as DecodeChoiceByIndex>⟧.cases };

    ghost pick = { ⟦<Corner as DecodeChoiceByIndex>⟧.case_of };

    fn variants() -> &'static [TagTree<'static>] {
        CORNER
    }

    fn extended_variants() -> Option<&'static [TagTree<'static>]> {
        None
    }

    fn identifiers() -> &'static [&'static str] {
        &["left", "right"]
    }
}

impl AsnType for Corner {
    ghost meaning = { choice_of (codes "Corner") ⟦<Corner as Choice>⟧.alternatives ⟦<Corner as Choice>⟧.pick };

    fn table() -> TypeTable {
        TypeTable::choice(Identifier(Some("Corner")), CORNER)
    }

    fn is_present(&self) -> bool {
        true
    }
}

impl ChoiceType for Corner {
    ghost agrees = { choice_agrees };
}

/// A `Corner` is well tagged: no tag is twice among its alternatives.
pub fn corner_is_well_tagged()
    ensures { IsWellTagged ⟦<Corner as AsnType>⟧.meaning }
{}

impl Encode for Corner {
    fn encode_with_tag_and_constraints<E: Encoder>(
        &self,
        encoder: &mut E,
        tag: Tag,
        constraints: &Constraints<'_>,
        name: Identifier,
    ) -> Result<(), EncodeError> {
        encoder.encode_choice_with_tag(tag, constraints, self, name)
    }
}

impl EncodeChoice for Corner {
    fn chosen_tag(&self) -> Tag {
        match self {
            Corner::Left(_) => Tag::BOOL,
            Corner::Right(_) => Tag::OCTET_STRING,
        }
    }

    fn encode_alternative<E: Encoder>(&self, encoder: &mut E) -> Result<(), EncodeError> {
        match self {
            Corner::Left(flag) => flag.encode(encoder),
            Corner::Right(octets) => octets.encode(encoder),
        }
    }
}

impl Decode for Corner {
    fn decode_with_tag_and_constraints<D: Decoder>(
        decoder: &mut D,
        tag: Tag,
        constraints: &Constraints<'_>,
    ) -> Result<Corner, DecodeError> {
        decoder.decode_choice_with_tag(tag, constraints)
    }
}

impl DecodeChoice for Corner {
    fn from_tag<D: Decoder>(decoder: &mut D, tag: Tag) -> Result<Corner, DecodeError> {
        from_tag_by_index(decoder, tag)
    }
}
