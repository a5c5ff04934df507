//! `Shape ::= CHOICE { dot NULL, ring [0] INTEGER (0..65535), inner Corner }`
ghost use Rattle.std.specs.Prelude.{[], ◌∷◌, codes, refl};
ghost use Rattle.asn1_slots.specs.Cases.{choice_of_cases, variant};
ghost use Rattle.asn1_types.specs.Words.{context, untagged, tagged, inl, inr, choice_of, choice_agrees, IsWellTagged};
ghost use Rattle.asn1_samples.specs.declared.corner.Corner.TheVariants as corner;
ghost use Rattle.asn1_samples.specs.declared.shape.Shape.TheVariants.{Dot, Ring, Inner};

use crate::corner::{CORNER, Corner};
use asn1_dec::{Decode, DecodeChoice, DecodeError, Decoder};
use asn1_enc::{Encode, EncodeChoice, EncodeError, Encoder};
use asn1_slots::{DecodeChoiceByIndex, Tagging, alternative, from_tag_by_table};
use asn1_tags::tag;
use asn1_types::{AsnType, Choice, ChoiceType, Constraints, Identifier, Tag, TagTree, TypeTable};

/// A figure: a CHOICE with an untagged CHOICE among its alternatives.
#[derive(PartialEq, Eq, Debug, Drop)]
pub enum Shape {
    /// `dot NULL`
    Dot(()),
    /// `ring [0] INTEGER (0..65535)`
    Ring(u16),
    /// `inner Corner`
    Inner(Corner),
}

const RING: Tag = tag!(context 0);

const SHAPE: &[TagTree<'static>] = &[
    TagTree::Leaf(Tag::NULL),
    TagTree::Leaf(RING),
    TagTree::Choice(CORNER),
];

impl DecodeChoiceByIndex for Shape {
    ghost cases = { variant (codes "dot") Dot (untagged ⟦<() as AsnType>⟧.meaning) ⟦<() as PartialEq>⟧.eq ∷
        variant (codes "ring") Ring (tagged (context 0) ⟦<u16 as AsnType>⟧.meaning) ⟦<u16 as PartialEq>⟧.eq ∷
        variant (codes "inner") Inner (untagged ⟦<Corner as AsnType>⟧.meaning) ⟦<Corner as PartialEq>⟧.eq ∷ [] };

    ghost case_of = { elim [ Dot u ↦ inl u | Ring n ↦ inr (inl n) | Inner c ↦ inr (inr (inl c)) ] };

    fn decode_alternative<D: Decoder>(index: usize, decoder: &mut D) -> Result<Shape, DecodeError> {
        match index {
            0 => Ok(Shape::Dot(alternative(decoder, Tagging::Untagged)?)),
            1 => Ok(Shape::Ring(alternative(decoder, Tagging::Tagged(RING))?)),
            2 => Ok(Shape::Inner(alternative(decoder, Tagging::Untagged)?)),
            _ => Err(DecodeError::NoValidChoice("Shape")),
        }
    }

    ghost made = { elim [ Dot u ↦ (refl, λ _. refl) | Ring n ↦ (refl, λ _. refl) | Inner c ↦ (refl, λ _. refl) ] };
}

impl Choice for Shape {
    ghost alternatives = { choice_of_cases ⟦<Shape as DecodeChoiceByIndex>⟧.cases };

    ghost pick = { ⟦<Shape as DecodeChoiceByIndex>⟧.case_of };

    fn variants() -> &'static [TagTree<'static>] {
        SHAPE
    }

    fn extended_variants() -> Option<&'static [TagTree<'static>]> {
        None
    }

    fn identifiers() -> &'static [&'static str] {
        &["dot", "ring", "inner"]
    }
}

impl AsnType for Shape {
    ghost meaning = { choice_of (codes "Shape") ⟦<Shape as Choice>⟧.alternatives ⟦<Shape as Choice>⟧.pick };

    fn table() -> TypeTable {
        TypeTable::choice(Identifier(Some("Shape")), Shape::variants())
    }

    fn is_present(&self) -> bool {
        true
    }
}

impl ChoiceType for Shape {
    ghost agrees = { choice_agrees };
}

/// A `Shape` is well tagged: no tag is twice among its alternatives, with those of a `Corner`.
pub fn shape_is_well_tagged()
    ensures { IsWellTagged ⟦<Shape as AsnType>⟧.meaning }
{}

impl Encode for Shape {
    fn encode_with_tag_and_constraints<E: Encoder>(
        &self,
        encoder: &mut E,
        tag: Tag,
        constraints: &Constraints<'_>,
        name: Identifier,
    ) -> Result<(), EncodeError> {
        encoder.encode_choice_with_tag(tag, constraints, self, name)
    }
}

impl EncodeChoice for Shape {
    fn chosen_tag(&self) -> Tag {
        match self {
            Shape::Dot(_) => Tag::NULL,
            Shape::Ring(_) => RING,
            Shape::Inner(corner) => corner.chosen_tag(),
        }
    }

    fn encode_alternative<E: Encoder>(&self, encoder: &mut E) -> Result<(), EncodeError> {
        match self {
            Shape::Dot(dot) => dot.encode(encoder),
            Shape::Ring(width) => width.encode_with_tag(encoder, RING),
            Shape::Inner(corner) => corner.encode(encoder),
        }
    }
}

impl Decode for Shape {
    fn decode_with_tag_and_constraints<D: Decoder>(
        decoder: &mut D,
        tag: Tag,
        constraints: &Constraints<'_>,
    ) -> Result<Shape, DecodeError> {
        decoder.decode_choice_with_tag(tag, constraints)
    }
}

/// The leaves of the alternatives in ascending order, each with its index among all: that of an octet string is the last, the
/// second of `inner`.
pub(crate) const LEAVES: &[(Tag, usize)] = &[
    (Tag::BOOL, 2),
    (Tag::OCTET_STRING, 3),
    (Tag::NULL, 0),
    (RING, 1),
];

impl DecodeChoice for Shape {
    fn from_tag<D: Decoder>(decoder: &mut D, tag: Tag) -> Result<Shape, DecodeError> {
        from_tag_by_table(decoder, tag, LEAVES)
    }
}
