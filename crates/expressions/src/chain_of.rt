//! `Chain ::= CHOICE { end NULL, link Chain }`
ghost use Rattle.std.specs.Prelude.{[], codes, refl, ◌∷◌};
ghost use Rattle.asn1_schema.specs.Words.{choice_agrees, context, explicitly_tagged, its_cases, tagged, variant};
ghost use Rattle.expressions.specs.declared.chain_of.ChainOf.TheVariants.{End, Link};
ghost use Rattle.expressions.specs.ChainLists.{chain_of_alternatives, chain_of_meaning, chain_of_pick};

use asn1_circles::{DecodeChoiceWith, Itself, ReadError, alternative_with};
use asn1_schema::{
    AsnType, Choice, ChoiceType, Constraints, DecodeError, Decoder, Encode, EncodeChoice,
    EncodeError, Encoder, HoldsItself, Identifier, Tag, TagTree, Tagging, TypeTable, alternative,
};
use asn1_tags::tag;

/// `Chain` of the module `Expressions`.
#[derive(PartialEq, Eq, Debug, Drop)]
pub enum ChainOf<T> {
    /// `end NULL`
    End(()),
    /// `link Chain`
    Link(T),
}

/// The trees of the alternatives.
pub(crate) const CHAIN_OF: &[TagTree<'static>] = &[
    TagTree::Leaf(tag!(context 0)),
    TagTree::Leaf(tag!(context 1)),
];

impl<T: AsnType> Choice for ChainOf<T> {
    ghost alternatives = { chain_of_alternatives T.meaning };

    ghost pick = { chain_of_pick T.meaning };

    fn variants() -> &'static [TagTree<'static>] {
        CHAIN_OF
    }

    fn extended_variants() -> Option<&'static [TagTree<'static>]> {
        None
    }

    fn identifiers() -> &'static [&'static str] {
        &["end", "link"]
    }
}

impl<T: AsnType> AsnType for ChainOf<T> {
    ghost meaning = { chain_of_meaning T.meaning };

    fn table() -> TypeTable {
        TypeTable::choice(Identifier(Some("Chain")), CHAIN_OF)
    }

    fn is_present(&self) -> bool {
        true
    }
}

impl<T: AsnType> ChoiceType for ChainOf<T> {
    ghost agrees = { choice_agrees };
}

impl<T: Encode> Encode for ChainOf<T> {
    fn encode_with_tag_and_constraints<E: Encoder>(
        &self,
        encoder: &mut E,
        tag: Tag,
        constraints: &Constraints<'_>,
        name: Identifier,
    ) -> Result<(), EncodeError> {
        encoder.encode_choice_with_tag(tag, constraints, self, name)
    }
}

impl<T: Encode> EncodeChoice for ChainOf<T> {
    fn chosen_tag(&self) -> Tag {
        match self {
            Self::End(_) => tag!(context 0),
            Self::Link(_) => tag!(context 1),
        }
    }

    fn encode_alternative<E: Encoder>(&self, encoder: &mut E) -> Result<(), EncodeError> {
        match self {
            Self::End(value) => value.encode_with_tag(encoder, tag!(context 0)),
            Self::Link(value) => encoder.encode_explicit_prefix(
                tag!(context 1),
                value,
                T::identifier(),
            ),
        }
    }
}

impl<T: AsnType + Eq + Drop> HoldsItself for ChainOf<T> {
    ghost inside = { chain_of_meaning T.meaning };

    ghost cases = { variant (codes "end") End (tagged (context 0) ⟦<() as AsnType>⟧.meaning) ⟦<() as PartialEq>⟧.eq ∷
        variant (codes "link") Link (explicitly_tagged (context 1) ⟦<T as AsnType>⟧.meaning) ⟦<T as PartialEq>⟧.eq ∷ [] };

    ghost case_of = { chain_of_pick T.meaning };

    ghost made = { elim [ End x ↦ (refl, λ _. refl) | Link x ↦ (refl, λ _. refl) ] };

    ghost are_cases = { its_cases };

    ghost is_inside = { record { single = tt; records = λ _ _ _ _. refl; read = λ _ _ _ _ h. h; of_type = λ _ h. h; valid = λ _ _ h. h; constraints = refl } };
}

impl<T: AsnType + Eq + Drop> DecodeChoiceWith<T> for ChainOf<T> {
    fn decode_alternative_with<E: ReadError, D: Decoder, F: Fn(&mut D, Tag) -> Result<T, E>>(
        index: usize,
        decoder: &mut D,
        read: &F,
    ) -> Result<Self, DecodeError> {
        match index {
            0 => match alternative(decoder, Tagging::Tagged(tag!(context 0))) {
                Ok(value) => Ok(Self::End(value)),
                Err(error) => Err(error),
            },
            1 => match alternative_with::<T, T, Itself, E, D, F>(
                decoder,
                Tagging::Explicit(tag!(context 1)),
                read,
            ) {
                Ok(value) => Ok(Self::Link(value)),
                Err(error) => Err(error),
            },
            _ => Err(DecodeError::NoValidChoice("Chain")),
        }
    }
}
