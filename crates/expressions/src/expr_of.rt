//! `Expr ::= CHOICE { number INTEGER, sum Terms, call Call, not Expr, ... }`
ghost use Rattle.std.specs.Prelude.{[], codes, refl, ◌∷◌};
ghost use Rattle.asn1_schema.specs.Words.{choice_agrees, context, explicitly_tagged, its_cases, tagged, variant};
ghost use Rattle.expressions.specs.declared.expr_of.ExprOf.TheVariants.{Number, Sum, Call, Not};
ghost use Rattle.expressions.specs.ExprLists.{expr_of_alternatives, expr_of_meaning, expr_of_pick};

use crate::call::CallOf;
use asn1_circles::{DecodeChoiceWith, Itself, ListOf, ReadError, Whole, alternative_with};
use asn1_schema::{
    AsnType, Choice, ChoiceType, Constraints, DecodeError, Decoder, Encode, EncodeChoice,
    EncodeError, Encoder, HoldsItself, Identifier, Integer, Tag, TagTree, Tagging, TypeTable,
    alternative,
};
use asn1_tags::tag;

/// `Expr` of the module `Expressions`.
#[derive(PartialEq, Eq, Debug, Drop)]
pub enum ExprOf<T> {
    /// `number INTEGER`
    Number(Integer),
    /// `sum Terms`
    Sum(Vec<T>),
    /// `call Call`
    Call(CallOf<T>),
    /// `not Expr`
    Not(T),
}

/// The trees of the alternatives.
pub(crate) const EXPR_OF: &[TagTree<'static>] = &[
    TagTree::Leaf(tag!(context 0)),
    TagTree::Leaf(tag!(context 1)),
    TagTree::Leaf(tag!(context 2)),
    TagTree::Leaf(tag!(context 3)),
];

impl<T: AsnType> Choice for ExprOf<T> {
    ghost alternatives = { expr_of_alternatives T.meaning };

    ghost pick = { expr_of_pick T.meaning };

    fn variants() -> &'static [TagTree<'static>] {
        &EXPR_OF[..4]
    }

    fn extended_variants() -> Option<&'static [TagTree<'static>]> {
        Some(&EXPR_OF[4..])
    }

    fn identifiers() -> &'static [&'static str] {
        &["number", "sum", "call", "not"]
    }
}

impl<T: AsnType> AsnType for ExprOf<T> {
    ghost meaning = { expr_of_meaning T.meaning };

    fn table() -> TypeTable {
        TypeTable::choice(Identifier(Some("Expr")), EXPR_OF)
    }

    fn is_present(&self) -> bool {
        true
    }
}

impl<T: AsnType> ChoiceType for ExprOf<T> {
    ghost agrees = { choice_agrees };
}

impl<T: Encode> Encode for ExprOf<T> {
    fn encode_with_tag_and_constraints<E: Encoder>(
        &self,
        encoder: &mut E,
        tag: Tag,
        constraints: &Constraints<'_>,
        name: Identifier,
    ) -> Result<(), EncodeError> {
        encoder.encode_choice_with_tag(tag, constraints, self, name)
    }
}

impl<T: Encode> EncodeChoice for ExprOf<T> {
    fn chosen_tag(&self) -> Tag {
        match self {
            Self::Number(_) => tag!(context 0),
            Self::Sum(_) => tag!(context 1),
            Self::Call(_) => tag!(context 2),
            Self::Not(_) => tag!(context 3),
        }
    }

    fn encode_alternative<E: Encoder>(&self, encoder: &mut E) -> Result<(), EncodeError> {
        match self {
            Self::Number(value) => value.encode_with_tag(encoder, tag!(context 0)),
            Self::Sum(value) => value.encode_with_tag(encoder, tag!(context 1)),
            Self::Call(value) => value.encode_with_tag(encoder, tag!(context 2)),
            Self::Not(value) => encoder.encode_explicit_prefix(
                tag!(context 3),
                value,
                T::identifier(),
            ),
        }
    }
}

impl<T: AsnType + Eq + Drop> HoldsItself for ExprOf<T> {
    ghost inside = { expr_of_meaning T.meaning };

    ghost cases = { variant (codes "number") Number (tagged (context 0) ⟦<Integer as AsnType>⟧.meaning) ⟦<Integer as PartialEq>⟧.eq ∷
        variant (codes "sum") Sum (tagged (context 1) ⟦<Vec<T> as AsnType>⟧.meaning) ⟦<Vec<T> as PartialEq>⟧.eq ∷
        variant (codes "call") Call (tagged (context 2) ⟦<CallOf<T> as AsnType>⟧.meaning) ⟦<CallOf<T> as PartialEq>⟧.eq ∷
        variant (codes "not") Not (explicitly_tagged (context 3) ⟦<T as AsnType>⟧.meaning) ⟦<T as PartialEq>⟧.eq ∷ [] };

    ghost case_of = { expr_of_pick T.meaning };

    ghost made = { elim [ Number x ↦ (refl, λ _. refl) | Sum x ↦ (refl, λ _. refl) | Call x ↦ (refl, λ _. refl) | Not x ↦ (refl, λ _. refl) ] };

    ghost are_cases = { its_cases };

    ghost is_inside = { record { single = tt; records = λ _ _ _ _. refl; read = λ _ _ _ _ h. h; of_type = λ _ h. h; valid = λ _ _ h. h; constraints = refl } };
}

impl<T: AsnType + Eq + Drop> DecodeChoiceWith<T> for ExprOf<T> {
    fn decode_alternative_with<E: ReadError, D: Decoder, F: Fn(&mut D, Tag) -> Result<T, E>>(
        index: usize,
        decoder: &mut D,
        read: &F,
    ) -> Result<Self, DecodeError> {
        match index {
            0 => match alternative(decoder, Tagging::Tagged(tag!(context 0))) {
                Ok(value) => Ok(Self::Number(value)),
                Err(error) => Err(error),
            },
            1 => match alternative_with::<T, Vec<T>, ListOf<Itself>, E, D, F>(
                decoder,
                Tagging::Tagged(tag!(context 1)),
                read,
            ) {
                Ok(value) => Ok(Self::Sum(value)),
                Err(error) => Err(error),
            },
            2 => match alternative_with::<T, CallOf<T>, Whole, E, D, F>(
                decoder,
                Tagging::Tagged(tag!(context 2)),
                read,
            ) {
                Ok(value) => Ok(Self::Call(value)),
                Err(error) => Err(error),
            },
            3 => match alternative_with::<T, T, Itself, E, D, F>(
                decoder,
                Tagging::Explicit(tag!(context 3)),
                read,
            ) {
                Ok(value) => Ok(Self::Not(value)),
                Err(error) => Err(error),
            },
            _ => Err(DecodeError::NoValidChoice("Expr")),
        }
    }
}
