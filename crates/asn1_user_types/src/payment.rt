//! `Payment ::= CHOICE { cash NULL, card [0] OCTET STRING }`
ghost use Rattle.std.specs.Prelude.{[], codes, refl, ◌∷◌};
ghost use Rattle.asn1_schema.specs.Words.{choice_agrees, choice_of, choice_of_cases, context, inl, inr, tagged, untagged, variant};
ghost use Rattle.asn1_user_types.specs.declared.payment.Payment.TheVariants.{Card, Cash};

use asn1_schema::{
    AsnType, Choice, ChoiceType, Class, Constraints, Decode, DecodeChoice, DecodeChoiceByIndex,
    DecodeError, Decoder, Encode, EncodeChoice, EncodeError, Encoder, Identifier, OctetString, Tag,
    TagTree, Tagging, TypeTable, alternative, from_tag_by_index,
};

/// How something is paid.
#[derive(PartialEq, Eq, Debug, Drop)]
pub enum Payment {
    /// `cash NULL`
    Cash(()),
    /// `card [0] OCTET STRING`
    Card(OctetString),
}

const CARD: Tag = Tag {
    class: Class::Context,
    value: 0,
};

const PAYMENT: &[TagTree<'static>] = &[TagTree::Leaf(Tag::NULL), TagTree::Leaf(CARD)];

impl DecodeChoiceByIndex for Payment {
    ghost cases = { variant (codes "cash") Cash (untagged ⟦<() as AsnType>⟧.meaning) ⟦<() as PartialEq>⟧.eq ∷
        variant (codes "card") Card (tagged (context 0) ⟦<OctetString as AsnType>⟧.meaning) ⟦<OctetString as PartialEq>⟧.eq ∷ [] };

    ghost case_of = { elim [ Cash nothing ↦ inl nothing | Card number ↦ inr (inl number) ] };

    fn decode_alternative<D: Decoder>(index: usize, decoder: &mut D) -> Result<Self, DecodeError> {
        match index {
            0 => Ok(Payment::Cash(alternative(decoder, Tagging::Untagged)?)),
            1 => Ok(Payment::Card(alternative(decoder, Tagging::Tagged(CARD))?)),
            _ => Err(DecodeError::NoValidChoice("Payment")),
        }
    }

    ghost made = { elim [ Cash nothing ↦ (refl, λ _. refl) | Card number ↦ (refl, λ _. refl) ] };
}

impl Choice for Payment {
    ghost alternatives = { choice_of_cases ⟦<Payment as DecodeChoiceByIndex>⟧.cases };

    ghost pick = { ⟦<Payment as DecodeChoiceByIndex>⟧.case_of };

    fn variants() -> &'static [TagTree<'static>] {
        PAYMENT
    }

    fn extended_variants() -> Option<&'static [TagTree<'static>]> {
        None
    }

    fn identifiers() -> &'static [&'static str] {
        &["cash", "card"]
    }
}

impl AsnType for Payment {
    ghost meaning = { choice_of (codes "Payment") ⟦<Payment as Choice>⟧.alternatives ⟦<Payment as Choice>⟧.pick };

    fn table() -> TypeTable {
        TypeTable::choice(Identifier(Some("Payment")), PAYMENT)
    }

    fn is_present(&self) -> bool {
        true
    }
}

impl ChoiceType for Payment {
    ghost agrees = { choice_agrees };
}

impl Encode for Payment {
    fn encode_with_tag_and_constraints<E: Encoder>(
        &self,
        encoder: &mut E,
        tag: Tag,
        constraints: &Constraints<'_>,
        name: Identifier,
    ) -> Result<(), EncodeError> {
        encoder.encode_choice_with_tag(tag, constraints, self, name)
    }
}

impl EncodeChoice for Payment {
    fn chosen_tag(&self) -> Tag {
        match self {
            Payment::Cash(_) => Tag::NULL,
            Payment::Card(_) => CARD,
        }
    }

    fn encode_alternative<E: Encoder>(&self, encoder: &mut E) -> Result<(), EncodeError> {
        match self {
            Payment::Cash(nothing) => nothing.encode(encoder),
            Payment::Card(number) => number.encode_with_tag(encoder, CARD),
        }
    }
}

impl Decode for Payment {
    fn decode_with_tag_and_constraints<D: Decoder>(
        decoder: &mut D,
        tag: Tag,
        constraints: &Constraints<'_>,
    ) -> Result<Payment, DecodeError> {
        decoder.decode_choice_with_tag(tag, constraints)
    }
}

impl DecodeChoice for Payment {
    fn from_tag<D: Decoder>(decoder: &mut D, tag: Tag) -> Result<Payment, DecodeError> {
        from_tag_by_index(decoder, tag)
    }
}
