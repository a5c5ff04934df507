//! `AuthenticationChoice ::= CHOICE { simple [0] OCTET STRING, sasl [3] SaslCredentials, ... }`
ghost use Rattle.std.specs.Prelude.{[], codes, refl, ◌∷◌};
ghost use Rattle.asn1_schema.specs.Words.{IsWellTagged, choice_agrees, choice_of, context, extensible_choice_after, inl, inr, tagged, variant};
ghost use Rattle.asn1_ldap.specs.declared.authentication_choice.AuthenticationChoice.TheVariants.{Simple, Sasl};
ghost use Rattle.asn1_model.specs.DistinctSets.{SetsAreDistinct};
ghost use Rattle.asn1_model.specs.WrittenAlike.{AreWrittenAlike};

use crate::sasl_credentials::{SaslCredentials, sasl_credentials_has_one_spelling};
use asn1_schema::{
    AsnType, Choice, ChoiceType, Constraints, Decode, DecodeChoice, DecodeChoiceByIndex,
    DecodeError, Decoder, Encode, EncodeChoice, EncodeError, Encoder, Identifier, OctetString, Tag,
    TagTree, Tagging, TypeTable, alternative, from_tag_by_index,
};
use asn1_tags::tag;

/// `AuthenticationChoice` of the module `Lightweight-Directory-Access-Protocol-V3`.
#[derive(PartialEq, Eq, Debug, Drop)]
pub enum AuthenticationChoice {
    /// `simple [0] OCTET STRING`
    Simple(OctetString),
    /// `sasl [3] SaslCredentials`
    Sasl(SaslCredentials),
}

/// The trees of the alternatives.
pub(crate) const AUTHENTICATION_CHOICE: &[TagTree<'static>] = &[
    TagTree::Leaf(tag!(context 0)),
    TagTree::Leaf(tag!(context 3)),
];

impl DecodeChoiceByIndex for AuthenticationChoice {
    ghost cases = { variant (codes "simple") Simple (tagged (context 0) ⟦<OctetString as AsnType>⟧.meaning) ⟦<OctetString as PartialEq>⟧.eq ∷
        variant (codes "sasl") Sasl (tagged (context 3) ⟦<SaslCredentials as AsnType>⟧.meaning) ⟦<SaslCredentials as PartialEq>⟧.eq ∷ [] };

    ghost case_of = { elim [ Simple x ↦ inl x | Sasl x ↦ inr (inl x) ] };

    fn decode_alternative<D: Decoder>(index: usize, decoder: &mut D) -> Result<Self, DecodeError> {
        match index {
            0 => Ok(Self::Simple(alternative(decoder, Tagging::Tagged(tag!(context 0)))?)),
            1 => Ok(Self::Sasl(alternative(decoder, Tagging::Tagged(tag!(context 3)))?)),
            _ => Err(DecodeError::NoValidChoice("AuthenticationChoice")),
        }
    }

    ghost made = { elim [ Simple x ↦ (refl, λ _. refl) | Sasl x ↦ (refl, λ _. refl) ] };
}

impl Choice for AuthenticationChoice {
    ghost alternatives = { extensible_choice_after 2 ⟦<AuthenticationChoice as DecodeChoiceByIndex>⟧.cases };

    ghost pick = { ⟦<AuthenticationChoice as DecodeChoiceByIndex>⟧.case_of };

    fn variants() -> &'static [TagTree<'static>] {
        &AUTHENTICATION_CHOICE[..2]
    }

    fn extended_variants() -> Option<&'static [TagTree<'static>]> {
        Some(&AUTHENTICATION_CHOICE[2..])
    }

    fn identifiers() -> &'static [&'static str] {
        &["simple", "sasl"]
    }
}

impl AsnType for AuthenticationChoice {
    ghost meaning = { choice_of (codes "AuthenticationChoice") ⟦<AuthenticationChoice as Choice>⟧.alternatives ⟦<AuthenticationChoice as Choice>⟧.pick };

    fn table() -> TypeTable {
        TypeTable::choice(
            Identifier(Some("AuthenticationChoice")),
            AUTHENTICATION_CHOICE,
        )
    }

    fn is_present(&self) -> bool {
        true
    }
}

impl ChoiceType for AuthenticationChoice {
    ghost agrees = { choice_agrees };
}

/// An `AuthenticationChoice` can be inside other types.
pub fn authentication_choice_is_well_tagged()
    ensures { IsWellTagged ⟦<AuthenticationChoice as AsnType>⟧.meaning }
{}

/// Equal values are written alike, and in each value the components of a SET have distinct tags. With `authentication_choice_is_well_tagged`
/// it follows that the DER of a value is its only spelling (`well_tagged_types_have_one_spelling` of `asn1_der`).
pub fn authentication_choice_has_one_spelling()
    ensures alike { AreWrittenAlike ⟦<AuthenticationChoice as AsnType>⟧.meaning
        ⟦<AuthenticationChoice as PartialEq>⟧.eq }
    ensures distinct { SetsAreDistinct ⟦<AuthenticationChoice as AsnType>⟧.meaning }
{
    sasl_credentials_has_one_spelling();
}

impl Encode for AuthenticationChoice {
    fn encode_with_tag_and_constraints<E: Encoder>(
        &self,
        encoder: &mut E,
        tag: Tag,
        constraints: &Constraints<'_>,
        name: Identifier,
    ) -> Result<(), EncodeError> {
        encoder.encode_choice_with_tag(tag, constraints, self, name)
    }
}

impl EncodeChoice for AuthenticationChoice {
    fn chosen_tag(&self) -> Tag {
        match self {
            Self::Simple(_) => tag!(context 0),
            Self::Sasl(_) => tag!(context 3),
        }
    }

    fn encode_alternative<E: Encoder>(&self, encoder: &mut E) -> Result<(), EncodeError> {
        match self {
            Self::Simple(value) => value.encode_with_tag(encoder, tag!(context 0)),
            Self::Sasl(value) => value.encode_with_tag(encoder, tag!(context 3)),
        }
    }
}

impl Decode for AuthenticationChoice {
    fn decode_with_tag_and_constraints<D: Decoder>(
        decoder: &mut D,
        tag: Tag,
        constraints: &Constraints<'_>,
    ) -> Result<Self, DecodeError> {
        decoder.decode_choice_with_tag(tag, constraints)
    }
}

impl DecodeChoice for AuthenticationChoice {
    fn from_tag<D: Decoder>(decoder: &mut D, tag: Tag) -> Result<Self, DecodeError> {
        from_tag_by_index(decoder, tag)
    }
}
