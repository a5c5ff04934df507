//! `GeneralName` of the module `PKIX1Implicit88`.
//!
//! ```text
//! GeneralName ::= CHOICE {
//!     otherName [0] AnotherName,
//!     rfc822Name [1] IA5String,
//!     dNSName [2] IA5String,
//!     x400Address [3] ORAddress,
//!     directoryName [4] Name,
//!     ediPartyName [5] EDIPartyName,
//!     uniformResourceIdentifier [6] IA5String,
//!     iPAddress [7] OCTET STRING,
//!     registeredID [8] OBJECT IDENTIFIER
//! }
//! ```
ghost use Rattle.std.specs.Prelude.{[], codes, refl, ◌∷◌};
ghost use Rattle.asn1_schema.specs.Words.{IsWellTagged, choice_agrees, choice_of, choice_of_cases, context, explicitly_tagged, inl, inr, tagged, variant};
ghost use Rattle.asn1_x509_extensions.specs.declared.general_name.GeneralName.TheVariants.{OtherName, Rfc822Name, DnsName, X400Address, DirectoryName, EdiPartyName, UniformResourceIdentifier, IpAddress, RegisteredId};

use crate::aliases::OrAddress;
use crate::another_name::AnotherName;
use crate::edi_party_name::EdiPartyName;
use asn1_schema::{
    AsnType, Choice, ChoiceType, Constraints, Decode, DecodeChoice, DecodeChoiceByIndex,
    DecodeError, Decoder, Encode, EncodeChoice, EncodeError, Encoder, Ia5String, Identifier,
    ObjectIdentifier, OctetString, Tag, TagTree, Tagging, TypeTable, alternative,
    from_tag_by_index,
};
use asn1_tags::tag;
use asn1_x509::Name;

/// `GeneralName` of the module `PKIX1Implicit88`.
#[derive(PartialEq, Eq, Debug, Drop)]
pub enum GeneralName {
    /// `otherName [0] AnotherName`
    OtherName(AnotherName),
    /// `rfc822Name [1] IA5String`
    Rfc822Name(Ia5String),
    /// `dNSName [2] IA5String`
    DnsName(Ia5String),
    /// `x400Address [3] ORAddress`
    X400Address(OrAddress),
    /// `directoryName [4] Name`
    DirectoryName(Name),
    /// `ediPartyName [5] EDIPartyName`
    EdiPartyName(EdiPartyName),
    /// `uniformResourceIdentifier [6] IA5String`
    UniformResourceIdentifier(Ia5String),
    /// `iPAddress [7] OCTET STRING`
    IpAddress(OctetString),
    /// `registeredID [8] OBJECT IDENTIFIER`
    RegisteredId(ObjectIdentifier),
}

/// The trees of the alternatives.
pub(crate) const GENERAL_NAME: &[TagTree<'static>] = &[
    TagTree::Leaf(tag!(context 0)),
    TagTree::Leaf(tag!(context 1)),
    TagTree::Leaf(tag!(context 2)),
    TagTree::Leaf(tag!(context 3)),
    TagTree::Leaf(tag!(context 4)),
    TagTree::Leaf(tag!(context 5)),
    TagTree::Leaf(tag!(context 6)),
    TagTree::Leaf(tag!(context 7)),
    TagTree::Leaf(tag!(context 8)),
];

/// Reads the value of an alternative, and makes this variant of it.
macro_rules! read {
    ($decoder:expr, $tagging:expr, $variant:ident $(,)?) => {
        match alternative($decoder, $tagging) {
            Ok(value) => Ok(GeneralName::$variant(value)),
            Err(error) => Err(error),
        }
    };
}

impl DecodeChoiceByIndex for GeneralName {
    ghost cases = { variant (codes "otherName") OtherName (tagged (context 0) ⟦<AnotherName as AsnType>⟧.meaning) ⟦<AnotherName as PartialEq>⟧.eq ∷
        variant (codes "rfc822Name") Rfc822Name (tagged (context 1) ⟦<Ia5String as AsnType>⟧.meaning) ⟦<Ia5String as PartialEq>⟧.eq ∷
        variant (codes "dNSName") DnsName (tagged (context 2) ⟦<Ia5String as AsnType>⟧.meaning) ⟦<Ia5String as PartialEq>⟧.eq ∷
        variant (codes "x400Address") X400Address (tagged (context 3) ⟦<OrAddress as AsnType>⟧.meaning) ⟦<OrAddress as PartialEq>⟧.eq ∷
        variant (codes "directoryName") DirectoryName (explicitly_tagged (context 4) ⟦<Name as AsnType>⟧.meaning) ⟦<Name as PartialEq>⟧.eq ∷
        variant (codes "ediPartyName") EdiPartyName (tagged (context 5) ⟦<EdiPartyName as AsnType>⟧.meaning) ⟦<EdiPartyName as PartialEq>⟧.eq ∷
        variant (codes "uniformResourceIdentifier") UniformResourceIdentifier (tagged (context 6) ⟦<Ia5String as AsnType>⟧.meaning) ⟦<Ia5String as PartialEq>⟧.eq ∷
        variant (codes "iPAddress") IpAddress (tagged (context 7) ⟦<OctetString as AsnType>⟧.meaning) ⟦<OctetString as PartialEq>⟧.eq ∷
        variant (codes "registeredID") RegisteredId (tagged (context 8) ⟦<ObjectIdentifier as AsnType>⟧.meaning) ⟦<ObjectIdentifier as PartialEq>⟧.eq ∷ [] };

    ghost case_of = { elim [ OtherName x ↦ inl x | Rfc822Name x ↦ inr (inl x) | DnsName x ↦ inr (inr (inl x)) | X400Address x ↦ inr (inr (inr (inl x))) | DirectoryName x ↦ inr (inr (inr (inr (inl x)))) | EdiPartyName x ↦ inr (inr (inr (inr (inr (inl x))))) | UniformResourceIdentifier x ↦ inr (inr (inr (inr (inr (inr (inl x)))))) | IpAddress x ↦ inr (inr (inr (inr (inr (inr (inr (inl x))))))) | RegisteredId x ↦ inr (inr (inr (inr (inr (inr (inr (inr (inl x)))))))) ] };

    fn decode_alternative<D: Decoder>(index: usize, decoder: &mut D) -> Result<Self, DecodeError> {
        match index {
            0 => read!(decoder, Tagging::Tagged(tag!(context 0)), OtherName),
            1 => read!(decoder, Tagging::Tagged(tag!(context 1)), Rfc822Name),
            2 => read!(decoder, Tagging::Tagged(tag!(context 2)), DnsName),
            3 => read!(decoder, Tagging::Tagged(tag!(context 3)), X400Address),
            4 => read!(decoder, Tagging::Explicit(tag!(context 4)), DirectoryName),
            5 => read!(decoder, Tagging::Tagged(tag!(context 5)), EdiPartyName),
            6 => read!(
                decoder,
                Tagging::Tagged(tag!(context 6)),
                UniformResourceIdentifier,
            ),
            7 => read!(decoder, Tagging::Tagged(tag!(context 7)), IpAddress),
            8 => read!(decoder, Tagging::Tagged(tag!(context 8)), RegisteredId),
            _ => Err(DecodeError::NoValidChoice("GeneralName")),
        }
    }

    ghost made = { elim [ OtherName x ↦ (refl, λ _. refl) | Rfc822Name x ↦ (refl, λ _. refl) | DnsName x ↦ (refl, λ _. refl) | X400Address x ↦ (refl, λ _. refl) | DirectoryName x ↦ (refl, λ _. refl) | EdiPartyName x ↦ (refl, λ _. refl) | UniformResourceIdentifier x ↦ (refl, λ _. refl) | IpAddress x ↦ (refl, λ _. refl) | RegisteredId x ↦ (refl, λ _. refl) ] };
}

impl Choice for GeneralName {
    ghost alternatives = { choice_of_cases ⟦<GeneralName as DecodeChoiceByIndex>⟧.cases };

    ghost pick = { ⟦<GeneralName as DecodeChoiceByIndex>⟧.case_of };

    fn variants() -> &'static [TagTree<'static>] {
        GENERAL_NAME
    }

    fn extended_variants() -> Option<&'static [TagTree<'static>]> {
        None
    }

    fn identifiers() -> &'static [&'static str] {
        &[
            "otherName",
            "rfc822Name",
            "dNSName",
            "x400Address",
            "directoryName",
            "ediPartyName",
            "uniformResourceIdentifier",
            "iPAddress",
            "registeredID",
        ]
    }
}

impl AsnType for GeneralName {
    ghost meaning = { choice_of (codes "GeneralName") ⟦<GeneralName as Choice>⟧.alternatives ⟦<GeneralName as Choice>⟧.pick };

    fn table() -> TypeTable {
        TypeTable::choice(Identifier(Some("GeneralName")), GENERAL_NAME)
    }

    fn is_present(&self) -> bool {
        true
    }
}

impl ChoiceType for GeneralName {
    ghost agrees = { choice_agrees };
}

/// A `GeneralName` can be inside other types.
pub fn general_name_is_well_tagged()
    ensures { IsWellTagged ⟦<GeneralName as AsnType>⟧.meaning }
{}

impl Encode for GeneralName {
    fn encode_with_tag_and_constraints<E: Encoder>(
        &self,
        encoder: &mut E,
        tag: Tag,
        constraints: &Constraints<'_>,
        name: Identifier,
    ) -> Result<(), EncodeError> {
        encoder.encode_choice_with_tag(tag, constraints, self, name)
    }
}

impl EncodeChoice for GeneralName {
    fn chosen_tag(&self) -> Tag {
        match self {
            Self::OtherName(_) => tag!(context 0),
            Self::Rfc822Name(_) => tag!(context 1),
            Self::DnsName(_) => tag!(context 2),
            Self::X400Address(_) => tag!(context 3),
            Self::DirectoryName(_) => tag!(context 4),
            Self::EdiPartyName(_) => tag!(context 5),
            Self::UniformResourceIdentifier(_) => tag!(context 6),
            Self::IpAddress(_) => tag!(context 7),
            Self::RegisteredId(_) => tag!(context 8),
        }
    }

    fn encode_alternative<E: Encoder>(&self, encoder: &mut E) -> Result<(), EncodeError> {
        match self {
            Self::OtherName(value) => value.encode_with_tag(encoder, tag!(context 0)),
            Self::Rfc822Name(value) => value.encode_with_tag(encoder, tag!(context 1)),
            Self::DnsName(value) => value.encode_with_tag(encoder, tag!(context 2)),
            Self::X400Address(value) => value.encode_with_tag(encoder, tag!(context 3)),
            Self::DirectoryName(value) => encoder.encode_explicit_prefix(
                tag!(context 4),
                value,
                Name::identifier(),
            ),
            Self::EdiPartyName(value) => value.encode_with_tag(encoder, tag!(context 5)),
            Self::UniformResourceIdentifier(value) => value.encode_with_tag(
                encoder,
                tag!(context 6),
            ),
            Self::IpAddress(value) => value.encode_with_tag(encoder, tag!(context 7)),
            Self::RegisteredId(value) => value.encode_with_tag(encoder, tag!(context 8)),
        }
    }
}

impl Decode for GeneralName {
    fn decode_with_tag_and_constraints<D: Decoder>(
        decoder: &mut D,
        tag: Tag,
        constraints: &Constraints<'_>,
    ) -> Result<Self, DecodeError> {
        decoder.decode_choice_with_tag(tag, constraints)
    }
}

impl DecodeChoice for GeneralName {
    fn from_tag<D: Decoder>(decoder: &mut D, tag: Tag) -> Result<Self, DecodeError> {
        from_tag_by_index(decoder, tag)
    }
}
