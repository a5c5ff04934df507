//! The type of `protocolOp` in `LdapMessage`.
//!
//! ```text
//! protocolOp CHOICE {
//!     bindRequest BindRequest,
//!     bindResponse BindResponse,
//!     unbindRequest UnbindRequest,
//!     searchRequest SearchRequest,
//!     searchResEntry SearchResultEntry,
//!     searchResDone SearchResultDone,
//!     searchResRef SearchResultReference,
//!     modifyRequest ModifyRequest,
//!     modifyResponse ModifyResponse,
//!     addRequest AddRequest,
//!     addResponse AddResponse,
//!     delRequest DelRequest,
//!     delResponse DelResponse,
//!     modDNRequest ModifyDNRequest,
//!     modDNResponse ModifyDNResponse,
//!     compareRequest CompareRequest,
//!     compareResponse CompareResponse,
//!     abandonRequest AbandonRequest,
//!     extendedReq ExtendedRequest,
//!     extendedResp ExtendedResponse,
//!     ...,
//!     intermediateResponse IntermediateResponse
//! }
//! ```
ghost use Rattle.std.specs.Prelude.{[], codes, refl, ◌∷◌};
ghost use Rattle.asn1_schema.specs.Words.{IsWellTagged, choice_agrees, choice_of, extensible_choice_after, inl, inr, untagged, variant};
ghost use Rattle.asn1_ldap.specs.declared.ldap_message_protocol_op.LdapMessageProtocolOp.TheVariants.{BindRequest, BindResponse, UnbindRequest, SearchRequest, SearchResEntry, SearchResDone, SearchResRef, ModifyRequest, ModifyResponse, AddRequest, AddResponse, DelRequest, DelResponse, ModDnRequest, ModDnResponse, CompareRequest, CompareResponse, AbandonRequest, ExtendedReq, ExtendedResp, IntermediateResponse};

use crate::add_request::AddRequest;
use crate::aliases::{
    AbandonRequest, AddResponse, CompareResponse, DelRequest, DelResponse, ModifyDnResponse,
    ModifyResponse, SearchResultDone, SearchResultReference, UnbindRequest,
};
use crate::bind_request::BindRequest;
use crate::bind_response::BindResponse;
use crate::compare_request::CompareRequest;
use crate::extended_request::ExtendedRequest;
use crate::extended_response::ExtendedResponse;
use crate::intermediate_response::IntermediateResponse;
use crate::modify_dn_request::ModifyDnRequest;
use crate::modify_request::ModifyRequest;
use crate::search_request::SearchRequest;
use crate::search_result_entry::SearchResultEntry;
use asn1_schema::{
    AsnType, Choice, ChoiceType, Constraints, Decode, DecodeChoice, DecodeChoiceByIndex,
    DecodeError, Decoder, Encode, EncodeChoice, EncodeError, Encoder, Identifier, Tag, TagTree,
    Tagging, TypeTable, alternative, from_tag_by_index,
};
use asn1_tags::tag;

/// The type of `protocolOp` in `LdapMessage`.
#[derive(PartialEq, Eq, Debug, Drop)]
pub enum LdapMessageProtocolOp {
    /// `bindRequest BindRequest`
    BindRequest(BindRequest),
    /// `bindResponse BindResponse`
    BindResponse(BindResponse),
    /// `unbindRequest UnbindRequest`
    UnbindRequest(UnbindRequest),
    /// `searchRequest SearchRequest`
    SearchRequest(SearchRequest),
    /// `searchResEntry SearchResultEntry`
    SearchResEntry(SearchResultEntry),
    /// `searchResDone SearchResultDone`
    SearchResDone(SearchResultDone),
    /// `searchResRef SearchResultReference`
    SearchResRef(SearchResultReference),
    /// `modifyRequest ModifyRequest`
    ModifyRequest(ModifyRequest),
    /// `modifyResponse ModifyResponse`
    ModifyResponse(ModifyResponse),
    /// `addRequest AddRequest`
    AddRequest(AddRequest),
    /// `addResponse AddResponse`
    AddResponse(AddResponse),
    /// `delRequest DelRequest`
    DelRequest(DelRequest),
    /// `delResponse DelResponse`
    DelResponse(DelResponse),
    /// `modDNRequest ModifyDNRequest`
    ModDnRequest(ModifyDnRequest),
    /// `modDNResponse ModifyDNResponse`
    ModDnResponse(ModifyDnResponse),
    /// `compareRequest CompareRequest`
    CompareRequest(CompareRequest),
    /// `compareResponse CompareResponse`
    CompareResponse(CompareResponse),
    /// `abandonRequest AbandonRequest`
    AbandonRequest(AbandonRequest),
    /// `extendedReq ExtendedRequest`
    ExtendedReq(ExtendedRequest),
    /// `extendedResp ExtendedResponse`
    ExtendedResp(ExtendedResponse),
    /// `intermediateResponse IntermediateResponse`
    IntermediateResponse(IntermediateResponse),
}

/// The trees of the alternatives.
pub(crate) const LDAP_MESSAGE_PROTOCOL_OP: &[TagTree<'static>] = &[
    TagTree::Leaf(tag!(application 0)),
    TagTree::Leaf(tag!(application 1)),
    TagTree::Leaf(tag!(application 2)),
    TagTree::Leaf(tag!(application 3)),
    TagTree::Leaf(tag!(application 4)),
    TagTree::Leaf(tag!(application 5)),
    TagTree::Leaf(tag!(application 19)),
    TagTree::Leaf(tag!(application 6)),
    TagTree::Leaf(tag!(application 7)),
    TagTree::Leaf(tag!(application 8)),
    TagTree::Leaf(tag!(application 9)),
    TagTree::Leaf(tag!(application 10)),
    TagTree::Leaf(tag!(application 11)),
    TagTree::Leaf(tag!(application 12)),
    TagTree::Leaf(tag!(application 13)),
    TagTree::Leaf(tag!(application 14)),
    TagTree::Leaf(tag!(application 15)),
    TagTree::Leaf(tag!(application 16)),
    TagTree::Leaf(tag!(application 23)),
    TagTree::Leaf(tag!(application 24)),
    TagTree::Leaf(tag!(application 25)),
];

/// Reads the value of an alternative, and makes this variant of it.
macro_rules! read {
    ($decoder:expr, $tagging:expr, $variant:ident $(,)?) => {
        match alternative($decoder, $tagging) {
            Ok(value) => Ok(LdapMessageProtocolOp::$variant(value)),
            Err(error) => Err(error),
        }
    };
}

impl DecodeChoiceByIndex for LdapMessageProtocolOp {
    ghost cases = { variant (codes "bindRequest") BindRequest (untagged ⟦<BindRequest as AsnType>⟧.meaning) ⟦<BindRequest as PartialEq>⟧.eq ∷
        variant (codes "bindResponse") BindResponse (untagged ⟦<BindResponse as AsnType>⟧.meaning) ⟦<BindResponse as PartialEq>⟧.eq ∷
        variant (codes "unbindRequest") UnbindRequest (untagged ⟦<UnbindRequest as AsnType>⟧.meaning) ⟦<UnbindRequest as PartialEq>⟧.eq ∷
        variant (codes "searchRequest") SearchRequest (untagged ⟦<SearchRequest as AsnType>⟧.meaning) ⟦<SearchRequest as PartialEq>⟧.eq ∷
        variant (codes "searchResEntry") SearchResEntry (untagged ⟦<SearchResultEntry as AsnType>⟧.meaning) ⟦<SearchResultEntry as PartialEq>⟧.eq ∷
        variant (codes "searchResDone") SearchResDone (untagged ⟦<SearchResultDone as AsnType>⟧.meaning) ⟦<SearchResultDone as PartialEq>⟧.eq ∷
        variant (codes "searchResRef") SearchResRef (untagged ⟦<SearchResultReference as AsnType>⟧.meaning) ⟦<SearchResultReference as PartialEq>⟧.eq ∷
        variant (codes "modifyRequest") ModifyRequest (untagged ⟦<ModifyRequest as AsnType>⟧.meaning) ⟦<ModifyRequest as PartialEq>⟧.eq ∷
        variant (codes "modifyResponse") ModifyResponse (untagged ⟦<ModifyResponse as AsnType>⟧.meaning) ⟦<ModifyResponse as PartialEq>⟧.eq ∷
        variant (codes "addRequest") AddRequest (untagged ⟦<AddRequest as AsnType>⟧.meaning) ⟦<AddRequest as PartialEq>⟧.eq ∷
        variant (codes "addResponse") AddResponse (untagged ⟦<AddResponse as AsnType>⟧.meaning) ⟦<AddResponse as PartialEq>⟧.eq ∷
        variant (codes "delRequest") DelRequest (untagged ⟦<DelRequest as AsnType>⟧.meaning) ⟦<DelRequest as PartialEq>⟧.eq ∷
        variant (codes "delResponse") DelResponse (untagged ⟦<DelResponse as AsnType>⟧.meaning) ⟦<DelResponse as PartialEq>⟧.eq ∷
        variant (codes "modDNRequest") ModDnRequest (untagged ⟦<ModifyDnRequest as AsnType>⟧.meaning) ⟦<ModifyDnRequest as PartialEq>⟧.eq ∷
        variant (codes "modDNResponse") ModDnResponse (untagged ⟦<ModifyDnResponse as AsnType>⟧.meaning) ⟦<ModifyDnResponse as PartialEq>⟧.eq ∷
        variant (codes "compareRequest") CompareRequest (untagged ⟦<CompareRequest as AsnType>⟧.meaning) ⟦<CompareRequest as PartialEq>⟧.eq ∷
        variant (codes "compareResponse") CompareResponse (untagged ⟦<CompareResponse as AsnType>⟧.meaning) ⟦<CompareResponse as PartialEq>⟧.eq ∷
        variant (codes "abandonRequest") AbandonRequest (untagged ⟦<AbandonRequest as AsnType>⟧.meaning) ⟦<AbandonRequest as PartialEq>⟧.eq ∷
        variant (codes "extendedReq") ExtendedReq (untagged ⟦<ExtendedRequest as AsnType>⟧.meaning) ⟦<ExtendedRequest as PartialEq>⟧.eq ∷
        variant (codes "extendedResp") ExtendedResp (untagged ⟦<ExtendedResponse as AsnType>⟧.meaning) ⟦<ExtendedResponse as PartialEq>⟧.eq ∷
        variant (codes "intermediateResponse") IntermediateResponse (untagged ⟦<IntermediateResponse as AsnType>⟧.meaning) ⟦<IntermediateResponse as PartialEq>⟧.eq ∷ [] };

    ghost case_of = { elim [ BindRequest x ↦ inl x | BindResponse x ↦ inr (inl x) | UnbindRequest x ↦ inr (inr (inl x)) | SearchRequest x ↦ inr (inr (inr (inl x))) | SearchResEntry x ↦ inr (inr (inr (inr (inl x)))) | SearchResDone x ↦ inr (inr (inr (inr (inr (inl x))))) | SearchResRef x ↦ inr (inr (inr (inr (inr (inr (inl x)))))) | ModifyRequest x ↦ inr (inr (inr (inr (inr (inr (inr (inl x))))))) | ModifyResponse x ↦ inr (inr (inr (inr (inr (inr (inr (inr (inl x)))))))) | AddRequest x ↦ inr (inr (inr (inr (inr (inr (inr (inr (inr (inl x))))))))) | AddResponse x ↦ inr (inr (inr (inr (inr (inr (inr (inr (inr (inr (inl x)))))))))) | DelRequest x ↦ inr (inr (inr (inr (inr (inr (inr (inr (inr (inr (inr (inl x))))))))))) | DelResponse x ↦ inr (inr (inr (inr (inr (inr (inr (inr (inr (inr (inr (inr (inl x)))))))))))) | ModDnRequest x ↦ inr (inr (inr (inr (inr (inr (inr (inr (inr (inr (inr (inr (inr (inl x))))))))))))) | ModDnResponse x ↦ inr (inr (inr (inr (inr (inr (inr (inr (inr (inr (inr (inr (inr (inr (inl x)))))))))))))) | CompareRequest x ↦ inr (inr (inr (inr (inr (inr (inr (inr (inr (inr (inr (inr (inr (inr (inr (inl x))))))))))))))) | CompareResponse x ↦ inr (inr (inr (inr (inr (inr (inr (inr (inr (inr (inr (inr (inr (inr (inr (inr (inl x)))))))))))))))) | AbandonRequest x ↦ inr (inr (inr (inr (inr (inr (inr (inr (inr (inr (inr (inr (inr (inr (inr (inr (inr (inl x))))))))))))))))) | ExtendedReq x ↦ inr (inr (inr (inr (inr (inr (inr (inr (inr (inr (inr (inr (inr (inr (inr (inr (inr (inr (inl x)))))))))))))))))) | ExtendedResp x ↦ inr (inr (inr (inr (inr (inr (inr (inr (inr (inr (inr (inr (inr (inr (inr (inr (inr (inr (inr (inl x))))))))))))))))))) | IntermediateResponse x ↦ inr (inr (inr (inr (inr (inr (inr (inr (inr (inr (inr (inr (inr (inr (inr (inr (inr (inr (inr (inr (inl x)))))))))))))))))))) ] };

    fn decode_alternative<D: Decoder>(index: usize, decoder: &mut D) -> Result<Self, DecodeError> {
        match index {
            0 => read!(decoder, Tagging::Untagged, BindRequest),
            1 => read!(decoder, Tagging::Untagged, BindResponse),
            2 => read!(decoder, Tagging::Untagged, UnbindRequest),
            3 => read!(decoder, Tagging::Untagged, SearchRequest),
            4 => read!(decoder, Tagging::Untagged, SearchResEntry),
            5 => read!(decoder, Tagging::Untagged, SearchResDone),
            6 => read!(decoder, Tagging::Untagged, SearchResRef),
            7 => read!(decoder, Tagging::Untagged, ModifyRequest),
            8 => read!(decoder, Tagging::Untagged, ModifyResponse),
            9 => read!(decoder, Tagging::Untagged, AddRequest),
            10 => read!(decoder, Tagging::Untagged, AddResponse),
            11 => read!(decoder, Tagging::Untagged, DelRequest),
            12 => read!(decoder, Tagging::Untagged, DelResponse),
            13 => read!(decoder, Tagging::Untagged, ModDnRequest),
            14 => read!(decoder, Tagging::Untagged, ModDnResponse),
            15 => read!(decoder, Tagging::Untagged, CompareRequest),
            16 => read!(decoder, Tagging::Untagged, CompareResponse),
            17 => read!(decoder, Tagging::Untagged, AbandonRequest),
            18 => read!(decoder, Tagging::Untagged, ExtendedReq),
            19 => read!(decoder, Tagging::Untagged, ExtendedResp),
            20 => read!(decoder, Tagging::Untagged, IntermediateResponse),
            _ => Err(DecodeError::NoValidChoice("protocolOp")),
        }
    }

    ghost made = { elim [ BindRequest x ↦ (refl, λ _. refl) | BindResponse x ↦ (refl, λ _. refl) | UnbindRequest x ↦ (refl, λ _. refl) | SearchRequest x ↦ (refl, λ _. refl) | SearchResEntry x ↦ (refl, λ _. refl) | SearchResDone x ↦ (refl, λ _. refl) | SearchResRef x ↦ (refl, λ _. refl) | ModifyRequest x ↦ (refl, λ _. refl) | ModifyResponse x ↦ (refl, λ _. refl) | AddRequest x ↦ (refl, λ _. refl) | AddResponse x ↦ (refl, λ _. refl) | DelRequest x ↦ (refl, λ _. refl) | DelResponse x ↦ (refl, λ _. refl) | ModDnRequest x ↦ (refl, λ _. refl) | ModDnResponse x ↦ (refl, λ _. refl) | CompareRequest x ↦ (refl, λ _. refl) | CompareResponse x ↦ (refl, λ _. refl) | AbandonRequest x ↦ (refl, λ _. refl) | ExtendedReq x ↦ (refl, λ _. refl) | ExtendedResp x ↦ (refl, λ _. refl) | IntermediateResponse x ↦ (refl, λ _. refl) ] };
}

impl Choice for LdapMessageProtocolOp {
    ghost alternatives = { extensible_choice_after 20 ⟦<LdapMessageProtocolOp as DecodeChoiceByIndex>⟧.cases };

    ghost pick = { ⟦<LdapMessageProtocolOp as DecodeChoiceByIndex>⟧.case_of };

    fn variants() -> &'static [TagTree<'static>] {
        &LDAP_MESSAGE_PROTOCOL_OP[..20]
    }

    fn extended_variants() -> Option<&'static [TagTree<'static>]> {
        Some(&LDAP_MESSAGE_PROTOCOL_OP[20..])
    }

    fn identifiers() -> &'static [&'static str] {
        &[
            "bindRequest",
            "bindResponse",
            "unbindRequest",
            "searchRequest",
            "searchResEntry",
            "searchResDone",
            "searchResRef",
            "modifyRequest",
            "modifyResponse",
            "addRequest",
            "addResponse",
            "delRequest",
            "delResponse",
            "modDNRequest",
            "modDNResponse",
            "compareRequest",
            "compareResponse",
            "abandonRequest",
            "extendedReq",
            "extendedResp",
            "intermediateResponse",
        ]
    }
}

impl AsnType for LdapMessageProtocolOp {
    ghost meaning = { choice_of (codes "protocolOp") ⟦<LdapMessageProtocolOp as Choice>⟧.alternatives ⟦<LdapMessageProtocolOp as Choice>⟧.pick };

    fn table() -> TypeTable {
        TypeTable::choice(Identifier(Some("protocolOp")), LDAP_MESSAGE_PROTOCOL_OP)
    }

    fn is_present(&self) -> bool {
        true
    }
}

impl ChoiceType for LdapMessageProtocolOp {
    ghost agrees = { choice_agrees };
}

/// A `LdapMessageProtocolOp` can be inside other types.
#[tactic(auto, using(asn1_schema::proofs::Trees::tree_shapes, crate::proofs::FilterTags::knot_can))]
pub fn ldap_message_protocol_op_is_well_tagged()
    ensures { IsWellTagged ⟦<LdapMessageProtocolOp as AsnType>⟧.meaning }
{}

impl Encode for LdapMessageProtocolOp {
    fn encode_with_tag_and_constraints<E: Encoder>(
        &self,
        encoder: &mut E,
        tag: Tag,
        constraints: &Constraints<'_>,
        name: Identifier,
    ) -> Result<(), EncodeError> {
        encoder.encode_choice_with_tag(tag, constraints, self, name)
    }
}

impl EncodeChoice for LdapMessageProtocolOp {
    fn chosen_tag(&self) -> Tag {
        match self {
            Self::BindRequest(_) => tag!(application 0),
            Self::BindResponse(_) => tag!(application 1),
            Self::UnbindRequest(_) => tag!(application 2),
            Self::SearchRequest(_) => tag!(application 3),
            Self::SearchResEntry(_) => tag!(application 4),
            Self::SearchResDone(_) => tag!(application 5),
            Self::SearchResRef(_) => tag!(application 19),
            Self::ModifyRequest(_) => tag!(application 6),
            Self::ModifyResponse(_) => tag!(application 7),
            Self::AddRequest(_) => tag!(application 8),
            Self::AddResponse(_) => tag!(application 9),
            Self::DelRequest(_) => tag!(application 10),
            Self::DelResponse(_) => tag!(application 11),
            Self::ModDnRequest(_) => tag!(application 12),
            Self::ModDnResponse(_) => tag!(application 13),
            Self::CompareRequest(_) => tag!(application 14),
            Self::CompareResponse(_) => tag!(application 15),
            Self::AbandonRequest(_) => tag!(application 16),
            Self::ExtendedReq(_) => tag!(application 23),
            Self::ExtendedResp(_) => tag!(application 24),
            Self::IntermediateResponse(_) => tag!(application 25),
        }
    }

    fn encode_alternative<E: Encoder>(&self, encoder: &mut E) -> Result<(), EncodeError> {
        match self {
            Self::BindRequest(value) => value.encode(encoder),
            Self::BindResponse(value) => value.encode(encoder),
            Self::UnbindRequest(value) => value.encode(encoder),
            Self::SearchRequest(value) => value.encode(encoder),
            Self::SearchResEntry(value) => value.encode(encoder),
            Self::SearchResDone(value) => value.encode(encoder),
            Self::SearchResRef(value) => value.encode(encoder),
            Self::ModifyRequest(value) => value.encode(encoder),
            Self::ModifyResponse(value) => value.encode(encoder),
            Self::AddRequest(value) => value.encode(encoder),
            Self::AddResponse(value) => value.encode(encoder),
            Self::DelRequest(value) => value.encode(encoder),
            Self::DelResponse(value) => value.encode(encoder),
            Self::ModDnRequest(value) => value.encode(encoder),
            Self::ModDnResponse(value) => value.encode(encoder),
            Self::CompareRequest(value) => value.encode(encoder),
            Self::CompareResponse(value) => value.encode(encoder),
            Self::AbandonRequest(value) => value.encode(encoder),
            Self::ExtendedReq(value) => value.encode(encoder),
            Self::ExtendedResp(value) => value.encode(encoder),
            Self::IntermediateResponse(value) => value.encode(encoder),
        }
    }
}

impl Decode for LdapMessageProtocolOp {
    fn decode_with_tag_and_constraints<D: Decoder>(
        decoder: &mut D,
        tag: Tag,
        constraints: &Constraints<'_>,
    ) -> Result<Self, DecodeError> {
        decoder.decode_choice_with_tag(tag, constraints)
    }
}

impl DecodeChoice for LdapMessageProtocolOp {
    fn from_tag<D: Decoder>(decoder: &mut D, tag: Tag) -> Result<Self, DecodeError> {
        from_tag_by_index(decoder, tag)
    }
}
