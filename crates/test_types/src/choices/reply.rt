//! `Reply ::= CHOICE { accepted BOOLEAN, refused NULL, ..., later [0] INTEGER (0..255) }`
#![tactic(auto, using(asn1_tags::proofs::Leaves::tree_shapes))]

ghost use Rattle.std.specs.Prelude.{[], ◌∷◌, codes};
ghost use Rattle.std.proofs.Common.{inl, inr};
ghost use Rattle.asn1_model.specs.Tags.{context};
ghost use Rattle.asn1_model.specs.TaggedTypes.{tagged, untagged};
ghost use Rattle.asn1_components.specs.Alternatives.{alternative, extensible};
ghost use Rattle.asn1_components.specs.ChoiceTypes.{choice_of, choice_agrees};
ghost use Rattle.test_types.specs.declared.choices.reply.Reply.TheVariants.{Accepted, Refused, Later};

use asn1_components::{Choice, ChoiceType};
use asn1_model::{AsnType, TypeTable};
use asn1_tags::{Class, Identifier, Tag, TagTree};

/// A CHOICE with an alternative after the extension marker.
#[derive(Drop)]
pub(super) enum Reply {
    /// `accepted BOOLEAN`
    Accepted(bool),
    /// `refused NULL`
    Refused,
    /// `later [0] INTEGER (0..255)`, after the extension marker
    Later(u8),
}

const LATER: Tag = Tag {
    class: Class::Context,
    value: 0,
};

const REPLY: &[TagTree<'static>] = &[
    TagTree::Leaf(Tag::BOOL),
    TagTree::Leaf(Tag::NULL),
    TagTree::Leaf(LATER),
];

impl Choice for Reply {
    ghost alternatives = { extensible
        (alternative (codes "accepted") (untagged ⟦<bool as AsnType>⟧.meaning) ∷
        alternative (codes "refused") (untagged ⟦<() as AsnType>⟧.meaning) ∷ [])
        (alternative (codes "later") (tagged (context 0) ⟦<u8 as AsnType>⟧.meaning) ∷ []) };

    ghost pick = { elim [ Accepted b ↦ inl b | Refused ↦ inr (inl tt) | Later n ↦ inr (inr (inl n)) ] };

    fn variants() -> &'static [TagTree<'static>] {
        &REPLY[..2]
    }

    fn extended_variants() -> Option<&'static [TagTree<'static>]> {
        Some(&REPLY[2..])
    }

    fn identifiers() -> &'static [&'static str] {
        &["accepted", "refused", "later"]
    }
}

impl AsnType for Reply {
    ghost meaning = { choice_of (codes "Reply") ⟦<Reply as Choice>⟧.alternatives ⟦<Reply as Choice>⟧.pick };

    fn table() -> TypeTable {
        TypeTable::choice(Identifier(Some("Reply")), REPLY)
    }

    fn is_present(&self) -> bool {
        true
    }
}

impl ChoiceType for Reply {
    ghost agrees = { choice_agrees };
}
