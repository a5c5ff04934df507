//! `Open`: a CHOICE that holds itself, as rasn's `types::Open`.
ghost use Rattle.asn1_components.specs.ChoiceTypes.{itself_agrees};
ghost use Rattle.asn1_model.specs.Meaning.{IsWellTagged, own_records};
ghost use Rattle.asn1_model.specs.Records.{highest};
ghost use Rattle.asn1_model.specs.TaggedTypes.{untagged};
ghost use Rattle.asn1_nesting.specs.InsideItself.{eq_in_box, its_cases, itself_inside};
ghost use Rattle.asn1_open.specs.OpenAlternatives.{inner_instance, inner_open, open_agrees, open_alternatives, open_alternatives_with, open_meaning, open_means, open_pick};
ghost use Rattle.asn1_open.specs.declared.open_value.Open.{Open, BitString, Bool as Flag, Integer, Null, ObjectIdentifier, OctetString, UniversalString, VisibleString, InstanceOf as AnInstance, InstanceOf'};
ghost use Rattle.asn1_slots.specs.Cases.{variant};
ghost use Rattle.asn1_types.specs.declared.instance_of.InstanceOf.{InstanceOf as Instance};
ghost use Rattle.std.specs.Prelude.{◌≡◌, ◌≢◌, ◌+◌, ◌∷◌, [], Bool, List, codes, refl, ℕ};
ghost use Rattle.std.specs.declared.alloc.Global.{Global};
ghost use Rattle.std.specs.declared.boxed.Box.{Box};

use crate::open_reader::{read_alternative, read_open};
use asn1_dec::{Decode, DecodeChoice, DecodeError, Decoder};
use asn1_enc::{Encode, EncodeChoice, EncodeError, Encoder};
use asn1_nesting::HoldsItself;
use asn1_slots::{DecodeChoiceByIndex, from_tag_by_index};
use asn1_types::{
    AsnType, Choice, ChoiceType, Constraints, Identifier, Implicit, InstanceOf, Tag, TagTree,
    TypeTable, tag,
};
use asn1_values::{BitString, Integer, ObjectIdentifier, OctetString, Utf8String, VisibleString};

/// A value of one of nine types, each under its own tag.
#[derive(PartialEq, Eq, Debug, Drop)]
pub enum Open {
    /// A BIT STRING.
    BitString(BitString),
    /// A BOOLEAN.
    Bool(bool),
    /// An INTEGER of any size.
    Integer(Integer),
    /// A NULL.
    Null,
    /// An OBJECT IDENTIFIER.
    ObjectIdentifier(ObjectIdentifier),
    /// An OCTET STRING.
    OctetString(OctetString),
    /// A UniversalString.
    UniversalString(Implicit<tag::UNIVERSAL_STRING, Utf8String>),
    /// A VisibleString.
    VisibleString(VisibleString),
    /// An INSTANCE OF around another value.
    InstanceOf(Box<InstanceOf<Open>>),
}

const OPEN: &[TagTree<'static>] = &[
    TagTree::Leaf(Tag::BIT_STRING),
    TagTree::Leaf(Tag::BOOL),
    TagTree::Leaf(Tag::INTEGER),
    TagTree::Leaf(Tag::NULL),
    TagTree::Leaf(Tag::OBJECT_IDENTIFIER),
    TagTree::Leaf(Tag::OCTET_STRING),
    TagTree::Leaf(Tag::UNIVERSAL_STRING),
    TagTree::Leaf(Tag::VISIBLE_STRING),
    TagTree::Leaf(Tag::EXTERNAL),
];

impl Choice for Open {
    ghost alternatives = { open_alternatives };

    ghost pick = { open_pick };

    fn variants() -> &'static [TagTree<'static>] {
        OPEN
    }

    fn extended_variants() -> Option<&'static [TagTree<'static>]> {
        None
    }

    fn identifiers() -> &'static [&'static str] {
        &[
            "BitString",
            "Bool",
            "Integer",
            "Null",
            "ObjectIdentifier",
            "OctetString",
            "UniversalString",
            "VisibleString",
            "InstanceOf",
        ]
    }
}

impl AsnType for Open {
    ghost meaning = { open_meaning };

    fn table() -> TypeTable {
        TypeTable::choice(Identifier(Some("Open")), Open::variants())
    }

    fn is_present(&self) -> bool {
        true
    }
}

impl ChoiceType for Open {
    ghost agrees = { itself_agrees open_agrees };
}

/// An `Open` is well tagged: the tags of its alternatives are distinct.
pub fn open_is_well_tagged()
    ensures { IsWellTagged ⟦<Open as AsnType>⟧.meaning }
{}

/// Each `Open` is valid, however deep: none of its alternatives asks anything of whoever writes it.
#[tactic(auto, using(crate::proofs::OpenValues::each_open_valid))]
pub fn each_open_is_valid(value: &Open)
    ensures { (accepts : List ℕ → Bool) → ⟦<Open as AsnType>⟧.meaning.IsValid accepts value.now }
{}

/// How deep the scopes of an `Open` are nested: an INSTANCE OF takes three more than the value in
/// it, which are its own, a SEQUENCE and what follows the explicit tag; every other alternative
/// takes one.
#[tactic(auto, using(crate::proofs::OpenValues::instance_height, crate::proofs::OpenValues::flat_height))]
pub fn an_instance_is_three_deeper_than_its_value(value: &Open)
    ensures instance { (instance : Box (Instance Open) Global) → value.now ≡ AnInstance instance →
        highest (own_records ⟦<Open as AsnType>⟧.meaning value.now) ≡
        highest (own_records ⟦<Open as AsnType>⟧.meaning instance.value.value) + 3 }
    ensures others { ((instance : Box (Instance Open) Global) → value.now ≢ AnInstance instance) →
        highest (own_records ⟦<Open as AsnType>⟧.meaning value.now) ≡ 1 }
{}

impl Encode for Open {
    #[cycle(open_type)]
    fn encode_with_tag_and_constraints<E: Encoder>(
        &self,
        encoder: &mut E,
        tag: Tag,
        constraints: &Constraints<'_>,
        name: Identifier,
    ) -> Result<(), EncodeError> {
        encoder.encode_choice_with_tag(tag, constraints, self, name)
    }
}

impl EncodeChoice for Open {
    fn chosen_tag(&self) -> Tag {
        match self {
            Open::BitString(_) => Tag::BIT_STRING,
            Open::Bool(_) => Tag::BOOL,
            Open::Integer(_) => Tag::INTEGER,
            Open::Null => Tag::NULL,
            Open::ObjectIdentifier(_) => Tag::OBJECT_IDENTIFIER,
            Open::OctetString(_) => Tag::OCTET_STRING,
            Open::UniversalString(_) => Tag::UNIVERSAL_STRING,
            Open::VisibleString(_) => Tag::VISIBLE_STRING,
            Open::InstanceOf(_) => Tag::EXTERNAL,
        }
    }

    #[cycle(open_type)]
    fn encode_alternative<E: Encoder>(&self, encoder: &mut E) -> Result<(), EncodeError> {
        match self {
            Open::BitString(string) => string.encode(encoder),
            Open::Bool(flag) => flag.encode(encoder),
            Open::Integer(number) => number.encode(encoder),
            Open::Null => ().encode(encoder),
            Open::ObjectIdentifier(arcs) => arcs.encode(encoder),
            Open::OctetString(string) => string.encode(encoder),
            Open::UniversalString(string) => string.encode(encoder),
            Open::VisibleString(string) => string.encode(encoder),
            Open::InstanceOf(instance) => instance.encode(encoder),
        }
    }
}

impl HoldsItself for Open {
    ghost use Rattle.asn1_open.specs.contracts.open_value.OpenPartialEq.TheImpl.Laws.{is};

    ghost inside = { inner_open };

    ghost cases = { variant (codes "BitString") BitString (untagged ⟦<BitString as AsnType>⟧.meaning) ⟦<BitString as PartialEq>⟧.eq ∷
        variant (codes "Bool") Flag (untagged ⟦<bool as AsnType>⟧.meaning) ⟦<bool as PartialEq>⟧.eq ∷
        variant (codes "Integer") Integer (untagged ⟦<Integer as AsnType>⟧.meaning) ⟦<Integer as PartialEq>⟧.eq ∷
        variant (codes "Null") (λ nothing. Null) (untagged ⟦<() as AsnType>⟧.meaning) ⟦<() as PartialEq>⟧.eq ∷
        variant (codes "ObjectIdentifier") ObjectIdentifier (untagged ⟦<ObjectIdentifier as AsnType>⟧.meaning) ⟦<ObjectIdentifier as PartialEq>⟧.eq ∷
        variant (codes "OctetString") OctetString (untagged ⟦<OctetString as AsnType>⟧.meaning) ⟦<OctetString as PartialEq>⟧.eq ∷
        variant (codes "UniversalString") UniversalString (untagged ⟦<Implicit<tag::UNIVERSAL_STRING, Utf8String> as AsnType>⟧.meaning) ⟦<Implicit<tag::UNIVERSAL_STRING, Utf8String> as PartialEq>⟧.eq ∷
        variant (codes "VisibleString") VisibleString (untagged ⟦<VisibleString as AsnType>⟧.meaning) ⟦<VisibleString as PartialEq>⟧.eq ∷
        variant (codes "InstanceOf") AnInstance (untagged inner_instance) (eq_in_box ⟦<InstanceOf<Open> as PartialEq>⟧.eq) ∷ [] };

    ghost case_of = { open_pick };

    ghost made = { elim [
      | BitString string ↦ (refl, λ u. is _ _)
      | Flag flag ↦ (refl, λ u. is _ _)
      | Integer number ↦ (refl, λ u. is _ _)
      | Null ↦ (refl, λ u. is _ _)
      | ObjectIdentifier arcs ↦ (refl, λ u. is _ _)
      | OctetString string ↦ (refl, λ u. is _ _)
      | UniversalString string ↦ (refl, λ u. is _ _)
      | VisibleString string ↦ (refl, λ u. is _ _)
      | InstanceOf' place type_id value ↦ (refl, λ u. is _ _)
    ] };

    ghost are_cases = { its_cases };

    ghost is_inside = { itself_inside (codes "Open") open_alternatives_with open_means open_pick open_agrees refl };
}

impl Decode for Open {
    fn decode_with_tag_and_constraints<D: Decoder>(
        decoder: &mut D,
        tag: Tag,
        constraints: &Constraints<'_>,
    ) -> Result<Open, DecodeError> {
        read_open(decoder, tag, constraints)
    }
}

impl DecodeChoiceByIndex for Open {
    ghost use Rattle.asn1_open.specs.contracts.open_value.OpenHoldsItself.TheImpl.Laws.{made-law as its_made};

    ghost cases = { ⟦<Open as HoldsItself>⟧.cases };

    ghost case_of = { ⟦<Open as HoldsItself>⟧.case_of };

    fn decode_alternative<D: Decoder>(index: usize, decoder: &mut D) -> Result<Open, DecodeError> {
        read_alternative(index, decoder)
    }

    ghost made = { its_made };
}

impl DecodeChoice for Open {
    fn from_tag<D: Decoder>(decoder: &mut D, tag: Tag) -> Result<Open, DecodeError> {
        from_tag_by_index(decoder, tag)
    }
}
