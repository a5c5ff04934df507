//! `Name ::= CHOICE { rdnSequence RDNSequence }`
ghost use Rattle.std.specs.Prelude.{[], codes, refl, ◌∷◌};
ghost use Rattle.asn1_schema.specs.Words.{IsWellTagged, choice_agrees, choice_of, choice_of_cases, inl, untagged, variant};
ghost use Rattle.asn1_x509.specs.declared.name.Name.TheVariants.{RdnSequence};
ghost use Rattle.asn1_model.specs.DistinctSets.{SetsAreDistinct};
ghost use Rattle.asn1_model.specs.WrittenAlike.{AreWrittenAlike};

use crate::aliases::{RdnSequence, RelativeDistinguishedName};
use crate::attribute_type_and_value::{
    AttributeTypeAndValue, attribute_type_and_value_has_one_spelling,
};
use asn1_schema::{
    AsnType, Choice, ChoiceType, Constraints, Decode, DecodeChoice, DecodeChoiceByIndex,
    DecodeError, Decoder, Encode, EncodeChoice, EncodeError, Encoder, Identifier, Tag, TagTree,
    Tagging, TypeTable, alternative, from_tag_by_index,
};
use asn1_spelling::{
    equal_lists_are_written_alike, equal_sets_of_are_written_alike, sets_in_lists_are_distinct,
    sets_in_sets_of_are_distinct,
};

/// `Name` of the module `PKIX1Explicit88`.
#[derive(PartialEq, Eq, Debug, Drop)]
pub enum Name {
    /// `rdnSequence RDNSequence`
    RdnSequence(RdnSequence),
}

/// The trees of the alternatives.
pub(crate) const NAME: &[TagTree<'static>] = &[TagTree::Leaf(Tag::SEQUENCE)];

/// Reads the value of an alternative, and makes this variant of it.
macro_rules! read {
    ($decoder:expr, $tagging:expr, $variant:ident $(,)?) => {
        match alternative($decoder, $tagging) {
            Ok(value) => Ok(Name::$variant(value)),
            Err(error) => Err(error),
        }
    };
}

impl DecodeChoiceByIndex for Name {
    ghost cases = { variant (codes "rdnSequence") RdnSequence (untagged ⟦<RdnSequence as AsnType>⟧.meaning) ⟦<RdnSequence as PartialEq>⟧.eq ∷ [] };

    ghost case_of = { elim [ RdnSequence x ↦ inl x ] };

    fn decode_alternative<D: Decoder>(index: usize, decoder: &mut D) -> Result<Self, DecodeError> {
        match index {
            0 => read!(decoder, Tagging::Untagged, RdnSequence),
            _ => Err(DecodeError::NoValidChoice("Name")),
        }
    }

    ghost made = { elim [ RdnSequence x ↦ (refl, λ _. refl) ] };
}

impl Choice for Name {
    ghost alternatives = { choice_of_cases ⟦<Name as DecodeChoiceByIndex>⟧.cases };

    ghost pick = { ⟦<Name as DecodeChoiceByIndex>⟧.case_of };

    fn variants() -> &'static [TagTree<'static>] {
        NAME
    }

    fn extended_variants() -> Option<&'static [TagTree<'static>]> {
        None
    }

    fn identifiers() -> &'static [&'static str] {
        &["rdnSequence"]
    }
}

impl AsnType for Name {
    ghost meaning = { choice_of (codes "Name") ⟦<Name as Choice>⟧.alternatives ⟦<Name as Choice>⟧.pick };

    fn table() -> TypeTable {
        TypeTable::choice(Identifier(Some("Name")), NAME)
    }

    fn is_present(&self) -> bool {
        true
    }
}

impl ChoiceType for Name {
    ghost agrees = { choice_agrees };
}

/// A `Name` can be inside other types.
pub fn name_is_well_tagged()
    ensures { IsWellTagged ⟦<Name as AsnType>⟧.meaning }
{}

/// Equal values are written alike, and in each value the components of a SET have distinct tags. With `name_is_well_tagged`
/// it follows that the DER of a value is its only spelling (`well_tagged_types_have_one_spelling` of `asn1_der`).
pub fn name_has_one_spelling()
    ensures alike { AreWrittenAlike ⟦<Name as AsnType>⟧.meaning
        ⟦<Name as PartialEq>⟧.eq }
    ensures distinct { SetsAreDistinct ⟦<Name as AsnType>⟧.meaning }
{
    attribute_type_and_value_has_one_spelling();
    equal_sets_of_are_written_alike::<AttributeTypeAndValue>();
    equal_lists_are_written_alike::<RelativeDistinguishedName>();
    sets_in_sets_of_are_distinct::<AttributeTypeAndValue>();
    sets_in_lists_are_distinct::<RelativeDistinguishedName>();
}

impl Encode for Name {
    fn encode_with_tag_and_constraints<E: Encoder>(
        &self,
        encoder: &mut E,
        tag: Tag,
        constraints: &Constraints<'_>,
        name: Identifier,
    ) -> Result<(), EncodeError> {
        encoder.encode_choice_with_tag(tag, constraints, self, name)
    }
}

impl EncodeChoice for Name {
    fn chosen_tag(&self) -> Tag {
        match self {
            Self::RdnSequence(_) => Tag::SEQUENCE,
        }
    }

    fn encode_alternative<E: Encoder>(&self, encoder: &mut E) -> Result<(), EncodeError> {
        match self {
            Self::RdnSequence(value) => value.encode(encoder),
        }
    }
}

impl Decode for Name {
    fn decode_with_tag_and_constraints<D: Decoder>(
        decoder: &mut D,
        tag: Tag,
        constraints: &Constraints<'_>,
    ) -> Result<Self, DecodeError> {
        decoder.decode_choice_with_tag(tag, constraints)
    }
}

impl DecodeChoice for Name {
    fn from_tag<D: Decoder>(decoder: &mut D, tag: Tag) -> Result<Self, DecodeError> {
        from_tag_by_index(decoder, tag)
    }
}
