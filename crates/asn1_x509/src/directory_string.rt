//! `DirectoryString` of the module `PKIX1Explicit88`.
//!
//! ```text
//! DirectoryString ::= CHOICE {
//!     teletexString TeletexString (SIZE (1..MAX)),
//!     printableString PrintableString (SIZE (1..MAX)),
//!     universalString UniversalString (SIZE (1..MAX)),
//!     utf8String UTF8String (SIZE (1..MAX)),
//!     bmpString BMPString (SIZE (1..MAX))
//! }
//! ```
ghost use Rattle.std.specs.Prelude.{[], codes, refl, ◌∷◌};
ghost use Rattle.asn1_schema.specs.Words.{IsWellTagged, choice_agrees, choice_of, choice_of_cases, inl, inr, untagged, variant};
ghost use Rattle.asn1_x509.specs.declared.directory_string.DirectoryString.TheVariants.{TeletexString, PrintableString, UniversalString, Utf8String, BmpString};
ghost use Rattle.asn1_model.specs.DistinctSets.{SetsAreDistinct};
ghost use Rattle.asn1_model.specs.WrittenAlike.{AreWrittenAlike};

use asn1_schema::{
    AsnType, BmpString, Choice, ChoiceType, Constraints, Decode, DecodeChoice, DecodeChoiceByIndex,
    DecodeError, Decoder, Encode, EncodeChoice, EncodeError, Encoder, Identifier, PrintableString,
    Tag, TagTree, Tagging, TeletexString, TypeTable, Utf8String, alternative, from_tag_by_index,
};

/// `DirectoryString` of the module `PKIX1Explicit88`.
#[derive(PartialEq, Eq, Debug, Drop)]
pub enum DirectoryString {
    /// `teletexString TeletexString (SIZE (1..MAX))`
    TeletexString(TeletexString),
    /// `printableString PrintableString (SIZE (1..MAX))`
    PrintableString(PrintableString),
    /// `universalString UniversalString (SIZE (1..MAX))`
    UniversalString(asn1_contents::UniversalString),
    /// `utf8String UTF8String (SIZE (1..MAX))`
    Utf8String(Utf8String),
    /// `bmpString BMPString (SIZE (1..MAX))`
    BmpString(BmpString),
}

/// The trees of the alternatives.
pub(crate) const DIRECTORY_STRING: &[TagTree<'static>] = &[
    TagTree::Leaf(Tag::TELETEX_STRING),
    TagTree::Leaf(Tag::PRINTABLE_STRING),
    TagTree::Leaf(Tag::UNIVERSAL_STRING),
    TagTree::Leaf(Tag::UTF8_STRING),
    TagTree::Leaf(Tag::BMP_STRING),
];

impl DecodeChoiceByIndex for DirectoryString {
    ghost cases = { variant (codes "teletexString") TeletexString (untagged ⟦<TeletexString as AsnType>⟧.meaning) ⟦<TeletexString as PartialEq>⟧.eq ∷
        variant (codes "printableString") PrintableString (untagged ⟦<PrintableString as AsnType>⟧.meaning) ⟦<PrintableString as PartialEq>⟧.eq ∷
        variant (codes "universalString") UniversalString (untagged ⟦<asn1_contents::UniversalString as AsnType>⟧.meaning) ⟦<asn1_contents::UniversalString as PartialEq>⟧.eq ∷
        variant (codes "utf8String") Utf8String (untagged ⟦<Utf8String as AsnType>⟧.meaning) ⟦<Utf8String as PartialEq>⟧.eq ∷
        variant (codes "bmpString") BmpString (untagged ⟦<BmpString as AsnType>⟧.meaning) ⟦<BmpString as PartialEq>⟧.eq ∷ [] };

    ghost case_of = { elim [ TeletexString x ↦ inl x | PrintableString x ↦ inr (inl x) | UniversalString x ↦ inr (inr (inl x)) | Utf8String x ↦ inr (inr (inr (inl x))) | BmpString x ↦ inr (inr (inr (inr (inl x)))) ] };

    fn decode_alternative<D: Decoder>(index: usize, decoder: &mut D) -> Result<Self, DecodeError> {
        match index {
            0 => Ok(Self::TeletexString(alternative(decoder, Tagging::Untagged)?)),
            1 => Ok(Self::PrintableString(alternative(decoder, Tagging::Untagged)?)),
            2 => Ok(Self::UniversalString(alternative(decoder, Tagging::Untagged)?)),
            3 => Ok(Self::Utf8String(alternative(decoder, Tagging::Untagged)?)),
            4 => Ok(Self::BmpString(alternative(decoder, Tagging::Untagged)?)),
            _ => Err(DecodeError::NoValidChoice("DirectoryString")),
        }
    }

    ghost made = { elim [ TeletexString x ↦ (refl, λ _. refl) | PrintableString x ↦ (refl, λ _. refl) | UniversalString x ↦ (refl, λ _. refl) | Utf8String x ↦ (refl, λ _. refl) | BmpString x ↦ (refl, λ _. refl) ] };
}

impl Choice for DirectoryString {
    ghost alternatives = { choice_of_cases ⟦<DirectoryString as DecodeChoiceByIndex>⟧.cases };

    ghost pick = { ⟦<DirectoryString as DecodeChoiceByIndex>⟧.case_of };

    fn variants() -> &'static [TagTree<'static>] {
        DIRECTORY_STRING
    }

    fn extended_variants() -> Option<&'static [TagTree<'static>]> {
        None
    }

    fn identifiers() -> &'static [&'static str] {
        &[
            "teletexString",
            "printableString",
            "universalString",
            "utf8String",
            "bmpString",
        ]
    }
}

impl AsnType for DirectoryString {
    ghost meaning = { choice_of (codes "DirectoryString") ⟦<DirectoryString as Choice>⟧.alternatives ⟦<DirectoryString as Choice>⟧.pick };

    fn table() -> TypeTable {
        TypeTable::choice(Identifier(Some("DirectoryString")), DIRECTORY_STRING)
    }

    fn is_present(&self) -> bool {
        true
    }
}

impl ChoiceType for DirectoryString {
    ghost agrees = { choice_agrees };
}

/// A `DirectoryString` can be inside other types.
pub fn directory_string_is_well_tagged()
    ensures { IsWellTagged ⟦<DirectoryString as AsnType>⟧.meaning }
{}

/// Equal values are written alike, and in each value the components of a SET have distinct tags. With `directory_string_is_well_tagged`
/// it follows that the DER of a value is its only spelling (`well_tagged_types_have_one_spelling` of `asn1_der`).
pub fn directory_string_has_one_spelling()
    ensures alike { AreWrittenAlike ⟦<DirectoryString as AsnType>⟧.meaning
        ⟦<DirectoryString as PartialEq>⟧.eq }
    ensures distinct { SetsAreDistinct ⟦<DirectoryString as AsnType>⟧.meaning }
{}

impl Encode for DirectoryString {
    fn encode_with_tag_and_constraints<E: Encoder>(
        &self,
        encoder: &mut E,
        tag: Tag,
        constraints: &Constraints<'_>,
        name: Identifier,
    ) -> Result<(), EncodeError> {
        encoder.encode_choice_with_tag(tag, constraints, self, name)
    }
}

impl EncodeChoice for DirectoryString {
    fn chosen_tag(&self) -> Tag {
        match self {
            Self::TeletexString(_) => Tag::TELETEX_STRING,
            Self::PrintableString(_) => Tag::PRINTABLE_STRING,
            Self::UniversalString(_) => Tag::UNIVERSAL_STRING,
            Self::Utf8String(_) => Tag::UTF8_STRING,
            Self::BmpString(_) => Tag::BMP_STRING,
        }
    }

    fn encode_alternative<E: Encoder>(&self, encoder: &mut E) -> Result<(), EncodeError> {
        match self {
            Self::TeletexString(value) => value.encode(encoder),
            Self::PrintableString(value) => value.encode(encoder),
            Self::UniversalString(value) => value.encode(encoder),
            Self::Utf8String(value) => value.encode(encoder),
            Self::BmpString(value) => value.encode(encoder),
        }
    }
}

impl Decode for DirectoryString {
    fn decode_with_tag_and_constraints<D: Decoder>(
        decoder: &mut D,
        tag: Tag,
        constraints: &Constraints<'_>,
    ) -> Result<Self, DecodeError> {
        decoder.decode_choice_with_tag(tag, constraints)
    }
}

impl DecodeChoice for DirectoryString {
    fn from_tag<D: Decoder>(decoder: &mut D, tag: Tag) -> Result<Self, DecodeError> {
        from_tag_by_index(decoder, tag)
    }
}
