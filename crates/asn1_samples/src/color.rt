//! `Color ::= ENUMERATED { red(0), green(1), ..., blue(5) }`
ghost use Rattle.std.specs.Prelude.{codes, refl};
ghost use Rattle.asn1_types.specs.Words.{IsWellTagged, by_test, enumeration_agrees, enumeration_type, extensible_enumeration, items_of};
ghost use Rattle.asn1_samples.specs.declared.color.Color.TheVariants.{Red, Green, Blue};

use asn1_dec::{Decode, DecodeError, Decoder};
use asn1_enc::{Encode, EncodeError, Encoder};
use asn1_types::{
    AsnType, Constraints, Enumerated, EnumeratedItems, EnumerationItem, Identifier, Tag, TypeTable,
};

/// One of three colors.
#[derive(Clone, Copy, PartialEq, Eq, Debug)]
pub enum Color {
    /// `red(0)`
    Red,
    /// `green(1)`
    Green,
    /// `blue(5)`, after the extension marker
    Blue,
}

const ROOT: &[EnumerationItem<Color>] = &[(Color::Red, 0, "red"), (Color::Green, 1, "green")];

const ADDITIONS: &[EnumerationItem<Color>] = &[(Color::Blue, 5, "blue")];

impl EnumeratedItems for Color {
    ghost use Rattle.asn1_samples.specs.declared.color.TheConstants.{ADDITIONS, ROOT};

    ghost enumeration = { extensible_enumeration (items_of ROOT.now) (items_of ADDITIONS.now) };

    fn items() -> &'static [EnumerationItem<Color>] {
        ROOT
    }

    fn added_items() -> Option<&'static [EnumerationItem<Color>]> {
        Some(ADDITIONS)
    }
}

impl AsnType for Color {
    ghost meaning = { enumeration_type (codes "Color") ⟦<Color as EnumeratedItems>⟧.enumeration ⟦<Color as PartialEq>⟧.eq };

    fn table() -> TypeTable {
        TypeTable::new(Tag::ENUMERATED, Identifier(Some("Color")))
    }

    fn is_present(&self) -> bool {
        true
    }
}

impl Enumerated for Color {
    ghost complete = { elim [ Red ↦ refl | Green ↦ refl | Blue ↦ refl ] };

    ghost lawful = { by_test refl };

    ghost agrees = { enumeration_agrees };
}

/// A `Color` is well tagged.
pub fn color_is_well_tagged()
    ensures { IsWellTagged ⟦<Color as AsnType>⟧.meaning }
{}

impl Encode for Color {
    fn encode_with_tag_and_constraints<E: Encoder>(
        &self,
        encoder: &mut E,
        tag: Tag,
        _constraints: &Constraints<'_>,
        name: Identifier,
    ) -> Result<(), EncodeError> {
        encoder.encode_enumerated(tag, self, name)
    }
}

impl Decode for Color {
    fn decode_with_tag_and_constraints<D: Decoder>(
        decoder: &mut D,
        tag: Tag,
        _constraints: &Constraints<'_>,
    ) -> Result<Color, DecodeError> {
        decoder.decode_enumerated(tag)
    }
}
