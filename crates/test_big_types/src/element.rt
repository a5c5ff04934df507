//! `Element ::= ENUMERATED { hydrogen(1), helium(2), .. palladium(46) }`, by atomic number.
ghost use Rattle.std.specs.Prelude.{codes, refl};
ghost use Rattle.asn1_schema.specs.Words.{IsWellTagged, by_test, closed_enumeration, enumeration_agrees, enumeration_type, items_of};
ghost use Rattle.test_big_types.specs.declared.element.Element.TheVariants.{Hydrogen, Helium, Lithium, Beryllium, Boron, Carbon, Nitrogen, Oxygen, Fluorine, Neon, Sodium, Magnesium, Aluminium, Silicon, Phosphorus, Sulfur, Chlorine, Argon, Potassium, Calcium, Scandium, Titanium, Vanadium, Chromium, Manganese, Iron, Cobalt, Nickel, Copper, Zinc, Gallium, Germanium, Arsenic, Selenium, Bromine, Krypton, Rubidium, Strontium, Yttrium, Zirconium, Niobium, Molybdenum, Technetium, Ruthenium, Rhodium, Palladium};

use asn1_schema::{
    AsnType, Constraints, Decode, DecodeError, Decoder, Encode, EncodeError, Encoder, Enumerated,
    EnumeratedItems, EnumerationItem, Identifier, Tag, TypeTable,
};

/// One of the first 46 chemical elements.
#[derive(Clone, Copy, PartialEq, Eq, Debug)]
pub enum Element {
    /// `hydrogen(1)`
    Hydrogen,
    /// `helium(2)`
    Helium,
    /// `lithium(3)`
    Lithium,
    /// `beryllium(4)`
    Beryllium,
    /// `boron(5)`
    Boron,
    /// `carbon(6)`
    Carbon,
    /// `nitrogen(7)`
    Nitrogen,
    /// `oxygen(8)`
    Oxygen,
    /// `fluorine(9)`
    Fluorine,
    /// `neon(10)`
    Neon,
    /// `sodium(11)`
    Sodium,
    /// `magnesium(12)`
    Magnesium,
    /// `aluminium(13)`
    Aluminium,
    /// `silicon(14)`
    Silicon,
    /// `phosphorus(15)`
    Phosphorus,
    /// `sulfur(16)`
    Sulfur,
    /// `chlorine(17)`
    Chlorine,
    /// `argon(18)`
    Argon,
    /// `potassium(19)`
    Potassium,
    /// `calcium(20)`
    Calcium,
    /// `scandium(21)`
    Scandium,
    /// `titanium(22)`
    Titanium,
    /// `vanadium(23)`
    Vanadium,
    /// `chromium(24)`
    Chromium,
    /// `manganese(25)`
    Manganese,
    /// `iron(26)`
    Iron,
    /// `cobalt(27)`
    Cobalt,
    /// `nickel(28)`
    Nickel,
    /// `copper(29)`
    Copper,
    /// `zinc(30)`
    Zinc,
    /// `gallium(31)`
    Gallium,
    /// `germanium(32)`
    Germanium,
    /// `arsenic(33)`
    Arsenic,
    /// `selenium(34)`
    Selenium,
    /// `bromine(35)`
    Bromine,
    /// `krypton(36)`
    Krypton,
    /// `rubidium(37)`
    Rubidium,
    /// `strontium(38)`
    Strontium,
    /// `yttrium(39)`
    Yttrium,
    /// `zirconium(40)`
    Zirconium,
    /// `niobium(41)`
    Niobium,
    /// `molybdenum(42)`
    Molybdenum,
    /// `technetium(43)`
    Technetium,
    /// `ruthenium(44)`
    Ruthenium,
    /// `rhodium(45)`
    Rhodium,
    /// `palladium(46)`
    Palladium,
}

const ELEMENTS: &[EnumerationItem<Element>] = &[
    (Element::Hydrogen, 1, "hydrogen"),
    (Element::Helium, 2, "helium"),
    (Element::Lithium, 3, "lithium"),
    (Element::Beryllium, 4, "beryllium"),
    (Element::Boron, 5, "boron"),
    (Element::Carbon, 6, "carbon"),
    (Element::Nitrogen, 7, "nitrogen"),
    (Element::Oxygen, 8, "oxygen"),
    (Element::Fluorine, 9, "fluorine"),
    (Element::Neon, 10, "neon"),
    (Element::Sodium, 11, "sodium"),
    (Element::Magnesium, 12, "magnesium"),
    (Element::Aluminium, 13, "aluminium"),
    (Element::Silicon, 14, "silicon"),
    (Element::Phosphorus, 15, "phosphorus"),
    (Element::Sulfur, 16, "sulfur"),
    (Element::Chlorine, 17, "chlorine"),
    (Element::Argon, 18, "argon"),
    (Element::Potassium, 19, "potassium"),
    (Element::Calcium, 20, "calcium"),
    (Element::Scandium, 21, "scandium"),
    (Element::Titanium, 22, "titanium"),
    (Element::Vanadium, 23, "vanadium"),
    (Element::Chromium, 24, "chromium"),
    (Element::Manganese, 25, "manganese"),
    (Element::Iron, 26, "iron"),
    (Element::Cobalt, 27, "cobalt"),
    (Element::Nickel, 28, "nickel"),
    (Element::Copper, 29, "copper"),
    (Element::Zinc, 30, "zinc"),
    (Element::Gallium, 31, "gallium"),
    (Element::Germanium, 32, "germanium"),
    (Element::Arsenic, 33, "arsenic"),
    (Element::Selenium, 34, "selenium"),
    (Element::Bromine, 35, "bromine"),
    (Element::Krypton, 36, "krypton"),
    (Element::Rubidium, 37, "rubidium"),
    (Element::Strontium, 38, "strontium"),
    (Element::Yttrium, 39, "yttrium"),
    (Element::Zirconium, 40, "zirconium"),
    (Element::Niobium, 41, "niobium"),
    (Element::Molybdenum, 42, "molybdenum"),
    (Element::Technetium, 43, "technetium"),
    (Element::Ruthenium, 44, "ruthenium"),
    (Element::Rhodium, 45, "rhodium"),
    (Element::Palladium, 46, "palladium"),
];

impl EnumeratedItems for Element {
    ghost use Rattle.test_big_types.specs.declared.element.TheConstants.{ELEMENTS};

    ghost enumeration = { closed_enumeration (items_of ELEMENTS.now) };

    fn items() -> &'static [EnumerationItem<Element>] {
        ELEMENTS
    }

    fn added_items() -> Option<&'static [EnumerationItem<Element>]> {
        None
    }
}

impl AsnType for Element {
    ghost meaning = { enumeration_type (codes "Element") ⟦<Element as EnumeratedItems>⟧.enumeration ⟦<Element as PartialEq>⟧.eq };

    fn table() -> TypeTable {
        TypeTable::new(Tag::ENUMERATED, Identifier(Some("Element")))
    }

    fn is_present(&self) -> bool {
        true
    }
}

impl Enumerated for Element {
    ghost complete = { elim [ Hydrogen ↦ refl | Helium ↦ refl | Lithium ↦ refl | Beryllium ↦ refl | Boron ↦ refl | Carbon ↦ refl | Nitrogen ↦ refl | Oxygen ↦ refl | Fluorine ↦ refl | Neon ↦ refl | Sodium ↦ refl | Magnesium ↦ refl | Aluminium ↦ refl | Silicon ↦ refl | Phosphorus ↦ refl | Sulfur ↦ refl | Chlorine ↦ refl | Argon ↦ refl | Potassium ↦ refl | Calcium ↦ refl | Scandium ↦ refl | Titanium ↦ refl | Vanadium ↦ refl | Chromium ↦ refl | Manganese ↦ refl | Iron ↦ refl | Cobalt ↦ refl | Nickel ↦ refl | Copper ↦ refl | Zinc ↦ refl | Gallium ↦ refl | Germanium ↦ refl | Arsenic ↦ refl | Selenium ↦ refl | Bromine ↦ refl | Krypton ↦ refl | Rubidium ↦ refl | Strontium ↦ refl | Yttrium ↦ refl | Zirconium ↦ refl | Niobium ↦ refl | Molybdenum ↦ refl | Technetium ↦ refl | Ruthenium ↦ refl | Rhodium ↦ refl | Palladium ↦ refl ] };

    ghost lawful = { by_test refl };

    ghost agrees = { enumeration_agrees };
}

/// An `Element` can be inside other types.
pub fn element_is_well_tagged()
    ensures { IsWellTagged ⟦<Element as AsnType>⟧.meaning }
{}

impl Encode for Element {
    fn encode_with_tag_and_constraints<E: Encoder>(
        &self,
        encoder: &mut E,
        tag: Tag,
        _constraints: &Constraints<'_>,
        name: Identifier,
    ) -> Result<(), EncodeError> {
        encoder.encode_enumerated(tag, self, name)
    }
}

impl Decode for Element {
    fn decode_with_tag_and_constraints<D: Decoder>(
        decoder: &mut D,
        tag: Tag,
        _constraints: &Constraints<'_>,
    ) -> Result<Element, DecodeError> {
        decoder.decode_enumerated(tag)
    }
}
