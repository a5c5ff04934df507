//! The markers that tell the kinds of string apart, and the alphabets of those that have one.
//!
//! A marker is a type without values. It is the last argument of [`UnitString`](crate::UnitString) or
//! [`AlphabetString`](crate::AlphabetString), so that two kinds with the same units are two types.
use crate::strings::alphabet_string::Alphabet;
use crate::strings::ascii_text::AsciiAlphabet;

/// The kind of BIT STRING.
#[derive(Drop)]
pub enum Bits {}

/// The kind of BIT STRING whose bits lie in octets.
#[derive(Drop)]
pub enum PackedBits {}

/// The kind of BIT STRING with named bits (X.680, 22.7), whose last bit is 1.
#[derive(Drop)]
pub enum NamedBits {}

/// The kind of OCTET STRING.
#[derive(Drop)]
pub enum Octets {}

/// The kind of OBJECT IDENTIFIER.
#[derive(Drop)]
pub enum Arcs {}

/// The kind of GeneralString.
#[derive(Drop)]
pub enum General {}

/// The kind of GraphicString.
#[derive(Drop)]
pub enum Graphic {}

/// The kind of TeletexString.
#[derive(Drop)]
pub enum Teletex {}

/// The kind of BMPString.
#[derive(Drop)]
pub enum Bmp {}

/// The kind of VisibleString, and its alphabet.
#[derive(Drop)]
pub enum Visible {}

impl Alphabet<u8> for Visible {
    ghost use Rattle.asn1_strings.specs.Alphabets.{is_visible};

    ghost allows = { is_visible };

    fn allows(unit: &u8) -> bool {
        *unit == b' ' || unit.is_ascii_graphic()
    }
}

impl AsciiAlphabet for Visible {
    ghost use Rattle.asn1_strings.specs.Alphabets.{is_visible-ascii};

    ghost is_inside_ascii = { is_visible-ascii };
}

/// The kind of IA5String, and its alphabet.
#[derive(Drop)]
pub enum Ia5 {}

impl Alphabet<u8> for Ia5 {
    ghost use Rattle.asn1_strings.specs.Alphabets.{is_ia5};

    ghost allows = { is_ia5 };

    fn allows(unit: &u8) -> bool {
        unit.is_ascii()
    }
}

impl AsciiAlphabet for Ia5 {
    ghost use Rattle.asn1_strings.specs.Alphabets.{is_ia5-ascii};

    ghost is_inside_ascii = { is_ia5-ascii };
}

/// The kind of NumericString, and its alphabet.
#[derive(Drop)]
pub enum Numeric {}

impl Alphabet<u8> for Numeric {
    ghost use Rattle.asn1_strings.specs.Alphabets.{is_numeric};

    ghost allows = { is_numeric };

    fn allows(unit: &u8) -> bool {
        *unit == b' ' || unit.is_ascii_digit()
    }
}

impl AsciiAlphabet for Numeric {
    ghost use Rattle.asn1_strings.specs.Alphabets.{is_numeric-ascii};

    ghost is_inside_ascii = { is_numeric-ascii };
}

/// The kind of PrintableString, and its alphabet.
#[derive(Drop)]
pub enum Printable {}

impl Alphabet<u8> for Printable {
    ghost use Rattle.asn1_strings.specs.Alphabets.{is_printable};

    ghost allows = { is_printable };

    fn allows(unit: &u8) -> bool {
        unit.is_ascii_alphanumeric() || b" '()+,-./:=?".contains(unit)
    }
}

impl AsciiAlphabet for Printable {
    ghost use Rattle.asn1_strings.specs.Alphabets.{is_printable-ascii};

    ghost is_inside_ascii = { is_printable-ascii };
}
