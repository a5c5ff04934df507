//! Octets, bits and characters as a person reads them: the texts of `{:?}`.
//!
//! No contract covers these texts but for [`is_shown`].
ghost use Rattle.std.specs.Prelude.{◌≡◌};
ghost use Rattle.asn1_strings.specs.Shown.{is_shown, turns_or_ends_line};

use crate::strings::bit_vec::BitVec;
use std::{fmt, str};

/// Whether a line can show the character: it is no control, and none that changes the direction of others or ends a line or a
/// paragraph.
pub fn is_shown(character: char) -> bool
    ensures { result ≡ is_shown character }
{
    !(character.is_control() || turns_or_ends_line(character))
}

/// Whether a character changes the direction in which others are written, or ends a line or a paragraph.
fn turns_or_ends_line(character: char) -> bool
    ensures { result ≡ turns_or_ends_line character }
{
    matches!(
        character,
        '\u{61c}' | '\u{200e}'..='\u{200f}' | '\u{2028}'..='\u{202e}' | '\u{2066}'..='\u{2069}'
    )
}

/// The text that octets are in UTF-8, if a line can show all of its characters.
pub fn shown_text(octets: &[u8]) -> Option<&str> {
    let text = str::from_utf8(octets).ok()?;
    if text.chars().all(is_shown) {
        Some(text)
    } else {
        None
    }
}

/// Writes octets as a text in quotes, as `"cn"`, if a line can show it, and otherwise in hexadecimal, as `'0A'H`.
pub fn write_octets<W: fmt::Write>(octets: &[u8], f: &mut fmt::Formatter<W>) -> fmt::Result {
    match shown_text(octets) {
        Some(text) => write!(f, "{text:?}"),
        None => write_hexadecimal(octets, f),
    }
}

/// Writes octets as a hexadecimal string of X.680 (12.12), as `'0A'H`.
pub fn write_hexadecimal<W: fmt::Write>(octets: &[u8], f: &mut fmt::Formatter<W>) -> fmt::Result {
    f.write_str("'")?;
    for octet in octets {
        write!(f, "{:X}{:X}", octet / 16, octet % 16)?;
    }
    f.write_str("'H")
}

/// Writes bits as a binary string of X.680 (12.10), as `'101'B`.
pub fn write_bits<W: fmt::Write>(bits: &[bool], f: &mut fmt::Formatter<W>) -> fmt::Result {
    f.write_str("'")?;
    for bit in bits {
        f.write_str(if *bit { "1" } else { "0" })?;
    }
    f.write_str("'B")
}

/// Writes bits that lie in octets, as [`write_bits`] does.
pub fn write_packed_bits<W: fmt::Write>(bits: &BitVec, f: &mut fmt::Formatter<W>) -> fmt::Result {
    f.write_str("'")?;
    for bit in bits.iter() {
        f.write_str(if bit { "1" } else { "0" })?;
    }
    f.write_str("'B")
}

/// Writes characters, given by their numbers, as a text in quotes.
pub(crate) fn write_characters<W: fmt::Write, U: Copy + Into<u32>>(
    numbers: &[U],
    f: &mut fmt::Formatter<W>,
) -> fmt::Result {
    f.write_str("\"")?;
    for number in numbers {
        write_character((*number).into(), f)?;
    }
    f.write_str("\"")
}

/// Writes a character of a text in quotes: one that a line cannot show, or a number that is no character, as `\u{a}`.
fn write_character<W: fmt::Write>(number: u32, f: &mut fmt::Formatter<W>) -> fmt::Result {
    match char::from_u32(number) {
        Some('"') => f.write_str("\\\""),
        Some('\\') => f.write_str("\\\\"),
        Some(character) if is_shown(character) => f.write_char(character),
        _ => write!(f, "\\u{{{number:x}}}"),
    }
}
