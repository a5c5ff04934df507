//! Strings in X.680's notation of values.

use crate::characters::{character_numbers, shown_character};
use crate::notation::{push_bits, push_octets, push_packed_bits};
use asn1_types::{AnyStr, OctetKind};
use asn1_values::shown::shown_text;
use std::alloc::{AllocError, Global};
use std::fmt::Write;

/// The characters of a string that are written between quotation marks, and the form of others.
#[derive(Clone, Copy)]
enum Repertoire {
    /// Those of Unicode that can be shown; others by group, plane, row and cell (X.680, 41.8).
    Unicode,
    /// Those of ASCII that can be shown; others by column and row, as in an IA5String (X.680, 41.8).
    Ascii,
    /// Those of ASCII that can be shown; others by group, plane, row and cell, for which X.680 has no notation.
    Octets,
}

impl Repertoire {
    /// The repertoire of the strings of a kind.
    fn of_kind(kind: OctetKind) -> Repertoire {
        match kind {
            OctetKind::Utf8 => Repertoire::Unicode,
            OctetKind::General | OctetKind::Graphic => Repertoire::Octets,
            _ => Repertoire::Ascii,
        }
    }

    /// The character of this number, if it is written between quotation marks.
    fn character(self, number: u32) -> Option<char> {
        match self {
            Repertoire::Unicode => shown_character(number),
            Repertoire::Ascii | Repertoire::Octets => {
                shown_character(number).filter(|character| character.is_ascii())
            }
        }
    }
}

/// Appends a string: a bstring, an hstring, with the text that the octets are in a comment, or a cstring. A string of characters of
/// which some are not written between quotation marks is a list in braces.
pub(crate) fn push_string(
    alloc: Global,
    text: &mut String,
    string: AnyStr<'_>,
) -> Result<(), AllocError> {
    match string {
        AnyStr::Bits(bits) => push_bits(text, bits),
        AnyStr::PackedBits(bits) => push_packed_bits(text, bits),
        AnyStr::Octets(OctetKind::OctetString, octets) => push_explained_octets(text, octets),
        AnyStr::Octets(kind, octets) => match character_numbers(alloc, string)? {
            Some(numbers) => push_characters(text, Repertoire::of_kind(kind), numbers.as_slice()),
            None => push_octets(text, octets),
        },
        AnyStr::Bmp(_) => push_numbers(alloc, text, Repertoire::Unicode, string),
        AnyStr::Teletex(_) => push_numbers(alloc, text, Repertoire::Octets, string),
    }
}

/// Appends the characters of a string.
fn push_numbers(
    alloc: Global,
    text: &mut String,
    repertoire: Repertoire,
    string: AnyStr<'_>,
) -> Result<(), AllocError> {
    match character_numbers(alloc, string)? {
        Some(numbers) => push_characters(text, repertoire, numbers.as_slice()),
        None => Ok(()),
    }
}

/// Appends octets, and in a comment the text that they are.
fn push_explained_octets(text: &mut String, octets: &[u8]) -> Result<(), AllocError> {
    push_octets(text, octets)?;
    match shown_text(octets) {
        Some(shown) if !shown.is_empty() && !shown.contains("--") => {
            write!(text, " -- \"{shown}\" --")
        }
        _ => Ok(()),
    }
}

/// Appends characters, as a cstring if it can have all of them (X.680, 12.14), else as a list of cstrings and coordinates.
fn push_characters(
    text: &mut String,
    repertoire: Repertoire,
    numbers: &[u32],
) -> Result<(), AllocError> {
    if numbers
        .iter()
        .all(|number| repertoire.character(*number).is_some())
    {
        return push_cstring(text, repertoire, numbers);
    }
    text.push('{')?;
    let mut is_first = true;
    for run in numbers.chunk_by(|a, b| are_quoted_together(repertoire, *a, *b)) {
        if !is_first {
            text.push_str(", ")?;
        }
        push_run(text, repertoire, run)?;
        is_first = false;
    }
    text.push('}')
}

fn are_quoted_together(repertoire: Repertoire, first: u32, second: u32) -> bool {
    repertoire.character(first).is_some() && repertoire.character(second).is_some()
}

/// Appends characters that are all written between quotation marks, or one that is not.
fn push_run(text: &mut String, repertoire: Repertoire, run: &[u32]) -> Result<(), AllocError> {
    match run {
        [number] if repertoire.character(*number).is_none() => {
            push_coordinates(text, repertoire, *number)
        }
        _ => push_cstring(text, repertoire, run),
    }
}

fn push_cstring(
    text: &mut String,
    repertoire: Repertoire,
    numbers: &[u32],
) -> Result<(), AllocError> {
    text.push('"')?;
    for number in numbers {
        if let Some(character) = repertoire.character(*number) {
            push_quoted(text, character)?;
        }
    }
    text.push('"')
}

/// Appends a character of a cstring, in which a quotation mark is doubled.
fn push_quoted(text: &mut String, character: char) -> Result<(), AllocError> {
    if character == '"' {
        text.push('"')?;
    }
    text.push(character)
}

/// Appends the coordinates of a character.
fn push_coordinates(
    text: &mut String,
    repertoire: Repertoire,
    number: u32,
) -> Result<(), AllocError> {
    match repertoire {
        Repertoire::Ascii => write!(text, "{{{}, {}}}", number / 16, number % 16),
        Repertoire::Unicode | Repertoire::Octets => {
            let [group, plane, row, cell] = number.to_be_bytes();
            write!(text, "{{{group}, {plane}, {row}, {cell}}}")
        }
    }
}
