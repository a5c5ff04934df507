//! Octets as hexadecimal digits.
ghost use Rattle.std.specs.Prelude.{◌≡◌, ◌<◌, false, is_some, IfErr, IfOk, IfSome};
ghost use Rattle.std.specs.Char.{is_ascii_hexdigit, to_ascii_lowercase};
ghost use Rattle.std.specs.Fmt.{digit_glyph};
ghost use Rattle.asn1_convert.specs.Digits.{AreDigitsOf, IsDigitsError};

use std::alloc::Global;

/// Why a text has no octets.
#[derive(Clone, Copy, Drop)]
pub(crate) enum DigitsError {
    /// There was no memory for them.
    Memory,
    /// The character at this position, from 0, is neither a digit nor white space; or the text ends there, and its last octet lacks a
    /// digit.
    At(usize),
}

/// The octets whose hexadecimal digits a text has, with white space anywhere.
///
/// # Errors
/// [`DigitsError::At`] with the first position at which the text is none.
pub(crate) fn octets_of_digits(alloc: Global, text: &[u8]) -> Result<Vec<u8>, DigitsError>
    ensures digits { IfOk result (λ octets. AreDigitsOf octets.items text.now) }
    ensures fault { IfErr result (IsDigitsError text.now) }
{
    let mut octets = Vec::new(alloc);
    let mut high = None;
    for (position, character) in text.iter().enumerate() {
        if character.is_ascii_whitespace() {
            continue;
        }
        let Some(digit) = value_of_digit(*character) else {
            return Err(DigitsError::At(position));
        };
        match high {
            None => high = Some(digit),
            Some(first) => {
                if octets.push(first * 16 + digit).is_err() {
                    return Err(DigitsError::Memory);
                }
                high = None;
            }
        }
    }
    match high {
        None => Ok(octets),
        Some(_) => Err(DigitsError::At(text.len())),
    }
}

/// The value of a hexadecimal digit.
fn value_of_digit(character: u8) -> Option<u8>
    ensures digit { is_ascii_hexdigit character ≡ is_some result }
    ensures below { IfSome result (λ value. value < 16) }
    ensures value { IfSome result (λ value.
        to_ascii_lowercase character ≡ digit_glyph false value) }
{
    match character {
        b'0'..=b'9' => Some(character - b'0'),
        b'a'..=b'f' => Some(character - b'a' + 10),
        b'A'..=b'F' => Some(character - b'A' + 10),
        _ => None,
    }
}
