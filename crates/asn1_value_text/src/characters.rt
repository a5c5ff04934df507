//! Strings of characters as texts.

use asn1_contents::UniversalString;
use asn1_types::{AnyStr, OctetKind};
use asn1_values::shown::is_shown;
use std::alloc::{AllocError, Global};
use std::str;

/// The numbers of the characters of a string, if it is one of characters (X.680, 41): those of Unicode, and of octets the octets.
pub(crate) fn character_numbers(
    alloc: Global,
    string: AnyStr<'_>,
) -> Result<Option<Vec<u32>>, AllocError> {
    match string {
        AnyStr::Bits(_) | AnyStr::PackedBits(_) | AnyStr::Octets(OctetKind::OctetString, _) => {
            Ok(None)
        }
        AnyStr::Octets(OctetKind::Utf8, octets) => numbers_of_utf8(alloc, octets),
        AnyStr::Octets(_, octets) => {
            let numbers = octets.iter().map(|octet| u32::from(*octet)).collect(alloc)?;
            Ok(Some(numbers))
        }
        AnyStr::Bmp(units) => {
            let numbers = units.iter().map(|unit| u32::from(*unit)).collect(alloc)?;
            Ok(Some(numbers))
        }
        AnyStr::Teletex(units) => {
            let numbers = units.iter().copied().collect(alloc)?;
            Ok(Some(numbers))
        }
    }
}

/// The text of a UniversalString that is kept as its octets.
pub(crate) fn universal_text(
    alloc: Global,
    string: AnyStr<'_>,
) -> Result<Option<String>, AllocError> {
    let AnyStr::Octets(OctetKind::OctetString, octets) = string else {
        return Ok(None);
    };
    match UniversalString::new(octets.to_vec(alloc)?) {
        Some(universal) => Ok(Some(universal.text(alloc)?)),
        None => Ok(None),
    }
}

/// The numbers of the characters of UTF-8; `None` of other octets.
fn numbers_of_utf8(alloc: Global, octets: &[u8]) -> Result<Option<Vec<u32>>, AllocError> {
    let Ok(text) = str::from_utf8(octets) else {
        return Ok(None);
    };
    let numbers = text
        .chars()
        .map(|character| character as u32)
        .collect(alloc)?;
    Ok(Some(numbers))
}

/// The character of this number, if a line can show it: no control, and none that changes the direction of others
/// or ends a line or a paragraph.
pub(crate) fn shown_character(number: u32) -> Option<char> {
    char::from_u32(number).filter(|character| is_shown(*character))
}
