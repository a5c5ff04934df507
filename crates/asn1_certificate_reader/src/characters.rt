//! The characters of strings.
ghost use Rattle.std.specs.Char.Utf16.{utf16_lossy_chars};
ghost use Rattle.std.specs.List.{list_all};
ghost use Rattle.std.specs.Option.{option_map};
ghost use Rattle.std.specs.Prelude.{◌≡◌, IfOk, map};
ghost use Rattle.std.specs.Str.{chars};
ghost use Rattle.asn1_certificate_reader.specs.Characters.{directory_characters, teletex_character, visible_characters};
ghost use Rattle.asn1_values.specs.Alphabets.{is_visible};

use asn1_values::kind::Visible;
use asn1_values::{Alphabet, Ia5String};
use asn1_x509::DirectoryString;
use std::alloc::{AllocError, Global};

/// The characters of a DirectoryString.
pub(crate) fn directory_characters(
    alloc: Global,
    directory: &DirectoryString,
) -> Result<Vec<char>, AllocError>
    ensures { IfOk result (λ characters. characters.items ≡ directory_characters directory.now) }
{
    match directory {
        DirectoryString::TeletexString(teletex) => teletex_characters(alloc, teletex.as_slice()),
        DirectoryString::PrintableString(printable) => text_characters(alloc, printable.as_str()),
        DirectoryString::UniversalString(universal) => universal.characters(alloc),
        DirectoryString::Utf8String(utf8) => text_characters(alloc, utf8.as_str()),
        DirectoryString::BmpString(bmp) => utf16_characters(alloc, bmp.as_slice()),
    }
}

/// The characters of an IA5String.
pub(crate) fn ascii_characters(alloc: Global, ascii: &Ia5String) -> Result<Vec<char>, AllocError>
    ensures { IfOk result (λ characters. characters.items ≡ chars ascii.now) }
{
    text_characters(alloc, ascii.as_str())
}

/// The characters of octets, if each is that of a printable character of ASCII, as those of a VisibleString are.
pub(crate) fn visible_characters(
    alloc: Global,
    octets: &[u8],
) -> Result<Option<Vec<char>>, AllocError>
    ensures { IfOk result (λ found.
        option_map (λ v. v.items) found ≡ visible_characters octets.now) }
{
    if !are_visible(octets) {
        return Ok(None);
    }
    let mut characters = Vec::new(alloc);
    for octet in octets {
        characters.push(char::from(*octet))?;
    }
    Ok(Some(characters))
}

/// Whether each octet is that of a printable character of ASCII.
fn are_visible(octets: &[u8]) -> bool
    ensures { result ≡ list_all is_visible octets.now }
{
    octets.iter().all(|octet| Visible::allows(octet))
}

/// The characters of a text.
#[tactic(auto, using(std::proofs::lemmas::Str::chars_from_encodes))]
pub(crate) fn text_characters(alloc: Global, text: &str) -> Result<Vec<char>, AllocError>
    ensures { IfOk result (λ characters. characters.items ≡ chars text.now) }
{
    text.chars().collect(alloc)
}

/// The units of a TeletexString as characters of Latin-1, as most who write one mean them.
fn teletex_characters(alloc: Global, units: &[u32]) -> Result<Vec<char>, AllocError>
    ensures { IfOk result (λ characters.
        characters.items ≡ map teletex_character units.now) }
{
    let mut characters = Vec::new(alloc);
    for unit in units {
        characters.push(teletex_character(*unit))?;
    }
    Ok(characters)
}

/// The character of a unit.
#[tactic(auto, using(crate::proofs::CharactersOfUnits::character_or_replacement))]
fn teletex_character(unit: u32) -> char
    ensures { result ≡ teletex_character unit }
{
    char::from_u32(unit).unwrap_or(char::REPLACEMENT_CHARACTER)
}

/// The characters of units, read as UTF-16.
fn utf16_characters(alloc: Global, units: &[u16]) -> Result<Vec<char>, AllocError>
    ensures { IfOk result (λ characters. characters.items ≡ utf16_lossy_chars units.now) }
{
    let text = String::from_utf16_lossy(alloc, units)?;
    text_characters(alloc, text.as_str())
}
