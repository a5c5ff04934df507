//! UniversalString (X.680, 41.1).
ghost use Rattle.std.proofs.Math.Utf8.{scalar};
ghost use Rattle.std.specs.Option.{option_map};
ghost use Rattle.std.specs.Prelude.{◌≡◌, IfOk, Some, codes};
ghost use Rattle.std.specs.Str.{chars, encode_utf8_all};
ghost use Rattle.std.specs.String.{string_bytes};
ghost use Rattle.asn1_contents.specs.UniversalStrings.{is_universal_string, universal_characters, universal_octets};
ghost use Rattle.asn1_model.specs.Tags.{universal};

use crate::contents_kind::ContentsKind;
use crate::contents_string::ContentsString;
use asn1_model::TypeTable;
use asn1_tags::{Identifier, Tag};
use std::alloc::{AllocError, Global};

/// The kind of UniversalString.
#[derive(Drop)]
pub enum UniversalCharacters {}

/// A UniversalString: characters of ISO/IEC 10646 (X.680, 41.1). It is kept as the octets of X.690, 8.23.7: the number of each
/// character in four octets.
pub type UniversalString = ContentsString<UniversalCharacters>;

impl ContentsKind for UniversalCharacters {
    ghost type_tag = { universal 28 };

    ghost type_name = { codes "UniversalString" };

    ghost allows = { is_universal_string };

    #[inline(always)]
    fn type_table() -> TypeTable {
        TypeTable::new(Tag::UNIVERSAL_STRING, Identifier(Some("UniversalString")))
    }

    fn allows(octets: &[u8]) -> bool {
        are_characters(octets)
    }
}

impl ContentsString<UniversalCharacters> {
    /// The UniversalString of the characters of a text. The call fails only if memory runs out, as the others do.
    pub fn from_text(alloc: Global, text: &str) -> Result<Self, AllocError>
        ensures { IfOk result (λ own. own ≡ universal_octets (chars text.now)) }
    {
        let octets = octets_of(alloc, text)?;
        match ContentsString::new(octets) {
            Some(own) => Ok(own),
            None => Err(AllocError),
        }
    }

    /// Its characters.
    pub fn characters(&self, alloc: Global) -> Result<Vec<char>, AllocError>
        ensures { IfOk result (λ characters.
            universal_characters self.now ≡ Some characters.items) }
    {
        match universal_characters(alloc, self.as_slice())? {
            Some(characters) => Ok(characters),
            None => Err(AllocError),
        }
    }

    /// Its characters as a text.
    pub fn text(&self, alloc: Global) -> Result<String, AllocError>
        ensures { IfOk result (λ text.
            universal_characters self.now ≡ Some (chars (string_bytes text))) }
    {
        let characters = self.characters(alloc)?;
        let text = text_of(alloc, characters.as_slice())?;
        Ok(text)
    }
}

/// Whether octets are the numbers of characters, four octets each.
fn are_characters(octets: &[u8]) -> bool
    ensures { result ≡ is_universal_string octets.now }
{
    let mut left = octets;
    while let [a, b, c, d, rest @ ..] = left {
        if !is_character(u32::from_be_bytes([*a, *b, *c, *d])) {
            return false;
        }
        left = rest;
    }
    left.is_empty()
}

/// Whether a character has this number.
#[tactic(auto, using(crate::proofs::CharactersOfOctets::is_number))]
fn is_character(number: u32) -> bool
    ensures { result ≡ scalar number }
{
    char::from_u32(number).is_some()
}

/// The characters of octets that are their numbers, four octets each.
fn universal_characters(alloc: Global, octets: &[u8]) -> Result<Option<Vec<char>>, AllocError>
    ensures { IfOk result (λ found.
        option_map (λ v. v.items) found ≡ universal_characters octets.now) }
{
    let mut characters = Vec::new(alloc);
    let mut left = octets;
    while let [a, b, c, d, rest @ ..] = left {
        let Some(character) = char::from_u32(u32::from_be_bytes([*a, *b, *c, *d])) else {
            return Ok(None);
        };
        characters.push(character)?;
        left = rest;
    }
    if left.is_empty() {
        Ok(Some(characters))
    } else {
        Ok(None)
    }
}

/// The octets of the characters of a text.
fn octets_of(alloc: Global, text: &str) -> Result<Vec<u8>, AllocError>
    ensures { IfOk result (λ octets. octets.items ≡ universal_octets (chars text.now)) }
{
    let characters = characters_of(alloc, text)?;
    let mut octets = Vec::new(alloc);
    for character in &characters {
        octets.extend_from_slice(&u32::from(*character).to_be_bytes())?;
    }
    Ok(octets)
}

/// The characters of a text.
#[tactic(auto, using(std::proofs::lemmas::Str::chars_from_encodes))]
fn characters_of(alloc: Global, text: &str) -> Result<Vec<char>, AllocError>
    ensures { IfOk result (λ characters. characters.items ≡ chars text.now) }
{
    text.chars().collect(alloc)
}

/// The text of characters.
fn text_of(alloc: Global, characters: &[char]) -> Result<String, AllocError>
    ensures { IfOk result (λ text. string_bytes text ≡ encode_utf8_all characters.now) }
{
    let mut text = String::new(alloc);
    for character in characters {
        text.push(*character)?;
    }
    Ok(text)
}
