//! How strings are written. By `{:?}`, bits are `'101'B`, octets and characters a text in quotes, octets that are no text `'0A'H`,
//! and an object identifier is `1.2.840`. By `{}`, characters are a text without quotes, and all others as by `{:?}`.
use crate::kind::{Arcs, Bits, Bmp, General, Graphic, Octets, Teletex};
use crate::shown::{
    shown_text, write_bits, write_characters, write_hexadecimal, write_octets, write_packed_bits,
};
use crate::strings::alphabet_string::{Alphabet, AlphabetString};
use crate::strings::bit_vec::BitVec;
use crate::strings::named_bits::NamedBitString;
use crate::strings::string_unit::StringUnit;
use crate::strings::unit_string::UnitString;
use std::fmt;

impl<U: StringUnit, A: Alphabet<U>> fmt::Debug for AlphabetString<U, A> {
    fn fmt<W: fmt::Write>(&self, f: &mut fmt::Formatter<W>) -> fmt::Result {
        U::write_shown(self.as_slice(), f)
    }
}

impl fmt::Debug for UnitString<bool, Bits> {
    fn fmt<W: fmt::Write>(&self, f: &mut fmt::Formatter<W>) -> fmt::Result {
        write_bits(self.as_slice(), f)
    }
}

/// As `Debug` shows it.
impl fmt::Display for UnitString<bool, Bits> {
    fn fmt<W: fmt::Write>(&self, f: &mut fmt::Formatter<W>) -> fmt::Result {
        write_bits(self.as_slice(), f)
    }
}

impl fmt::Debug for BitVec {
    fn fmt<W: fmt::Write>(&self, f: &mut fmt::Formatter<W>) -> fmt::Result {
        write_packed_bits(self, f)
    }
}

/// As `Debug` shows it.
impl fmt::Display for BitVec {
    fn fmt<W: fmt::Write>(&self, f: &mut fmt::Formatter<W>) -> fmt::Result {
        write_packed_bits(self, f)
    }
}

impl fmt::Debug for NamedBitString {
    fn fmt<W: fmt::Write>(&self, f: &mut fmt::Formatter<W>) -> fmt::Result {
        write_packed_bits(self.as_bits(), f)
    }
}

/// As `Debug` shows it.
impl fmt::Display for NamedBitString {
    fn fmt<W: fmt::Write>(&self, f: &mut fmt::Formatter<W>) -> fmt::Result {
        write_packed_bits(self.as_bits(), f)
    }
}

impl fmt::Debug for UnitString<u8, Octets> {
    fn fmt<W: fmt::Write>(&self, f: &mut fmt::Formatter<W>) -> fmt::Result {
        write_octets(self.as_slice(), f)
    }
}

/// As `Debug` shows it.
impl fmt::Display for UnitString<u8, Octets> {
    fn fmt<W: fmt::Write>(&self, f: &mut fmt::Formatter<W>) -> fmt::Result {
        write_octets(self.as_slice(), f)
    }
}

impl fmt::Debug for UnitString<u8, General> {
    fn fmt<W: fmt::Write>(&self, f: &mut fmt::Formatter<W>) -> fmt::Result {
        write_octets(self.as_slice(), f)
    }
}

/// The text that the octets are in UTF-8, if a line can show it, else the octets as `Debug` shows them.
impl fmt::Display for UnitString<u8, General> {
    fn fmt<W: fmt::Write>(&self, f: &mut fmt::Formatter<W>) -> fmt::Result {
        write_plain_text(self.as_slice(), f)
    }
}

impl fmt::Debug for UnitString<u8, Graphic> {
    fn fmt<W: fmt::Write>(&self, f: &mut fmt::Formatter<W>) -> fmt::Result {
        write_octets(self.as_slice(), f)
    }
}

/// The text that the octets are in UTF-8, if a line can show it, else the octets as `Debug` shows them.
impl fmt::Display for UnitString<u8, Graphic> {
    fn fmt<W: fmt::Write>(&self, f: &mut fmt::Formatter<W>) -> fmt::Result {
        write_plain_text(self.as_slice(), f)
    }
}

impl fmt::Debug for UnitString<u16, Bmp> {
    fn fmt<W: fmt::Write>(&self, f: &mut fmt::Formatter<W>) -> fmt::Result {
        write_characters(self.as_slice(), f)
    }
}

/// The characters, and U+FFFD for a unit that is the number of none.
impl fmt::Display for UnitString<u16, Bmp> {
    fn fmt<W: fmt::Write>(&self, f: &mut fmt::Formatter<W>) -> fmt::Result {
        for unit in self.as_slice() {
            f.write_char(character_of(u32::from(*unit)))?;
        }
        Ok(())
    }
}

impl fmt::Debug for UnitString<u32, Teletex> {
    fn fmt<W: fmt::Write>(&self, f: &mut fmt::Formatter<W>) -> fmt::Result {
        write_characters(self.as_slice(), f)
    }
}

/// The characters, and U+FFFD for a unit that is the number of none.
impl fmt::Display for UnitString<u32, Teletex> {
    fn fmt<W: fmt::Write>(&self, f: &mut fmt::Formatter<W>) -> fmt::Result {
        for unit in self.as_slice() {
            f.write_char(character_of(*unit))?;
        }
        Ok(())
    }
}

/// As `Display` shows it.
impl fmt::Debug for UnitString<u32, Arcs> {
    fn fmt<W: fmt::Write>(&self, f: &mut fmt::Formatter<W>) -> fmt::Result {
        fmt::Display::fmt(self, f)
    }
}

/// Writes the text that octets are in UTF-8, if a line can show it, and otherwise the octets in hexadecimal.
fn write_plain_text<W: fmt::Write>(octets: &[u8], f: &mut fmt::Formatter<W>) -> fmt::Result {
    match shown_text(octets) {
        Some(text) => f.write_str(text),
        None => write_hexadecimal(octets, f),
    }
}

/// The character with this number, or U+FFFD if there is none.
fn character_of(number: u32) -> char {
    char::from_u32(number).unwrap_or(char::REPLACEMENT_CHARACTER)
}
