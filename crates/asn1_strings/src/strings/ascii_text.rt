//! Strings whose alphabet lies inside ASCII, from and to texts.
ghost use Rattle.std.specs.Prelude.{◌≡◌, ℕ, ◌<◌, IsTrue, Some, IfOk, OnOk, IfErr};
ghost use Rattle.std.specs.Fmt.{styled_text};
ghost use Rattle.std.specs.List.{AllPass};
ghost use Rattle.asn1_strings.specs.Refusals.{IsRefusal};

use crate::error::StringError;
use crate::strings::alphabet_string::{Alphabet, AlphabetString};
use std::alloc::Global;
use std::{fmt, str};

/// An alphabet of octets that lies inside ASCII. So a unit of a string is a character's code, and the units are a text.
pub trait AsciiAlphabet: Alphabet<u8> {
    // Each unit of the alphabet is a code of ASCII.
    ghost is_inside_ascii: { (unit : ℕ) → IsTrue (Self.allows unit) → unit < 128 };
}

impl<A: AsciiAlphabet> AlphabetString<u8, A> {
    /// The string of these characters.
    ///
    /// The error names the first character that the alphabet lacks, by its index; all before it are of ASCII, so its index
    /// counts bytes and characters alike. If the alphabet has all, it is [`StringError::Memory`], and the allocator has
    /// refused room for them.
    pub fn try_from_str(alloc: Global, text: &str) -> Result<Self, StringError>
        ensures allowed { OnOk result (AllPass A.allows text.now) }
        ensures units { IfOk result (λ s. s ≡ text.now) }
        ensures refused { IfErr result (IsRefusal A.allows text.now) }
    {
        Self::try_from_slice(alloc, text.as_bytes())
    }

    /// The units, as a text.
    pub fn as_str(&self) -> &str
        ensures { result.now ≡ self.now }
    {
        str::from_utf8(self.as_slice()).unwrap()
    }
}

/// The characters, with options such as a width as for any text.
impl<A: AsciiAlphabet> fmt::Display for AlphabetString<u8, A> {
    ghost output = { λ units. Some units };

    ghost styled_output = { λ units options. Some (styled_text options units) };

    fn fmt<W: fmt::Write>(&self, f: &mut fmt::Formatter<W>) -> fmt::Result {
        f.pad(self.as_str())
    }
}
