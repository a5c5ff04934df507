//! The units of strings.
ghost use Rattle.std.specs.Prelude.{◌<◌, ◌^◌, ⊤, All};

use crate::shown::{write_bits, write_characters};
use std::fmt;

/// A unit of a string: a bit, an octet, or a number of 16 or 32 bits.
///
/// A contract sees a built-in integer as a number of any size. `units_are_in_range` says of which numbers the units of a slice
/// are, so that whoever reads a string back can count on it.
pub trait StringUnit: Sized {
    // The values of the type.
    ghost IsInRange: { Self → Type 0 };

    /// Tells that each unit is a value of its type. Does nothing.
    fn units_are_in_range(units: &[Self])
        ensures { All IsInRange units.now };

    /// Writes units as a person reads them: bits as `'101'B`, others as the characters of which they are the numbers, in quotes.
    fn write_shown<W: fmt::Write>(units: &[Self], f: &mut fmt::Formatter<W>) -> fmt::Result;
}

impl StringUnit for bool {
    ghost IsInRange = { λ _. ⊤ };

    fn units_are_in_range(_units: &[bool]) {}

    fn write_shown<W: fmt::Write>(units: &[bool], f: &mut fmt::Formatter<W>) -> fmt::Result {
        write_bits(units, f)
    }
}

impl StringUnit for u8 {
    ghost IsInRange = { λ unit. unit < 2 ^ 8 };

    fn units_are_in_range(_units: &[u8]) {}

    fn write_shown<W: fmt::Write>(units: &[u8], f: &mut fmt::Formatter<W>) -> fmt::Result {
        write_characters(units, f)
    }
}

impl StringUnit for u16 {
    ghost IsInRange = { λ unit. unit < 2 ^ 16 };

    fn units_are_in_range(_units: &[u16]) {}

    fn write_shown<W: fmt::Write>(units: &[u16], f: &mut fmt::Formatter<W>) -> fmt::Result {
        write_characters(units, f)
    }
}

impl StringUnit for u32 {
    ghost IsInRange = { λ unit. unit < 2 ^ 32 };

    fn units_are_in_range(_units: &[u32]) {}

    fn write_shown<W: fmt::Write>(units: &[u32], f: &mut fmt::Formatter<W>) -> fmt::Result {
        write_characters(units, f)
    }
}
