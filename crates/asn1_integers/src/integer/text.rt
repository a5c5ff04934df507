//! How an integer is written.
ghost use Rattle.std.specs.Prelude.{if◌then◌else◌, None, Some};
ghost use Rattle.std.specs.Fmt.{styled_signed_decimal};
ghost use Rattle.asn1_integers.specs.Text.{integer_text, is_narrow};

use crate::decimal::decimal_text;
use crate::integer::{Integer, Representation};
use std::fmt;

/// In decimal digits. Beyond 128 bits this takes memory and a time that goes with the square of the octets, and fails if memory runs
/// out.
impl fmt::Display for Integer {
    ghost output = { λ z. Some (integer_text z) };

    // Options, as in `{:>8}`, are kept for what an `i128` holds. Nothing is promised about them at any other number.
    ghost styled_output = { λ z options. if is_narrow z then Some (styled_signed_decimal options z) else None };

    fn fmt<W: fmt::Write>(&self, f: &mut fmt::Formatter<W>) -> fmt::Result {
        match &self.representation {
            Representation::Narrow(number) => fmt::Display::fmt(number, f),
            Representation::Wide { negative, bytes } => {
                let sign = if *negative { "-" } else { "" };
                match decimal_text(*bytes.allocator(), bytes) {
                    Ok(digits) => write!(f, "{sign}{digits}"),
                    Err(_refused) => Err(fmt::Error),
                }
            }
        }
    }
}

/// As `Display` writes it.
impl fmt::Debug for Integer {
    ghost debug_output = { λ z. Some (integer_text z) };

    fn fmt<W: fmt::Write>(&self, f: &mut fmt::Formatter<W>) -> fmt::Result {
        fmt::Display::fmt(self, f)
    }
}
