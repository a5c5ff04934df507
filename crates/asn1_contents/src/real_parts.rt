//! The parts of a REAL (X.690, 8.5).
ghost use Rattle.std.specs.Prelude.{◌≡◌, ◌<◌, ◌≤◌, ◌∷◌, ◌++◌, length, IfOk, IfSome, IsSome};
ghost use Rattle.asn1_contents.specs.Reals as spec;

use std::alloc::{AllocError, Global};

/// A value of REAL that has no mantissa and no exponent, but 0 (X.690, 8.5.9).
#[derive(Clone, Copy, Debug, Drop, PartialEq, Eq)]
pub enum SpecialReal {
    /// PLUS-INFINITY.
    PlusInfinity,
    /// MINUS-INFINITY.
    MinusInfinity,
    /// NOT-A-NUMBER.
    NotANumber,
    /// Minus zero.
    MinusZero,
}

impl SpecialReal {
    /// Its octet.
    pub(crate) fn octet(self) -> u8
        ensures { result ≡ spec.special_octet self }
    {
        match self {
            SpecialReal::PlusInfinity => 64,
            SpecialReal::MinusInfinity => 65,
            SpecialReal::NotANumber => 66,
            SpecialReal::MinusZero => 67,
        }
    }
}

/// The parts of a binary number.
#[derive(Clone, Copy, Debug)]
pub struct BinaryParts<'a> {
    /// Whether it is below 0.
    pub is_negative: bool,
    /// The exponent to the base 2, in two's complement.
    pub exponent: &'a [u8],
    /// The mantissa, the highest octet first.
    pub mantissa: &'a [u8],
}

/// The octets of a binary number with these parts, if they are in normal form.
pub(crate) fn binary_octets(
    alloc: Global,
    is_negative: bool,
    exponent: &[u8],
    mantissa: &[u8],
) -> Result<Vec<u8>, AllocError>
    requires { length exponent.now < 256 }
    ensures { IfOk result (λ octets. octets.items ≡ spec.binary is_negative exponent.now mantissa.now) }
{
    let mut octets = head_of(alloc, is_negative, exponent.len())?;
    octets.extend_from_slice(exponent)?;
    octets.extend_from_slice(mantissa)?;
    Ok(octets)
}

/// The first octet of a binary number, and the length of its exponent if that is long.
fn head_of(alloc: Global, is_negative: bool, count: usize) -> Result<Vec<u8>, AllocError>
    requires { count < 256 }
    ensures { IfOk result (λ head. head.items ≡ spec.head_of is_negative count) }
{
    let length = count as u8;
    if length < 4 {
        let first = if is_negative {
            191 + length
        } else {
            127 + length
        };
        [first].to_vec(alloc)
    } else {
        let first = if is_negative { 195u8 } else { 131 };
        [first, length].to_vec(alloc)
    }
}

/// The parts of octets, if they are those of a binary number.
pub(crate) fn binary_parts(octets: &[u8]) -> Option<BinaryParts<'_>>
    ensures { IfSome result (λ parts. octets.now
        ≡ spec.binary parts.is_negative parts.exponent.now parts.mantissa.now) }
{
    match octets {
        [128, rest @ ..] => parts_of(false, 1, rest),
        [192, rest @ ..] => parts_of(true, 1, rest),
        [129, rest @ ..] => parts_of(false, 2, rest),
        [193, rest @ ..] => parts_of(true, 2, rest),
        [130, rest @ ..] => parts_of(false, 3, rest),
        [194, rest @ ..] => parts_of(true, 3, rest),
        [131, count, rest @ ..] if *count >= 4 => parts_of(false, usize::from(*count), rest),
        [195, count, rest @ ..] if *count >= 4 => parts_of(true, usize::from(*count), rest),
        _ => None,
    }
}

/// The parts whose exponent has so many octets.
fn parts_of(is_negative: bool, count: usize, octets: &[u8]) -> Option<BinaryParts<'_>>
    ensures sign { IfSome result (λ parts. parts.is_negative ≡ is_negative) }
    ensures count { IfSome result (λ parts. length parts.exponent.now ≡ count) }
    ensures octets { IfSome result (λ parts. octets.now ≡ parts.exponent.now ++ parts.mantissa.now) }
    ensures found { count ≤ length octets.now → IsSome result }
{
    let (exponent, mantissa) = octets.split_at_checked(count)?;
    Some(BinaryParts {
        is_negative,
        exponent,
        mantissa,
    })
}
