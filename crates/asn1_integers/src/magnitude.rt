//! Magnitudes: bytes, the most significant first, that represent a number from 0 on.
ghost use Rattle.std.specs.Prelude.{◌≡◌, ◌<◌, ◌^◌, FitsSigned};
ghost use Rattle.std.specs.Int.{w128};
ghost use Rattle.std.specs.Option.{SomeIff};
ghost use Rattle.std.specs.Ordering.{nat_cmp};
ghost use Rattle.asn1_integers.specs.Numbers.{magnitude, signed, IsMagnitude};

use std::cmp::Ordering;

/// The number of the bytes, if it fits.
pub(crate) fn to_u128(bytes: &[u8]) -> Option<u128>
    ensures { SomeIff result (magnitude bytes.now < 2 ^ 128) (magnitude bytes.now) }
{
    let mut number = 0u128;
    for byte in bytes {
        number = number.checked_mul(256)? + u128::from(*byte);
    }
    Some(number)
}

/// The number of the sign and the bytes, if it fits.
pub(crate) fn to_i128(negative: bool, bytes: &[u8]) -> Option<i128>
    ensures { SomeIff result (FitsSigned w128 (signed negative (magnitude bytes.now)))
        (signed negative (magnitude bytes.now)) }
{
    let magnitude = to_u128(bytes)?;
    if negative {
        0i128.checked_sub_unsigned(magnitude)
    } else {
        0i128.checked_add_unsigned(magnitude)
    }
}

/// The bytes of the number, with leading zeros.
pub(crate) fn from_u128(number: u128) -> [u8; 16]
    ensures { magnitude result ≡ number }
{
    number.to_be_bytes()
}

/// The bytes from the first that is not zero on.
pub(crate) fn without_leading_zeros(bytes: &[u8]) -> &[u8]
    ensures number { magnitude result.now ≡ magnitude bytes.now }
    ensures normal { IsMagnitude result.now }
{
    let mut rest = bytes;
    while let [0, tail @ ..] = rest {
        rest = tail;
    }
    rest
}

/// The order of the numbers of two magnitudes without leading zeros.
pub(crate) fn compare(bytes: &[u8], other: &[u8]) -> Ordering
    ensures { IsMagnitude bytes.now → IsMagnitude other.now →
        result ≡ nat_cmp (magnitude bytes.now) (magnitude other.now) }
{
    match bytes.len().cmp(&other.len()) {
        Ordering::Equal => bytes.cmp(other),
        unequal => unequal,
    }
}
