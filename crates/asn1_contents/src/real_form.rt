//! The normal form of REAL (X.690, 11.3).
ghost use Rattle.std.specs.Prelude.{◌≡◌, ◌<◌, length};
ghost use Rattle.asn1_contents.specs.Reals as spec;

use crate::digits::{are_digits, is_digit};

/// Whether octets are the contents of a REAL.
pub(crate) fn is_real(octets: &[u8]) -> bool
    ensures { result ≡ spec.is_real octets.now }
{
    match octets {
        [first, rest @ ..] => is_of_form(*first, rest),
        [] => true,
    }
}

/// Whether a first octet and the others are the contents of a number but 0.
fn is_of_form(first: u8, rest: &[u8]) -> bool
    ensures { result ≡ spec.is_of_form first rest.now }
{
    if first == 3 {
        is_decimal(rest)
    } else if is_special(first) {
        rest.is_empty()
    } else if first == 128 || first == 192 {
        has_parts(1, rest)
    } else if first == 129 || first == 193 {
        has_parts(2, rest)
    } else if first == 130 || first == 194 {
        has_parts(3, rest)
    } else if first == 131 || first == 195 {
        has_long_exponent(rest)
    } else {
        false
    }
}

/// Whether an octet stands alone.
fn is_special(octet: u8) -> bool
    ensures { result ≡ spec.is_special octet }
{
    !(octet < 64) && octet < 68
}

/// Whether octets are an exponent in as few as it needs.
fn is_shortest(octets: &[u8]) -> bool
    requires { 0 < length octets.now }
    ensures { result ≡ spec.is_shortest octets.now }
{
    octets.len() == 1
        || !(octets[0] == 0 && octets[1] < 128) && !(octets[0] == 255 && !(octets[1] < 128))
}

/// Whether octets are an odd number in as few as it needs.
fn is_odd_number(octets: &[u8]) -> bool
    ensures { result ≡ spec.is_odd_number octets.now }
{
    !(octets.len() == 0) && !(octets[0] == 0) && octets[octets.len() - 1] % 2 == 1
}

/// Whether octets are an exponent of this many, and a mantissa.
fn has_parts(count: usize, octets: &[u8]) -> bool
    requires { 0 < count }
    ensures { result ≡ spec.has_parts count octets.now }
{
    count < octets.len() && is_shortest(&octets[..count]) && is_odd_number(&octets[count..])
}

/// Whether octets are the length of an exponent, the exponent, and a mantissa.
fn has_long_exponent(octets: &[u8]) -> bool
    ensures { result ≡ spec.has_long_exponent octets.now }
{
    match octets {
        [count, rest @ ..] => !(*count < 4) && has_parts(usize::from(*count), rest),
        [] => false,
    }
}

/// Whether octets are a decimal number.
pub(crate) fn is_decimal(octets: &[u8]) -> bool
    ensures { result ≡ spec.is_decimal octets.now }
{
    match octets {
        [first, rest @ ..] => {
            if *first == b'-' {
                is_unsigned(rest)
            } else {
                is_unsigned(octets)
            }
        }
        [] => false,
    }
}

/// Whether octets are a decimal number without a sign.
fn is_unsigned(octets: &[u8]) -> bool
    ensures { result ≡ spec.is_unsigned octets.now }
{
    match octets {
        [first, rest @ ..] => is_nonzero_digit(*first) && goes_on(*first, rest),
        [] => false,
    }
}

/// Whether an octet is a digit but 0.
fn is_nonzero_digit(octet: u8) -> bool
    ensures { result ≡ spec.is_nonzero_digit octet }
{
    is_digit(octet) && !(octet == b'0')
}

/// Whether octets go on with a mantissa behind a digit.
fn goes_on(digit: u8, octets: &[u8]) -> bool
    ensures { result ≡ spec.goes_on digit octets.now }
{
    let mut last = digit;
    let mut left = octets;
    while let [octet, rest @ ..] = left {
        if *octet == b'.' {
            return !(last == b'0') && is_exponent(rest);
        }
        if !is_digit(*octet) {
            return false;
        }
        last = *octet;
        left = rest;
    }
    false
}

/// Whether octets are the letter E and an exponent.
fn is_exponent(octets: &[u8]) -> bool
    ensures { result ≡ spec.is_exponent octets.now }
{
    match octets {
        [first, rest @ ..] => *first == b'E' && is_power(rest),
        [] => false,
    }
}

/// Whether octets are the exponent of a decimal number.
fn is_power(octets: &[u8]) -> bool
    ensures { result ≡ spec.is_power octets.now }
{
    match octets {
        [first, rest @ ..] => {
            if *first == b'+' {
                rest.len() == 1 && rest[0] == b'0'
            } else if *first == b'-' {
                is_number(rest)
            } else {
                is_number(octets)
            }
        }
        [] => false,
    }
}

/// Whether octets are a number without a leading zero.
fn is_number(octets: &[u8]) -> bool
    ensures { result ≡ spec.is_number octets.now }
{
    match octets {
        [first, rest @ ..] => is_nonzero_digit(*first) && are_digits(rest),
        [] => false,
    }
}
