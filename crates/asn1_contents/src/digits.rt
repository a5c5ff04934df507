//! Numbers by two decimal digits.
ghost use Rattle.std.specs.Prelude.{◌≡◌, ◌+◌, ◌<◌, ◌/◌, ◌%◌, length, true};
ghost use Rattle.asn1_contents.specs.Digits as spec;

/// Whether an octet is a decimal digit.
pub(crate) fn is_digit(octet: u8) -> bool
    ensures { result ≡ spec.is_digit octet }
{
    octet >= b'0' && octet <= b'9'
}

/// Whether octets are decimal digits.
pub(crate) fn are_digits(octets: &[u8]) -> bool
    ensures { result ≡ spec.are_digits octets.now }
{
    let mut left = octets;
    while let [octet, rest @ ..] = left {
        if !is_digit(*octet) {
            return false;
        }
        left = rest;
    }
    true
}

/// The number of the two digits at an index.
pub(crate) fn number_at(octets: &[u8], index: usize) -> u32
    requires { index + 1 < length octets.now }
    ensures { result ≡ spec.number_at octets.now index }
{
    let high = u32::from(octets[index].saturating_sub(b'0'));
    let low = u32::from(octets[index + 1].saturating_sub(b'0'));
    high * 10 + low
}

/// The first digit of a number of two.
pub(crate) fn high_digit(number: u32) -> u8
    requires { number < 100 }
    ensures digit { spec.is_digit result ≡ true }
    ensures value { result ≡ 48 + number / 10 }
{
    b'0' + (number / 10) as u8
}

/// The second digit of a number of two.
pub(crate) fn low_digit(number: u32) -> u8
    ensures digit { spec.is_digit result ≡ true }
    ensures value { result ≡ 48 + number % 10 }
{
    b'0' + (number % 10) as u8
}
