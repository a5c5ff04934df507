//! The forms of times in DER.
ghost use Rattle.std.specs.Char.{is_ascii_digit};
ghost use Rattle.std.specs.List.{list_all};
ghost use Rattle.std.specs.Prelude.{◌≡◌};
ghost use Rattle.asn1_certificate_rules.specs.Times.{are_fraction_digits, are_hours_24, is_fraction, is_generalized_time, is_utc_time, is_zone};

/// Whether octets are those of a UTCTime in DER: twelve digits, whose hours are not 24, and Z.
pub(crate) fn is_utc_time(octets: &[u8]) -> bool
    ensures { result ≡ is_utc_time octets.now }
{
    match octets.split_at_checked(12) {
        Some((digits, rest)) => are_digits(digits) && !are_hours_24(&digits[6..]) && is_zone(rest),
        None => false,
    }
}

/// Whether octets are those of a GeneralizedTime in DER: fourteen digits, whose hours are not 24, a fraction of seconds or none, and Z.
pub(crate) fn is_generalized_time(octets: &[u8]) -> bool
    ensures { result ≡ is_generalized_time octets.now }
{
    match octets.split_at_checked(14) {
        Some((digits, rest)) => {
            are_digits(digits)
                && !are_hours_24(&digits[8..])
                && (is_zone(rest) || is_fraction(rest))
        }
        None => false,
    }
}

/// Whether the hours with which digits begin are 24.
fn are_hours_24(digits: &[u8]) -> bool
    ensures { result ≡ are_hours_24 digits.now }
{
    matches!(digits, [b'2', b'4', ..])
}

/// Whether octets are Z alone.
fn is_zone(octets: &[u8]) -> bool
    ensures { result ≡ is_zone octets.now }
{
    matches!(octets, [b'Z'])
}

/// Whether octets are a point, digits of which the last is not zero, and Z.
fn is_fraction(octets: &[u8]) -> bool
    ensures { result ≡ is_fraction octets.now }
{
    match octets {
        [b'.', digits @ ..] => are_fraction_digits(digits),
        _ => false,
    }
}

/// Whether octets are digits of which the last is not zero, and Z.
fn are_fraction_digits(digits: &[u8]) -> bool
    ensures { result ≡ are_fraction_digits 48 digits.now }
{
    let mut left = digits;
    let mut last = b'0';
    while let [octet, rest @ ..] = left {
        if !octet.is_ascii_digit() {
            return last != b'0' && is_zone(left);
        }
        last = *octet;
        left = rest;
    }
    false
}

/// Whether each octet is that of a digit.
fn are_digits(octets: &[u8]) -> bool
    ensures { result ≡ list_all is_ascii_digit octets.now }
{
    octets.iter().all(|octet| octet.is_ascii_digit())
}
