//! The characters of a module.
ghost use Rattle.std.specs.Prelude.{◌≡◌, ◌≢◌, ◌<◌, length};
ghost use Rattle.asn1_tokens.specs.Characters as spec;

/// The first octet, or 0.
#[inline]
pub(crate) fn first(text: &[u8]) -> u8
    ensures value { result ≡ spec.first text.now }
    ensures within { result ≢ 0 → 0 < length text.now }
{
    match text {
        [octet, ..] => *octet,
        [] => 0,
    }
}

/// Whether the character ends a line.
#[inline]
pub(crate) fn is_newline(octet: u8) -> bool
    ensures { result ≡ spec.is_newline octet }
{
    10 <= octet && octet <= 13
}

/// Whether the octet is white space.
#[inline]
pub(crate) fn is_white_space(octet: u8) -> bool
    ensures { result ≡ spec.is_white_space octet }
{
    octet == b' ' || octet == b'\t' || is_newline(octet)
}

/// Whether the character may stand in a bstring.
#[inline]
pub(crate) fn is_binary_character(octet: u8) -> bool
    ensures { result ≡ spec.is_binary_character octet }
{
    octet == b'0' || octet == b'1' || is_white_space(octet)
}

/// Whether the character may stand in an hstring.
#[inline]
pub(crate) fn is_hex_character(octet: u8) -> bool
    ensures { result ≡ spec.is_hex_character octet }
{
    octet.is_ascii_digit() || b'A' <= octet && octet <= b'F' || is_white_space(octet)
}
