//! Octets in a text: as they are, or as two hexadecimal digits after a backslash (RFC 4515, section 3).
ghost use Rattle.std.specs.Prelude.{◌≡◌, ◌<◌, ◌++◌, ◌∷◌, [], OnOk};
ghost use Rattle.std.specs.String.{string_bytes};
ghost use Rattle.asn1_values.specs.Text.{byte_text};
ghost use Rattle.asn1_ldap_text.specs.Escapes.{escaped_text, is_plain, is_printable, is_special, is_special_in_assertion, is_special_in_quotes, is_special_in_word, octet_escaped, octet_text};

use std::alloc::AllocError;
use std::fmt::Write;

/// A place in a text at which octets are written. Some characters mean something there, and are escaped.
#[derive(Clone, Copy)]
pub(crate) enum Place {
    /// The value of an assertion in a filter.
    Assertion,
    /// Between quotes.
    Quotes,
    /// A name without quotes: of an attribute, a matching rule, a control or an extended operation.
    Word,
}

/// Appends octets at a place.
pub(crate) fn push_escaped(text: &mut String, place: Place, octets: &[u8]) -> Result<(), AllocError>
    ensures { OnOk result (string_bytes text.new ≡
        string_bytes text.old ++ escaped_text place octets.now) }
{
    for octet in octets {
        push_octet(text, place, *octet)?;
    }
    Ok(())
}

/// Appends an octet at a place.
fn push_octet(text: &mut String, place: Place, octet: u8) -> Result<(), AllocError>
    ensures { OnOk result (string_bytes text.new ≡
        string_bytes text.old ++ octet_text place octet) }
{
    if is_plain(place, octet) {
        return push_plain(text, octet);
    }
    push_escaped_octet(text, octet)
}

/// Appends an octet of ASCII as it is.
fn push_plain(text: &mut String, octet: u8) -> Result<(), AllocError>
    requires { octet < 128 }
    ensures { OnOk result (string_bytes text.new ≡ string_bytes text.old ++ octet ∷ []) }
{
    text.push(char::from(octet))
}

/// Appends an octet as two digits after a backslash.
fn push_escaped_octet(text: &mut String, octet: u8) -> Result<(), AllocError>
    ensures { OnOk result (string_bytes text.new ≡ string_bytes text.old ++ octet_escaped octet) }
{
    text.push_str("\\")?;
    push_digits(text, octet)
}

/// Appends the two hexadecimal digits of an octet.
fn push_digits(text: &mut String, octet: u8) -> Result<(), AllocError>
    ensures { OnOk result (string_bytes text.new ≡ string_bytes text.old ++ byte_text octet) }
{
    write!(text, "{:x}{:x}", octet / 16, octet % 16)
}

/// Whether an octet is written as it is at a place.
fn is_plain(place: Place, octet: u8) -> bool
    ensures { result ≡ is_plain place octet }
{
    is_printable(octet) && !is_special(place, octet)
}

/// Whether an octet is a printable character of ASCII, or a space.
fn is_printable(octet: u8) -> bool
    ensures { result ≡ is_printable octet }
{
    matches!(octet, b' '..=b'~')
}

/// Whether an octet means something at a place.
fn is_special(place: Place, octet: u8) -> bool
    ensures { result ≡ is_special place octet }
{
    match place {
        Place::Assertion => is_special_in_assertion(octet),
        Place::Quotes => is_special_in_quotes(octet),
        Place::Word => is_special_in_word(octet),
    }
}

/// Whether an octet means something in the value of an assertion.
fn is_special_in_assertion(octet: u8) -> bool
    ensures { result ≡ is_special_in_assertion octet }
{
    octet == b'(' || octet == b')' || octet == b'*' || octet == b'\\'
}

/// Whether an octet means something between quotes.
fn is_special_in_quotes(octet: u8) -> bool
    ensures { result ≡ is_special_in_quotes octet }
{
    octet == b'"' || octet == b'\\'
}

/// Whether an octet would end a name without quotes.
fn is_special_in_word(octet: u8) -> bool
    ensures { result ≡ is_special_in_word octet }
{
    octet == b' '
        || octet == b'"'
        || octet == b'('
        || octet == b')'
        || octet == b','
        || octet == b':'
        || octet == b'<'
        || octet == b'='
        || octet == b'>'
        || octet == b'\\'
        || octet == b'~'
}
