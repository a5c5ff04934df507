//! Octets in hexadecimal.
ghost use Rattle.std.specs.Prelude.{◌≡◌, ◌++◌, OnOk};
ghost use Rattle.std.specs.List.{flat_map};
ghost use Rattle.std.specs.String.{string_bytes};
ghost use Rattle.asn1_values.specs.Text.{byte_text};
ghost use Rattle.asn1_certificate_text.specs.Octets.{after_colons, octets_text};

use std::alloc::AllocError;
use std::fmt::Write;

/// Appends the octets in hexadecimal, two digits each, with a colon between each two.
pub fn push_octets(text: &mut String, octets: &[u8]) -> Result<(), AllocError>
    ensures { OnOk result (string_bytes text.new ≡
        string_bytes text.old ++ octets_text octets.now) }
{
    match octets {
        [] => Ok(()),
        [first, rest @ ..] => {
            push_octet(text, *first)?;
            push_after_colons(text, rest)
        }
    }
}

/// Appends the octets in hexadecimal, two digits each, with nothing between them.
pub fn push_digits(text: &mut String, octets: &[u8]) -> Result<(), AllocError>
    ensures { OnOk result (string_bytes text.new ≡
        string_bytes text.old ++ flat_map byte_text octets.now) }
{
    for octet in octets {
        push_octet(text, *octet)?;
    }
    Ok(())
}

/// Appends the octets with a colon before each.
fn push_after_colons(text: &mut String, octets: &[u8]) -> Result<(), AllocError>
    ensures { OnOk result (string_bytes text.new ≡
        string_bytes text.old ++ after_colons octets.now) }
{
    for octet in octets {
        text.push_str(":")?;
        push_octet(text, *octet)?;
    }
    Ok(())
}

/// Appends an octet as two digits.
pub(crate) fn push_octet(text: &mut String, octet: u8) -> Result<(), AllocError>
    ensures { OnOk result (string_bytes text.new ≡ string_bytes text.old ++ byte_text octet) }
{
    write!(text, "{:x}{:x}", octet / 16, octet % 16)
}
