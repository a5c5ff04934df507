//! Values that are shown by their lengths alone.
ghost use Rattle.std.specs.Prelude.{◌≡◌, ◌++◌, OnOk};
ghost use Rattle.std.specs.String.{string_bytes};
ghost use Rattle.asn1_ldap_text.specs.Lengths.{length_text, optional_length};

use asn1_values::OctetString;
use std::alloc::AllocError;
use std::fmt::Write;

/// Appends a label, and the number of octets.
pub(crate) fn push_length(text: &mut String, label: &str, octets: &[u8]) -> Result<(), AllocError>
    ensures { OnOk result (string_bytes text.new ≡
        string_bytes text.old ++ length_text label.now octets.now) }
{
    text.push_str(label)?;
    write!(text, " of length {}", octets.len())
}

/// Appends a label, and the number of octets of a value, if there is one.
pub(crate) fn push_optional_length(
    text: &mut String,
    label: &str,
    value: &Option<OctetString>,
) -> Result<(), AllocError>
    ensures { OnOk result (string_bytes text.new ≡
        string_bytes text.old ++ optional_length label.now value.now) }
{
    match value {
        Some(octets) => push_length(text, label, octets.as_slice()),
        None => Ok(()),
    }
}
