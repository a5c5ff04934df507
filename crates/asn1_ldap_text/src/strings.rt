//! Names and values: in quotes, or as words.
ghost use Rattle.std.specs.Prelude.{◌≡◌, ◌++◌, OnOk};
ghost use Rattle.std.specs.List.{flat_map};
ghost use Rattle.std.specs.String.{string_bytes};
ghost use Rattle.asn1_ldap_text.specs.Strings.{after_space, named, named_unless_empty, optional_word, quoted, word};

use crate::escapes::{Place, push_escaped};
use asn1_values::OctetString;
use std::alloc::AllocError;

/// Appends octets in quotes.
pub(crate) fn push_quoted(text: &mut String, octets: &[u8]) -> Result<(), AllocError>
    ensures { OnOk result (string_bytes text.new ≡ string_bytes text.old ++ quoted octets.now) }
{
    text.push_str("\"")?;
    push_escaped(text, Place::Quotes, octets)?;
    text.push_str("\"")
}

/// Appends a name without quotes.
pub(crate) fn push_word(text: &mut String, octets: &[u8]) -> Result<(), AllocError>
    ensures { OnOk result (string_bytes text.new ≡ string_bytes text.old ++ word octets.now) }
{
    push_escaped(text, Place::Word, octets)
}

/// Appends values in quotes, with a space before each.
pub(crate) fn push_values(text: &mut String, values: &[OctetString]) -> Result<(), AllocError>
    ensures { OnOk result (string_bytes text.new ≡
        string_bytes text.old ++ flat_map after_space values.now) }
{
    for value in values {
        push_named(text, " ", value.as_slice())?;
    }
    Ok(())
}

/// Appends a label, and octets in quotes.
pub(crate) fn push_named(text: &mut String, label: &str, octets: &[u8]) -> Result<(), AllocError>
    ensures { OnOk result (string_bytes text.new ≡
        string_bytes text.old ++ named label.now octets.now) }
{
    text.push_str(label)?;
    push_quoted(text, octets)
}

/// Appends a label, and octets in quotes, if there are any octets.
pub(crate) fn push_named_unless_empty(
    text: &mut String,
    label: &str,
    octets: &[u8],
) -> Result<(), AllocError>
    ensures { OnOk result (string_bytes text.new ≡
        string_bytes text.old ++ named_unless_empty label.now octets.now) }
{
    if octets.is_empty() {
        return Ok(());
    }
    push_named(text, label, octets)
}

/// Appends a label, and a name without quotes, if there is one.
pub(crate) fn push_optional_word(
    text: &mut String,
    label: &str,
    name: &Option<OctetString>,
) -> Result<(), AllocError>
    ensures { OnOk result (string_bytes text.new ≡
        string_bytes text.old ++ optional_word label.now name.now) }
{
    match name {
        Some(name) => {
            text.push_str(label)?;
            push_word(text, name.as_slice())
        }
        None => Ok(()),
    }
}
