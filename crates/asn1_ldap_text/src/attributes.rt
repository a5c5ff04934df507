//! Attributes with their values (RFC 4511, 4.1.7).
ghost use Rattle.std.specs.Prelude.{◌≡◌, ◌++◌, OnOk};
ghost use Rattle.std.specs.List.{flat_map};
ghost use Rattle.std.specs.String.{string_bytes};
ghost use Rattle.asn1_ldap_text.specs.Attributes.{after_comma, attribute_text};

use crate::sets::elements;
use crate::strings::{push_values, push_word};
use asn1_ldap::PartialAttribute;
use std::alloc::AllocError;

/// Appends an attribute: its description, and its values in quotes.
pub(crate) fn push_attribute(
    text: &mut String,
    attribute: &PartialAttribute,
) -> Result<(), AllocError>
    ensures { OnOk result (string_bytes text.new ≡
        string_bytes text.old ++ attribute_text attribute.now) }
{
    push_word(text, attribute.type_.as_slice())?;
    push_values(text, elements(&attribute.vals))
}

/// Appends attributes, with a comma before each.
pub(crate) fn push_attributes(
    text: &mut String,
    attributes: &[PartialAttribute],
) -> Result<(), AllocError>
    ensures { OnOk result (string_bytes text.new ≡
        string_bytes text.old ++ flat_map after_comma attributes.now) }
{
    for attribute in attributes {
        text.push_str(", ")?;
        push_attribute(text, attribute)?;
    }
    Ok(())
}
