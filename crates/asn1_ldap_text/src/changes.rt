//! Changes of entries, and comparisons (RFC 4511, 4.6 to 4.10).
ghost use Rattle.std.specs.Prelude.{◌≡◌, ◌++◌, OnOk};
ghost use Rattle.std.specs.List.{flat_map};
ghost use Rattle.std.specs.String.{string_bytes};
ghost use Rattle.asn1_ldap_text.specs.Changes.{add_request_text, change_text, compare_request_text, compared_text, modify_dn_request_text, modify_request_text, new_name_text, old_rdn_text, superior_text};

use crate::attributes::{push_attribute, push_attributes};
use crate::items::push_item;
use crate::strings::{push_named, push_word};
use asn1_ldap::{
    AddRequest, AttributeValueAssertion, CompareRequest, ModifyDnRequest, ModifyRequest,
    ModifyRequestChangesElement,
};
use asn1_values::OctetString;
use std::alloc::AllocError;

/// Appends a request to change attributes of an entry.
pub(crate) fn push_modify_request(
    text: &mut String,
    request: &ModifyRequest,
) -> Result<(), AllocError>
    ensures { OnOk result (string_bytes text.new ≡
        string_bytes text.old ++ modify_request_text request.now) }
{
    push_named(text, "modify request: name ", request.object.as_slice())?;
    push_changes(text, request.changes.as_slice())
}

/// Appends changes.
fn push_changes(
    text: &mut String,
    changes: &[ModifyRequestChangesElement],
) -> Result<(), AllocError>
    ensures { OnOk result (string_bytes text.new ≡
        string_bytes text.old ++ flat_map change_text changes.now) }
{
    for change in changes {
        push_change(text, change)?;
    }
    Ok(())
}

/// Appends a change after a comma.
fn push_change(text: &mut String, change: &ModifyRequestChangesElement) -> Result<(), AllocError>
    ensures { OnOk result (string_bytes text.new ≡ string_bytes text.old ++ change_text change.now) }
{
    text.push_str(", ")?;
    push_item(text, &change.operation)?;
    text.push_str(" ")?;
    push_attribute(text, &change.modification)
}

/// Appends a request to add an entry.
pub(crate) fn push_add_request(text: &mut String, request: &AddRequest) -> Result<(), AllocError>
    ensures { OnOk result (string_bytes text.new ≡
        string_bytes text.old ++ add_request_text request.now) }
{
    push_named(text, "add request: name ", request.entry.as_slice())?;
    push_attributes(text, request.attributes.as_slice())
}

/// Appends a request to change the name of an entry.
pub(crate) fn push_modify_dn_request(
    text: &mut String,
    request: &ModifyDnRequest,
) -> Result<(), AllocError>
    ensures { OnOk result (string_bytes text.new ≡
        string_bytes text.old ++ modify_dn_request_text request.now) }
{
    push_named(text, "modify DN request: name ", request.entry.as_slice())?;
    push_new_name(text, request)
}

/// Appends the new name of an entry.
fn push_new_name(text: &mut String, request: &ModifyDnRequest) -> Result<(), AllocError>
    ensures { OnOk result (string_bytes text.new ≡
        string_bytes text.old ++ new_name_text request.now) }
{
    push_named(text, ", new RDN ", request.newrdn.as_slice())?;
    push_old_rdn(text, request.deleteoldrdn)?;
    push_superior(text, &request.new_superior)
}

/// Appends what becomes of the values of the old name.
fn push_old_rdn(text: &mut String, is_deleted: bool) -> Result<(), AllocError>
    ensures { OnOk result (string_bytes text.new ≡
        string_bytes text.old ++ old_rdn_text is_deleted) }
{
    if is_deleted {
        return text.push_str(", old RDN deleted");
    }
    text.push_str(", old RDN kept")
}

/// Appends the entry below which the entry moves, if it moves.
fn push_superior(text: &mut String, superior: &Option<OctetString>) -> Result<(), AllocError>
    ensures { OnOk result (string_bytes text.new ≡
        string_bytes text.old ++ superior_text superior.now) }
{
    match superior {
        Some(name) => push_named(text, ", new superior ", name.as_slice()),
        None => Ok(()),
    }
}

/// Appends a request to compare a value.
pub(crate) fn push_compare_request(
    text: &mut String,
    request: &CompareRequest,
) -> Result<(), AllocError>
    ensures { OnOk result (string_bytes text.new ≡
        string_bytes text.old ++ compare_request_text request.now) }
{
    push_named(text, "compare request: name ", request.entry.as_slice())?;
    push_compared(text, &request.ava)
}

/// Appends the attribute and the value that are compared.
fn push_compared(text: &mut String, assertion: &AttributeValueAssertion) -> Result<(), AllocError>
    ensures { OnOk result (string_bytes text.new ≡
        string_bytes text.old ++ compared_text assertion.now) }
{
    text.push_str(", ")?;
    push_word(text, assertion.attribute_desc.as_slice())?;
    push_named(text, " ", assertion.assertion_value.as_slice())
}
