//! Results of operations (RFC 4511, 4.1.9).
ghost use Rattle.std.specs.Prelude.{◌≡◌, ◌++◌, OnOk};
ghost use Rattle.std.specs.String.{string_bytes};
ghost use Rattle.asn1_ldap_text.specs.Results.{diagnosis_text, referral_text, response_text, result_text};

use crate::items::push_item;
use crate::strings::{push_named_unless_empty, push_values};
use asn1_ldap::{LdapResult, LdapResultResultCode};
use asn1_values::OctetString;
use std::alloc::AllocError;

/// Appends the name of an operation, and its result.
pub(crate) fn push_response(
    text: &mut String,
    label: &str,
    response: &LdapResult,
) -> Result<(), AllocError>
    ensures { OnOk result (string_bytes text.new ≡
        string_bytes text.old ++ response_text label.now response.now) }
{
    text.push_str(label)?;
    push_result(
        text,
        &response.result_code,
        &response.matched_dn,
        &response.diagnostic_message,
        &response.referral,
    )
}

/// Appends the components of a result.
pub(crate) fn push_result(
    text: &mut String,
    code: &LdapResultResultCode,
    matched: &OctetString,
    message: &OctetString,
    referral: &Option<Vec<OctetString>>,
) -> Result<(), AllocError>
    ensures { OnOk result (string_bytes text.new ≡
        string_bytes text.old ++ result_text code.now matched.now message.now referral.now) }
{
    push_item(text, code)?;
    push_diagnosis(text, matched, message)?;
    push_referral(text, referral)
}

/// Appends the name that was matched, and the message for a person.
fn push_diagnosis(
    text: &mut String,
    matched: &OctetString,
    message: &OctetString,
) -> Result<(), AllocError>
    ensures { OnOk result (string_bytes text.new ≡
        string_bytes text.old ++ diagnosis_text matched.now message.now) }
{
    push_named_unless_empty(text, ", matched ", matched.as_slice())?;
    push_named_unless_empty(text, ", message ", message.as_slice())
}

/// Appends the URIs of a referral, if there is one.
fn push_referral(text: &mut String, referral: &Option<Vec<OctetString>>) -> Result<(), AllocError>
    ensures { OnOk result (string_bytes text.new ≡
        string_bytes text.old ++ referral_text referral.now) }
{
    match referral {
        Some(uris) => {
            text.push_str(", referral")?;
            push_values(text, uris.as_slice())
        }
        None => Ok(()),
    }
}
