//! Extended operations and intermediate responses (RFC 4511, 4.12 and 4.13).
ghost use Rattle.std.specs.Prelude.{◌≡◌, ◌++◌, OnOk};
ghost use Rattle.std.specs.String.{string_bytes};
ghost use Rattle.asn1_ldap_text.specs.Extended.{extended_request_text, extended_response_text, intermediate_response_text, named_value_text};

use crate::lengths::push_optional_length;
use crate::results::push_result;
use crate::strings::{push_optional_word, push_word};
use asn1_ldap::{ExtendedRequest, ExtendedResponse, IntermediateResponse};
use asn1_values::OctetString;
use std::alloc::AllocError;

/// Appends a request of an extended operation.
pub(crate) fn push_extended_request(
    text: &mut String,
    request: &ExtendedRequest,
) -> Result<(), AllocError>
    ensures { OnOk result (string_bytes text.new ≡
        string_bytes text.old ++ extended_request_text request.now) }
{
    text.push_str("extended request: ")?;
    push_word(text, request.request_name.as_slice())?;
    push_optional_length(text, ", value", &request.request_value)
}

/// Appends a response of an extended operation.
pub(crate) fn push_extended_response(
    text: &mut String,
    response: &ExtendedResponse,
) -> Result<(), AllocError>
    ensures { OnOk result (string_bytes text.new ≡
        string_bytes text.old ++ extended_response_text response.now) }
{
    text.push_str("extended response: ")?;
    push_result(
        text,
        &response.result_code,
        &response.matched_dn,
        &response.diagnostic_message,
        &response.referral,
    )?;
    push_named_value(text, &response.response_name, &response.response_value)
}

/// Appends an intermediate response.
pub(crate) fn push_intermediate_response(
    text: &mut String,
    response: &IntermediateResponse,
) -> Result<(), AllocError>
    ensures { OnOk result (string_bytes text.new ≡
        string_bytes text.old ++ intermediate_response_text response.now) }
{
    text.push_str("intermediate response")?;
    push_named_value(text, &response.response_name, &response.response_value)
}

/// Appends the name and the length of a value, each if it is there.
fn push_named_value(
    text: &mut String,
    name: &Option<OctetString>,
    value: &Option<OctetString>,
) -> Result<(), AllocError>
    ensures { OnOk result (string_bytes text.new ≡
        string_bytes text.old ++ named_value_text name.now value.now) }
{
    push_optional_word(text, ", name ", name)?;
    push_optional_length(text, ", value", value)
}
