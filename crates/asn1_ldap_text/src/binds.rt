//! Binds (RFC 4511, 4.2).
ghost use Rattle.std.specs.Prelude.{◌≡◌, ◌++◌, OnOk};
ghost use Rattle.std.specs.String.{string_bytes};
ghost use Rattle.asn1_ldap_text.specs.Binds.{authentication_text, bind_request_text, bind_response_text, sasl_text, version_text};

use crate::lengths::{push_length, push_optional_length};
use crate::results::push_result;
use crate::strings::push_named;
use asn1_ldap::{AuthenticationChoice, BindRequest, BindResponse, SaslCredentials};
use std::alloc::AllocError;
use std::fmt::Write;

/// Appends a request to bind.
pub(crate) fn push_bind_request(text: &mut String, request: &BindRequest) -> Result<(), AllocError>
    ensures { OnOk result (string_bytes text.new ≡
        string_bytes text.old ++ bind_request_text request.now) }
{
    push_version(text, request)?;
    push_named(text, ", name ", request.name.as_slice())?;
    push_authentication(text, &request.authentication)
}

/// Appends the name of the operation, and the version.
fn push_version(text: &mut String, request: &BindRequest) -> Result<(), AllocError>
    ensures { OnOk result (string_bytes text.new ≡
        string_bytes text.old ++ version_text request.now) }
{
    let version = request.version.get();
    write!(text, "bind request: version {version}")
}

/// Appends how the client proves who it is. No password is shown, and no credentials.
fn push_authentication(
    text: &mut String,
    authentication: &AuthenticationChoice,
) -> Result<(), AllocError>
    ensures { OnOk result (string_bytes text.new ≡
        string_bytes text.old ++ authentication_text authentication.now) }
{
    match authentication {
        AuthenticationChoice::Simple(password) => {
            push_length(text, ", simple password", password.as_slice())
        }
        AuthenticationChoice::Sasl(credentials) => push_sasl(text, credentials),
    }
}

/// Appends a mechanism of SASL, and the length of the credentials.
fn push_sasl(text: &mut String, credentials: &SaslCredentials) -> Result<(), AllocError>
    ensures { OnOk result (string_bytes text.new ≡
        string_bytes text.old ++ sasl_text credentials.now) }
{
    push_named(text, ", SASL mechanism ", credentials.mechanism.as_slice())?;
    push_optional_length(text, ", credentials", &credentials.credentials)
}

/// Appends a response to a bind.
pub(crate) fn push_bind_response(
    text: &mut String,
    response: &BindResponse,
) -> Result<(), AllocError>
    ensures { OnOk result (string_bytes text.new ≡
        string_bytes text.old ++ bind_response_text response.now) }
{
    text.push_str("bind response: ")?;
    push_result(
        text,
        &response.result_code,
        &response.matched_dn,
        &response.diagnostic_message,
        &response.referral,
    )?;
    push_optional_length(text, ", server credentials", &response.server_sasl_creds)
}
