//! The operation of a message (RFC 4511, 4.1.1).
ghost use Rattle.std.specs.Prelude.{◌≡◌, ◌++◌, OnOk};
ghost use Rattle.std.specs.String.{string_bytes};
ghost use Rattle.asn1_ldap_text.specs.Operations.{abandon_text, operation_text};

use crate::binds::{push_bind_request, push_bind_response};
use crate::changes::{
    push_add_request, push_compare_request, push_modify_dn_request, push_modify_request,
};
use crate::extended::{push_extended_request, push_extended_response, push_intermediate_response};
use crate::results::push_response;
use crate::searches::{push_entry, push_reference, push_search_request};
use crate::strings::push_named;
use asn1_ldap::{LdapMessageProtocolOp, MessageId};
use std::alloc::AllocError;
use std::fmt::Write;

/// Appends an operation: its name, and its components.
pub(crate) fn push_operation(
    text: &mut String,
    operation: &LdapMessageProtocolOp,
) -> Result<(), AllocError>
    ensures { OnOk result (string_bytes text.new ≡
        string_bytes text.old ++ operation_text operation.now) }
{
    match operation {
        LdapMessageProtocolOp::BindRequest(request) => push_bind_request(text, request),
        LdapMessageProtocolOp::BindResponse(response) => push_bind_response(text, response),
        LdapMessageProtocolOp::UnbindRequest(_) => text.push_str("unbind request"),
        LdapMessageProtocolOp::SearchRequest(request) => push_search_request(text, request),
        LdapMessageProtocolOp::SearchResEntry(entry) => push_entry(text, entry),
        LdapMessageProtocolOp::SearchResDone(done) => {
            push_response(text, "search done: ", done.get())
        }
        LdapMessageProtocolOp::SearchResRef(uris) => push_reference(text, uris.get().as_slice()),
        LdapMessageProtocolOp::ModifyRequest(request) => push_modify_request(text, request),
        LdapMessageProtocolOp::ModifyResponse(response) => {
            push_response(text, "modify response: ", response.get())
        }
        LdapMessageProtocolOp::AddRequest(request) => push_add_request(text, request),
        LdapMessageProtocolOp::AddResponse(response) => {
            push_response(text, "add response: ", response.get())
        }
        LdapMessageProtocolOp::DelRequest(name) => {
            push_named(text, "delete request: name ", name.get().as_slice())
        }
        LdapMessageProtocolOp::DelResponse(response) => {
            push_response(text, "delete response: ", response.get())
        }
        LdapMessageProtocolOp::ModDnRequest(request) => push_modify_dn_request(text, request),
        LdapMessageProtocolOp::ModDnResponse(response) => {
            push_response(text, "modify DN response: ", response.get())
        }
        LdapMessageProtocolOp::CompareRequest(request) => push_compare_request(text, request),
        LdapMessageProtocolOp::CompareResponse(response) => {
            push_response(text, "compare response: ", response.get())
        }
        LdapMessageProtocolOp::AbandonRequest(number) => push_abandon(text, number.get()),
        LdapMessageProtocolOp::ExtendedReq(request) => push_extended_request(text, request),
        LdapMessageProtocolOp::ExtendedResp(response) => push_extended_response(text, response),
        LdapMessageProtocolOp::IntermediateResponse(response) => {
            push_intermediate_response(text, response)
        }
    }
}

/// Appends a request to abandon the operation of another message.
fn push_abandon(text: &mut String, message_id: &MessageId) -> Result<(), AllocError>
    ensures { OnOk result (string_bytes text.new ≡
        string_bytes text.old ++ abandon_text message_id.now) }
{
    let number = message_id.get();
    write!(text, "abandon request: message {number}")
}
