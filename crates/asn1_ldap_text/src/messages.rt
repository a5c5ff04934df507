//! Messages (RFC 4511, 4.1.1).
ghost use Rattle.std.specs.Prelude.{◌≡◌, ◌++◌, IfOk, OnOk};
ghost use Rattle.std.specs.List.{AllPass};
ghost use Rattle.std.specs.String.{string_bytes};
ghost use Rattle.asn1_ldap_text.specs.Escapes.{is_visible};
ghost use Rattle.asn1_ldap_text.specs.Messages.{message_line, message_lines, number_text};

use crate::controls::push_controls;
use crate::operations::push_operation;
use asn1_ldap::{LdapMessage, MessageId};
use std::alloc::{AllocError, Global};
use std::fmt::Write;

/// The lines of a message, each with a line feed at its end. It fails only if memory runs out.
pub fn message_text(alloc: Global, message: &LdapMessage) -> Result<String, AllocError>
    ensures text { IfOk result (λ text. string_bytes text ≡ message_lines message.now) }
    ensures visible { IfOk result (λ text. AllPass is_visible (string_bytes text)) }
{
    let mut text = String::new(alloc);
    push_line(&mut text, message)?;
    push_controls(&mut text, &message.controls)?;
    Ok(text)
}

/// Appends the first line of a message: its number, and its operation.
fn push_line(text: &mut String, message: &LdapMessage) -> Result<(), AllocError>
    ensures { OnOk result (string_bytes text.new ≡
        string_bytes text.old ++ message_line message.now) }
{
    push_number(text, &message.message_id)?;
    push_operation(text, &message.protocol_op)?;
    text.push_str("\n")
}

/// Appends the number of a message.
fn push_number(text: &mut String, message_id: &MessageId) -> Result<(), AllocError>
    ensures { OnOk result (string_bytes text.new ≡
        string_bytes text.old ++ number_text message_id.now) }
{
    let number = message_id.get();
    write!(text, "{number} ")
}
