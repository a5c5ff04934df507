//! The line of a message that is not understood.
ghost use Rattle.std.specs.Prelude.{◌≡◌, ◌++◌, IfOk, OnOk};
ghost use Rattle.std.specs.Option.{option_copied};
ghost use Rattle.std.specs.String.{string_bytes};
ghost use Rattle.asn1_ldap_stream.specs.Beginnings.{IsKnownAs, name_at};
ghost use Rattle.asn1_ldap_stream.specs.Elements.{IsUnknownLine, label};

use crate::NESTED_FILTERS;
use crate::beginning::Beginning;
use asn1_dec::DecodeError;
use asn1_der_items::{find_element, read_integer};
use asn1_items::ItemError;
use asn1_ldap_text::operation_name;
use asn1_values::Integer;
use std::alloc::{AllocError, Global};
use std::fmt::Write;

/// The greatest number of octets of an INTEGER that is shown. RFC 4511 has four of a message's number.
const LONGEST_MESSAGE_ID: usize = 8;

/// The line of a message with this beginning that is not understood, for this error. It fails only if memory runs out.
pub(crate) fn unknown_line(
    alloc: Global,
    beginning: Beginning<'_>,
    error: DecodeError,
) -> Result<String, AllocError>
    ensures { IfOk result (λ text. IsUnknownLine beginning.entry.message_id.now
        beginning.entry.operation.now (string_bytes text)) }
{
    let number = message_id_of(alloc, beginning.message_id)?;
    let cause = cause_text(alloc, error)?;
    let mut text = String::new(alloc);
    push_label(&mut text, &number, operation_in(beginning.operation))?;
    writeln!(text, "not understood: {cause}")?;
    Ok(text)
}

/// The words for the error of reading a message.
fn cause_text(alloc: Global, error: DecodeError) -> Result<String, AllocError> {
    match error {
        DecodeError::Depth => {
            format!(in alloc; "filters are nested more than {NESTED_FILTERS} deep")
        }
        _ => error.cause_text(alloc),
    }
}

/// Appends the number and the operation of a message, as far as they are known.
fn push_label(
    text: &mut String,
    number: &Option<Integer>,
    operation: Option<&str>,
) -> Result<(), AllocError>
    ensures { OnOk result (string_bytes text.new ≡
        string_bytes text.old ++ label number.now (option_copied operation.entry)) }
{
    match number {
        Some(number) => match operation {
            Some(name) => write!(text, "{number} {name}: "),
            None => write!(text, "{number}: "),
        },
        None => match operation {
            Some(name) => write!(text, "{name}: "),
            None => Ok(()),
        },
    }
}

/// The number of these contents octets, if they are those of an INTEGER, and not too many to be shown. It fails only if memory runs out.
fn message_id_of(alloc: Global, octets: &[u8]) -> Result<Option<Integer>, AllocError>
    ensures { IfOk result (IsKnownAs octets.now) }
{
    if octets.len() > LONGEST_MESSAGE_ID {
        return Ok(None);
    }
    match read_integer(alloc, octets) {
        Ok(number) => Ok(Some(number)),
        Err(ItemError::Memory) => Err(AllocError),
        Err(_) => Ok(None),
    }
}

/// The name of the operation with which the octets begin.
fn operation_in(octets: &[u8]) -> Option<&'static str>
    ensures { option_copied result ≡ name_at octets.now }
{
    match find_element(octets) {
        Ok(element) => operation_name(element.tag),
        Err(_) => None,
    }
}
