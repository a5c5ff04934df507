//! Errors and warnings as lines.
ghost use Rattle.std.specs.Prelude.{◌≡◌, ◌<◌, [], ◌∷◌, ◌++◌, IfOk, OnOk, map};
ghost use Rattle.std.specs.List.Sorted.{IsPermutation, IsSortedBy};
ghost use Rattle.std.specs.String.{string_bytes};
ghost use Rattle.asn1_compilation.specs.Messages as spec;
ghost use Rattle.asn1_compilation.specs.Messages.{AreMessagesOf, IsMessageOf, is_before};

use crate::job::Input;
use crate::locator::Locator;
use asn1_resolved::{Problem, Severity};
use std::alloc::{AllocError, Global};
use std::fmt::Write;

/// An error or a warning.
#[derive(Drop)]
pub struct Message {
    /// Whether the modules can be used.
    pub severity: Severity,
    /// The line that tells it, as `FILE:LINE:COLUMN: TEXT`.
    pub line: String,
}

/// Whether no message is an error.
pub(crate) fn accepts(messages: &[Message]) -> bool
    ensures { result ≡ spec.accepts messages.now }
{
    messages.iter().all(|message| is_warning(message.severity))
}

// Whether modules with a problem of this severity can be used.
fn is_warning(severity: Severity) -> bool
    ensures { result ≡ spec.is_warning severity }
{
    match severity {
        Severity::Error => false,
        Severity::Warning => true,
    }
}

/// The messages for problems, in the order of their places.
pub(crate) fn messages_of(
    alloc: Global,
    inputs: &[Input],
    problems: &[Problem],
) -> Result<Vec<Message>, AllocError>
    ensures { IfOk result (λ messages. AreMessagesOf problems.now messages.items) }
{
    let order = in_order(alloc, problems)?;
    let mut locator = Locator::new();
    let mut messages = Vec::new(alloc);
    for problem in &order {
        messages.push(message_of(alloc, &mut locator, inputs, problem)?)?;
    }
    Ok(messages)
}

// The problems in the order of their places.
fn in_order<'p>(alloc: Global, problems: &'p [Problem]) -> Result<Vec<&'p Problem>, AllocError>
    ensures permutation { IfOk result (λ order.
        IsPermutation problems.now (map (λ problem. problem.now) order.items)) }
    ensures ascending { IfOk result (λ order.
        IsSortedBy is_before (map (λ problem. problem.now) order.items)) }
{
    let mut order = Vec::new(alloc);
    for problem in problems {
        order.push(problem)?;
    }
    order.sort_by_key(|problem| (problem.place.text, problem.place.span.start))?;
    Ok(order)
}

// The message for a problem.
fn message_of(
    alloc: Global,
    locator: &mut Locator,
    inputs: &[Input],
    problem: &Problem,
) -> Result<Message, AllocError>
    ensures { IfOk result (λ message. IsMessageOf problem.now message) }
{
    let mut line = beginning(alloc, locator, inputs, problem)?;
    push_octets(&mut line, problem.text.as_slice())?;
    Ok(Message {
        severity: problem.severity,
        line,
    })
}

// What comes before the text of a problem: its place, and that it is a warning.
fn beginning(
    alloc: Global,
    locator: &mut Locator,
    inputs: &[Input],
    problem: &Problem,
) -> Result<String, AllocError> {
    let mut line = String::new(alloc);
    let place = problem.place;
    if let Some(input) = inputs.get(place.text) {
        let position = locator.position_of(input.text.as_slice(), place);
        let name = input.name.as_str();
        let row = position.line;
        let column = position.column;
        write!(line, "{name}:{row}:{column}: ")?;
    }
    if problem.severity == Severity::Warning {
        line.push_str("warning: ")?;
    }
    Ok(line)
}

/// Appends octets. One that is not of ASCII becomes a question mark.
pub(crate) fn push_octets(out: &mut String, octets: &[u8]) -> Result<(), AllocError>
    ensures { OnOk result (string_bytes out.new ≡
        string_bytes out.old ++ map spec.shown octets.now) }
{
    for octet in octets {
        push_octet(out, *octet)?;
    }
    Ok(())
}

// Appends an octet, or a question mark.
fn push_octet(out: &mut String, octet: u8) -> Result<(), AllocError>
    ensures { OnOk result (string_bytes out.new ≡ string_bytes out.old ++ spec.shown octet ∷ []) }
{
    if octet.is_ascii_graphic() || octet == b' ' {
        push_plain(out, octet)
    } else {
        out.push('?')
    }
}

// Appends an octet of ASCII.
fn push_plain(out: &mut String, octet: u8) -> Result<(), AllocError>
    requires { octet < 128 }
    ensures { OnOk result (string_bytes out.new ≡ string_bytes out.old ++ octet ∷ []) }
{
    out.push(char::from(octet))
}
