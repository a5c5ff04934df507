//! The line for a value that was not converted.
ghost use Rattle.asn1_convert.specs.Lines.{IsLineOf, last_octet, place_text};
ghost use Rattle.std.specs.Prelude.{◌≡◌, IfOk};
ghost use Rattle.std.specs.String.{string_bytes};

use crate::form::CodecForm;
use crate::places::{ReadFailure, malformed_failure, read_failure};
use crate::stream::{Cause, Stop};
use crate::task::Task;
use asn1_dec::Decode;
use asn1_der_items::find_element;
use asn1_items::ItemError;
use asn1_rules::RecodeError;
use std::alloc::{AllocError, Global};
use std::fmt::Write;

/// The line for a value of a task that was not converted: its number in the input, from 1, its octets, and where in it and why.
pub(crate) fn stop_line<T: Decode>(
    task: Task<'_>,
    from: CodecForm,
    stop: Stop,
) -> Result<String, AllocError>
    ensures { IfOk result (λ line. IsLineOf task.entry.before stop (string_bytes line)) }
{
    let number = task.before.values.saturating_add(stop.before);
    let start = task.before.octets.saturating_add(stop.start);
    let length = known_length(task.input, from, stop);
    let octets = octets_of(task.input, stop.start, length);
    let cause = cause_of::<T>(task, from, stop.cause, octets, length, start)?;
    let mut text = place_text(task.alloc, number.saturating_add(1), start, length)?;
    text.push_str(cause.as_str())?;
    text.push('\n')?;
    Ok(text)
}

/// The number of a value, and its first and its last octet, or the first alone.
fn place_text(
    alloc: Global,
    number: usize,
    start: usize,
    length: Option<usize>,
) -> Result<String, AllocError>
    ensures { IfOk result (λ text.
        string_bytes text ≡ place_text number start (last_octet start length)) }
{
    match length {
        Some(length) if length > 0 => {
            let last = start.saturating_add(length - 1);
            format!(in alloc; "value {number}, octets {start} to {last}: ")
        }
        _ => format!(in alloc; "value {number}, octet {start}: "),
    }
}

/// Why the octets of a value that begins at an octet were not converted, and where.
fn cause_of<T: Decode>(
    task: Task<'_>,
    from: CodecForm,
    cause: Cause,
    octets: &[u8],
    length: Option<usize>,
    start: usize,
) -> Result<String, AllocError> {
    let alloc = task.alloc;
    match cause {
        Cause::NotRecoded(RecodeError::Read(error)) => {
            failure_text(
                read_failure::<T>(alloc, from, octets, error, task.depth)?,
                start,
            )
        }
        Cause::NoFront(ItemError::Malformed) if length.is_some() => {
            failure_text(malformed_failure::<T>(alloc, octets, task.depth)?, start)
        }
        Cause::NotRecoded(RecodeError::Write(error)) => format!(in alloc; "not written: {error}"),
        Cause::NoFront(ItemError::Missing(_)) => {
            String::from_str(alloc, "the input ends inside it")
        }
        Cause::NoFront(ItemError::Malformed) => String::from_str(alloc, "no value begins here"),
        Cause::NoFront(ItemError::Memory) | Cause::Memory => String::from_str(alloc, "no memory"),
    }
}

/// How many octets a value has that was not converted, if that is known: of an element whose inside is malformed by its own length.
/// Packed octets are no elements.
fn known_length(input: &[u8], from: CodecForm, stop: Stop) -> Option<usize> {
    match (stop.cause, from) {
        (Cause::NoFront(ItemError::Malformed), CodecForm::Packed) => None,
        (Cause::NoFront(ItemError::Malformed), _) => {
            let octets = octets_of(input, stop.start, None);
            let element = find_element(octets).ok()?;
            octets.len().checked_sub(element.rest.len())
        }
        _ => stop.length,
    }
}

/// Why and where a value was not read that begins at an octet.
fn failure_text(failure: ReadFailure, start: usize) -> Result<String, AllocError> {
    let mut text = failure.words;
    push_position(&mut text, start, failure.position)?;
    Ok(text)
}

/// Appends the octet of a position in octets that begin here, if it is known.
pub(crate) fn push_position(
    text: &mut String,
    start: usize,
    position: Option<usize>,
) -> Result<(), AllocError> {
    match position {
        Some(position) => write!(text, ", at octet {}", start.saturating_add(position)),
        None => Ok(()),
    }
}

/// The octets of a value, or all from its first one on.
fn octets_of(input: &[u8], start: usize, length: Option<usize>) -> &[u8] {
    let left = input.get(start..).unwrap_or(&[]);
    match length {
        Some(length) => left.get(..length).unwrap_or(left),
        None => left,
    }
}
