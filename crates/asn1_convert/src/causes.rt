//! Causes in words.

use asn1_dec::DecodeError;
use asn1_paths::Limits;
use std::alloc::{AllocError, Global};
use std::fmt::Write;

/// The cause of an error of reading, in words. The limits are those of the value that was read.
pub(crate) fn cause_text(
    alloc: Global,
    error: DecodeError,
    limits: Option<Limits>,
) -> Result<String, AllocError> {
    match refusal_of(error) {
        Refusal::OutOfRange => range_text(alloc, limits),
        Refusal::NoAlternative => String::from_str(alloc, "no alternative has its tag"),
        Refusal::Missing(name) => format!(in alloc; "component {name} is missing"),
        Refusal::Twice(name) => format!(in alloc; "component {name} is there twice"),
        Refusal::NoComponent => String::from_str(alloc, "no component of the SET has its tag"),
        Refusal::NoValue => type_text(alloc, limits),
        Refusal::Other(error) => format!(in alloc; "{error}"),
    }
}

/// Whether the error tells no more than that the octets are no value of the type.
pub(crate) fn is_plain(error: DecodeError) -> bool {
    matches!(refusal_of(error), Refusal::NoValue)
}

/// Why a value was not read, as a person is shown it.
#[derive(Clone, Copy)]
enum Refusal {
    OutOfRange,
    NoAlternative,
    Missing(&'static str),
    Twice(&'static str),
    NoComponent,
    NoValue,
    Other(DecodeError),
}

/// The reason of an error, or of that inside the component that it names.
fn refusal_of(error: DecodeError) -> Refusal {
    match error {
        DecodeError::OutOfRange => Refusal::OutOfRange,
        DecodeError::NoValidChoice(_) => Refusal::NoAlternative,
        DecodeError::MissingField(name) => Refusal::Missing(name),
        DecodeError::DuplicateField(name) => Refusal::Twice(name),
        DecodeError::UnknownField { .. } => Refusal::NoComponent,
        DecodeError::Custom(_) => Refusal::NoValue,
        DecodeError::FieldError { cause, .. } => refusal_of_number(cause),
        _ => Refusal::Other(error),
    }
}

/// The reason of the error of this number.
fn refusal_of_number(number: u8) -> Refusal {
    if number == DecodeError::OutOfRange.number() {
        Refusal::OutOfRange
    } else if number == DecodeError::NoValidChoice("").number() {
        Refusal::NoAlternative
    } else {
        Refusal::NoValue
    }
}

/// The words for a value that is none of its type, or outside the limits that this has.
fn type_text(alloc: Global, limits: Option<Limits>) -> Result<String, AllocError> {
    let mut text = String::from_str(alloc, "no value of its type")?;
    if let Some(limits) = known(limits) {
        text.push_str(", or outside ")?;
        push_limits(&mut text, limits)?;
    }
    Ok(text)
}

/// The words for a number, or a number of units, outside limits.
fn range_text(alloc: Global, limits: Option<Limits>) -> Result<String, AllocError> {
    let mut text = String::from_str(alloc, "outside ")?;
    match known(limits) {
        Some(limits) => push_limits(&mut text, limits)?,
        None => text.push_str("its limits")?,
    }
    Ok(text)
}

/// Limits, if one of them is known.
fn known(limits: Option<Limits>) -> Option<Limits> {
    let limits = limits?;
    if limits.least.is_some() || limits.greatest.is_some() {
        Some(limits)
    } else {
        None
    }
}

/// Appends limits, as X.680 writes a range.
fn push_limits(text: &mut String, limits: Limits) -> Result<(), AllocError> {
    push_end(text, limits.least, "MIN")?;
    text.push_str("..")?;
    push_end(text, limits.greatest, "MAX")
}

/// Appends an end of limits, or a word where there is none.
fn push_end(text: &mut String, end: Option<i128>, none: &str) -> Result<(), AllocError> {
    match end {
        Some(end) => write!(text, "{end}"),
        None => text.push_str(none),
    }
}
