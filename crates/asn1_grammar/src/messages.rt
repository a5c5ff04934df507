//! Errors in words.
use crate::error::Cause;
use asn1_notation::Span;
use std::alloc::{AllocError, Global};

/// Appends the cause of an error of a text.
pub fn append_cause(
    alloc: Global,
    out: &mut Vec<u8>,
    text: &[u8],
    cause: Cause,
) -> Result<(), AllocError> {
    match cause {
        Cause::NoItem(refusal) => append(out, &format!(in alloc; "{refusal}")?),
        Cause::Expected(expected) => append(out, &format!(in alloc; "expected {expected}")?),
        Cause::ExpectedAfter(expected, owner, name) => {
            append(
                out,
                &format!(in alloc; "expected {expected} after {owner} ")?,
            )?;
            append_name(out, text, name)
        }
        Cause::Slip(slip) => append(out, &format!(in alloc; "{slip}")?),
        Cause::NotTaken(construct) => append(out, &format!(in alloc; "{construct} is not taken")?),
        Cause::TooDeep => append(out, "nested too deep"),
    }
}

// Appends words.
fn append(out: &mut Vec<u8>, words: &str) -> Result<(), AllocError> {
    out.extend_from_slice(words.as_bytes())?;
    Ok(())
}

// Appends a name of the text in apostrophes.
fn append_name(out: &mut Vec<u8>, text: &[u8], name: Span) -> Result<(), AllocError> {
    append(out, "'")?;
    out.extend_from_slice(name.octets(text))?;
    append(out, "'")
}
