//! What is wrong with the notation of a text, as problems.
use crate::job::Input;
use crate::message::push_octets;
use asn1_grammar::{Cause, Parsed, SyntaxError};
use asn1_names::Place;
use asn1_notation::Span;
use asn1_resolved::{Problem, Severity};
use std::alloc::{AllocError, Global};
use std::fmt::Write;

/// The errors in the notation of all texts. A text without a module is one.
pub(crate) fn syntax_problems(
    alloc: Global,
    inputs: &[Input],
    parsed: &[Parsed],
) -> Result<Vec<Problem>, AllocError> {
    let mut problems = Vec::new(alloc);
    for (index, (input, part)) in inputs.iter().zip(parsed).enumerate() {
        for error in &part.errors {
            let text = cause_text(alloc, input, error)?;
            problems.push(problem_of(index, error.found, text))?;
        }
        if part.errors.is_empty() && part.modules.is_empty() {
            let text = String::from_str(alloc, "there is no module")?;
            problems.push(problem_of(index, Span { start: 0, end: 0 }, text))?;
        }
    }
    Ok(problems)
}

// An error in a text.
fn problem_of(index: usize, span: Span, text: String) -> Problem {
    Problem {
        place: Place { text: index, span },
        severity: Severity::Error,
        text: text.into_bytes(),
    }
}

// The text of an error in the notation.
fn cause_text(alloc: Global, input: &Input, error: &SyntaxError) -> Result<String, AllocError> {
    let mut out = String::new(alloc);
    match error.cause {
        Cause::NoItem(refusal) => write!(out, "{refusal}")?,
        Cause::Expected(expected) => write!(out, "expected {expected}")?,
        Cause::ExpectedAfter(expected, owner, name) => {
            write!(out, "expected {expected} after {owner} '")?;
            push_octets(&mut out, front_of(name.octets(input.text.as_slice())))?;
            out.push_str("'")?;
        }
        Cause::Slip(slip) => write!(out, "{slip}")?,
        Cause::NotTaken(construct) => write!(out, "{construct} is not supported")?,
        Cause::TooDeep => out.push_str("nested too deep")?,
    }
    Ok(out)
}

/// How many octets of a name a message has.
const MAX_NAME: usize = 100;

// The front of a name, if it is very long.
fn front_of(name: &[u8]) -> &[u8] {
    name.get(..MAX_NAME).unwrap_or(name)
}
