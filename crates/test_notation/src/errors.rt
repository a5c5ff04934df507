//! What is wrong with a text, a line each.
use asn1_grammar::{SyntaxError, append_cause};
use asn1_resolved::{Problem, Severity};
use asn1_tokens::position_of;
use std::alloc::Global;
use std::io::{self, Write};

/// Appends the errors of a text.
pub(crate) fn append_errors(
    alloc: Global,
    out: &mut Vec<u8>,
    text: &[u8],
    errors: &[SyntaxError],
) -> io::Result<()> {
    for error in errors {
        append_position(out, text, error.found.start)?;
        append_cause(alloc, out, text, error.cause)?;
        out.push(b'\n')?;
    }
    Ok(())
}

/// Appends the problems of the modules of a text.
pub(crate) fn append_problems(
    out: &mut Vec<u8>,
    text: &[u8],
    problems: &[Problem],
) -> io::Result<()> {
    for problem in problems {
        append_position(out, text, problem.place.span.start)?;
        if problem.severity == Severity::Warning {
            out.extend_from_slice(b"warning: ")?;
        }
        out.extend_from_slice(&problem.text)?;
        out.push(b'\n')?;
    }
    Ok(())
}

/// Appends the line and the column of an octet.
pub(crate) fn append_position(out: &mut Vec<u8>, text: &[u8], offset: usize) -> io::Result<()> {
    let position = position_of(text, offset);
    write!(out, "{}:{}: ", position.line, position.column)
}
