//! The work of a program of `asn1_convert`.
use crate::request::Request;
use crate::types::Types;
use asn1_convert::{Action, Answer, Converted, OutputForm, Pieces, PiecesError, Task, TypeList};
use std::alloc::{AllocError, Global};
use std::fmt::Write;

/// How many nested scopes may be open.
const DEPTH: usize = 64;

/// The text of the answers to a request for this work.
pub(crate) fn answers_of(
    alloc: Global,
    request: &Request<'_>,
    action: Action,
) -> Result<String, AllocError> {
    match request.piece {
        None => text_of(alloc, request, action),
        Some(size) => text_of_pieces(alloc, request, action, size),
    }
}

/// The text of the answer to a request.
fn text_of(alloc: Global, request: &Request<'_>, action: Action) -> Result<String, AllocError> {
    let task = Task {
        alloc,
        before: Converted::default(),
        input: &request.octets,
        action,
        depth: DEPTH,
    };
    match Types::answer(request.type_name, task) {
        Some(Ok(answer)) => answer_text(alloc, action, answer),
        Some(Err(error)) => Err(error),
        None => String::from_str(alloc, "no type has this name\n"),
    }
}

/// The text of the answers to a request of which the octets come in pieces of this size.
fn text_of_pieces(
    alloc: Global,
    request: &Request<'_>,
    action: Action,
    size: usize,
) -> Result<String, AllocError> {
    let mut text = String::new(alloc);
    let Action::Convert { from, to } = action else {
        return Ok(text);
    };
    let mut pieces = Pieces::new(alloc, from, to, DEPTH);
    let mut came = 0usize;
    for piece in request.octets.as_slice().chunks(size.max(1)) {
        came = came.saturating_add(piece.len());
        pieces.append(piece)?;
        if let Some(answer) = next_answer(&mut pieces, alloc, request.type_name, false)? {
            let has_failed = answer.failure.is_some();
            push_answer(&mut text, alloc, action, answer, came)?;
            if has_failed {
                return Ok(text);
            }
        }
    }
    if let Some(answer) = next_answer(&mut pieces, alloc, request.type_name, true)? {
        push_answer(&mut text, alloc, action, answer, came)?;
    }
    Ok(text)
}

/// The next answer for pieces. There is none if no type has the name.
fn next_answer(
    pieces: &mut Pieces,
    alloc: Global,
    name: &str,
    is_end: bool,
) -> Result<Option<Answer>, AllocError> {
    match pieces.answer::<Types>(alloc, name, is_end) {
        Ok(answer) => Ok(answer),
        Err(PiecesError::NoType) => Ok(None),
        Err(PiecesError::Memory) => Err(AllocError),
    }
}

/// Appends an answer that says something, behind the number of octets that came before it.
fn push_answer(
    text: &mut String,
    alloc: Global,
    action: Action,
    answer: Answer,
    came: usize,
) -> Result<(), AllocError> {
    let shown = answer_text(alloc, action, answer)?;
    if shown.is_empty() {
        return Ok(());
    }
    write!(text, "{came}: {shown}")
}

/// The output as it is shown, and the line of a value that was refused.
fn answer_text(alloc: Global, action: Action, answer: Answer) -> Result<String, AllocError> {
    let mut text = match action {
        Action::Convert {
            to: OutputForm::Codec(_),
            ..
        } => digits_of(alloc, answer.output.as_slice())?,
        _ => String::from_utf8_lossy(alloc, answer.output.as_slice())?,
    };
    if let Some(line) = &answer.failure {
        text.push_str(line.as_str())?;
    }
    Ok(text)
}

/// A line of hexadecimal digits; nothing for no octets.
fn digits_of(alloc: Global, octets: &[u8]) -> Result<String, AllocError> {
    if octets.is_empty() {
        return Ok(String::new(alloc));
    }
    let digits = hex::encode(alloc, octets)?;
    format!(in alloc; "{digits}\n")
}
