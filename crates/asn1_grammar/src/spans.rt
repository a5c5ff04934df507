//! Parts of a text that are read again.
use crate::cursor::Cursor;
use crate::error::{Cause, Fault, SyntaxError};
use asn1_notation::Span;
use asn1_tokens::{TokenError, tokens};
use std::alloc::{AllocError, Global};

/// A cursor over these octets of a text. Places are those of the whole text.
pub(crate) fn cursor_over<'a>(
    alloc: Global,
    text: &'a [u8],
    part: Span,
) -> Result<Cursor<'a>, Fault> {
    match tokens(alloc, part.octets(text)) {
        Ok(mut tokens) => {
            for token in tokens.iter_mut() {
                token.start = token.start.saturating_add(part.start);
            }
            Ok(Cursor::new(alloc, tokens, part.end))
        }
        Err(TokenError::Memory) => Err(Fault::Memory),
        Err(TokenError::Refused(refusal, at)) => {
            let at = at.saturating_add(part.start);
            Err(Fault::Syntax(SyntaxError {
                found: Span { start: at, end: at },
                cause: Cause::NoItem(refusal),
                definition: None,
            }))
        }
    }
}

/// An answer, or the error of the text. The error of this call is that of memory.
pub(crate) fn of_fault<T>(answer: Result<T, Fault>) -> Result<Result<T, SyntaxError>, AllocError> {
    match answer {
        Ok(read) => Ok(Ok(read)),
        Err(Fault::Syntax(error)) => Ok(Err(error)),
        Err(Fault::Memory) => Err(AllocError),
    }
}
