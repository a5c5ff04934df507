//! The syntax of the objects of a class (X.681, 10).
use crate::cursor::Cursor;
use crate::error::{Expected, Fault, SyntaxError};
use crate::spans::{cursor_over, of_fault};
use asn1_notation::Span;
use asn1_tokens::{Token, TokenKind};
use std::alloc::{AllocError, Global};

/// A part of the braces behind WITH SYNTAX.
#[derive(Clone, Copy, Debug, PartialEq, Eq)]
pub enum SyntaxStep<'a> {
    /// A word, or a comma.
    Word(&'a [u8]),
    /// The setting of the field of this name.
    Field(&'a [u8]),
    /// A bracket, before what an object may leave out, with the index of the one that closes it.
    Open(usize),
    /// A bracket that closes another.
    Close,
}

/// Reads the braces behind WITH SYNTAX.
pub fn parse_syntax<'a>(
    alloc: Global,
    text: &'a [u8],
    braces: Span,
) -> Result<Result<Vec<SyntaxStep<'a>>, SyntaxError>, AllocError> {
    of_fault(read_syntax(alloc, text, braces))
}

// Reads the braces behind WITH SYNTAX.
fn read_syntax<'a>(
    alloc: Global,
    text: &'a [u8],
    braces: Span,
) -> Result<Vec<SyntaxStep<'a>>, Fault> {
    let mut cursor = cursor_over(alloc, text, braces)?;
    let mut steps = Vec::new(alloc);
    let mut open = Vec::new(alloc);
    cursor.expect_symbol(b"{", Expected::OpenBrace)?;
    for _ in 0..cursor.len() {
        if cursor.accept_symbol(b"}") {
            break;
        }
        step(&mut cursor, &mut steps, &mut open)?;
    }
    if open.is_empty() && cursor.is_at_end() {
        Ok(steps)
    } else {
        Err(cursor.expected(Expected::CloseBracket))
    }
}

// Reads the next part. Two brackets may be one token.
fn step<'a>(
    cursor: &mut Cursor<'a>,
    steps: &mut Vec<SyntaxStep<'a>>,
    open: &mut Vec<usize>,
) -> Result<(), Fault> {
    if cursor.accept_symbol(b"[") {
        open_bracket(steps, open)
    } else if cursor.accept_symbol(b"[[") {
        open_bracket(steps, open)?;
        open_bracket(steps, open)
    } else if cursor.accept_symbol(b"]") {
        close_bracket(cursor, steps, open)
    } else if cursor.accept_symbol(b"]]") {
        close_bracket(cursor, steps, open)?;
        close_bracket(cursor, steps, open)
    } else if cursor.accept_symbol(b"&") {
        let name = word(cursor, Expected::FieldName)?;
        steps.push(SyntaxStep::Field(name))?;
        Ok(())
    } else {
        let word = word(cursor, Expected::SyntaxWord)?;
        steps.push(SyntaxStep::Word(word))?;
        Ok(())
    }
}

// Keeps a bracket that opens.
fn open_bracket(steps: &mut Vec<SyntaxStep<'_>>, open: &mut Vec<usize>) -> Result<(), Fault> {
    open.push(steps.len())?;
    steps.push(SyntaxStep::Open(steps.len()))?;
    Ok(())
}

// Keeps a bracket that closes the last one.
fn close_bracket(
    cursor: &Cursor<'_>,
    steps: &mut Vec<SyntaxStep<'_>>,
    open: &mut Vec<usize>,
) -> Result<(), Fault> {
    let Some(first) = open.pop() else {
        return Err(cursor.expected(Expected::CloseBrace));
    };
    let end = steps.len();
    if let Some(step) = steps.get_mut(first) {
        *step = SyntaxStep::Open(end);
    }
    steps.push(SyntaxStep::Close)?;
    Ok(())
}

// Reads a word, a name or a comma.
fn word<'a>(cursor: &mut Cursor<'a>, expected: Expected) -> Result<&'a [u8], Fault> {
    match cursor.peek() {
        Some(token) if is_word(token) => {
            cursor.skip();
            Ok(token.text)
        }
        _ => Err(cursor.expected(expected)),
    }
}

/// Whether a token is a word, reserved or not, a name or a comma.
pub(crate) fn is_word(token: Token<'_>) -> bool {
    match token.kind {
        TokenKind::TypeReference | TokenKind::Identifier | TokenKind::ReservedWord => true,
        TokenKind::Symbol => matches!(token.text, b","),
        _ => false,
    }
}
