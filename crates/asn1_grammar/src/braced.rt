//! Parts in braces that are not read.
use crate::cursor::{Cursor, span_of};
use crate::error::{Expected, Fault};
use asn1_notation::Span;

/// Reads from a brace to the one that closes it. No definition begins between them.
pub(crate) fn braced(cursor: &mut Cursor<'_>) -> Result<Span, Fault> {
    let start = cursor.start();
    cursor.expect_symbol(b"{", Expected::OpenBrace)?;
    let mut depth = 1usize;
    for _ in 0..cursor.len() {
        let Some(token) = cursor.peek() else {
            break;
        };
        if cursor.sees_symbol(b"::=") {
            break;
        }
        if cursor.accept_symbol(b"{") {
            depth = depth.saturating_add(1);
        } else if cursor.accept_symbol(b"}") {
            depth = depth.saturating_sub(1);
            if depth == 0 {
                let end = span_of(token).end;
                return Ok(Span { start, end });
            }
        } else {
            cursor.skip();
        }
    }
    Err(cursor.expected(Expected::CloseBrace))
}

/// Reads what is before a comma or a brace that closes, with braces and parentheses inside.
pub(crate) fn setting(cursor: &mut Cursor<'_>) -> Result<Span, Fault> {
    let start = cursor.start();
    let mut end = start;
    let mut depth = 0usize;
    for _ in 0..cursor.len() {
        let Some(token) = cursor.peek() else {
            break;
        };
        let ends = cursor.sees_symbol(b",") || cursor.sees_symbol(b"}");
        if depth == 0 && ends || cursor.sees_symbol(b"::=") {
            break;
        }
        if cursor.sees_symbol(b"{") || cursor.sees_symbol(b"(") {
            depth = depth.saturating_add(1);
        } else if cursor.sees_symbol(b"}") || cursor.sees_symbol(b")") {
            depth = depth.saturating_sub(1);
        }
        end = span_of(token).end;
        cursor.skip();
    }
    if start < end {
        Ok(Span { start, end })
    } else {
        Err(cursor.expected(Expected::Value))
    }
}
