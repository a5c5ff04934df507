//! Frequent slips.
use crate::cursor::Cursor;
use crate::error::{Expected, Slip};
use asn1_tokens::TokenKind;

/// The frequent slip at the next token, where something else was expected.
pub(crate) fn slip_at(cursor: &Cursor<'_>, expected: Expected) -> Option<Slip> {
    if sees_slashes(cursor) {
        return Some(Slip::Slashes);
    }
    if cursor.sees_symbol(b"::=") {
        return slip_before_assignment(cursor, expected);
    }
    if cursor.sees_word(b"SIZE") && expected != Expected::OpenBraceOrOf {
        return Some(Slip::BareSize);
    }
    slip_behind_last(cursor)
}

// Whether two slashes are next, one right behind the other.
fn sees_slashes(cursor: &Cursor<'_>) -> bool {
    match cursor.peek_after(1) {
        Some(second) => {
            cursor.sees_symbol(b"/")
                && cursor.sees_after(1, TokenKind::Symbol, b"/")
                && cursor.start().checked_add(1) == Some(second.start)
        }
        None => false,
    }
}

// The slip before '::=': the name is one of a type, or the imports before it have no end.
fn slip_before_assignment(cursor: &Cursor<'_>, expected: Expected) -> Option<Slip> {
    match cursor.last() {
        _ if expected == Expected::CommaOrFrom => Some(Slip::OpenImports),
        Some(token) if token.kind == TokenKind::Identifier && expected == Expected::Type => {
            Some(Slip::SmallLetter)
        }
        _ => None,
    }
}

// The slip that the next token makes behind the last one.
fn slip_behind_last(cursor: &Cursor<'_>) -> Option<Slip> {
    let last = cursor.last()?;
    if last.kind == TokenKind::Number && cursor.sees_symbol(b"-") {
        return Some(Slip::HyphenRange);
    }
    if is_constructed(last.text) && cursor.sees_symbol(b"(") {
        return Some(Slip::Parentheses);
    }
    None
}

// Whether a word begins a type with braces.
fn is_constructed(word: &[u8]) -> bool {
    matches!(word, b"SEQUENCE" | b"SET" | b"CHOICE" | b"ENUMERATED")
}
