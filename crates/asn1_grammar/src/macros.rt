//! Macros of X.208, which are skipped.
use crate::cursor::{Cursor, span_of};
use crate::error::{Expected, Fault};
use crate::parsed::MAX_DEPTH;
use crate::values::parse_value;
use asn1_notation::{Definition, Span};
use asn1_tokens::TokenKind;

/// Skips a macro, of which the name was read: to END, or the name of another macro.
pub(crate) fn skipped_macro(cursor: &mut Cursor<'_>) -> Result<Definition, Fault> {
    let start = cursor.start();
    cursor.skip();
    cursor.expect_symbol(b"::=", Expected::Assignment)?;
    if !cursor.accept_word(b"BEGIN") {
        let _ = cursor.type_name(Expected::TypeName)?;
        return Ok(skipped(cursor, start));
    }
    for _ in 0..cursor.len() {
        if cursor.accept_word(b"END") {
            return Ok(skipped(cursor, start));
        }
        cursor.skip();
    }
    Err(cursor.expected(Expected::Definition))
}

/// Whether a definition by a macro is next, of which the name was read: another word follows that of the macro.
pub(crate) fn begins_macro_use(cursor: &Cursor<'_>) -> bool {
    cursor.sees_kind_after(0, TokenKind::TypeReference)
        && (cursor.sees_kind_after(1, TokenKind::TypeReference)
            || cursor.sees_kind_after(1, TokenKind::ReservedWord))
}

/// Skips a definition by a macro, of which the name was read.
pub(crate) fn macro_use(cursor: &mut Cursor<'_>) -> Result<Definition, Fault> {
    let start = cursor.start();
    for _ in 0..cursor.len() {
        if cursor.is_at_end() || cursor.sees_word(b"END") || cursor.sees_symbol(b"::=") {
            break;
        }
        cursor.skip();
    }
    cursor.expect_symbol(b"::=", Expected::Assignment)?;
    let _ = parse_value(cursor, MAX_DEPTH)?;
    Ok(skipped(cursor, start))
}

// A definition from an offset to the token that was read last.
fn skipped(cursor: &Cursor<'_>, start: usize) -> Definition {
    let end = match cursor.last() {
        Some(token) => span_of(token).end,
        None => start,
    };
    Definition::Macro(Span { start, end })
}
