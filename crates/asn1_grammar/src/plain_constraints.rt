//! Constraints that hold no other and no type.
use crate::cursor::Cursor;
use crate::error::{Expected, Fault};
use crate::values::{begins_real, parse_value};
use asn1_notation::{ConstraintKind, EndPoint, EndValue, Presence, Value};
use asn1_tokens::TokenKind;

/// Whether another part of a union is next.
pub(crate) fn accept_union(cursor: &mut Cursor<'_>) -> bool {
    cursor.accept_symbol(b"|") || cursor.accept_word(b"UNION")
}

/// Whether another part of an intersection is next.
pub(crate) fn accept_intersection(cursor: &mut Cursor<'_>) -> bool {
    cursor.accept_symbol(b"^") || cursor.accept_word(b"INTERSECTION")
}

/// Whether a type is next in a constraint, and no value.
pub(crate) fn begins_type(cursor: &Cursor<'_>) -> bool {
    match cursor.peek() {
        Some(token) => match token.kind {
            TokenKind::TypeReference => !is_value_of_module(cursor),
            TokenKind::ReservedWord => !begins_value(cursor),
            TokenKind::Symbol => cursor.sees_symbol(b"["),
            _ => false,
        },
        None => false,
    }
}

// Whether the name of a value with its module is next.
fn is_value_of_module(cursor: &Cursor<'_>) -> bool {
    cursor.sees_after(1, TokenKind::Symbol, b".")
        && cursor.sees_kind_after(2, TokenKind::Identifier)
}

// Whether a reserved word is next with which a value or a range begins.
fn begins_value(cursor: &Cursor<'_>) -> bool {
    cursor.sees_word(b"TRUE")
        || cursor.sees_word(b"FALSE")
        || cursor.sees_word(b"NULL")
        || cursor.sees_word(b"MIN")
        || cursor.sees_word(b"MAX")
        || begins_real(cursor)
}

/// Reads a value or a range of values.
pub(crate) fn value_or_range(
    cursor: &mut Cursor<'_>,
    depth: usize,
) -> Result<ConstraintKind, Fault> {
    let value = end_value(cursor, depth)?;
    let is_open = cursor.accept_symbol(b"<");
    let is_range = cursor.accept_symbol(b"..");
    match value {
        EndValue::Value(value) if !is_open && !is_range => Ok(ConstraintKind::Value(value)),
        value => {
            if !is_range {
                return Err(cursor.expected(Expected::Range));
            }
            let upper = upper_end(cursor, depth)?;
            Ok(ConstraintKind::Range(EndPoint { value, is_open }, upper))
        }
    }
}

// Reads the upper end of a range.
fn upper_end(cursor: &mut Cursor<'_>, depth: usize) -> Result<EndPoint, Fault> {
    let is_open = cursor.accept_symbol(b"<");
    let value = end_value(cursor, depth)?;
    Ok(EndPoint { value, is_open })
}

// Reads the value at an end of a range.
fn end_value(cursor: &mut Cursor<'_>, depth: usize) -> Result<EndValue, Fault> {
    if cursor.accept_word(b"MIN") {
        Ok(EndValue::Min)
    } else if cursor.accept_word(b"MAX") {
        Ok(EndValue::Max)
    } else {
        let value = parse_value(cursor, depth)?;
        Ok(EndValue::Value(value))
    }
}

/// Reads what follows ENCODED.
pub(crate) fn encoded_by(cursor: &mut Cursor<'_>, depth: usize) -> Result<Value, Fault> {
    cursor.expect_word(b"BY", Expected::By)?;
    parse_value(cursor, depth)
}

/// Reads PRESENT, ABSENT or OPTIONAL, if one of them is next.
pub(crate) fn presence(cursor: &mut Cursor<'_>) -> Option<Presence> {
    if cursor.accept_word(b"PRESENT") {
        Some(Presence::Present)
    } else if cursor.accept_word(b"ABSENT") {
        Some(Presence::Absent)
    } else if cursor.accept_word(b"OPTIONAL") {
        Some(Presence::Optional)
    } else {
        None
    }
}
