//! Values.
use crate::classes::field_names;
use crate::cursor::{Cursor, span_of};
use crate::error::{Cause, Construct, Expected, Fault};
use crate::words::is_plain_type;
use asn1_notation::{ListItem, Reference, Value, ValueKind};
use asn1_tokens::TokenKind;

/// Reads a value, with at most so many braces and colons inside it.
#[cycle(values)]
pub(crate) fn parse_value(cursor: &mut Cursor<'_>, depth: usize) -> Result<Value, Fault> {
    let Some(depth) = depth.checked_sub(1) else {
        return Err(cursor.fault(Cause::TooDeep));
    };
    let start = cursor.start();
    let kind = if cursor.accept_symbol(b"{") {
        list(cursor, depth)?
    } else if let Some(length) = alternative_length(cursor) {
        alternative(cursor, length, depth)?
    } else {
        plain_value(cursor)?
    };
    Ok(Value { start, kind })
}

// Reads an alternative of a CHOICE, whose name has so many tokens. A value of an open type is one, and the first word of its type is the
// name.
#[cycle(values)]
fn alternative(cursor: &mut Cursor<'_>, length: usize, depth: usize) -> Result<ValueKind, Fault> {
    let name = cursor.next_span();
    for _ in 0..length {
        cursor.skip();
    }
    cursor.expect_symbol(b":", Expected::Colon)?;
    let value = parse_value(cursor, depth)?;
    let value = Box::new(cursor.alloc(), value)?;
    Ok(ValueKind::Alternative(name, value))
}

// How many tokens are before a colon, if they are the name of an alternative, or the type of a value of an open type (X.681, 14.6):
// the name of a type, or words of the language for one.
fn alternative_length(cursor: &Cursor<'_>) -> Option<usize> {
    let length = if sees_two_words(cursor) {
        2
    } else if sees_name(cursor) {
        1
    } else {
        return None;
    };
    if cursor.sees_after(length, TokenKind::Symbol, b":") {
        Some(length)
    } else {
        None
    }
}

// Whether a name is next, or the word for a type that holds no other.
fn sees_name(cursor: &Cursor<'_>) -> bool {
    match cursor.peek() {
        Some(token) => match token.kind {
            TokenKind::Identifier | TokenKind::TypeReference => true,
            TokenKind::ReservedWord => is_plain_type(token.text),
            _ => false,
        },
        None => false,
    }
}

// Whether two words for a type are next.
fn sees_two_words(cursor: &Cursor<'_>) -> bool {
    let is_string = (cursor.sees_word(b"BIT") || cursor.sees_word(b"OCTET"))
        && cursor.sees_after(1, TokenKind::ReservedWord, b"STRING");
    is_string
        || cursor.sees_word(b"OBJECT")
            && cursor.sees_after(1, TokenKind::ReservedWord, b"IDENTIFIER")
}

// Reads a list up to the brace that closes it.
#[cycle(values)]
fn list(cursor: &mut Cursor<'_>, depth: usize) -> Result<ValueKind, Fault> {
    let mut items = Vec::new(cursor.alloc());
    if cursor.accept_symbol(b"}") {
        return Ok(ValueKind::List(items));
    }
    for _ in 0..cursor.len() {
        let item = list_item(cursor, depth)?;
        items.push(item)?;
        if cursor.accept_symbol(b"}") {
            return Ok(ValueKind::List(items));
        }
        cursor.expect_symbol(b",", Expected::CloseBraceOrComma)?;
    }
    Err(cursor.expected(Expected::CloseBrace))
}

// Reads the values of an item of a list.
#[cycle(values)]
fn list_item(cursor: &mut Cursor<'_>, depth: usize) -> Result<ListItem, Fault> {
    let mut values = Vec::new(cursor.alloc());
    for _ in 0..cursor.len() {
        let value = listed_value(cursor, depth)?;
        values.push(value)?;
        if cursor.is_at_end() || cursor.sees_symbol(b"}") || cursor.sees_symbol(b",") {
            return Ok(ListItem { values });
        }
    }
    Err(cursor.expected(Expected::CloseBraceOrComma))
}

// Reads a value of a list, or an arc of an object identifier with its name and its number.
#[cycle(values)]
fn listed_value(cursor: &mut Cursor<'_>, depth: usize) -> Result<Value, Fault> {
    if cursor.sees_kind_after(0, TokenKind::Identifier)
        && cursor.sees_after(1, TokenKind::Symbol, b"(")
    {
        arc(cursor)
    } else {
        parse_value(cursor, depth)
    }
}

// Reads an arc with its name and its number.
fn arc(cursor: &mut Cursor<'_>) -> Result<Value, Fault> {
    let name = cursor.identifier(Expected::ArcName)?;
    cursor.skip();
    let number = cursor.number_name(Expected::Number)?;
    cursor.expect_symbol(b")", Expected::CloseParenthesis)?;
    Ok(Value {
        start: name.start,
        kind: ValueKind::Arc(name, number),
    })
}

// Reads a value that holds no other.
fn plain_value(cursor: &mut Cursor<'_>) -> Result<ValueKind, Fault> {
    let Some(token) = cursor.peek() else {
        return Err(cursor.expected(Expected::Value));
    };
    match token.kind {
        TokenKind::ReservedWord => word_value(cursor),
        TokenKind::Identifier | TokenKind::TypeReference => {
            let reference = cursor.value_reference(Expected::Value)?;
            named_value(cursor, reference)
        }
        TokenKind::Number | TokenKind::Symbol if sees_fraction(cursor) => {
            Err(cursor.not_taken(Construct::RealValue))
        }
        TokenKind::Number | TokenKind::Symbol => {
            let number = cursor.number(Expected::Value)?;
            Ok(ValueKind::Number(number))
        }
        TokenKind::BinaryString => Ok(text_value(cursor, ValueKind::Binary(span_of(token)))),
        TokenKind::HexString => Ok(text_value(cursor, ValueKind::Hex(span_of(token)))),
        TokenKind::CharacterString => Ok(text_value(cursor, ValueKind::Text(span_of(token)))),
    }
}

// Reads what is behind the name of a value: nothing, or the field of the object of this name (X.681, 15).
fn named_value(cursor: &mut Cursor<'_>, reference: Reference) -> Result<ValueKind, Fault> {
    if !cursor.sees_symbol(b".") || !cursor.sees_after(1, TokenKind::Symbol, b"&") {
        return Ok(ValueKind::Reference(reference));
    }
    cursor.skip();
    let names = field_names(cursor)?;
    Ok(ValueKind::Field(reference, names))
}

// Reads a token that is the value.
fn text_value(cursor: &mut Cursor<'_>, value: ValueKind) -> ValueKind {
    cursor.skip();
    value
}

// Reads a value that is a reserved word.
fn word_value(cursor: &mut Cursor<'_>) -> Result<ValueKind, Fault> {
    if cursor.accept_word(b"TRUE") {
        Ok(ValueKind::Boolean(true))
    } else if cursor.accept_word(b"FALSE") {
        Ok(ValueKind::Boolean(false))
    } else if cursor.accept_word(b"NULL") {
        Ok(ValueKind::Null)
    } else if begins_real(cursor) {
        Err(cursor.not_taken(Construct::RealValue))
    } else {
        Err(cursor.expected(Expected::Value))
    }
}

// Whether a number with a decimal point and digits behind it is next, with a hyphen in front or without.
fn sees_fraction(cursor: &Cursor<'_>) -> bool {
    let first = if cursor.sees_symbol(b"-") { 1 } else { 0 };
    cursor.sees_kind_after(first, TokenKind::Number)
        && cursor.sees_after(first + 1, TokenKind::Symbol, b".")
        && cursor.sees_kind_after(first + 2, TokenKind::Number)
}

/// Whether a value of REAL is next that is a reserved word.
pub(crate) fn begins_real(cursor: &Cursor<'_>) -> bool {
    cursor.sees_word(b"PLUS-INFINITY")
        || cursor.sees_word(b"MINUS-INFINITY")
        || cursor.sees_word(b"NOT-A-NUMBER")
}
