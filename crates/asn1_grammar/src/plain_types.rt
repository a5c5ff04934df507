//! Types that hold no other.
use crate::associated::associated_type;
use crate::components::skip_exception;
use crate::cursor::Cursor;
use crate::error::{Expected, Fault, Owner};
use crate::named_types::{sees_selection, sees_type_of_object};
use crate::words::{contents_kind, not_taken, string_kind};
use asn1_notation::{EnumerationItem, NamedNumber, Span, Tag, TagClass, TagMode, TypeKind};
use asn1_tokens::TokenKind;

/// Reads the name of elements, if there is one.
pub(crate) fn optional_identifier(cursor: &mut Cursor<'_>) -> Result<Option<Span>, Fault> {
    if !cursor.sees_kind_after(0, TokenKind::Identifier)
        || sees_selection(cursor)
        || sees_type_of_object(cursor)
    {
        return Ok(None);
    }
    let name = cursor.identifier(Expected::ElementName)?;
    Ok(Some(name))
}

/// Reads a tag, of which the bracket that opens it was read, with the word behind it.
pub(crate) fn tag(cursor: &mut Cursor<'_>) -> Result<Tag, Fault> {
    let class = tag_class(cursor);
    let number = cursor.number_name(Expected::Number)?;
    cursor.expect_symbol(b"]", Expected::CloseBracket)?;
    let mode = tag_mode(cursor);
    Ok(Tag {
        class,
        number,
        mode,
    })
}

// Reads the class of a tag.
fn tag_class(cursor: &mut Cursor<'_>) -> TagClass {
    if cursor.accept_word(b"UNIVERSAL") {
        TagClass::Universal
    } else if cursor.accept_word(b"APPLICATION") {
        TagClass::Application
    } else if cursor.accept_word(b"PRIVATE") {
        TagClass::Private
    } else {
        TagClass::Context
    }
}

// Reads IMPLICIT or EXPLICIT, if one of them is next.
fn tag_mode(cursor: &mut Cursor<'_>) -> Option<TagMode> {
    if cursor.accept_word(b"IMPLICIT") {
        Some(TagMode::Implicit)
    } else if cursor.accept_word(b"EXPLICIT") {
        Some(TagMode::Explicit)
    } else {
        None
    }
}

/// Reads a type that begins with a word of the language, and holds no other.
pub(crate) fn plain_type(cursor: &mut Cursor<'_>) -> Result<TypeKind, Fault> {
    let Some(token) = cursor.peek() else {
        return Err(cursor.expected(Expected::Type));
    };
    match token.kind {
        TokenKind::ReservedWord => word_type(cursor, token.text),
        _ => Err(cursor.expected(Expected::Type)),
    }
}

// Reads a type that begins with a reserved word.
fn word_type(cursor: &mut Cursor<'_>, word: &[u8]) -> Result<TypeKind, Fault> {
    if let Some(kind) = string_kind(word) {
        cursor.skip();
        return Ok(TypeKind::String(kind));
    }
    if let Some(kind) = contents_kind(word) {
        cursor.skip();
        return Ok(TypeKind::Contents(kind));
    }
    if let Some(kind) = associated_type(cursor)? {
        return Ok(kind);
    }
    if let Some(construct) = not_taken(word) {
        return Err(cursor.not_taken(construct));
    }
    if cursor.accept_word(b"BOOLEAN") {
        Ok(TypeKind::Boolean)
    } else if cursor.accept_word(b"NULL") {
        Ok(TypeKind::Null)
    } else if cursor.accept_word(b"INTEGER") {
        let numbers = named_numbers(cursor)?;
        Ok(TypeKind::Integer(numbers))
    } else if cursor.accept_word(b"ENUMERATED") {
        enumerated(cursor)
    } else {
        two_word_type(cursor)
    }
}

// Reads a type with a name of two words.
fn two_word_type(cursor: &mut Cursor<'_>) -> Result<TypeKind, Fault> {
    if cursor.accept_word(b"BIT") {
        cursor.expect_word(b"STRING", Expected::String)?;
        let bits = named_numbers(cursor)?;
        Ok(TypeKind::BitString(bits))
    } else if cursor.accept_word(b"OCTET") {
        cursor.expect_word(b"STRING", Expected::String)?;
        Ok(TypeKind::OctetString)
    } else if cursor.accept_word(b"OBJECT") {
        cursor.expect_word(b"IDENTIFIER", Expected::Identifier)?;
        Ok(TypeKind::ObjectIdentifier)
    } else {
        Err(cursor.expected(Expected::Type))
    }
}

/// Reads ANY, or ANY DEFINED BY.
pub(crate) fn any(cursor: &mut Cursor<'_>) -> Result<TypeKind, Fault> {
    cursor.skip();
    if !cursor.sees_after(0, TokenKind::TypeReference, b"DEFINED") {
        return Ok(TypeKind::Any(None));
    }
    cursor.skip();
    cursor.expect_word(b"BY", Expected::By)?;
    let name = cursor.identifier(Expected::ComponentName)?;
    Ok(TypeKind::Any(Some(name)))
}

// Reads named numbers or named bits, if there are any.
fn named_numbers(cursor: &mut Cursor<'_>) -> Result<Vec<NamedNumber>, Fault> {
    let mut numbers = Vec::new(cursor.alloc());
    if !cursor.accept_symbol(b"{") {
        return Ok(numbers);
    }
    for _ in 0..cursor.len() {
        let number = named_number(cursor)?;
        numbers.push(number)?;
        if cursor.accept_symbol(b"}") {
            return Ok(numbers);
        }
        if !cursor.accept_symbol(b",") {
            return Err(cursor.expected_after(
                Expected::CloseBraceOrComma,
                Owner::Number,
                number.name,
            ));
        }
    }
    Err(cursor.expected(Expected::CloseBrace))
}

// Reads a named number or a named bit.
fn named_number(cursor: &mut Cursor<'_>) -> Result<NamedNumber, Fault> {
    let name = cursor.identifier(Expected::NumberName)?;
    if !cursor.accept_symbol(b"(") {
        return Err(cursor.expected_after(Expected::OpenParenthesis, Owner::Name, name));
    }
    let number = cursor.number_name(Expected::Number)?;
    if !cursor.accept_symbol(b")") {
        return Err(cursor.expected_after(Expected::CloseParenthesis, Owner::Number, name));
    }
    Ok(NamedNumber { name, number })
}

// Reads what follows ENUMERATED.
fn enumerated(cursor: &mut Cursor<'_>) -> Result<TypeKind, Fault> {
    cursor.expect_symbol(b"{", Expected::OpenBrace)?;
    let mut items = Vec::new(cursor.alloc());
    for _ in 0..cursor.len() {
        let item = enumeration_item(cursor)?;
        items.push(item)?;
        if cursor.accept_symbol(b"}") {
            return Ok(TypeKind::Enumerated(items));
        }
        if !cursor.accept_symbol(b",") {
            return Err(after_item(cursor, item));
        }
    }
    Err(cursor.expected(Expected::CloseBrace))
}

// The fault that an item of an ENUMERATED is not followed as it should be.
fn after_item(cursor: &Cursor<'_>, item: EnumerationItem) -> Fault {
    match item {
        EnumerationItem::Item(name, _) => cursor.expected_after(
            Expected::CloseBraceOrComma,
            Owner::Item,
            name,
        ),
        EnumerationItem::Marker(_) => cursor.expected(Expected::CloseBraceOrComma),
    }
}

// Reads an item of an ENUMERATED, or its extension marker.
fn enumeration_item(cursor: &mut Cursor<'_>) -> Result<EnumerationItem, Fault> {
    let start = cursor.start();
    if cursor.accept_symbol(b"...") {
        skip_exception(cursor)?;
        return Ok(EnumerationItem::Marker(start));
    }
    let name = cursor.identifier(Expected::ItemName)?;
    if !cursor.accept_symbol(b"(") {
        return Ok(EnumerationItem::Item(name, None));
    }
    let number = cursor.number_name(Expected::Number)?;
    if !cursor.accept_symbol(b")") {
        return Err(cursor.expected_after(Expected::CloseParenthesis, Owner::Item, name));
    }
    Ok(EnumerationItem::Item(name, Some(number)))
}
