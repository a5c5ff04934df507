//! Information object classes (X.681, 9).
use crate::braced::{braced, setting};
use crate::cursor::Cursor;
use crate::error::{Expected, Fault, Owner};
use crate::grammar::parse_type;
use crate::parsed::MAX_DEPTH;
use asn1_notation::{
    Assignment, Class, ClassField, Definition, FieldKind, FieldUsage, Reference, Span, Type,
    TypeKind,
};
use asn1_tokens::TokenKind;
use std::alloc::{AllocError, Global};
use std::collections::HashSet;

/// Whether the token behind this many is the name of a class: in capitals alone (X.681, 7.1), or a class of the language.
pub(crate) fn sees_class_name(cursor: &Cursor<'_>, count: usize) -> bool {
    match cursor.peek_after(count) {
        Some(token) => match token.kind {
            TokenKind::TypeReference => is_class_name(token.text),
            TokenKind::ReservedWord => is_known_class(token.text),
            _ => false,
        },
        None => false,
    }
}

// Whether a word is the name of a class of X.681, annexes A and B.
fn is_known_class(word: &[u8]) -> bool {
    matches!(word, b"TYPE-IDENTIFIER" | b"ABSTRACT-SYNTAX")
}

// Whether no letter of a name is small.
fn is_class_name(name: &[u8]) -> bool {
    for octet in name {
        if octet.is_ascii_lowercase() {
            return false;
        }
    }
    true
}

/// How many tokens the name of a class has that is next, with its module or without.
pub(crate) fn class_name_length(cursor: &Cursor<'_>) -> Option<usize> {
    if cursor.sees_after(1, TokenKind::Symbol, b".")
        && cursor.sees_kind_after(0, TokenKind::TypeReference)
        && sees_class_name(cursor, 2)
    {
        Some(3)
    } else if sees_class_name(cursor, 0) {
        Some(1)
    } else {
        None
    }
}

/// Whether the name of a class of the language is next.
pub(crate) fn sees_known_class(cursor: &Cursor<'_>) -> bool {
    match cursor.peek() {
        Some(token) => token.kind == TokenKind::ReservedWord && is_known_class(token.text),
        None => false,
    }
}

/// Whether a class of the language is next, and no field of it.
pub(crate) fn sees_bare_class(cursor: &Cursor<'_>) -> bool {
    sees_known_class(cursor) && !cursor.sees_after(1, TokenKind::Symbol, b".")
}

/// Reads the name of a class, in the form of the type that the same name would be.
pub(crate) fn class_type(cursor: &mut Cursor<'_>) -> Result<Type, Fault> {
    let start = cursor.start();
    let class = type_reference(cursor)?;
    Ok(Type {
        start,
        kind: TypeKind::Reference(class),
        constraints: Vec::new(cursor.alloc()),
    })
}

/// Reads the name of a type or a class, with its module or without.
pub(crate) fn type_reference(cursor: &mut Cursor<'_>) -> Result<Reference, Fault> {
    if sees_known_class(cursor) {
        let name = cursor.next_span();
        cursor.skip();
        return Ok(Reference { module: None, name });
    }
    let name = cursor.type_name(Expected::TypeName)?;
    if !cursor.sees_symbol(b".") || cursor.sees_after(1, TokenKind::Symbol, b"&") {
        return Ok(Reference { module: None, name });
    }
    cursor.skip();
    let inner = cursor.type_name(Expected::TypeName)?;
    Ok(Reference {
        module: Some(name),
        name: inner,
    })
}

/// Reads the names of fields, each behind an ampersand, with dots between them.
pub(crate) fn field_names(cursor: &mut Cursor<'_>) -> Result<Vec<Span>, Fault> {
    let mut names = Vec::new(cursor.alloc());
    for _ in 0..cursor.len() {
        let name = field_name(cursor)?;
        names.push(name)?;
        if !cursor.sees_symbol(b".") || !cursor.sees_after(1, TokenKind::Symbol, b"&") {
            break;
        }
        cursor.skip();
    }
    Ok(names)
}

// Reads the name of a field, behind its ampersand.
fn field_name(cursor: &mut Cursor<'_>) -> Result<Span, Fault> {
    cursor.expect_symbol(b"&", Expected::FieldName)?;
    cursor.any_name(Expected::FieldName)
}

/// Reads a class, of which the word CLASS was read.
pub(crate) fn parse_class(cursor: &mut Cursor<'_>) -> Result<Class, Fault> {
    cursor.expect_symbol(b"{", Expected::OpenBrace)?;
    let mut fields = Vec::new(cursor.alloc());
    for _ in 0..cursor.len() {
        let field = class_field(cursor)?;
        let name = field.name;
        fields.push(field)?;
        if cursor.accept_symbol(b"}") {
            let syntax = with_syntax(cursor)?;
            return Ok(Class::Fields(fields, syntax));
        }
        if !cursor.accept_symbol(b",") {
            return Err(cursor.expected_after(Expected::CloseBraceOrComma, Owner::Field, name));
        }
    }
    Err(cursor.expected(Expected::CloseBrace))
}

// Reads WITH SYNTAX and its braces, if it is next.
fn with_syntax(cursor: &mut Cursor<'_>) -> Result<Option<Span>, Fault> {
    if !cursor.sees_word(b"WITH") || !cursor.sees_after(1, TokenKind::ReservedWord, b"SYNTAX") {
        return Ok(None);
    }
    cursor.skip();
    cursor.skip();
    let syntax = braced(cursor)?;
    Ok(Some(syntax))
}

// Reads a field.
fn class_field(cursor: &mut Cursor<'_>) -> Result<ClassField, Fault> {
    let is_capital = cursor.sees_kind_after(1, TokenKind::TypeReference);
    let name = field_name(cursor)?;
    let kind = field_kind(cursor, is_capital)?;
    let is_unique = cursor.accept_word(b"UNIQUE");
    let usage = field_usage(cursor)?;
    Ok(ClassField {
        name,
        kind,
        is_unique,
        usage,
    })
}

// Reads what a field holds.
fn field_kind(cursor: &mut Cursor<'_>, is_capital: bool) -> Result<FieldKind, Fault> {
    if cursor.sees_symbol(b"&") {
        let names = field_names(cursor)?;
        return Ok(FieldKind::Variable(names));
    }
    if is_capital && ends_field(cursor) {
        return Ok(FieldKind::Type);
    }
    let definition = parse_type(cursor, MAX_DEPTH)?;
    Ok(FieldKind::Fixed(definition))
}

// Whether nothing follows that a field holds.
fn ends_field(cursor: &Cursor<'_>) -> bool {
    cursor.sees_symbol(b",")
        || cursor.sees_symbol(b"}")
        || cursor.sees_word(b"OPTIONAL")
        || cursor.sees_word(b"DEFAULT")
}

// Reads OPTIONAL or DEFAULT, if one of them is next.
fn field_usage(cursor: &mut Cursor<'_>) -> Result<FieldUsage, Fault> {
    if cursor.accept_word(b"OPTIONAL") {
        Ok(FieldUsage::Optional)
    } else if cursor.accept_word(b"DEFAULT") {
        let span = setting(cursor)?;
        Ok(FieldUsage::Default(span))
    } else {
        Ok(FieldUsage::Required)
    }
}

/// Makes each definition that is a name for a class of the same module one of a class.
pub(crate) fn find_aliases(
    alloc: Global,
    text: &[u8],
    assignments: &mut [Assignment],
) -> Result<(), AllocError> {
    let mut classes = HashSet::new(alloc);
    for assignment in assignments.iter() {
        if let Definition::Class(_) = &assignment.definition {
            classes.insert(assignment.name.octets(text))?;
        }
    }
    for _ in 0..assignments.len() {
        let count = classes.len();
        for assignment in assignments.iter_mut() {
            if let Some(reference) = class_alias(text, &classes, &assignment.definition) {
                classes.insert(assignment.name.octets(text))?;
                assignment.definition = Definition::Class(Class::Alias(reference));
            }
        }
        if classes.len() == count {
            break;
        }
    }
    Ok(())
}

// The class for which a definition is a name.
fn class_alias(
    text: &[u8],
    classes: &HashSet<&[u8]>,
    definition: &Definition,
) -> Option<Reference> {
    match definition {
        Definition::Type(definition) => match &definition.kind {
            TypeKind::Reference(reference)
                if reference.module.is_none() && classes.contains(reference.name.octets(text)) => {
                Some(*reference)
            }
            _ => None,
        },
        _ => None,
    }
}
