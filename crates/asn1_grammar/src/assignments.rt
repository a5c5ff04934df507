//! Definitions.
use crate::braced::braced;
use crate::classes::{
    class_name_length, parse_class, sees_bare_class, sees_class_name, type_reference,
};
use crate::cursor::Cursor;
use crate::error::{Construct, Expected, Fault, Owner};
use crate::grammar::{parse_set, parse_type};
use crate::macros::{begins_macro_use, macro_use, skipped_macro};
use crate::parameters::{Parameters, parse_parameters};
use crate::parsed::MAX_DEPTH;
use crate::values::parse_value;
use asn1_notation::{Assignment, Class, Definition, Span, Type};
use asn1_tokens::TokenKind;

/// Reads a definition.
pub(crate) fn parse_assignment(cursor: &mut Cursor<'_>) -> Result<Assignment, Fault> {
    if cursor.sees_kind_after(0, TokenKind::TypeReference) {
        type_assignment(cursor)
    } else {
        value_assignment(cursor)
    }
}

// Reads the definition of a type, a class or a set.
fn type_assignment(cursor: &mut Cursor<'_>) -> Result<Assignment, Fault> {
    let name = cursor.type_name(Expected::TypeName)?;
    let Parameters { list, are_objects } = parse_parameters(cursor)?;
    let definition = if cursor.sees_after(0, TokenKind::TypeReference, b"MACRO") {
        skipped_macro(cursor)?
    } else if cursor.accept_symbol(b"::=") {
        class_or_type(cursor, are_objects)?
    } else if begins_set(cursor) {
        set(cursor)?
    } else {
        return Err(cursor.expected_after(Expected::Assignment, Owner::Name, name));
    };
    Ok(Assignment {
        name,
        parameters: list,
        definition,
    })
}

// Reads the class or the type that is defined.
fn class_or_type(cursor: &mut Cursor<'_>, has_objects_alone: bool) -> Result<Definition, Fault> {
    if cursor.accept_word(b"CLASS") {
        let class = parse_class(cursor)?;
        return Ok(Definition::Class(class));
    }
    if sees_bare_class(cursor) {
        let reference = type_reference(cursor)?;
        return Ok(Definition::Class(Class::Alias(reference)));
    }
    let definition = parse_type(cursor, MAX_DEPTH)?;
    Ok(if has_objects_alone {
        Definition::Type(definition)
    } else {
        Definition::Template(definition)
    })
}

// Whether the type of a set of values is next, or the class of an object set: a word, two of the language, a name with its module, or
// a list.
fn begins_set(cursor: &Cursor<'_>) -> bool {
    let has_two_words = cursor.sees_kind_after(1, TokenKind::ReservedWord)
        && sees_assigned(cursor, 2);
    let has_module = cursor.sees_after(1, TokenKind::Symbol, b".") && sees_assigned(cursor, 3);
    let is_list = cursor.sees_after(1, TokenKind::ReservedWord, b"OF") && sees_assigned(cursor, 3);
    sees_type_word(cursor, 0)
        && (sees_assigned(cursor, 1) || has_two_words || has_module || is_list)
}

// Reads a set of values, as the type that it is, or an object set.
fn set(cursor: &mut Cursor<'_>) -> Result<Definition, Fault> {
    if let Some(length) = class_name_length(cursor) {
        if sees_assigned(cursor, length) {
            return object(cursor);
        }
    }
    let Type {
        start,
        kind,
        mut constraints,
    } = parse_type(cursor, MAX_DEPTH)?;
    cursor.expect_symbol(b"::=", Expected::Assignment)?;
    let values = parse_set(cursor)?;
    constraints.push(values)?;
    Ok(Definition::Type(Type {
        start,
        kind,
        constraints,
    }))
}

// Reads the class of an object or an object set, and its braces.
fn object(cursor: &mut Cursor<'_>) -> Result<Definition, Fault> {
    let class = type_reference(cursor)?;
    cursor.expect_symbol(b"::=", Expected::Assignment)?;
    let span = braced(cursor)?;
    Ok(Definition::Object(class, span))
}

// Reads the definition of a value or an object.
fn value_assignment(cursor: &mut Cursor<'_>) -> Result<Assignment, Fault> {
    let name = cursor.identifier(Expected::Definition)?;
    let Parameters { list, .. } = parse_parameters(cursor)?;
    let definition = match class_name_length(cursor) {
        Some(length) if sees_braced(cursor, length) => {
            object_or_value(cursor, name, list.is_empty())?
        }
        Some(1) if begins_macro_use(cursor) => macro_use(cursor)?,
        _ if list.is_empty() => value(cursor, name)?,
        _ => return Err(cursor.not_taken(Construct::ParameterizedValue)),
    };
    Ok(Assignment {
        name,
        parameters: list,
        definition,
    })
}

// Reads a value of the type that is next.
fn value(cursor: &mut Cursor<'_>, name: Span) -> Result<Definition, Fault> {
    let definition = parse_type(cursor, MAX_DEPTH)?;
    if !cursor.accept_symbol(b"::=") {
        return Err(cursor.expected_after(Expected::Assignment, Owner::Value, name));
    }
    let value = parse_value(cursor, MAX_DEPTH)?;
    Ok(Definition::Value(definition, value))
}

// Reads a value, or else an object: what is in its braces need not be a value.
fn object_or_value(
    cursor: &mut Cursor<'_>,
    name: Span,
    may_be_value: bool,
) -> Result<Definition, Fault> {
    let first = cursor.index();
    if may_be_value {
        match value(cursor, name) {
            Ok(definition) => return Ok(definition),
            Err(Fault::Memory) => return Err(Fault::Memory),
            _ => {}
        }
        cursor.go_back(first);
    }
    object(cursor)
}

// Whether a definition begins with the next token.
fn begins_assignment(cursor: &Cursor<'_>) -> bool {
    if cursor.sees_kind_after(0, TokenKind::Identifier) {
        begins_value_assignment(cursor)
    } else if cursor.sees_kind_after(0, TokenKind::TypeReference) {
        begins_type_assignment(cursor)
    } else {
        false
    }
}

// Whether a definition begins with the next token, which is the name of a value.
fn begins_value_assignment(cursor: &Cursor<'_>) -> bool {
    let has_module = cursor.sees_after(2, TokenKind::Symbol, b".") && sees_assigned(cursor, 4);
    sees_type_word(cursor, 1)
        && (sees_assigned(cursor, 2) || sees_assigned(cursor, 3) || has_module)
        || sees_class_name(cursor, 1) && sees_type_word(cursor, 2)
}

// Whether a definition begins with the next token, which is the name of a type.
fn begins_type_assignment(cursor: &Cursor<'_>) -> bool {
    sees_assigned(cursor, 1)
        || cursor.sees_after(1, TokenKind::TypeReference, b"MACRO")
        || cursor.sees_kind_after(1, TokenKind::ReservedWord) && sees_assigned(cursor, 2)
        || begins_object_set(cursor)
        || cursor.sees_after(1, TokenKind::Symbol, b"{") && has_parameters(cursor)
}

// Whether the definition of an object set begins with the next token.
fn begins_object_set(cursor: &Cursor<'_>) -> bool {
    sees_class_name(cursor, 1) && sees_braced(cursor, 2)
}

// Whether a type may begin with the token so many behind the next.
fn sees_type_word(cursor: &Cursor<'_>, count: usize) -> bool {
    cursor.sees_kind_after(count, TokenKind::TypeReference)
        || cursor.sees_kind_after(count, TokenKind::ReservedWord)
}

// Whether '::=' and a brace follow this many tokens.
fn sees_braced(cursor: &Cursor<'_>, count: usize) -> bool {
    sees_assigned(cursor, count)
        && cursor.sees_after(count.saturating_add(1), TokenKind::Symbol, b"{")
}

// Whether '::=' is so many tokens behind the next.
fn sees_assigned(cursor: &Cursor<'_>, count: usize) -> bool {
    cursor.sees_after(count, TokenKind::Symbol, b"::=")
}

// Whether the brace behind the next token is closed by one behind which '::=' is.
fn has_parameters(cursor: &Cursor<'_>) -> bool {
    for count in 2..cursor.len() {
        if cursor.sees_after(count, TokenKind::Symbol, b"}") {
            return cursor.sees_after(count + 1, TokenKind::Symbol, b"::=");
        }
        if cursor.peek_after(count).is_none() {
            return false;
        }
    }
    false
}

/// Skips what is left of a definition: up to the next, or to END.
pub(crate) fn skip_assignment(cursor: &mut Cursor<'_>, first: usize) {
    for _ in 0..cursor.len() {
        let is_behind = first < cursor.index();
        if cursor.is_at_end()
            || cursor.sees_word(b"END")
            || is_behind && begins_assignment(cursor) && !cursor.has_read_symbol(b"::=")
        {
            return;
        }
        cursor.skip();
    }
}
