//! Parameters (X.683, 8).
use crate::classes::{class_name_length, class_type, sees_bare_class};
use crate::cursor::Cursor;
use crate::error::{Expected, Fault, Owner};
use crate::grammar::parse_type;
use crate::parsed::MAX_DEPTH;
use asn1_notation::{Parameter, Type};
use asn1_tokens::TokenKind;

/// The parameters of a definition.
#[derive(Drop)]
pub(crate) struct Parameters {
    /// The parameters.
    pub(crate) list: Vec<Parameter>,
    /// Whether each is an object or an object set.
    pub(crate) are_objects: bool,
}

/// Reads the parameters behind a name, if it has any.
pub(crate) fn parse_parameters(cursor: &mut Cursor<'_>) -> Result<Parameters, Fault> {
    let mut list = Vec::new(cursor.alloc());
    let mut are_objects = true;
    if !cursor.accept_symbol(b"{") {
        return Ok(Parameters { list, are_objects });
    }
    for _ in 0..cursor.len() {
        are_objects = are_objects && sees_object(cursor);
        let parameter = parameter(cursor)?;
        let name = parameter.name;
        list.push(parameter)?;
        if cursor.accept_symbol(b"}") {
            return Ok(Parameters { list, are_objects });
        }
        if !cursor.accept_symbol(b",") {
            return Err(cursor.expected_after(Expected::CloseBraceOrComma, Owner::Name, name));
        }
    }
    Err(cursor.expected(Expected::CloseBrace))
}

// Whether a parameter is next that the name of a class governs.
fn sees_object(cursor: &Cursor<'_>) -> bool {
    match class_name_length(cursor) {
        Some(length) => cursor.sees_after(length, TokenKind::Symbol, b":"),
        None => false,
    }
}

// Reads a parameter.
fn parameter(cursor: &mut Cursor<'_>) -> Result<Parameter, Fault> {
    let is_alone = cursor.sees_after(1, TokenKind::Symbol, b",")
        || cursor.sees_after(1, TokenKind::Symbol, b"}");
    let governor = if is_alone {
        None
    } else {
        let governor = governor(cursor)?;
        cursor.expect_symbol(b":", Expected::Colon)?;
        Some(governor)
    };
    let name = cursor.any_name(Expected::AnyName)?;
    Ok(Parameter { governor, name })
}

// Reads the type of a value or a set of values, or the class of an object or an object set.
fn governor(cursor: &mut Cursor<'_>) -> Result<Type, Fault> {
    if sees_bare_class(cursor) {
        class_type(cursor)
    } else {
        parse_type(cursor, MAX_DEPTH)
    }
}
