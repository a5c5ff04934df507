//! Sets of information objects (X.681, 12).
use crate::braced::braced;
use crate::cursor::Cursor;
use crate::error::{Expected, Fault, SyntaxError};
use crate::spans::{cursor_over, of_fault};
use asn1_notation::{Reference, Span};
use asn1_tokens::TokenKind;
use std::alloc::{AllocError, Global};

/// The elements of an object set.
#[derive(Drop)]
pub struct ObjectSet {
    /// The elements, in the order of the text, those behind an ellipsis too.
    pub elements: Vec<ObjectElement>,
    /// The offset and the kind of an element that is neither an object nor a set, if there is one.
    pub unread: Option<(usize, SetOperation)>,
}

/// An element of an object set.
#[derive(Clone, Copy, Debug, PartialEq, Eq)]
pub enum ObjectElement {
    /// The object of this name.
    Object(Reference),
    /// An object, from brace to brace.
    Braces(Span),
    /// The objects of the set of this name.
    Set(Reference),
}

/// A part of an object set that is not read.
#[derive(Clone, Copy, Debug, PartialEq, Eq)]
pub enum SetOperation {
    /// A set with arguments.
    Arguments,
    /// The objects in a field.
    Field,
    /// EXCEPT.
    Except,
    /// INTERSECTION.
    Intersection,
}

/// Reads the braces of an object set.
pub fn parse_object_set(
    alloc: Global,
    text: &[u8],
    braces: Span,
) -> Result<Result<ObjectSet, SyntaxError>, AllocError> {
    of_fault(read_set(alloc, text, braces))
}

// Reads the braces of an object set.
fn read_set(alloc: Global, text: &[u8], braces: Span) -> Result<ObjectSet, Fault> {
    let mut cursor = cursor_over(alloc, text, braces)?;
    let mut set = ObjectSet {
        elements: Vec::new(alloc),
        unread: None,
    };
    cursor.expect_symbol(b"{", Expected::OpenBrace)?;
    for _ in 0..cursor.len() {
        let start = cursor.start();
        if !cursor.accept_symbol(b"...") {
            element(&mut cursor, &mut set)?;
        }
        if let Some(operation) = operation(&cursor) {
            set.unread = Some((start, operation));
            return Ok(set);
        }
        if cursor.accept_symbol(b"}") {
            return Ok(set);
        }
        separator(&mut cursor)?;
    }
    Err(cursor.expected(Expected::CloseBrace))
}

// Reads what is between two elements.
fn separator(cursor: &mut Cursor<'_>) -> Result<(), Fault> {
    if cursor.accept_symbol(b"|") || cursor.accept_word(b"UNION") || cursor.accept_symbol(b",") {
        Ok(())
    } else {
        Err(cursor.expected(Expected::CloseBraceOrComma))
    }
}

// The kind of what is next, if it combines sets otherwise than by their union, or is behind the name of a set.
fn operation(cursor: &Cursor<'_>) -> Option<SetOperation> {
    if cursor.sees_symbol(b"{") {
        Some(SetOperation::Arguments)
    } else if cursor.sees_symbol(b".") {
        Some(SetOperation::Field)
    } else if cursor.sees_word(b"EXCEPT") {
        Some(SetOperation::Except)
    } else if cursor.sees_word(b"INTERSECTION") || cursor.sees_symbol(b"^") {
        Some(SetOperation::Intersection)
    } else {
        None
    }
}

// Reads an element.
fn element(cursor: &mut Cursor<'_>, set: &mut ObjectSet) -> Result<(), Fault> {
    let element = if cursor.sees_symbol(b"{") {
        ObjectElement::Braces(braced(cursor)?)
    } else {
        named(cursor)?
    };
    set.elements.push(element)?;
    Ok(())
}

// Reads the name of an object or a set, with its module or without.
fn named(cursor: &mut Cursor<'_>) -> Result<ObjectElement, Fault> {
    let has_module = cursor.sees_kind_after(0, TokenKind::TypeReference)
        && cursor.sees_after(1, TokenKind::Symbol, b".")
        && !cursor.sees_after(2, TokenKind::Symbol, b"&");
    let module = if has_module {
        let module = cursor.type_name(Expected::ModuleName)?;
        cursor.skip();
        Some(module)
    } else {
        None
    };
    let is_set = cursor.sees_kind_after(0, TokenKind::TypeReference);
    let name = cursor.any_name(Expected::ObjectName)?;
    let reference = Reference { module, name };
    Ok(if is_set {
        ObjectElement::Set(reference)
    } else {
        ObjectElement::Object(reference)
    })
}
