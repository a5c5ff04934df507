//! Modules.
use crate::assignments::{parse_assignment, skip_assignment};
use crate::cursor::{Cursor, span_of};
use crate::error::{Cause, Expected, Fault, Owner, Slip, SyntaxError};
use crate::parsed::MAX_DEPTH;
use crate::values::parse_value;
use asn1_notation::{Assignment, Exports, Import, Module, Span, TagDefault, Value};
use asn1_tokens::TokenKind;

// The parts of a module before its exports.
#[derive(Drop)]
struct Header {
    name: Span,
    identifier: Option<Value>,
    tagging: TagDefault,
    is_extensible: bool,
}

/// Reads a module up to its END. Errors in its definitions are added to the list, and the definitions left out.
pub(crate) fn parse_module(
    cursor: &mut Cursor<'_>,
    errors: &mut Vec<SyntaxError>,
) -> Result<Module, Fault> {
    let Header {
        name,
        identifier,
        tagging,
        is_extensible,
    } = parse_header(cursor)?;
    Ok(Module {
        name,
        identifier,
        tagging,
        is_extensible,
        exports: exports(cursor)?,
        imports: imports(cursor)?,
        assignments: assignments(cursor, errors)?,
    })
}

/// Reads the END of the module of this name.
pub(crate) fn parse_end(cursor: &mut Cursor<'_>, name: Span) -> Result<(), Fault> {
    if cursor.accept_word(b"END") {
        Ok(())
    } else {
        Err(cursor.expected_after(Expected::Definition, Owner::Module, name))
    }
}

// Reads a module up to BEGIN.
fn parse_header(cursor: &mut Cursor<'_>) -> Result<Header, Fault> {
    let name = cursor.type_name(Expected::ModuleName)?;
    let identifier = module_identifier(cursor)?;
    if !cursor.accept_word(b"DEFINITIONS") {
        return Err(cursor.expected_after(Expected::Definitions, Owner::Module, name));
    }
    let tagging = tag_default(cursor)?;
    let is_extensible = cursor.accept_word(b"EXTENSIBILITY");
    if is_extensible {
        cursor.expect_word(b"IMPLIED", Expected::Implied)?;
    }
    cursor.expect_symbol(b"::=", Expected::Assignment)?;
    cursor.expect_word(b"BEGIN", Expected::Begin)?;
    Ok(Header {
        name,
        identifier,
        tagging,
        is_extensible,
    })
}

// Reads the object identifier of a module, if there is one.
fn module_identifier(cursor: &mut Cursor<'_>) -> Result<Option<Value>, Fault> {
    if !cursor.sees_symbol(b"{") {
        return Ok(None);
    }
    let value = parse_value(cursor, MAX_DEPTH)?;
    Ok(Some(value))
}

// Reads how types are tagged.
fn tag_default(cursor: &mut Cursor<'_>) -> Result<TagDefault, Fault> {
    let tagging = if cursor.accept_word(b"EXPLICIT") {
        TagDefault::Explicit
    } else if cursor.accept_word(b"IMPLICIT") {
        TagDefault::Implicit
    } else if cursor.accept_word(b"AUTOMATIC") {
        TagDefault::Automatic
    } else {
        return Ok(TagDefault::Explicit);
    };
    cursor.expect_word(b"TAGS", Expected::Tags)?;
    Ok(tagging)
}

// Reads the names that other modules may use.
fn exports(cursor: &mut Cursor<'_>) -> Result<Exports, Fault> {
    if !cursor.accept_word(b"EXPORTS") {
        return Ok(Exports::All);
    }
    if cursor.accept_word(b"ALL") {
        cursor.expect_symbol(b";", Expected::Semicolon)?;
        return Ok(Exports::All);
    }
    let names = names(cursor)?;
    cursor.expect_symbol(b";", Expected::SemicolonOrComma)?;
    Ok(Exports::Names(names))
}

// Reads names between commas, up to another token. There may be none.
fn names(cursor: &mut Cursor<'_>) -> Result<Vec<Span>, Fault> {
    let mut names = Vec::new(cursor.alloc());
    if cursor.sees_symbol(b";") {
        return Ok(names);
    }
    for _ in 0..cursor.len() {
        let name = any_name(cursor)?;
        names.push(name)?;
        if !cursor.accept_symbol(b",") {
            return Ok(names);
        }
    }
    Ok(names)
}

// Reads the name of a type or of a value.
fn any_name(cursor: &mut Cursor<'_>) -> Result<Span, Fault> {
    let name = cursor.any_name(Expected::AnyName)?;
    if cursor.accept_symbol(b"{") {
        cursor.expect_symbol(b"}", Expected::CloseBrace)?;
    }
    Ok(name)
}

// Reads the names of other modules.
fn imports(cursor: &mut Cursor<'_>) -> Result<Vec<Import>, Fault> {
    let mut imports = Vec::new(cursor.alloc());
    if !cursor.accept_word(b"IMPORTS") {
        return Ok(imports);
    }
    for _ in 0..cursor.len() {
        if cursor.accept_symbol(b";") {
            return Ok(imports);
        }
        let import = import(cursor)?;
        imports.push(import)?;
    }
    Err(cursor.expected(Expected::Semicolon))
}

// Reads the names of one module.
fn import(cursor: &mut Cursor<'_>) -> Result<Import, Fault> {
    let names = names(cursor)?;
    cursor.expect_word(b"FROM", Expected::CommaOrFrom)?;
    let module = cursor.type_name(Expected::ModuleName)?;
    let identifier = import_identifier(cursor)?;
    skip_successors(cursor);
    Ok(Import {
        names,
        module,
        identifier,
    })
}

// Reads the object identifier of the module that names are imported from, or the name of a value that is one, if it is there.
fn import_identifier(cursor: &mut Cursor<'_>) -> Result<Option<Value>, Fault> {
    if !cursor.sees_kind_after(0, TokenKind::Identifier) || begins_names(cursor) {
        return module_identifier(cursor);
    }
    let value = parse_value(cursor, MAX_DEPTH)?;
    Ok(Some(value))
}

// Whether the next token is the first of imported names.
fn begins_names(cursor: &Cursor<'_>) -> bool {
    cursor.sees_after(1, TokenKind::Symbol, b",")
        || cursor.sees_after(1, TokenKind::Symbol, b"{")
        || cursor.sees_after(1, TokenKind::ReservedWord, b"FROM")
}

// Skips WITH SUCCESSORS and WITH DESCENDANTS, by which a later module, or one below, may stand for the one that is named.
fn skip_successors(cursor: &mut Cursor<'_>) {
    let is_named = sees_name(cursor, b"SUCCESSORS") || sees_name(cursor, b"DESCENDANTS");
    if cursor.sees_word(b"WITH") && is_named {
        cursor.skip();
        cursor.skip();
    }
}

// Whether the token behind the next is this word, reserved or not.
fn sees_name(cursor: &Cursor<'_>, word: &[u8]) -> bool {
    cursor.sees_after(1, TokenKind::ReservedWord, word)
        || cursor.sees_after(1, TokenKind::TypeReference, word)
}

// Reads the definitions of a module.
fn assignments(
    cursor: &mut Cursor<'_>,
    errors: &mut Vec<SyntaxError>,
) -> Result<Vec<Assignment>, Fault> {
    let mut assignments = Vec::new(cursor.alloc());
    for _ in 0..cursor.len() {
        if cursor.is_at_end() || cursor.sees_word(b"END") {
            return Ok(assignments);
        }
        let first = cursor.index();
        let name = cursor.peek();
        match parse_assignment(cursor) {
            Ok(assignment) => assignments.push(assignment)?,
            Err(Fault::Memory) => return Err(Fault::Memory),
            Err(Fault::Syntax(error)) => {
                if error.cause == Cause::Slip(Slip::Slashes) {
                    cursor.skip_line();
                }
                errors.push(SyntaxError {
                    definition: name.map(span_of),
                    ..error
                })?;
                skip_assignment(cursor, first);
            }
        }
    }
    Ok(assignments)
}
