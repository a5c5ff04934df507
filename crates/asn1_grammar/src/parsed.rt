//! All modules of a text.
use crate::associated::AssociatedType;
use crate::classes::find_aliases;
use crate::cursor::Cursor;
use crate::error::{Cause, Fault, Slip, SyntaxError};
use crate::modules::{parse_end, parse_module};
use asn1_notation::{Module, Span};
use asn1_tokens::{Refusal, Token, TokenError, tokens};
use std::alloc::{AllocError, Global};

/// How many types, values or constraints may be inside one another.
pub const MAX_DEPTH: usize = 100;

/// What was read of a text.
#[derive(Drop)]
pub struct Parsed {
    /// The modules, without the definitions that are in error.
    pub modules: Vec<Module>,
    /// The errors, in the order of the text.
    pub errors: Vec<SyntaxError>,
    /// The types of the language that the text names, and whose definitions [`associated_modules`](crate::associated_modules)
    /// reads.
    pub associated: Vec<AssociatedType>,
}

/// Reads the modules of a text.
///
/// After an error in a definition the reader goes on where a name and `::=` begin the next one, so an error between is not told. After
/// another error, or an octet with which no item begins, the rest is not read. The error of this call is that of memory.
pub fn parse(alloc: Global, text: &[u8]) -> Result<Parsed, AllocError> {
    let mut parsed = Parsed {
        modules: Vec::new(alloc),
        errors: Vec::new(alloc),
        associated: Vec::new(alloc),
    };
    match parse_text(alloc, text, &mut parsed) {
        Ok(()) => {}
        Err(Fault::Memory) => return Err(AllocError),
        Err(Fault::Syntax(error)) => parsed.errors.push(error)?,
    }
    Ok(parsed)
}

// Reads a text, up to an error that is in no definition.
fn parse_text(alloc: Global, text: &[u8], parsed: &mut Parsed) -> Result<(), Fault> {
    match tokens(alloc, text) {
        Ok(tokens) => parse_tokens(alloc, text, tokens, parsed),
        Err(TokenError::Memory) => Err(Fault::Memory),
        Err(TokenError::Refused(refusal, start)) => {
            parse_front(alloc, text, start, parsed)?;
            Err(token_fault(text, refusal, start))
        }
    }
}

// Reads what is in front of an octet with which no item begins. Errors at the end of it are due to that octet.
fn parse_front(alloc: Global, text: &[u8], end: usize, parsed: &mut Parsed) -> Result<(), Fault> {
    let front = text.get(..end).unwrap_or(text);
    if let Ok(tokens) = tokens(alloc, front) {
        match parse_tokens(alloc, front, tokens, parsed) {
            Ok(()) => {}
            Err(Fault::Memory) => return Err(Fault::Memory),
            Err(Fault::Syntax(error)) => parsed.errors.push(error)?,
        }
    }
    parsed.errors.retain(|error| error.found.start < end);
    Ok(())
}

// Reads the modules of a text with these tokens, up to an error that is in no definition.
fn parse_tokens<'a>(
    alloc: Global,
    text: &'a [u8],
    tokens: Vec<Token<'a>>,
    parsed: &mut Parsed,
) -> Result<(), Fault> {
    let mut cursor = Cursor::new(alloc, tokens, text.len()).over(text);
    let end = parse_modules(&mut cursor, text, parsed);
    parsed.associated = cursor.into_associated();
    end
}

// Reads modules. One whose END is missing is kept.
fn parse_modules(cursor: &mut Cursor<'_>, text: &[u8], parsed: &mut Parsed) -> Result<(), Fault> {
    for _ in 0..cursor.len() {
        if cursor.is_at_end() {
            return Ok(());
        }
        let mut module = parse_module(cursor, &mut parsed.errors)?;
        let name = module.name;
        find_aliases(cursor.alloc(), text, &mut module.assignments)?;
        parsed.modules.push(module)?;
        parse_end(cursor, name)?;
    }
    Ok(())
}

// The fault that no item begins with an octet.
fn token_fault(text: &[u8], refusal: Refusal, start: usize) -> Fault {
    Fault::Syntax(SyntaxError {
        found: Span { start, end: start },
        cause: if text.get(start) == Some(&b'_') {
            Cause::Slip(Slip::Underscore)
        } else {
            Cause::NoItem(refusal)
        },
        definition: None,
    })
}
