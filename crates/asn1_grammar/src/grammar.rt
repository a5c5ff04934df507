//! The rules that hold types or constraints take the parsers of both as parameters, so each rule is proved by itself.
use crate::cursor::Cursor;
use crate::error::{Cause, Fault};
use crate::parsed::MAX_DEPTH;
use asn1_notation::{Constraint, Type};

/// The rules at a depth.
#[derive(Clone, Copy)]
pub(crate) struct Grammar<T, C> {
    /// How many types and constraints may still be inside one another.
    pub(crate) depth: usize,
    /// Reads a type.
    pub(crate) types: T,
    /// Reads a constraint in parentheses.
    pub(crate) constraints: C,
}

/// Reads a type, with at most so many types and constraints inside one another.
#[cycle(grammar)]
pub(crate) fn parse_type(cursor: &mut Cursor<'_>, depth: usize) -> Result<Type, Fault> {
    if depth == 0 {
        return Err(cursor.fault(Cause::TooDeep));
    }
    Grammar {
        depth: depth - 1,
        types: parse_type,
        constraints: parse_constraint,
    }
    .read_type(cursor)
}

// Reads a constraint in parentheses.
#[cycle(grammar)]
fn parse_constraint(cursor: &mut Cursor<'_>, depth: usize) -> Result<Constraint, Fault> {
    if depth == 0 {
        return Err(cursor.fault(Cause::TooDeep));
    }
    Grammar {
        depth: depth - 1,
        types: parse_type,
        constraints: parse_constraint,
    }
    .read_constraint(cursor)
}

/// Reads a set of values in braces.
pub(crate) fn parse_set(cursor: &mut Cursor<'_>) -> Result<Constraint, Fault> {
    Grammar {
        depth: MAX_DEPTH,
        types: parse_type,
        constraints: parse_constraint,
    }
    .read_set(cursor)
}
