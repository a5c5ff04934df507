//! Constraints of X.682.
use crate::braced::braced;
use crate::cursor::Cursor;
use crate::error::{Expected, Fault};
use asn1_notation::{AtPath, ConstraintKind};
use asn1_tokens::TokenKind;

/// Reads what follows CONSTRAINED.
pub(crate) fn constrained_by(cursor: &mut Cursor<'_>) -> Result<ConstraintKind, Fault> {
    cursor.expect_word(b"BY", Expected::By)?;
    let _ = braced(cursor)?;
    Ok(ConstraintKind::ConstrainedBy)
}

/// Whether a constraint by an information object set is next.
pub(crate) fn sees_table(cursor: &Cursor<'_>) -> bool {
    if !cursor.sees_symbol(b"{") {
        return false;
    }
    let is_row = cursor.sees_after(2, TokenKind::Symbol, b"}")
        && cursor.sees_after(3, TokenKind::Symbol, b"{");
    cursor.sees_kind_after(1, TokenKind::TypeReference)
        || cursor.sees_after(1, TokenKind::Symbol, b"...")
        || is_row
}

/// Reads a constraint by an information object set.
pub(crate) fn table(cursor: &mut Cursor<'_>) -> Result<ConstraintKind, Fault> {
    let set = braced(cursor)?;
    let mut paths = Vec::new(cursor.alloc());
    if !cursor.accept_symbol(b"{") {
        return Ok(ConstraintKind::Table(set, paths));
    }
    for _ in 0..cursor.len() {
        let path = at_path(cursor)?;
        paths.push(path)?;
        if cursor.accept_symbol(b"}") {
            return Ok(ConstraintKind::Table(set, paths));
        }
        cursor.expect_symbol(b",", Expected::CloseBraceOrComma)?;
    }
    Err(cursor.expected(Expected::CloseBrace))
}

// Reads the path to a component.
fn at_path(cursor: &mut Cursor<'_>) -> Result<AtPath, Fault> {
    cursor.expect_symbol(b"@", Expected::ComponentName)?;
    let dots = dots(cursor);
    let mut names = Vec::new(cursor.alloc());
    for _ in 0..cursor.len() {
        let name = cursor.identifier(Expected::ComponentName)?;
        names.push(name)?;
        if !cursor.accept_symbol(b".") {
            break;
        }
    }
    Ok(AtPath { dots, names })
}

// Reads dots, and answers how many they are.
fn dots(cursor: &mut Cursor<'_>) -> usize {
    let mut dots = 0usize;
    for _ in 0..cursor.len() {
        let more = if cursor.accept_symbol(b".") {
            1
        } else if cursor.accept_symbol(b"..") {
            2
        } else if cursor.accept_symbol(b"...") {
            3
        } else {
            break;
        };
        dots = dots.saturating_add(more);
    }
    dots
}
