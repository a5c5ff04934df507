//! Lines with a type.
use crate::code::WIDTH;
use crate::draft::Draft;
use std::alloc::{AllocError, Global};

/// Appends a line with a type between these texts. If the line is too long, each argument of the type has a line of its own.
pub fn append_typed(
    draft: &mut Draft,
    depth: usize,
    front: &str,
    definition: &str,
    closing: &str,
) -> Result<(), AllocError> {
    let alloc = draft.alloc();
    let line = format!(in alloc; "{front}{definition}{closing}")?;
    match split_type(definition) {
        Some((former, inner)) if !fits(depth, line.as_str()) => {
            let opening = format!(in alloc; "{front}{former}<")?;
            draft.line(depth, opening.as_str())?;
            append_arguments(draft, depth.saturating_add(1), inner)?;
            let closing = format!(in alloc; ">{closing}")?;
            draft.line(depth, closing.as_str())
        }
        _ => draft.line(depth, line.as_str()),
    }
}

// Whether a line at this depth is not too long.
fn fits(depth: usize, line: &str) -> bool {
    depth.saturating_mul(4).saturating_add(line.len()) <= WIDTH
}

// A type in front of its arguments, and these; `None` if it has none.
fn split_type(definition: &str) -> Option<(&str, &str)> {
    let (former, rest) = definition.split_once('<')?;
    let inner = rest.strip_suffix(">")?;
    Some((former, inner))
}

// Appends a line for each argument.
fn append_arguments(draft: &mut Draft, depth: usize, inner: &str) -> Result<(), AllocError> {
    for argument in &arguments_of(draft.alloc(), inner)? {
        let argument = argument.as_str();
        let line = format!(in draft.alloc(); "{argument},")?;
        draft.line(depth, line.as_str())?;
    }
    Ok(())
}

// The arguments of a type, which have commas between them.
fn arguments_of(alloc: Global, inner: &str) -> Result<Vec<String>, AllocError> {
    let mut arguments = Vec::new(alloc);
    let mut argument = String::new(alloc);
    let mut depth = 0usize;
    for character in inner.chars() {
        match character {
            '<' => depth = depth.saturating_add(1),
            '>' => depth = depth.saturating_sub(1),
            _ => {}
        }
        if character == ',' && depth == 0 {
            arguments.push(taken(alloc, &mut argument)?)?;
        } else if character != ' ' || !argument.is_empty() {
            argument.push(character)?;
        }
    }
    arguments.push(argument)?;
    Ok(arguments)
}

// The text, which is empty afterwards.
fn taken(alloc: Global, text: &mut String) -> Result<String, AllocError> {
    let copy = String::from_str(alloc, text.as_str())?;
    *text = String::new(alloc);
    Ok(copy)
}
