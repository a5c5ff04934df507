//! Parts of texts as they are written, for what the trees of the modules do not have.
use crate::notation::text_of;
use std::alloc::{AllocError, Global};

/// Octets of a text in one line.
pub(crate) fn in_one_line(alloc: Global, octets: &[u8]) -> Result<String, AllocError> {
    let text = text_of(alloc, octets)?;
    let mut line = String::new(alloc);
    for word in text.as_str().split_ascii_whitespace() {
        if !line.is_empty() {
            line.push_str(" ")?;
        }
        line.push_str(word)?;
    }
    Ok(line)
}

/// Appends the part of an object that begins at an offset: up to the first comma, or the end of the braces around it.
pub(crate) fn push_part(
    alloc: Global,
    text: &mut String,
    source: &[u8],
    start: usize,
    end: usize,
) -> Result<(), AllocError> {
    let behind = source.get(start..end).unwrap_or(&[]);
    let part = in_one_line(alloc, first_part(behind))?;
    text.push_str(part.as_str())
}

// The octets before the first comma, or the first bracket that closes another before them.
fn first_part(octets: &[u8]) -> &[u8] {
    let mut depth = 0usize;
    for (index, octet) in octets.iter().enumerate() {
        match *octet {
            b'{' | b'(' | b'[' => depth = depth.saturating_add(1),
            b'}' | b')' | b']' | b',' if depth == 0 => {
                return octets.get(..index).unwrap_or(octets);
            }
            b'}' | b')' | b']' => depth = depth.saturating_sub(1),
            _ => {}
        }
    }
    octets
}
