//! The texts of an input.
use std::alloc::{AllocError, Global};

/// The question to a text.
#[derive(Clone, Copy)]
pub(crate) enum Work {
    /// Its tokens.
    Tokens,
    /// Its trees.
    Module,
    /// Its names.
    Names,
    /// Its types and values.
    Schema,
    /// Its names in Rust.
    Rust,
    /// Its names in Rust, in one scope.
    Taken,
}

impl Work {
    // The question of a line, if it is the first of a text.
    fn of_line(line: &[u8]) -> Option<Work> {
        if line.starts_with(b"# tokens: ") {
            Some(Work::Tokens)
        } else if line.starts_with(b"# module: ") {
            Some(Work::Module)
        } else if line.starts_with(b"# names: ") {
            Some(Work::Names)
        } else if line.starts_with(b"# schema: ") {
            Some(Work::Schema)
        } else if line.starts_with(b"# rust: ") {
            Some(Work::Rust)
        } else if line.starts_with(b"# taken: ") {
            Some(Work::Taken)
        } else {
            None
        }
    }
}

/// A text, with the question to it.
#[derive(Clone, Copy)]
pub(crate) struct Text<'a> {
    pub(crate) work: Work,
    /// The line before the text.
    pub(crate) title: &'a [u8],
    /// The text, without its last line feed.
    pub(crate) text: &'a [u8],
}

/// The texts of an input. The lines before the first of them are left out.
pub(crate) fn texts(alloc: Global, input: &[u8]) -> Result<Vec<Text<'_>>, AllocError> {
    let mut texts = Vec::new(alloc);
    let mut rest = input;
    for _ in 0..input.len() {
        let (title, after) = first_line(rest);
        rest = after;
        if let Some(work) = Work::of_line(title) {
            let (text, after) = rest.split_at(length_of_text(rest).min(rest.len()));
            rest = after;
            let text = without_line_feed(text);
            texts.push(Text { work, title, text })?;
        }
    }
    Ok(texts)
}

// The first line, without its line feed, and what follows it.
fn first_line(input: &[u8]) -> (&[u8], &[u8]) {
    let end = match input.iter().position(|octet| *octet == b'\n') {
        Some(end) => end,
        None => input.len(),
    };
    match input.split_at_checked(end) {
        Some((line, [_, after @ ..])) => (line, after),
        _ => (input, &[]),
    }
}

// How many octets come before the next line that is the first of a text.
fn length_of_text(input: &[u8]) -> usize {
    let mut rest = input;
    for _ in 0..input.len() {
        let (line, after) = first_line(rest);
        if Work::of_line(line).is_some() {
            return input.len().saturating_sub(rest.len());
        }
        rest = after;
    }
    input.len()
}

// The octets before the last line feed.
fn without_line_feed(text: &[u8]) -> &[u8] {
    match text {
        [before @ .., b'\n'] => before,
        _ => text,
    }
}
