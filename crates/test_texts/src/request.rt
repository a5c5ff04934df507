//! The request of a line.
use asn1_convert::{Action, CodecForm, OutputForm};
use std::alloc::{AllocError, Global};

/// Work on octets of a type.
#[derive(Drop)]
pub(crate) struct Request<'a> {
    /// How many octets come at once, if they come in pieces.
    pub(crate) piece: Option<usize>,
    /// The work of a program of `asn1_convert`, or none if texts are asked for.
    pub(crate) action: Option<Action>,
    /// The name of the type.
    pub(crate) type_name: &'a str,
    /// The octets.
    pub(crate) octets: Vec<u8>,
}

impl<'a> Request<'a> {
    /// The request of a line; `None` of a comment, an empty line, and one that is no request.
    pub(crate) fn of_line(alloc: Global, line: &'a str) -> Result<Option<Request<'a>>, AllocError> {
        if line.is_empty() || line.starts_with('#') {
            return Ok(None);
        }
        let asked = match line.split_once(" ; ") {
            Some((asked, _comment)) => asked,
            None => line,
        };
        let (piece, asked) = piece_of(asked);
        let (action, rest) = match action_of(asked) {
            Some((action, rest)) => (Some(action), rest),
            None => (None, asked),
        };
        let Some((type_name, digits)) = rest.split_once(' ') else {
            return Ok(None);
        };
        let Some(octets) = octets_of(alloc, digits)? else {
            return Ok(None);
        };
        Ok(Some(Request {
            piece,
            action,
            type_name,
            octets,
        }))
    }
}

/// The size of the pieces that the first words ask for, and the rest.
fn piece_of(asked: &str) -> (Option<usize>, &str) {
    let Some(("pieces", rest)) = asked.split_once(' ') else {
        return (None, asked);
    };
    match rest.split_once(' ') {
        Some((size, rest)) => (size.parse().ok(), rest),
        None => (None, asked),
    }
}

/// The work that the first words ask for, and the rest.
fn action_of(asked: &str) -> Option<(Action, &str)> {
    let (first, rest) = asked.split_once(' ')?;
    if first == "check" {
        return Some((Action::Check, rest));
    }
    let (second, rest) = rest.split_once(' ')?;
    let from = CodecForm::from_word(first)?;
    let to = OutputForm::from_word(second)?;
    Some((Action::Convert { from, to }, rest))
}

/// The octets of words of hexadecimal digits, if they all are.
fn octets_of(alloc: Global, digits: &str) -> Result<Option<Vec<u8>>, AllocError> {
    let mut octets = Vec::new(alloc);
    for word in digits.split(' ') {
        match hex::decode(alloc, word) {
            Ok(part) => octets.extend_from_slice(part.as_slice())?,
            Err(_) => return Ok(None),
        }
    }
    Ok(Some(octets))
}
