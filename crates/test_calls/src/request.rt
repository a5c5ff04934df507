//! Requests to codecs, each of which is a line of words.
use crate::codec::Codec;
use std::alloc::Global;

/// A request: `CODEC TYPE DEPTH ACTION WORD BYTES`, where the bytes are in hexadecimal, with spaces wherever they help.
#[derive(Drop)]
pub struct Request<'a> {
    /// The codec that is asked.
    pub codec: Codec,
    /// The name of the type of the value.
    pub type_name: &'a str,
    /// The greatest number of nested scopes.
    pub depth: usize,
    /// The name of the action.
    pub action: &'a str,
    /// A word that the action needs.
    pub word: &'a str,
    /// The bytes.
    pub bytes: Vec<u8>,
}

impl<'a> Request<'a> {
    /// The request of these words. There is none if the codec has no such name, a number or the bytes cannot be read, or
    /// memory runs out.
    pub fn of_words(alloc: Global, words: &'a str) -> Option<Request<'a>> {
        let (codec, words) = words.split_once(' ')?;
        let (type_name, words) = words.split_once(' ')?;
        let (depth, words) = words.split_once(' ')?;
        let (action, words) = words.split_once(' ')?;
        let (word, digits) = match words.split_once(' ') {
            Some(parts) => parts,
            None => (words, ""),
        };
        Some(Request {
            codec: Codec::of_name(codec)?,
            type_name,
            depth: depth.parse::<usize>().ok()?,
            action,
            word,
            bytes: bytes_of(alloc, digits)?,
        })
    }
}

/// The bytes of these digits, with spaces between them.
fn bytes_of(alloc: Global, digits: &str) -> Option<Vec<u8>> {
    let mut bytes = Vec::new(alloc);
    for word in digits.split(' ') {
        let part = hex::decode(alloc, word).ok()?;
        bytes.extend_from_slice(&part).ok()?;
    }
    Some(bytes)
}
