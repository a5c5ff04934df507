//! Words of capitals that names have by themselves.
use crate::words::begins_word;
use std::alloc::{AllocError, Global};
use std::collections::HashSet;

/// Words of capitals, as `GLONASS`.
#[derive(Drop)]
pub struct KnownWords {
    alloc: Global,
    words: HashSet<Vec<u8>>,
}

impl KnownWords {
    /// No word yet.
    pub fn new(alloc: Global) -> KnownWords {
        KnownWords {
            alloc,
            words: HashSet::new(alloc),
        }
    }

    /// Adds each part of a name between hyphens that is of capitals alone, at least two.
    pub fn add(&mut self, name: &[u8]) -> Result<(), AllocError> {
        for part in name.split(|octet| *octet == b'-') {
            if 2 <= part.len() && part.iter().all(|octet| octet.is_ascii_uppercase()) {
                self.words.insert(Vec::from_slice(self.alloc, part)?)?;
            }
        }
        Ok(())
    }

    /// The name with a hyphen behind each row of capitals that is one of the words, if a small letter follows that would take the last
    /// capital to its own word: `GLONASSclock` becomes `GLONASS-clock`. One small letter before a row belongs to it, as in `sBASid`.
    pub fn separated(&self, name: &[u8]) -> Result<Vec<u8>, AllocError> {
        let mut text = Vec::new(self.alloc);
        let mut row = 0usize;
        for (index, octet) in name.iter().enumerate() {
            if !octet.is_ascii_uppercase() {
                if octet.is_ascii_lowercase() && self.ends_at(name, row, index)? {
                    text.push(b'-')?;
                }
                row = index.saturating_add(1);
            }
            text.push(*octet)?;
        }
        Ok(text)
    }

    // Whether the capitals from one index up to another are a word, whose last capital would begin the next one.
    fn ends_at(&self, name: &[u8], row: usize, end: usize) -> Result<bool, AllocError> {
        if end.saturating_sub(row) < 2 || !begins_word(name, end.saturating_sub(1)) {
            return Ok(false);
        }
        let mut word = Vec::new(self.alloc);
        if let Some(letter) = letter_before(name, row) {
            word.push(letter.to_ascii_uppercase())?;
        }
        word.extend_from_slice(name.get(row..end).unwrap_or(&[]))?;
        Ok(self.words.contains(word.as_slice()))
    }
}

// The one small letter that is before an index and behind a hyphen or nothing.
fn letter_before(name: &[u8], index: usize) -> Option<u8> {
    let last = index.checked_sub(1)?;
    let letter = name.get(last).copied()?;
    let is_first = match last.checked_sub(1) {
        Some(before) => name.get(before).copied() == Some(b'-'),
        None => true,
    };
    if is_first && letter.is_ascii_lowercase() {
        Some(letter)
    } else {
        None
    }
}
