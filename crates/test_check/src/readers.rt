//! Readers that give little, or fail.
use std::io::{self, ErrorKind, Read};

/// A reader that gives a few bytes a call, is interrupted before each, and fails when this many bytes remain.
#[derive(Drop)]
pub(crate) struct Trickle<'a> {
    rest: &'a [u8],
    piece: usize,
    fails_at: Option<usize>,
    is_interrupted: bool,
}

impl<'a> Trickle<'a> {
    /// A reader of this input.
    pub(crate) fn new(input: &'a [u8], piece: usize) -> Trickle<'a> {
        Trickle {
            rest: input,
            piece,
            fails_at: None,
            is_interrupted: false,
        }
    }

    /// A reader of this input that gives a byte a call, and fails after this many.
    pub(crate) fn failing(input: &'a [u8], given: usize) -> Trickle<'a> {
        Trickle {
            rest: input,
            piece: 1,
            fails_at: Some(input.len().saturating_sub(given)),
            is_interrupted: false,
        }
    }

    /// How many bytes remain.
    pub(crate) fn remaining(&self) -> usize {
        self.rest.len()
    }
}

impl Read for Trickle<'_> {
    fn read(&mut self, buffer: &mut [u8]) -> io::Result<usize> {
        self.is_interrupted = !self.is_interrupted;
        if self.is_interrupted {
            return Err(io::Error::from(ErrorKind::Interrupted));
        }
        if self.fails_at == Some(self.rest.len()) {
            return Err(io::Error::from(ErrorKind::ConnectionReset));
        }
        let count = self.piece.min(buffer.len());
        self.rest.read(&mut buffer[..count])
    }
}

/// A reader whose first read fills the buffer, by a text and line feeds, and whose next one fails.
#[derive(Drop)]
pub(crate) struct Full<'a> {
    text: Option<&'a [u8]>,
}

impl<'a> Full<'a> {
    /// A reader of this text.
    pub(crate) fn new(text: &'a [u8]) -> Full<'a> {
        Full { text: Some(text) }
    }
}

impl Read for Full<'_> {
    fn read(&mut self, buffer: &mut [u8]) -> io::Result<usize> {
        let Some(mut text) = self.text.take() else {
            return Err(io::Error::from(ErrorKind::ConnectionReset));
        };
        for byte in buffer.iter_mut() {
            *byte = b'\n';
        }
        text.read(buffer)?;
        Ok(buffer.len())
    }
}
