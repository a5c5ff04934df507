//! Writers that fail, or tell their flushes.
use std::alloc::{AllocError, Global};
use std::io::{self, ErrorKind, Write};

/// The room of a page, so that a write allocates nothing.
const ROOM: usize = 1000;

/// A writer that fails where it has this many bytes, or if it is flushed.
#[derive(Drop)]
pub(crate) struct Page {
    /// What is written.
    pub(crate) bytes: Vec<u8>,
    fails_at: usize,
    fails_to_flush: bool,
    /// How much was written at each flush.
    pub(crate) flushes: Vec<usize>,
}

impl Page {
    /// A page that takes all.
    pub(crate) fn new(alloc: Global) -> Result<Page, AllocError> {
        Page::failing(alloc, usize::MAX, false)
    }

    /// A page that fails.
    pub(crate) fn failing(
        alloc: Global,
        fails_at: usize,
        fails_to_flush: bool,
    ) -> Result<Page, AllocError> {
        Ok(Page {
            bytes: Vec::with_capacity(alloc, ROOM)?,
            fails_at,
            fails_to_flush,
            flushes: Vec::with_capacity(alloc, ROOM)?,
        })
    }
}

impl Write for Page {
    fn write(&mut self, bytes: &[u8]) -> io::Result<usize> {
        if self.fails_at <= self.bytes.len() {
            return Err(io::Error::from(ErrorKind::BrokenPipe));
        }
        self.bytes.extend_from_slice(bytes)?;
        Ok(bytes.len())
    }

    fn flush(&mut self) -> io::Result<()> {
        if self.fails_to_flush {
            return Err(io::Error::from(ErrorKind::BrokenPipe));
        }
        Ok(self.flushes.push(self.bytes.len())?)
    }
}
