//! Bytes that are read from the front while more come at the end.
ghost use Rattle.std.specs.Prelude.{◌≡◌, ◌≤◌, ◌+◌, ◌++◌, drop, length, IfOk, OnErr, OnOk, Some};

use std::alloc::{AllocError, Global};

/// Bytes, of which those before `start` have been read.
#[derive(Drop)]
pub struct Buffer {
    bytes: Vec<u8>,
    start: usize,
    // No more bytes that have been read are kept than there are unread ones.
    ghost half: { start + start ≤ length bytes.items },
}

impl Buffer {
    ghost use Rattle.asn1_rules.specs.Sources.{rest_of};
    ghost use Rattle.asn1_rules.specs.States.{Drops};

    /// A buffer of these bytes, of which none has been read, and these after them.
    ///
    /// # Errors
    /// [`AllocError`], if memory runs out.
    pub fn new(alloc: Global, bytes: &[u8], piece: &[u8]) -> Result<Self, AllocError>
        ensures unread { IfOk result (λ buffer. rest_of buffer ≡ bytes.now ++ piece.now) }
        ensures start { IfOk result (λ buffer. buffer.start ≡ 0) }
    {
        let mut bytes = Vec::from_slice(alloc, bytes)?;
        bytes.extend_from_slice(piece)?;
        Ok(Buffer { bytes, start: 0 })
    }

    /// The bytes that have not been read.
    pub fn unread(&self) -> &[u8]
        ensures unread { result.now ≡ rest_of self.now }
        ensures kept { self.now.start ≤ length result.now }
    {
        &self.bytes[self.start..]
    }

    /// Puts a piece after the bytes. The cost is that of the piece, amortized: `Vec` grows by a
    /// factor.
    ///
    /// # Errors
    /// [`AllocError`], if memory runs out; then nothing has changed.
    pub fn append(&mut self, piece: &[u8]) -> Result<(), AllocError>
        ensures appended { OnOk result (rest_of self.new ≡ rest_of self.old ++ piece.now) }
        ensures unchanged { OnErr result (rest_of self.new ≡ rest_of self.old) }
        ensures start { self.new.start ≡ self.old.start }
    {
        self.bytes.extend_from_slice(piece)
    }

    /// Takes `n` bytes from the front of the unread ones. Once those that have been read would be
    /// more than the unread ones, they are dropped, and the unread ones are moved to the front.
    /// Answers how many were moved.
    pub fn take(&mut self, n: usize) -> usize
        requires { n ≤ length (rest_of self.old) }
        ensures unread { rest_of self.new ≡ drop n (rest_of self.old) }
        ensures buffer { Drops (Some self.old.start) n (length (rest_of self.new))
            (Some self.new.start) result }
    {
        let start = self.start + n;
        let left = self.bytes.len() - start;
        if start <= left {
            self.start = start;
            0
        } else {
            self.start = 0;
            self.bytes.drain(..start);
            left
        }
    }
}
