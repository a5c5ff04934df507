//! The source of the bytes of an iterator.
ghost use Rattle.std.specs.Prelude.{◌≡◌, ◌≤◌, ◌++◌, drop, length, IfSome, OnErr, OnOk, Some};

use crate::buffer::Buffer;
use std::alloc::{AllocError, Global};

/// The bytes that have not been read, borrowed or owned.
#[derive(Drop)]
pub enum Source<'input> {
    /// They are the caller's.
    Borrowed(&'input [u8]),
    /// They are in a buffer.
    Owned(Buffer),
}

impl<'input> Source<'input> {
    ghost use Rattle.asn1_rules.specs.Sources.{kept_in, unread_in};
    ghost use Rattle.asn1_rules.specs.States.{count_of, Drops};

    /// The bytes that have not been read.
    pub fn unread(&self) -> &[u8]
        ensures unread { result.now ≡ unread_in self.now }
        ensures kept { IfSome (kept_in self.now) (λ kept. kept ≤ length result.now) }
    {
        match self {
            Source::Borrowed(bytes) => bytes,
            Source::Owned(buffer) => buffer.unread(),
        }
    }

    /// Appends a piece to the bytes, in a buffer, into which borrowed bytes are copied first.
    ///
    /// # Errors
    /// [`AllocError`], if memory runs out; then nothing has changed.
    pub fn append(&mut self, alloc: Global, piece: &[u8]) -> Result<(), AllocError>
        ensures appended { OnOk result (unread_in self.new ≡ unread_in self.old ++ piece.now) }
        ensures kept { OnOk result (kept_in self.new ≡ Some (count_of (kept_in self.old))) }
        ensures unchanged { OnErr result (unread_in self.new ≡ unread_in self.old) }
        ensures kept_unchanged { OnErr result (kept_in self.new ≡ kept_in self.old) }
    {
        match self {
            Source::Borrowed(bytes) => {
                *self = Source::Owned(Buffer::new(alloc, bytes, piece)?);
                Ok(())
            }
            Source::Owned(buffer) => buffer.append(piece),
        }
    }

    /// Takes `n` bytes from the front of the unread ones, and answers how many were moved in the
    /// buffer.
    pub fn take(&mut self, n: usize) -> usize
        requires { n ≤ length (unread_in self.old) }
        ensures unread { unread_in self.new ≡ drop n (unread_in self.old) }
        ensures buffer { Drops (kept_in self.old) n (length (unread_in self.new)) (kept_in self.new)
            result }
    {
        match self {
            Source::Borrowed(bytes) => {
                *bytes = &bytes[n..];
                0
            }
            Source::Owned(buffer) => buffer.take(n),
        }
    }
}
