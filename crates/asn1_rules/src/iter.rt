//! Values one after another, out of bytes that come in pieces.
ghost use Rattle.asn1_rules.specs.Progress.{Steps};
ghost use Rattle.asn1_rules.specs.States.{appended, begun, count_of, counted};
ghost use Rattle.asn1_rules.specs.Sources.{kept_in, unread_in};
ghost use Rattle.std.specs.Prelude.{◌≡◌, ◌≤◌, length, IfSome, OnErr, OnOk};

use crate::front_reader::FrontReader;
use crate::source::Source;
use asn1_dec::DecodeError;
use std::alloc::{AllocError, Global};
use std::marker::PhantomData;

/// Values one after another, out of bytes that come in pieces.
#[derive(Drop)]
pub struct Iter<'input, D, R: FrontReader<D>> {
    alloc: Global,
    reader: R,
    source: Source<'input>,
    /// How far the reader came in the bytes that have not been read.
    progress: R::Progress,
    consumed: u128,
    shifted: u128,
    value: PhantomData<D>,
    // All bytes that have been moved, and those that may be moved next, have been read.
    ghost moved: { counted shifted (count_of (kept_in source)) ≤ consumed },
    // The reader came as far as the progress says.
    ghost came: { ∥ R.came reader progress (unread_in source) ∥₁ },
}

impl<'input, D, R: FrontReader<D>> Iter<'input, D, R> {
    ghost use Rattle.asn1_rules.specs.Iters.{state};

    /// An iterator over the values of an input, which is borrowed until more is appended.
    pub fn new(alloc: Global, input: &'input [u8], reader: R) -> Self
        ensures begun { state result ≡ begun reader input.now }
    {
        let progress = reader.start();
        Iter {
            alloc,
            reader,
            source: Source::Borrowed(input),
            progress,
            consumed: 0,
            shifted: 0,
            value: PhantomData,
        }
    }
}

impl<'input, D, R: FrontReader<D>> Iter<'input, D, R> {
    ghost use Rattle.asn1_rules.specs.Iters.{state};

    /// The bytes that have been given and not read.
    pub fn unread(&self) -> &[u8]
        ensures unread { result.now ≡ (state self.now).unread }
        ensures kept { IfSome (state self.now).kept (λ kept. kept ≤ length result.now) }
    {
        self.source.unread()
    }

    /// How many bytes have been read; it remains at the greatest `u128` once that is reached.
    pub fn consumed(&self) -> u128
        ensures consumed { result ≡ (state self.now).consumed }
    {
        self.consumed
    }

    /// How many bytes have been moved inside the buffer; it remains at the greatest `u128` once
    /// that is reached.
    pub fn shifted(&self) -> u128
        ensures shifted { result ≡ (state self.now).shifted }
        ensures at_most_consumed { result ≤ (state self.now).consumed }
    {
        self.shifted
    }

    /// Appends a piece to the bytes that have not been read. The first call copies these into a
    /// buffer.
    ///
    /// # Errors
    /// [`AllocError`], if memory runs out; then nothing has changed.
    pub fn append_bytes(&mut self, piece: &[u8]) -> Result<(), AllocError>
        ensures appended { OnOk result (state self.new ≡ appended piece.now (state self.old)) }
        ensures unchanged { OnErr result (state self.new ≡ state self.old) }
    {
        self.source.append(self.alloc, piece)
    }
}

impl<'input, D: Drop, R: FrontReader<D> + Drop> Iterator for Iter<'input, D, R> {
    ghost use Rattle.asn1_rules.specs.Iters.{state};

    type Item = Result<D, DecodeError>;

    ghost next_gives = { λ old item new. Steps R.fronts (state old) item (state new) };

    fn next(&mut self) -> Option<Result<D, DecodeError>> {
        match self
            .reader
            .read_on(self.source.unread(), &mut self.progress)
        {
            Ok((value, length)) => {
                let moved = self.source.take(length);
                self.progress = self.reader.start();
                self.consumed = self.consumed.saturating_add(length as u128);
                self.shifted = self.shifted.saturating_add(moved as u128);
                Some(Ok(value))
            }
            Err(error) => Some(Err(error)),
        }
    }
}
