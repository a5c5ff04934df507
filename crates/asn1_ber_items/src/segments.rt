//! Octets in segments: the buffers in which the normal form is written. (A segment of X.690, 8.7.3, is a piece here.)
ghost use Rattle.asn1_ber_items.specs.Segments.{IsBegunAt, IsCounted, IsExtended, WritesSizeIn, segments_of, written_in};
ghost use Rattle.std.specs.Prelude.{◌≡◌, ◌++◌, ◌∷◌, [], Decides, IfOk, length};

use crate::size::write_size;
use asn1_der_items::begin_element;
use asn1_tags::Tag;
use std::alloc::{AllocError, Global};
use std::mem::replace;

/// A segment with this many octets is followed by another, so that a length that grows moves few octets.
const LONG: usize = 512;

/// Octets that are written in segments, so that a length can grow in one without a move of those in others.
#[derive(Drop)]
pub(crate) struct Segments {
    alloc: Global,
    /// The segments before the last.
    full: Vec<Vec<u8>>,
    /// How many octets these have.
    counted: usize,
    /// The segment that is written to.
    pub(crate) last: Vec<u8>,
}

/// The octet that is left for the length of an element.
#[derive(Clone, Copy, Drop)]
pub(crate) struct Room {
    /// The number of its segment. There are fewer than 2^32, since each has many octets.
    pub(crate) segment: u32,
    /// Its index there. It is small, since a long segment is followed by another.
    pub(crate) index: u16,
}

impl Segments {
    /// One segment, without octets.
    pub(crate) fn new(alloc: Global) -> Segments
        ensures none { segments_of result ≡ [] ∷ [] }
        ensures counted { IsCounted result }
    {
        Segments {
            alloc,
            full: Vec::new(alloc),
            counted: 0,
            last: Vec::new(alloc),
        }
    }

    /// Whether there are no octets.
    pub(crate) fn is_empty(&self) -> bool
        ensures { IsCounted self.now → Decides result (written_in self.now ≡ []) }
    {
        if self.counted > 0 {
            return false;
        }
        self.last.is_empty()
    }

    /// How many octets there are. It fails if the number does not fit.
    pub(crate) fn len(&self) -> Result<usize, AllocError>
        ensures { IsCounted self.now → IfOk result (λ n. n ≡ length (written_in self.now)) }
    {
        match self.counted.checked_add(self.last.len()) {
            Some(len) => Ok(len),
            None => Err(AllocError),
        }
    }

    /// Begins a constructed element: its contents octets are to be written next, and its length then.
    pub(crate) fn begin_constructed(&mut self, tag: Tag) -> Result<Room, AllocError>
        ensures { IsCounted self.old → IfOk result (IsBegunAt tag self.old self.new) }
    {
        begin_element(&mut self.last, tag, true)?;
        let Ok(segment) = u32::try_from(self.full.len()) else {
            return Err(AllocError);
        };
        let Ok(index) = u16::try_from(self.last.len() - 1) else {
            return Err(AllocError);
        };
        Ok(Room { segment, index })
    }

    /// Makes room for so many octets, which are to be written next: they are in another segment, if they are many, or the last is long.
    pub(crate) fn make_room(&mut self, count: usize) -> Result<(), AllocError>
        ensures { IsCounted self.old → IfOk result (λ _. IsExtended self.old self.new) }
    {
        if self.last.len() < LONG && count < LONG {
            return Ok(());
        }
        self.begin_segment()?;
        Ok(())
    }

    /// Begins another segment.
    fn begin_segment(&mut self) -> Result<(), AllocError>
        ensures segments { IfOk result (λ _. segments_of self.new ≡
            segments_of self.old ++ [] ∷ []) }
        ensures counted { IsCounted self.old → IfOk result (λ _. IsCounted self.new) }
    {
        self.counted = self.len()?;
        let last = replace(&mut self.last, Vec::new(self.alloc));
        self.full.push(last)?;
        Ok(())
    }

    /// Writes a length of this size over the octet that is left for it.
    pub(crate) fn write_size(&mut self, room: Room, size: usize) -> Result<(), AllocError>
        ensures { WritesSizeIn room size self.old self.new result }
    {
        let index = room.index as usize;
        match self.full.get_mut(room.segment as usize) {
            Some(octets) => {
                let added = write_size(octets, index, size)?;
                match self.counted.checked_add(added) {
                    Some(counted) => {
                        self.counted = counted;
                        Ok(())
                    }
                    None => Err(AllocError),
                }
            }
            None => {
                write_size(&mut self.last, index, size)?;
                Ok(())
            }
        }
    }

    /// All octets, in one buffer.
    pub(crate) fn join(self) -> Result<Vec<u8>, AllocError>
        ensures { IfOk result (λ own. own.items ≡ written_in self) }
    {
        if self.full.is_empty() {
            return Ok(self.last);
        }
        let mut whole = Vec::new(self.alloc);
        for segment in &self.full {
            whole.extend_from_slice(segment.as_slice())?;
        }
        whole.extend_from_slice(self.last.as_slice())?;
        Ok(whole)
    }
}
