//! Elements whose end has not been reached.
ghost use Rattle.asn1_ber_items.specs.Walks.{extent_of};
ghost use Rattle.std.specs.Prelude.{◌≡◌};

use crate::segments::Room;
use std::mem::size_of;

/// A constructed element whose end has not been reached.
#[derive(Clone, Copy, Drop)]
pub(crate) struct OpenElement<'a> {
    /// The index of its contents octets in what was written.
    pub(crate) contents: usize,
    /// The bytes that follow it, if its length is definite.
    after: &'a [u8],
    /// The number of the segment with the octet that is left for its length.
    pub(crate) segment: u32,
    /// The index of that octet there.
    pub(crate) index: u16,
    /// Whether its length is definite.
    is_definite: bool,
}

// An open element costs a walk at most 32 octets.
const _: () = prove!(size_of::<OpenElement<'static>>() <= 32);

/// The end of an element.
#[derive(Clone, Copy, Drop)]
pub(crate) enum Extent<'a> {
    /// The length is definite, and these bytes follow the element.
    Definite(&'a [u8]),
    /// The length is indefinite: end-of-contents octets end the element.
    Indefinite,
}

impl<'a> OpenElement<'a> {
    /// An element of which the contents octets begin at an index, with room for its length.
    pub(crate) fn new(contents: usize, room: Room, extent: Extent<'a>) -> OpenElement<'a>
        ensures contents { result.contents ≡ contents }
        ensures segment { result.segment ≡ room.segment }
        ensures index { result.index ≡ room.index }
        ensures extent { extent_of result ≡ extent.entry }
    {
        match extent {
            Extent::Definite(after) => OpenElement {
                contents,
                after,
                segment: room.segment,
                index: room.index,
                is_definite: true,
            },
            Extent::Indefinite => OpenElement {
                contents,
                after: &[],
                segment: room.segment,
                index: room.index,
                is_definite: false,
            },
        }
    }

    /// Its end.
    pub(crate) fn extent(self) -> Extent<'a>
        ensures { result ≡ extent_of self.entry }
    {
        if self.is_definite {
            Extent::Definite(self.after)
        } else {
            Extent::Indefinite
        }
    }

    /// The octet that is left for its length.
    pub(crate) fn room(self) -> Room
        ensures segment { result.segment ≡ self.entry.segment }
        ensures index { result.index ≡ self.entry.index }
    {
        Room {
            segment: self.segment,
            index: self.index,
        }
    }
}
