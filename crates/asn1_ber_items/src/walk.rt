//! The walk through elements of BER.
ghost use Rattle.asn1_ber_items.specs.Headers.{end_of_contents};
ghost use Rattle.asn1_ber_items.specs.Segments.{written_in};
ghost use Rattle.asn1_der_items.specs.Cuts.{IsMissing};
ghost use Rattle.asn1_ber_items.specs.Walks.{Goes, GoesOn, IsClosing, IsConsistent, IsCopy, IsElementHere, IsEnding, IsRefused, Outcome, Remains, Splits, Writes, bytes_after};
ghost use Rattle.asn1_der_items.specs.Elements.{IsElement};
ghost use Rattle.asn1_items.specs.Numbers.{Appended};
ghost use Rattle.asn1_items.specs.declared.error.ItemError.TheVariants.{Memory};
ghost use Rattle.std.specs.Prelude.{◌≡◌, ◌≢◌, ◌∷◌, ◌++◌, ◌+◌, ◌<◌, ◌↔◌, [], Decides, IfOk, List, MatchOption, MatchResult, Some, false, length, true, ℕ};

use crate::header::{Header, read_header};
use crate::open_element::{Extent, OpenElement};
use crate::segments::Segments;
use asn1_der_items::{begin_element, end_element};
use asn1_items::ItemError;
use asn1_tags::{Class, Tag};
use std::alloc::{AllocError, Global};

/// The tag of end-of-contents octets, which no element has (X.690, 8.1.5).
const END_OF_CONTENTS: Tag = Tag {
    class: Class::Universal,
    value: 0,
};

/// A walk through elements of BER, which writes each with a definite length of the fewest octets.
#[derive(Drop)]
pub(crate) struct Walk<'a> {
    /// What was written.
    pub(crate) written: Segments,
    /// The open elements, the outermost first.
    begun: Vec<OpenElement<'a>>,
    /// The bytes that are left of the innermost open element.
    pub(crate) left: &'a [u8],
}

impl<'a> Walk<'a> {
    /// A walk through these bytes.
    pub(crate) fn new(alloc: Global, bytes: &'a [u8]) -> Walk<'a>
        ensures consistent { IsConsistent result }
        ensures ahead { (outcome : Outcome) → Remains outcome bytes.now [] → Writes result outcome }
        ensures behind { (outcome : Outcome) → Writes result outcome → Remains outcome bytes.now [] }
    {
        Walk {
            written: Segments::new(alloc),
            begun: Vec::new(alloc),
            left: bytes,
        }
    }

    /// Whether nothing is left.
    pub(crate) fn is_at_end(&self) -> bool
        ensures { Decides result ((self.now.begun.items ≡ []) × (self.now.left.now ≡ [])) }
    {
        self.begun.is_empty() && self.left.is_empty()
    }

    /// Whether the first element was written, and nothing after it.
    pub(crate) fn is_after_front(&self) -> bool
        ensures { IsConsistent self.now → Decides result ((self.now.begun.items ≡ []) ×
            (written_in self.now.written ≢ [])) }
    {
        self.begun.is_empty() && !self.written.is_empty()
    }

    /// All octets that were written, in one buffer. The memory of the open elements is let go first.
    pub(crate) fn finish(self) -> Result<Vec<u8>, AllocError>
        ensures { IfOk result (λ own. own.items ≡ written_in self.entry.written) }
    {
        let written = self.written;
        drop(self.begun);
        written.join()
    }

    /// Goes on.
    ///
    /// # Errors
    /// [`ItemError::Memory`]; else [`ItemError::Malformed`]: the bytes left are no elements.
    pub(crate) fn step(&mut self) -> Result<(), ItemError>
        ensures { IsConsistent self.old → MatchResult result (λ _. Goes self.old self.new)
            (IsRefused self.old) }
    {
        match self.ending() {
            Some(back) => self.end_innermost(back),
            None => self.begin_next(),
        }
    }

    /// The bytes that follow the innermost open element, if it ends here.
    fn ending(&self) -> Option<&'a [u8]>
        ensures { MatchOption result ((back : List ℕ) → ¬ IsEnding self.now back)
            (λ back. IsEnding self.now back.now) }
    {
        let [.., innermost] = self.begun.as_slice() else {
            return None;
        };
        match innermost.extent() {
            Extent::Definite(after) if self.left.is_empty() => Some(after),
            Extent::Definite(_) => None,
            Extent::Indefinite => match self.left {
                [0, 0, back @ ..] => Some(back),
                _ => None,
            },
        }
    }

    /// Ends the innermost open element, which these bytes follow.
    fn end_innermost(&mut self, back: &'a [u8]) -> Result<(), ItemError>
        ensures { IsEnding self.old back.now → IsConsistent self.old →
            MatchResult result (λ _. Goes self.old self.new) (λ e. e ≡ Memory) }
    {
        let Some(element) = self.begun.pop() else {
            return Ok(());
        };
        let written = self.written.len()?;
        let size = written.saturating_sub(element.contents);
        self.written.write_size(element.room(), size)?;
        self.left = back;
        Ok(())
    }

    /// Begins the next element, where none ends.
    fn begin_next(&mut self) -> Result<(), ItemError>
        ensures { ((back : List ℕ) → ¬ IsEnding self.old back) → IsConsistent self.old →
            MatchResult result (λ _. Goes self.old self.new)
            (IsRefused self.old) }
    {
        let header = match read_header(self.left) {
            Ok(header) => header,
            Err(error) => return Err(error_of_form(error)),
        };
        if is_end_of_contents(header.tag) {
            return Err(ItemError::Malformed);
        }
        match header.size {
            Some(size) => self.begin_with_length(header, size as usize),
            None if header.constructed => {
                self.begin_constructed(header.tag, header.rest, Extent::Indefinite)
            }
            None => Err(ItemError::Malformed),
        }
    }

    /// Begins the element of this header, which has a definite length.
    fn begin_with_length(&mut self, header: Header<'a>, size: usize) -> Result<(), ItemError>
        ensures { IsElementHere header.entry self.old → header.entry.size ≡ Some size →
            ((back : List ℕ) → ¬ IsEnding self.old back) → IsConsistent self.old →
            MatchResult result (λ _. Goes self.old self.new)
            (IsRefused self.old) }
    {
        let Some((contents, back)) = header.rest.split_at_checked(size) else {
            return Err(ItemError::Malformed);
        };
        if header.constructed {
            self.begin_constructed(header.tag, contents, Extent::Definite(back))
        } else {
            self.copy(header.tag, contents, back)
        }
    }

    /// Begins a constructed element, of which these are the contents octets, and goes on inside it.
    fn begin_constructed(
        &mut self,
        tag: Tag,
        contents: &'a [u8],
        extent: Extent<'a>,
    ) -> Result<(), ItemError>
        ensures { Splits (IsClosing tag extent.entry contents.now) self.old.left.now →
            length contents.now + bytes_after extent.entry < length self.old.left.now →
            IsConsistent self.old →
            MatchResult result (λ _. Goes self.old self.new) (λ e. e ≡ Memory) }
    {
        self.written.make_room(0)?;
        let room = self.written.begin_constructed(tag)?;
        let element = OpenElement::new(self.written.len()?, room, extent);
        match self.begun.push(element) {
            Ok(()) => {
                self.left = contents;
                Ok(())
            }
            Err(_) => Err(ItemError::Memory),
        }
    }

    /// Writes a primitive element of these contents octets, which these bytes follow.
    fn copy(&mut self, tag: Tag, contents: &[u8], back: &'a [u8]) -> Result<(), ItemError>
        ensures { ((own : List ℕ) → IsElement tag false contents.now own →
            Splits (IsCopy own back.now) self.old.left.now) →
            length back.now < length self.old.left.now → IsConsistent self.old →
            MatchResult result (λ _. Goes self.old self.new) (λ e. e ≡ Memory) }
    {
        self.written.make_room(contents.len())?;
        append_element(&mut self.written.last, tag, contents)?;
        self.left = back;
        Ok(())
    }
}

/// The error where no element was read. No bytes are missing, since the end of the first element was found before.
fn error_of_form(error: ItemError) -> ItemError
    ensures memory { (result ≡ Memory) ↔ (error ≡ Memory) }
    ensures not_missing { ¬ IsMissing result }
{
    match error {
        ItemError::Memory => ItemError::Memory,
        ItemError::Missing(_) => ItemError::Malformed,
        ItemError::Malformed => ItemError::Malformed,
    }
}

/// Whether a tag is that of end-of-contents octets.
pub(crate) fn is_end_of_contents(tag: Tag) -> bool
    ensures { Decides result (tag ≡ end_of_contents) }
{
    tag == END_OF_CONTENTS
}

/// Appends a primitive element of these contents octets.
fn append_element(bytes: &mut Vec<u8>, tag: Tag, contents: &[u8]) -> Result<(), ItemError>
    ensures { MatchResult result
        (λ _. Appended (IsElement tag false contents.now) bytes.old.items bytes.new.items)
        (λ e. e ≡ Memory) }
{
    begin_element(bytes, tag, false)?;
    let start = bytes.len();
    bytes.extend_from_slice(contents)?;
    match end_element(bytes, start) {
        Ok(()) => Ok(()),
        Err(_) => Err(ItemError::Memory),
    }
}
