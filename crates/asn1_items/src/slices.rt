//! The bytes that are read, list by list, in the packed form.
ghost use Rattle.asn1_items.specs.Headers.{IsHeader, IsHeaderOf, header_at, Header as HeaderView};
ghost use Rattle.asn1_items.specs.Items.{marks_skipped};
ghost use Rattle.asn1_items.specs.Slices.{HasTaken, TakesItem, left_inside, left_outside, open_lists};
ghost use Rattle.std.specs.Bool.{Decides};
ghost use Rattle.std.specs.Prelude.{◌≡◌, ◌∷◌, [], IfErr, IfOk, IsOkAnd, List, MatchResult, OnOk, Some, ℕ, false, suc, true};

use crate::error::ItemError;
use crate::header::{ExpectedHeader, Header, find_header};
use crate::kinds::MarkKind;
use asn1_tags::Tag;
use std::alloc::{AllocError, Global};

/// The bytes left of a list outside the innermost one.
#[derive(Drop)]
pub(crate) struct Rest<'a> {
    pub(crate) bytes: &'a [u8],
}

/// The bytes that are left of each list that is open, as a decoder reads them. They are borrowed, and none is copied.
#[derive(Drop)]
pub struct Slices<'a> {
    left: &'a [u8],
    outer: Vec<Rest<'a>>,
}

/// An item that was taken.
#[derive(Clone, Copy, Debug)]
pub struct Item<'a> {
    /// The tag.
    pub tag: Tag,
    /// All bytes of the item.
    pub bytes: &'a [u8],
    /// The bytes inside.
    pub body: &'a [u8],
}

impl<'a> Slices<'a> {
    /// The bytes of the outermost list.
    pub fn new(alloc: Global, bytes: &'a [u8]) -> Slices<'a>
        ensures inside { left_inside result ≡ bytes.now }
        ensures outside { left_outside result ≡ [] }
        ensures none_open { open_lists result ≡ 0 }
    {
        Slices {
            left: bytes,
            outer: Vec::new(alloc),
        }
    }

    /// Whether nothing is left of the innermost list.
    pub fn is_at_end(&self) -> bool
        ensures at_end { Decides result (left_inside self.now ≡ []) }
    {
        self.left.is_empty()
    }

    /// Whether the innermost list is the outermost one.
    pub fn is_outermost(&self) -> bool
        ensures outermost { Decides result (open_lists self.now ≡ 0) }
    {
        self.outer.is_empty()
    }

    /// The bytes left of the innermost list.
    pub fn left(&self) -> &'a [u8]
        ensures inside { result.now ≡ left_inside self.now }
    {
        self.left
    }

    /// Goes on in the innermost list, of which this is left then.
    pub fn advance_to(&mut self, rest: &'a [u8])
        ensures inside { left_inside self.new ≡ rest.now }
        ensures outside { left_outside self.new ≡ left_outside self.old }
        ensures same_lists { open_lists self.new ≡ open_lists self.old }
    {
        self.left = rest;
    }

    /// Takes the next item, which must have the expected header.
    ///
    /// # Errors
    /// As [`find_header`]; [`ItemError::Malformed`] where the header is not the expected one; and [`ItemError::Missing`] where the
    /// bytes end before the item does, with the number of bytes that are missing inside it. Nothing is taken then.
    #[inline(always)]
    pub fn take_item(&mut self, expected: ExpectedHeader) -> Result<Item<'a>, ItemError>
        ensures took { TakesItem expected self.old self.new result }
        ensures only { IfOk result (HasTaken expected self.old self.new) }
        ensures outside { left_outside self.new ≡ left_outside self.old }
        ensures same_lists { open_lists self.new ≡ open_lists self.old }
    {
        let header = find_header(self.left)?;
        if !expected.is_met_by(header) {
            return Err(ItemError::Malformed);
        }
        let size = header.size as usize;
        let Some((body, rest)) = header.body.split_at_checked(size) else {
            return Err(ItemError::Missing(size - header.body.len()));
        };
        let bytes = &self.left[..self.left.len() - rest.len()];
        self.left = rest;
        Ok(Item {
            tag: header.tag,
            bytes,
            body,
        })
    }

    /// Takes the byte of a presence mark.
    ///
    /// # Errors
    /// [`ItemError::Missing`] where no byte is left.
    pub fn take_mark(&mut self) -> Result<u8, ItemError>
        ensures took { (byte : ℕ) (back : List ℕ) → left_inside self.old ≡ byte ∷ back →
            MatchResult result (λ b. (b ≡ byte) × (left_inside self.new ≡ back)) (λ _. ⊥) }
        ensures only { IfOk result (λ b. left_inside self.old ≡ b ∷ left_inside self.new) }
        ensures outside { left_outside self.new ≡ left_outside self.old }
        ensures same_lists { open_lists self.new ≡ open_lists self.old }
    {
        let [byte, rest @ ..] = self.left else {
            return Err(ItemError::Missing(1));
        };
        self.left = rest;
        Ok(*byte)
    }

    /// Goes past the presence marks in front.
    pub fn skip_marks(&mut self)
        ensures inside { left_inside self.new ≡ marks_skipped (left_inside self.old) }
        ensures outside { left_outside self.new ≡ left_outside self.old }
        ensures same_lists { open_lists self.new ≡ open_lists self.old }
    {
        self.left = after_marks(self.left);
    }

    /// The header of the next item, which stays where it is.
    ///
    /// # Errors
    /// As [`find_header`].
    #[inline(always)]
    pub fn next_header(&self) -> Result<Header<'a>, ItemError>
        ensures found { (h : HeaderView) → header_at (left_inside self.now) ≡ Some h →
            IsOkAnd result (λ found. IsHeader found h) }
        ensures only { IfOk result (IsHeaderOf (left_inside self.now)) }
    {
        find_header(self.left)
    }

    /// Goes into a list, which is then the innermost one.
    ///
    /// # Errors
    /// [`AllocError`], and then nothing changes.
    pub fn enter(&mut self, inside: &'a [u8]) -> Result<(), AllocError>
        ensures inside { OnOk result (left_inside self.new ≡ inside.now) }
        ensures outside { OnOk result (left_outside self.new ≡
            left_inside self.old ∷ left_outside self.old) }
        ensures one_more { OnOk result (open_lists self.new ≡ suc (open_lists self.old)) }
        ensures unchanged { IfErr result (λ _. open_lists self.new ≡ open_lists self.old) }
    {
        let bytes = self.left;
        if let Err(_) = self.outer.push(Rest { bytes }) {
            return Err(AllocError);
        }
        self.left = inside;
        Ok(())
    }

    /// Leaves the innermost list, if it is not the outermost one, whatever is left of it.
    pub fn leave(&mut self) -> bool
        ensures left { result ≡ true →
            left_outside self.old ≡ left_inside self.new ∷ left_outside self.new }
        ensures one_less { result ≡ true → open_lists self.old ≡ suc (open_lists self.new) }
        ensures outermost { result ≡ false → open_lists self.old ≡ 0 }
        ensures unchanged { result ≡ false → open_lists self.new ≡ open_lists self.old }
    {
        match self.outer.pop() {
            Some(Rest { bytes }) => {
                self.left = bytes;
                true
            }
            None => false,
        }
    }
}

/// The bytes after the presence marks in front.
fn after_marks(bytes: &[u8]) -> &[u8]
    ensures { result.now ≡ marks_skipped bytes.now }
{
    match bytes {
        [byte, rest @ ..] if MarkKind::is_mark(*byte) => after_marks(rest),
        _ => bytes,
    }
}
