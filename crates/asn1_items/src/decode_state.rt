//! The scopes that a decoder has open.
ghost use Rattle.asn1_items.specs.Slices.{open_lists};
ghost use Rattle.std.specs.Prelude.{◌+◌, ◌<◌, ◌^◌};

use crate::{ItemError, Slices};
use asn1_laws::{DecodeError, Needed};
use asn1_tags::Tag;
use std::alloc::Global;

/// The bytes are not what they are read as.
pub const BAD_ITEM: DecodeError = DecodeError::Custom("bad item");

/// The state of a decoder over bytes. It borrows them, and copies none.
///
/// After an error the state is failed, and [`DecodeState::open`], [`DecodeState::more`], [`DecodeState::close`] and
/// [`DecodeState::finish`] answer [`DecodeError::Failed`] from then on.
#[derive(Drop)]
pub struct DecodeState<'a> {
    /// How many nested scopes may still be opened.
    pub depth_left: usize,
    /// Whether a call has failed.
    pub failed: bool,
    /// The bytes that are left, list by list.
    pub slices: Slices<'a>,
    pub ghost counted: { depth_left + open_lists slices < 2 ^ 64 },
}

/// A scope that was opened: the tag of its head, and how many bytes are in it.
#[derive(Clone, Copy)]
pub struct Opened {
    /// The tag.
    pub tag: Tag,
    /// How many bytes are in it, and so no fewer than the records in it.
    pub bound: usize,
}

impl<'a> DecodeState<'a> {
    ghost use Rattle.asn1_laws.specs.DecodeErrors.{custom, reason};
    ghost use Rattle.asn1_laws.specs.declared.decode_error.DecodeError.TheVariants.{Depth, Failed, Memory};
    ghost use Rattle.asn1_items.specs.Slices.{left_inside, left_outside, open_lists};
    ghost use Rattle.asn1_items.specs.declared.error.ItemError.TheVariants as item_error;
    ghost use Rattle.asn1_items.specs.DecodeStates.{IsAtEnd, IsClosed, IsOpen, NoneToClose};
    ghost use Rattle.std.specs.Bool.{Decides};
    ghost use Rattle.std.specs.Prelude.{◌≡◌, ◌≢◌, ◌↔◌, [], Err, IfErr, IfOk, IsOk, OnErr, OnOk, codes, false, not, suc, true};

    /// All of these bytes, outside all scopes. This many nested scopes may be opened.
    pub fn new(alloc: Global, bytes: &'a [u8], depth: usize) -> DecodeState<'a>
        ensures inside { left_inside result.slices ≡ bytes.now }
        ensures outside { left_outside result.slices ≡ [] }
        ensures depth_left { result.depth_left ≡ depth }
        ensures no_failure { result.failed ≡ false }
    {
        DecodeState {
            depth_left: depth,
            failed: false,
            slices: Slices::new(alloc, bytes),
        }
    }

    /// Ends the reading, which succeeds if and only if all has been read: no call has failed, no scope is open, and no byte is
    /// left.
    ///
    /// # Errors
    /// [`DecodeError::Failed`] where a call has failed before, and else [`DecodeError::Custom`], with the text `bad item`.
    #[tactic(auto, using(crate::proofs::DecodeStates::none_is_open))]
    pub fn finish(self) -> Result<(), DecodeError>
        ensures all_read { IsOk result ↔ IsAtEnd self.entry }
        ensures failed { result ≡ Err Failed ↔ (self.entry.failed ≡ true) }
        ensures bad_item { IfErr result (λ e. e ≢ Failed → reason e ≡ custom (codes "bad item")) }
    {
        if self.failed {
            return Err(DecodeError::Failed);
        }
        if !self.slices.is_at_end() {
            return Err(BAD_ITEM);
        }
        if !self.slices.is_outermost() {
            return Err(BAD_ITEM);
        }
        Ok(())
    }

    /// Makes the state failed, and answers the error. The depth left stays, and so do the bytes left of each scope.
    pub fn fail(&mut self, error: DecodeError) -> DecodeError
        ensures same { result ≡ error }
        ensures has_failed { self.new.failed ≡ true }
        ensures same_depth { self.new.depth_left ≡ self.old.depth_left }
        ensures same_bytes { self.new.slices ≡ self.old.slices }
    {
        self.failed = true;
        error
    }

    /// Makes the state failed, because an item was not read. The error is [`DecodeError::Memory`] if memory ran out,
    /// [`DecodeError::Incomplete`] if bytes are missing outside all scopes, and else [`DecodeError::Custom`] with the text
    /// `bad item`. The depth left stays, and so do the bytes left of each scope.
    #[cold]
    #[inline(never)]
    pub fn fail_with(&mut self, error: ItemError) -> DecodeError
        ensures memory { error ≡ item_error.Memory → result ≡ Memory }
        ensures not_too_deep { result ≢ Depth }
        ensures not_failed { result ≢ Failed }
        ensures has_failed { self.new.failed ≡ true }
        ensures same_depth { self.new.depth_left ≡ self.old.depth_left }
        ensures same_bytes { self.new.slices ≡ self.old.slices }
    {
        self.failed = true;
        match error {
            ItemError::Memory => DecodeError::Memory,
            ItemError::Missing(count) => {
                if self.slices.is_outermost() {
                    DecodeError::Incomplete(Needed::Size(count))
                } else {
                    BAD_ITEM
                }
            }
            ItemError::Malformed => BAD_ITEM,
        }
    }

    /// Goes into a scope, with these bytes in it, whose head has this tag.
    ///
    /// # Errors
    /// [`DecodeError::Failed`] where a call has failed before, else [`DecodeError::Depth`] where no depth is left, and else
    /// [`DecodeError::Memory`]. No scope is opened then, and the depth left stays.
    #[inline(always)]
    pub fn open(&mut self, tag: Tag, inside: &'a [u8]) -> Result<Opened, DecodeError>
        ensures opened { IfOk result (IsOpen self.old self.new tag inside.now) }
        ensures one_less { OnOk result (self.old.depth_left ≡ suc self.new.depth_left) }
        ensures no_failure { OnOk result (self.new.failed ≡ false) }
        ensures failed { result ≡ Err Failed ↔ (self.old.failed ≡ true) }
        ensures too_deep { result ≡ Err Depth → self.old.depth_left ≡ 0 }
        ensures depth_first { self.old.failed ≡ false → self.old.depth_left ≡ 0 →
            result ≡ Err Depth }
        ensures memory { IfErr result (λ e. e ≢ Failed → e ≢ Depth → e ≡ Memory) }
        ensures has_failed { OnErr result (self.new.failed ≡ true) }
        ensures same_depth { OnErr result (self.new.depth_left ≡ self.old.depth_left) }
        ensures same_scopes { OnErr result
            (open_lists self.new.slices ≡ open_lists self.old.slices) }
    {
        if self.failed {
            return Err(DecodeError::Failed);
        }
        if self.depth_left == 0 {
            return Err(self.fail(DecodeError::Depth));
        }
        if let Err(_) = self.slices.enter(inside) {
            return Err(self.fail(DecodeError::Memory));
        }
        self.depth_left -= 1;
        Ok(Opened {
            tag,
            bound: inside.len(),
        })
    }

    /// Whether something is left of the innermost scope.
    ///
    /// # Errors
    /// [`DecodeError::Failed`] where a call has failed before.
    pub fn more(&self) -> Result<bool, DecodeError>
        ensures decided { IfOk result (λ some. Decides (not some) (left_inside self.now.slices ≡ [])) }
        ensures no_failure { OnOk result (self.now.failed ≡ false) }
        ensures failed { IfErr result (λ e. e ≡ Failed) }
        ensures has_failed { OnErr result (self.now.failed ≡ true) }
        ensures failed_before { self.now.failed ≡ true → result ≡ Err Failed }
    {
        if self.failed {
            return Err(DecodeError::Failed);
        }
        Ok(!self.slices.is_at_end())
    }

    /// Leaves the innermost scope, of which nothing is left.
    ///
    /// # Errors
    /// [`DecodeError::Failed`] where a call has failed before, and else [`DecodeError::Custom`], with the text `bad item`, where
    /// something is left or no scope is open.
    #[inline(always)]
    pub fn close(&mut self) -> Result<(), DecodeError>
        ensures closed { OnOk result (IsClosed self.old self.new) }
        ensures one_more { OnOk result (self.new.depth_left ≡ suc self.old.depth_left) }
        ensures no_failure { OnOk result (self.new.failed ≡ false) }
        ensures not_closed { OnErr result (NoneToClose self.old) }
        ensures has_failed { OnErr result (self.new.failed ≡ true) }
        ensures same_depth { OnErr result (self.new.depth_left ≡ self.old.depth_left) }
        ensures failed_before { self.old.failed ≡ true → result ≡ Err Failed }
        ensures not_too_deep { result ≢ Err Depth }
    {
        if self.failed {
            return Err(DecodeError::Failed);
        }
        if !self.slices.is_at_end() {
            return Err(self.fail(BAD_ITEM));
        }
        if !self.slices.leave() {
            return Err(self.fail(BAD_ITEM));
        }
        self.depth_left += 1;
        Ok(())
    }
}
