//! The beginning and the end of a scope.
ghost use Rattle.asn1_der.specs.Scopes.{EndsAsWritten, EndsSorted, FinishesScope};
ghost use Rattle.asn1_der.specs.WrittenElements.{IsFront};
ghost use Rattle.asn1_der_items.specs.Series.{IsElementOf};
ghost use Rattle.asn1_items.specs.Numbers.{Appended};
ghost use Rattle.std.specs.Prelude.{◌≡◌, ◌++◌, IfOk, List, MatchResult, length, ℕ};

use crate::buffer::write_error_of;
use crate::elements::{bytes_from, is_element_of};
use crate::frame::Frame;
use crate::sorting::{Order, sort_elements};
use asn1_buffers::WriteError;
use asn1_der_items::{ContentOrder, begin_element, end_element};
use asn1_tags::Tag;
use std::alloc::{AllocError, Global};

/// Appends the front of a scope: the identifier of its element and an octet for its length. A CHOICE has none.
#[inline(always)]
pub(crate) fn begin_scope(
    bytes: &mut Vec<u8>,
    order: ContentOrder,
    tag: Tag,
) -> Result<(), AllocError>
    ensures { IfOk result (λ _.
        Appended (IsFront order tag) bytes.old.items bytes.new.items) }
{
    match order {
        ContentOrder::AsDefined => begin_element(bytes, tag, true),
        ContentOrder::ByTag => begin_element(bytes, tag, true),
        ContentOrder::ByEncoding => begin_element(bytes, tag, true),
        ContentOrder::Chosen => Ok(()),
    }
}

/// Makes a record of the bytes inside a scope: an element of them, in which those of a set are sorted; or, of a CHOICE, what they
/// are.
///
/// # Errors
/// [`WriteError::Memory`], and [`WriteError::Rejected`] where a CHOICE is not one element of its tag. After an error nothing is
/// promised about the bytes.
pub(crate) fn finish_scope(
    alloc: Global,
    bytes: &mut Vec<u8>,
    frame: Frame,
) -> Result<(), WriteError>
    ensures { FinishesScope frame bytes.old.items bytes.new.items result }
{
    match frame.content_order {
        ContentOrder::AsDefined => end_as_written(bytes, frame.start),
        ContentOrder::ByTag => end_sorted(alloc, bytes, frame.start, Order::Tags),
        ContentOrder::ByEncoding => end_sorted(alloc, bytes, frame.start, Order::Encodings),
        ContentOrder::Chosen => find_chosen(bytes, frame.start, frame.tag),
    }
}

/// Ends an element of the bytes from an index on.
#[inline(always)]
fn end_as_written(bytes: &mut Vec<u8>, start: usize) -> Result<(), WriteError>
    ensures { EndsAsWritten start bytes.old.items bytes.new.items result }
{
    match end_element(bytes, start) {
        Ok(()) => Ok(()),
        Err(error) => Err(write_error_of(error)),
    }
}

/// Ends an element of the elements from an index on, after it has sorted them.
fn end_sorted(
    alloc: Global,
    bytes: &mut Vec<u8>,
    start: usize,
    order: Order,
) -> Result<(), WriteError>
    ensures { EndsSorted order start bytes.old.items bytes.new.items result }
{
    sort_elements(alloc, bytes, start, order)?;
    end_as_written(bytes, start)
}

/// Looks whether the bytes from an index on are the chosen alternative of a CHOICE: one element of its tag.
///
/// # Errors
/// [`WriteError::Rejected`] where they are not.
fn find_chosen(bytes: &[u8], start: usize, tag: Tag) -> Result<(), WriteError>
    ensures { (before inside : List ℕ) → bytes.now ≡ before ++ inside → start ≡ length before →
        MatchResult result (λ _. IsElementOf tag inside) (λ _. ¬ IsElementOf tag inside) }
{
    let Some(inside) = bytes_from(bytes, start) else {
        return Err(WriteError::Rejected("nothing is open"));
    };
    if is_element_of(inside, tag) {
        Ok(())
    } else {
        Err(WriteError::Rejected("a choice is not one element of its tag"))
    }
}
