//! The bytes of headers, of which a length is written later than what is around it.
ghost use Rattle.asn1_items.specs.Buffers.{FillsLength};
ghost use Rattle.asn1_items.specs.Headers.{tag_bytes};
ghost use Rattle.asn1_items.specs.Kinds.{content_byte, item_byte, scope_byte};
ghost use Rattle.asn1_items.specs.Numbers.{four_bytes};
ghost use Rattle.asn1_items.specs.declared.kinds.ItemKind.TheVariants as item;
ghost use Rattle.asn1_items.specs.declared.error.BufferError.TheVariants.{Memory};
ghost use Rattle.std.specs.Prelude.{◌≡◌, ◌≢◌, ◌+◌, ◌<◌, ◌^◌, ◌≤◌, ◌∷◌, ◌++◌, [], IfErr, IfOk, List, OnOk, ℕ, length};

use crate::error::BufferError;
use crate::kinds::{ContentKind, ItemKind, ScopeKind};
use asn1_tags::Tag;
use std::alloc::AllocError;

/// Appends the header of an item of a content of this kind, with zeros for the length of what is inside.
#[inline(always)]
pub(crate) fn push_content_header(
    bytes: &mut Vec<u8>,
    tag: Tag,
    content: ContentKind,
) -> Result<(), AllocError>
    ensures appended { IfOk result (λ _. bytes.new.items ≡ bytes.old.items ++
        item_byte item.Content ∷ (tag_bytes tag ++ content_byte content ∷ 0 ∷ 0 ∷ 0 ∷ 0 ∷ [])) }
    ensures fits { OnOk result (tag.value < 2 ^ 32) }
{
    let [a, b, c, d] = tag.value.to_be_bytes();
    let kind = ItemKind::Content.to_byte();
    let content = content.to_byte();
    bytes.extend_from_slice(&[kind, tag.class as u8, a, b, c, d, content, 0, 0, 0, 0])
}

/// Appends the header of an item of a content of this kind with this many bytes, and makes room for them.
///
/// # Errors
/// [`BufferError::Memory`], and [`BufferError::TooLong`] where they are 2^32 or more.
#[inline(always)]
pub(crate) fn push_sized_header(
    bytes: &mut Vec<u8>,
    tag: Tag,
    content: ContentKind,
    size: usize,
) -> Result<(), BufferError>
    ensures appended { IfOk result (λ _. bytes.new.items ≡ bytes.old.items ++
        item_byte item.Content ∷ (tag_bytes tag ++ content_byte content ∷ four_bytes size)) }
    ensures fits { OnOk result ((tag.value < 2 ^ 32) × (size < 2 ^ 32)) }
    ensures too_long { IfErr result (λ e. e ≢ Memory → 2 ^ 32 ≤ size) }
{
    if size > u32::MAX as usize {
        return Err(BufferError::TooLong);
    }
    let [a, b, c, d] = tag.value.to_be_bytes();
    let [e, f, g, h] = (size as u32).to_be_bytes();
    bytes.reserve(11 + size)?;
    let kind = ItemKind::Content.to_byte();
    let content = content.to_byte();
    bytes.extend_from_slice(&[kind, tag.class as u8, a, b, c, d, content, e, f, g, h])?;
    Ok(())
}

/// Appends the header of an item of this kind that holds others, whose inside begins at this index, with this number where the
/// length of what is inside will be.
#[inline(always)]
pub(crate) fn push_scope_header(
    bytes: &mut Vec<u8>,
    kind: ScopeKind,
    tag: Tag,
    start: usize,
    link: u32,
) -> Result<(), AllocError>
    ensures appended { start ≡ length bytes.old.items + 10 → IfOk result (λ _. bytes.new.items ≡
        (bytes.old.items ++ scope_byte kind ∷ tag_bytes tag) ++ four_bytes link) }
    ensures fits { OnOk result (tag.value < 2 ^ 32) }
{
    let [a, b, c, d] = tag.value.to_be_bytes();
    bytes.extend_from_slice(&[kind.to_byte(), tag.class as u8, a, b, c, d, 0, 0, 0, 0])?;
    let _ = exchange(bytes, start, link);
    Ok(())
}

/// Appends the bytes of a presence mark. Most have one byte, or none.
#[inline(always)]
pub(crate) fn push_mark(bytes: &mut Vec<u8>, mark: &[u8]) -> Result<(), AllocError>
    ensures { IfOk result (λ _. bytes.new.items ≡ bytes.old.items ++ mark.now) }
{
    match mark {
        [] => Ok(()),
        [byte] => {
            bytes.push(*byte)?;
            Ok(())
        }
        _ => bytes.extend_from_slice(mark),
    }
}

/// Writes the length of the bytes from an index on over the four bytes before it, and answers the number that they held.
#[inline(always)]
pub(crate) fn write_length(bytes: &mut Vec<u8>, start: usize) -> Result<u32, BufferError>
    ensures written { FillsLength bytes.old.items start bytes.new.items result }
{
    let end = bytes.len();
    if end < start {
        return Err(BufferError::NotOpen);
    }
    let size = end - start;
    if size > u32::MAX as usize {
        return Err(BufferError::TooLong);
    }
    Ok(exchange(bytes, start, size as u32))
}

/// Writes a number over the four bytes before an index, and answers the number that they held.
#[inline(always)]
fn exchange(bytes: &mut Vec<u8>, start: usize, new: u32) -> u32
    ensures { (before inside : List ℕ) (number : ℕ) → number < 2 ^ 32 →
        bytes.old.items ≡ before ++ (four_bytes number ++ inside) → start ≡ length before + 4 →
        (bytes.new.items ≡ before ++ (four_bytes new ++ inside)) × (result ≡ number) }
{
    patch(bytes.as_mut_slice(), start, new)
}

/// The same in a slice.
#[inline(always)]
fn patch(bytes: &mut [u8], start: usize, new: u32) -> u32
    ensures { (before inside : List ℕ) (number : ℕ) → number < 2 ^ 32 →
        bytes.old ≡ before ++ (four_bytes number ++ inside) → start ≡ length before + 4 →
        (bytes.new ≡ before ++ (four_bytes new ++ inside)) × (result ≡ number) }
{
    if start < 4 || bytes.len() < start {
        return 0;
    }
    let number = u32::from_be_bytes([
        bytes[start - 4],
        bytes[start - 3],
        bytes[start - 2],
        bytes[start - 1],
    ]);
    let [a, b, c, d] = new.to_be_bytes();
    bytes[start - 4] = a;
    bytes[start - 3] = b;
    bytes[start - 2] = c;
    bytes[start - 1] = d;
    number
}
