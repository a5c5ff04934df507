//! Items of one content, each with the length of its bytes.
ghost use Rattle.asn1_items.specs.Contents.{content_of};
ghost use Rattle.asn1_items.specs.Items.{HoldsContent, IsItemOf, IsLong};
ghost use Rattle.asn1_items.specs.Numbers.{Appended, IsInteger};
ghost use Rattle.asn1_items.specs.declared.error.BufferError.TheVariants.{Memory};
ghost use Rattle.asn1_model.specs.Records as model;
ghost use Rattle.asn1_values.specs.Numbers.{IsShortest, magnitude, signed};
ghost use Rattle.std.specs.Prelude.{◌≡◌, ◌≢◌, ◌↔◌, ◌<ℤ◌, ◌≤◌, ◌^◌, ◌∷◌, [], IfErr, IfOk, IsTrue, ℤ, length, pos, unsigned_abs};

use crate::bytes::{push_content_header, push_sized_header, write_length};
use crate::content::{Content, kind_of_octets};
use crate::error::BufferError;
use crate::kinds::ContentKind;
use crate::numbers::{append_signed, significant};
use asn1_tags::Tag;
use asn1_types::AnyStr;
use asn1_values::Integer;
use std::alloc::Global;

/// Appends an item of a content. If the number of its bytes is known before, they are written once, with one request for
/// memory. Otherwise the length is written after them.
///
/// # Errors
/// [`BufferError::Memory`], and [`BufferError::TooLong`] where the content is 2^32 bytes long or more.
#[inline(always)]
pub(crate) fn push_item(
    bytes: &mut Vec<u8>,
    alloc: Global,
    tag: Tag,
    content: Content<'_>,
) -> Result<(), BufferError>
    ensures appended { IfOk result (λ _.
        Appended (IsItemOf tag (content_of content.entry)) bytes.old.items bytes.new.items) }
    ensures too_long { IfErr result (λ e. e ≢ Memory → IsLong (content_of content.entry)) }
{
    match content {
        Content::Null => push_sized(bytes, tag, ContentKind::Null, &[]),
        Content::Boolean(value) => push_sized(bytes, tag, ContentKind::Boolean, &[u8::from(value)]),
        Content::Number(number) => push_integer(bytes, alloc, tag, number),
        Content::Discriminant(number) => push_narrow(
            bytes,
            tag,
            ContentKind::Discriminant,
            number as i128,
        ),
        Content::String(AnyStr::Octets(kind, octets)) => {
            push_sized(bytes, tag, kind_of_octets(kind), octets)
        }
        Content::Arcs(_) | Content::String(_) => push_measured(bytes, alloc, tag, content),
    }
}

/// Appends an item of an INTEGER.
#[inline(always)]
fn push_integer(
    bytes: &mut Vec<u8>,
    alloc: Global,
    tag: Tag,
    number: &Integer,
) -> Result<(), BufferError>
    ensures appended { IfOk result (λ _.
        Appended (IsItemOf tag (model.number number.now)) bytes.old.items bytes.new.items) }
    ensures too_long { IfErr result (λ e. e ≢ Memory → IsLong (model.number number.now)) }
{
    match number.to_i128() {
        Some(narrow) => push_narrow(bytes, tag, ContentKind::Number, narrow),
        None => push_measured(bytes, alloc, tag, Content::Number(number)),
    }
}

/// Appends an item of a content of this kind that has the bytes of a number.
#[inline(always)]
fn push_narrow(
    bytes: &mut Vec<u8>,
    tag: Tag,
    content: ContentKind,
    number: i128,
) -> Result<(), BufferError>
    ensures appended { IfOk result (λ _.
        Appended (HoldsContent (IsInteger number) content tag) bytes.old.items bytes.new.items) }
    ensures memory { IfErr result (λ e. e ≡ Memory) }
{
    let absolute = number.unsigned_abs();
    push_absolute(bytes, tag, content, number.is_negative(), absolute)
}

/// Appends an item of a content of this kind that has the bytes of a sign and an absolute value.
#[inline(always)]
fn push_absolute(
    bytes: &mut Vec<u8>,
    tag: Tag,
    content: ContentKind,
    negative: bool,
    absolute: u128,
) -> Result<(), BufferError>
    ensures appended { (z : ℤ) → unsigned_abs z ≡ absolute →
        (IsTrue negative ↔ (z <ℤ pos 0)) → IfOk result (λ _.
        Appended (HoldsContent (IsInteger z) content tag) bytes.old.items bytes.new.items) }
    ensures memory { IfErr result (λ e. e ≡ Memory) }
{
    if let Ok(small) = u32::try_from(absolute) {
        let digits = small.to_be_bytes();
        return push_signed(bytes, tag, content, negative, significant(&digits));
    }
    push_wide(bytes, tag, content, negative, absolute)
}

/// The same, of an absolute value that need not be small. It is a function of its own, so that the inlined code stays small.
#[cold]
#[inline(never)]
fn push_wide(
    bytes: &mut Vec<u8>,
    tag: Tag,
    content: ContentKind,
    negative: bool,
    absolute: u128,
) -> Result<(), BufferError>
    ensures appended { (z : ℤ) → unsigned_abs z ≡ absolute →
        (IsTrue negative ↔ (z <ℤ pos 0)) → IfOk result (λ _.
        Appended (HoldsContent (IsInteger z) content tag) bytes.old.items bytes.new.items) }
    ensures memory { IfErr result (λ e. e ≡ Memory) }
{
    let digits = absolute.to_be_bytes();
    push_signed(bytes, tag, content, negative, significant(&digits))
}

/// Appends an item of a content of this kind that has the bytes of a sign and a magnitude.
#[inline(always)]
fn push_signed(
    bytes: &mut Vec<u8>,
    tag: Tag,
    content: ContentKind,
    negative: bool,
    digits: &[u8],
) -> Result<(), BufferError>
    requires { length digits.now ≤ 16 }
    ensures appended { (z : ℤ) → signed negative (magnitude digits.now) ≡ z →
        IsShortest digits.now → (IsTrue negative ↔ (z <ℤ pos 0)) → IfOk result (λ _.
        Appended (HoldsContent (IsInteger z) content tag) bytes.old.items bytes.new.items) }
    ensures memory { IfErr result (λ e. e ≡ Memory) }
{
    push_sized_header(bytes, tag, content, digits.len() + 1)?;
    append_signed(bytes, negative, digits)?;
    Ok(())
}

/// Appends an item of a content of this kind that has these bytes.
#[inline(always)]
fn push_sized(
    bytes: &mut Vec<u8>,
    tag: Tag,
    content: ContentKind,
    inside: &[u8],
) -> Result<(), BufferError>
    ensures appended { IfOk result (λ _. Appended
        (HoldsContent (λ own. own ≡ inside.now) content tag) bytes.old.items bytes.new.items) }
    ensures too_long { IfErr result (λ e. e ≢ Memory → 2 ^ 32 ≤ length inside.now) }
{
    push_sized_header(bytes, tag, content, inside.len())?;
    bytes.extend_from_slice(inside)?;
    Ok(())
}

/// Appends an item of a content, and writes its length when its bytes are there.
#[inline(never)]
fn push_measured(
    bytes: &mut Vec<u8>,
    alloc: Global,
    tag: Tag,
    content: Content<'_>,
) -> Result<(), BufferError>
    ensures appended { IfOk result (λ _.
        Appended (IsItemOf tag (content_of content.entry)) bytes.old.items bytes.new.items) }
    ensures too_long { IfErr result (λ e. e ≢ Memory → IsLong (content_of content.entry)) }
{
    push_content_header(bytes, tag, content.kind())?;
    let start = bytes.len();
    content.append_to(bytes, alloc)?;
    write_length(bytes, start)?;
    Ok(())
}
