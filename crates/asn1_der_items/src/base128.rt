//! Numbers to the base 128.
ghost use Rattle.asn1_der_items.specs.Base128.{AreLeading, Front as FrontView, IsBase128, LackLast, base128_at};
ghost use Rattle.asn1_der_items.specs.Cuts.{IsMissing};
ghost use Rattle.asn1_items.specs.Numbers.{Appended};
ghost use Rattle.std.specs.Prelude.{◌≡◌, ◌*◌, ◌<◌, ◌≤◌, ◌^◌, ◌++◌, Decides, IfErr, IfOk, IsOk, List, Some, slice_get, ℕ};

use asn1_items::ItemError;
use std::alloc::AllocError;

/// A number that was read, and the bytes after it.
#[derive(Clone, Copy)]
pub(crate) struct Front<'a> {
    pub(crate) number: u64,
    pub(crate) rest: &'a [u8],
}

/// Appends a number to the base 128.
#[inline(always)]
pub(crate) fn append_base128(bytes: &mut Vec<u8>, number: u64) -> Result<(), AllocError>
    ensures { IfOk result (λ _. Appended (IsBase128 number) bytes.old.items bytes.new.items) }
{
    if number < 128 {
        bytes.push(number as u8)?;
        return Ok(());
    }
    append_leading(bytes, number / 128)?;
    bytes.push((number % 128) as u8)?;
    Ok(())
}

/// Appends the digits of a number that is not 0 to the base 128, each with bit 8 set.
#[inline(never)]
fn append_leading(bytes: &mut Vec<u8>, number: u64) -> Result<(), AllocError>
    ensures { 0 < number → IfOk result (λ _.
        Appended (AreLeading number) bytes.old.items bytes.new.items) }
{
    if number < 128 {
        bytes.push(number as u8 + 128)?;
        return Ok(());
    }
    append_leading(bytes, number / 128)?;
    bytes.push((number % 128) as u8 + 128)?;
    Ok(())
}

/// Reads a number to the base 128, of which the digits before the last are a number below this limit.
///
/// # Errors
/// [`ItemError::Missing`] where the bytes end before its last digit, and else [`ItemError::Malformed`].
#[inline(always)]
pub(crate) fn read_base128(bytes: &[u8], limit: u64) -> Result<Front<'_>, ItemError>
    requires some { 0 < limit }
    requires fits { limit ≤ 2 ^ 57 }
    ensures only { IfOk result (λ f.
        base128_at bytes.now ≡ Some (record { number = f.number; rest = f.rest.now })) }
    ensures found { (f : FrontView) → base128_at bytes.now ≡ Some f → f.number < limit * 128 →
        IsOk result }
    ensures missing { IfErr result (λ e. IsMissing e → LackLast limit bytes.now) }
    ensures completed { IfErr result (λ e. (more : List ℕ) (f : FrontView) →
        base128_at (bytes.now ++ more) ≡ Some f → f.number < limit * 128 → IsMissing e) }
{
    match bytes {
        [octet, rest @ ..] if *octet < 128 => Ok(Front {
            number: u64::from(*octet),
            rest,
        }),
        _ => read_long_base128(bytes, limit),
    }
}

/// The same in the general case, out of line so that the inlined part stays small.
#[inline(never)]
fn read_long_base128(bytes: &[u8], limit: u64) -> Result<Front<'_>, ItemError>
    requires some { 0 < limit }
    requires fits { limit ≤ 2 ^ 57 }
    ensures only { IfOk result (λ f.
        base128_at bytes.now ≡ Some (record { number = f.number; rest = f.rest.now })) }
    ensures found { (f : FrontView) → base128_at bytes.now ≡ Some f → f.number < limit * 128 →
        IsOk result }
    ensures missing { IfErr result (λ e. IsMissing e → LackLast limit bytes.now) }
    ensures completed { IfErr result (λ e. (more : List ℕ) (f : FrontView) →
        base128_at (bytes.now ++ more) ≡ Some f → f.number < limit * 128 → IsMissing e) }
{
    if begins_with_zero(bytes) {
        return Err(ItemError::Malformed);
    }
    let mut number = 0u64;
    let mut left = bytes;
    while let [octet, rest @ ..] = left {
        if *octet < 128 {
            return Ok(Front {
                number: number * 128 + u64::from(*octet),
                rest,
            });
        }
        number = number * 128 + u64::from(*octet - 128);
        if number >= limit {
            return Err(ItemError::Malformed);
        }
        left = rest;
    }
    Err(ItemError::Missing(1))
}

/// Whether the first digit is a 0 before others.
fn begins_with_zero(bytes: &[u8]) -> bool
    ensures { Decides result (slice_get bytes.now 0 ≡ Some 128) }
{
    bytes.first() == Some(&128)
}
