//! Numbers as bytes, the highest first.
ghost use Rattle.asn1_items.specs.declared.error.ItemError.TheVariants.{Memory};
ghost use Rattle.asn1_items.specs.Numbers.{Appended, AreFours, AreTwos, IsInteger};
ghost use Rattle.asn1_values.specs.Numbers.{IsMagnitude, IsShortest, magnitude, signed};
ghost use Rattle.std.specs.Prelude.{◌≡◌, ◌↔◌, ◌+◌, ◌<ℤ◌, ◌≤◌, IfOk, IsTrue, List, MatchResult, OnOk, ℕ, ℤ, length, pos, unsigned_abs};

use crate::error::ItemError;
use asn1_values::Integer;
use std::alloc::{AllocError, Global};

/// Appends the sign of an integer, and its magnitude without leading zeros. The magnitude of a number beyond `i128` is copied
/// first.
pub(crate) fn append_integer(
    bytes: &mut Vec<u8>,
    alloc: Global,
    number: &Integer,
) -> Result<(), AllocError>
    ensures { IfOk result (λ _.
        Appended (IsInteger number.now) bytes.old.items bytes.new.items) }
{
    let Some(narrow) = number.to_i128() else {
        let (negative, digits) = number.sign_magnitude(alloc)?;
        return append_signed(bytes, negative, &digits);
    };
    append_narrow(bytes, narrow)
}

/// Appends the sign of a number, and its magnitude without leading zeros.
pub(crate) fn append_narrow(bytes: &mut Vec<u8>, number: i128) -> Result<(), AllocError>
    ensures { IfOk result (λ _.
        Appended (IsInteger number) bytes.old.items bytes.new.items) }
{
    append_absolute(bytes, number.is_negative(), number.unsigned_abs())
}

/// Appends a sign, and an absolute value as a magnitude without leading zeros.
fn append_absolute(bytes: &mut Vec<u8>, negative: bool, absolute: u128) -> Result<(), AllocError>
    ensures { (z : ℤ) → unsigned_abs z ≡ absolute → (IsTrue negative ↔ (z <ℤ pos 0)) →
        IfOk result (λ _. Appended (IsInteger z) bytes.old.items bytes.new.items) }
{
    if let Ok(small) = u32::try_from(absolute) {
        let digits = small.to_be_bytes();
        return append_signed(bytes, negative, significant(&digits));
    }
    let digits = absolute.to_be_bytes();
    append_signed(bytes, negative, significant(&digits))
}

/// Appends a sign and a magnitude. One of one or two bytes is written as it is, with no call that copies it.
#[inline(always)]
pub(crate) fn append_signed(
    bytes: &mut Vec<u8>,
    negative: bool,
    digits: &[u8],
) -> Result<(), AllocError>
    ensures appended { (z : ℤ) → signed negative (magnitude digits.now) ≡ z →
        IsShortest digits.now → (IsTrue negative ↔ (z <ℤ pos 0)) →
        IfOk result (λ _. Appended (IsInteger z) bytes.old.items bytes.new.items) }
    ensures long { OnOk result
        (length bytes.new.items ≡ length bytes.old.items + 1 + length digits.now) }
{
    match digits {
        [digit] => bytes.extend_from_slice(&[u8::from(negative), *digit]),
        [high, low] => bytes.extend_from_slice(&[u8::from(negative), *high, *low]),
        _ => {
            bytes.push(u8::from(negative))?;
            bytes.extend_from_slice(digits)
        }
    }
}

/// The bytes from the first that is not 0 on.
#[inline(always)]
pub fn significant(bytes: &[u8]) -> &[u8]
    ensures number { magnitude result.now ≡ magnitude bytes.now }
    ensures shortest { IsMagnitude result.now }
    ensures no_longer { length result.now ≤ length bytes.now }
{
    let mut rest = bytes;
    while let [0, tail @ ..] = rest {
        rest = tail;
    }
    rest
}

/// Appends numbers of two bytes each.
pub(crate) fn append_twos(bytes: &mut Vec<u8>, numbers: &[u16]) -> Result<(), AllocError>
    ensures { IfOk result (λ _.
        Appended (AreTwos numbers.now) bytes.old.items bytes.new.items) }
{
    for number in numbers {
        bytes.extend_from_slice(&number.to_be_bytes())?;
    }
    Ok(())
}

/// Appends numbers of four bytes each.
pub(crate) fn append_fours(bytes: &mut Vec<u8>, numbers: &[u32]) -> Result<(), AllocError>
    ensures { IfOk result (λ _.
        Appended (AreFours numbers.now) bytes.old.items bytes.new.items) }
{
    for number in numbers {
        bytes.extend_from_slice(&number.to_be_bytes())?;
    }
    Ok(())
}

/// Reads an integer. Another spelling of the same number is refused.
pub(crate) fn read_integer(alloc: Global, bytes: &[u8]) -> Result<Integer, ItemError>
    ensures read { (z : ℤ) → IsInteger z bytes.now →
        MatchResult result (λ n. n ≡ z) (λ e. e ≡ Memory) }
    ensures only { IfOk result (λ n. IsInteger n bytes.now) }
{
    let [sign, digits @ ..] = bytes else {
        return Err(ItemError::Malformed);
    };
    let negative = *sign == 1;
    if *sign > 1 || digits.first() == Some(&0) || (negative && digits.is_empty()) {
        return Err(ItemError::Malformed);
    }
    Ok(Integer::from_sign_magnitude(alloc, negative, digits)?)
}

/// Reads numbers of two bytes each.
///
/// # Errors
/// [`ItemError::Memory`], and [`ItemError::Malformed`] where a byte is left.
pub fn read_twos(alloc: Global, bytes: &[u8]) -> Result<Vec<u16>, ItemError>
    ensures read { (list : List ℕ) → AreTwos list bytes.now →
        MatchResult result (λ v. v.items ≡ list) (λ e. e ≡ Memory) }
    ensures only { IfOk result (λ v. AreTwos v.items bytes.now) }
{
    let mut numbers = Vec::new(alloc);
    let mut left = bytes;
    while let [a, b, rest @ ..] = left {
        if let Err(_) = numbers.push(u16::from_be_bytes([*a, *b])) {
            return Err(ItemError::Memory);
        }
        left = rest;
    }
    if !left.is_empty() {
        return Err(ItemError::Malformed);
    }
    Ok(numbers)
}

/// Reads numbers of four bytes each.
pub(crate) fn read_fours(alloc: Global, bytes: &[u8]) -> Result<Vec<u32>, ItemError>
    ensures read { (list : List ℕ) → AreFours list bytes.now →
        MatchResult result (λ v. v.items ≡ list) (λ e. e ≡ Memory) }
    ensures only { IfOk result (λ v. AreFours v.items bytes.now) }
{
    let mut numbers = Vec::new(alloc);
    let mut left = bytes;
    while let [a, b, c, d, rest @ ..] = left {
        if let Err(_) = numbers.push(u32::from_be_bytes([*a, *b, *c, *d])) {
            return Err(ItemError::Memory);
        }
        left = rest;
    }
    if !left.is_empty() {
        return Err(ItemError::Malformed);
    }
    Ok(numbers)
}
