//! Whole numbers in two's complement.
ghost use Rattle.asn1_values.specs.Numbers.{IsShortest as BeginsWithDigit, magnitude, signed};
ghost use Rattle.asn1_items.specs.Numbers.{Appended};
ghost use Rattle.asn1_der_items.specs.Integers.{IsComplement, IsInteger, IsShortest, below_zero, negative_value, twos_complement};
ghost use Rattle.asn1_items.specs.declared.error.ItemError.TheVariants.{Memory};
ghost use Rattle.std.specs.Bool.{Decides};
ghost use Rattle.std.specs.Prelude.{◌≡◌, ◌↔◌, ◌<◌, ◌<ℤ◌, ◌≤◌, IfOk, IsTrue, List, MatchResult, ℕ, ℤ, false, length, pos, slice_index, true};

use asn1_items::ItemError;
use asn1_values::Integer;
use std::alloc::{AllocError, Global};

/// Appends an integer: the contents octets of an INTEGER or an ENUMERATED (X.690, 8.3 and 8.4). The
/// magnitude of a number beyond `i128` is copied first.
///
/// After an error there may be some of them.
#[inline(always)]
pub fn append_integer(
    bytes: &mut Vec<u8>,
    alloc: Global,
    number: &Integer,
) -> Result<(), AllocError>
    ensures { IfOk result (λ _.
        Appended (IsInteger number.now) bytes.old.items bytes.new.items) }
{
    let Some(narrow) = number.to_i128() else {
        let (negative, digits) = number.sign_magnitude(alloc)?;
        return append_signed(bytes, negative, digits);
    };
    append_narrow(bytes, narrow)
}

/// Appends a number.
pub(crate) fn append_narrow(bytes: &mut Vec<u8>, number: i128) -> Result<(), AllocError>
    ensures { IfOk result (λ _. Appended (IsInteger number) bytes.old.items bytes.new.items) }
{
    if let Ok(small) = u32::try_from(number) {
        let [a, b, c, d] = small.to_be_bytes();
        return bytes.extend_from_slice(shortest(&[0, a, b, c, d]));
    }
    let octets = number.to_be_bytes();
    bytes.extend_from_slice(shortest(&octets))
}

/// The octets of the same number, as few as there can be.
fn shortest(octets: &[u8]) -> &[u8]
    ensures same { twos_complement result.now ≡ twos_complement octets.now }
    ensures shortest { 0 < length octets.now → IsShortest result.now }
{
    let mut rest = octets;
    while let [_, tail @ ..] = rest {
        if is_shortest(rest) {
            return rest;
        }
        rest = tail;
    }
    rest
}

/// Appends the number of this sign and these digits.
fn append_signed(bytes: &mut Vec<u8>, negative: bool, digits: Vec<u8>) -> Result<(), AllocError>
    ensures { (z : ℤ) → (IsTrue negative ↔ (z <ℤ pos 0)) →
        signed negative (magnitude digits.items) ≡ z → BeginsWithDigit digits.items →
        IfOk result (λ _. Appended (IsInteger z) bytes.old.items bytes.new.items) }
{
    if negative {
        let octets = negated(digits);
        let complement = octets.as_slice();
        return append_negative(bytes, complement);
    }
    let natural = digits.as_slice();
    append_natural(bytes, natural)
}

/// Appends the number of these digits.
fn append_natural(bytes: &mut Vec<u8>, digits: &[u8]) -> Result<(), AllocError>
    ensures { BeginsWithDigit digits.now → IfOk result (λ _.
        Appended (IsInteger (pos (magnitude digits.now))) bytes.old.items bytes.new.items) }
{
    if digits.is_empty() {
        bytes.push(0)?;
        return Ok(());
    }
    if is_high(digits) {
        bytes.push(0)?;
        bytes.extend_from_slice(digits)?;
        return Ok(());
    }
    bytes.extend_from_slice(digits)?;
    Ok(())
}

/// Appends the negative number of which these octets are the complement.
fn append_negative(bytes: &mut Vec<u8>, octets: &[u8]) -> Result<(), AllocError>
    ensures { (digits : List ℕ) → BeginsWithDigit digits → IsComplement digits octets.now →
        IfOk result (λ _. Appended (IsInteger (below_zero digits))
        bytes.old.items bytes.new.items) }
{
    if is_high(octets) {
        bytes.extend_from_slice(octets)?;
        return Ok(());
    }
    bytes.push(255)?;
    bytes.extend_from_slice(octets)?;
    Ok(())
}

/// Whether bit 8 of the first octet is 1.
fn is_high(octets: &[u8]) -> bool
    ensures high { result ≡ true → 128 ≤ slice_index octets.now 0 }
    ensures low { result ≡ false → slice_index octets.now 0 < 128 }
    ensures octet { slice_index octets.now 0 < 256 }
{
    match octets {
        [first, ..] => *first >= 128,
        [] => false,
    }
}

/// The complement of a number that is not 0.
fn negated(digits: Vec<u8>) -> Vec<u8>
    ensures { 0 < magnitude digits.items → IsComplement digits.items result.items }
{
    let mut octets = digits;
    negate(&mut octets);
    octets
}

/// Makes of a number that is not 0 its complement.
fn negate(octets: &mut [u8])
    ensures { 0 < magnitude octets.old → IsComplement octets.old octets.new }
{
    let mut i = octets.len();
    let mut carry = 1u16;
    while i > 0 {
        i -= 1;
        let sum = 255 - u16::from(octets[i]) + carry;
        octets[i] = (sum % 256) as u8;
        carry = sum / 256;
    }
}

/// Reads an integer.
///
/// # Errors
/// [`ItemError::Memory`], and [`ItemError::Malformed`] where there is no octet, or one more than there need be.
pub fn read_integer(alloc: Global, octets: &[u8]) -> Result<Integer, ItemError>
    ensures read { (z : ℤ) → IsInteger z octets.now →
        MatchResult result (λ n. n ≡ z) (λ e. e ≡ Memory) }
    ensures only { IfOk result (λ n. IsInteger n octets.now) }
{
    if !is_shortest(octets) {
        return Err(ItemError::Malformed);
    }
    if is_high(octets) {
        return read_negative(alloc, octets);
    }
    Ok(Integer::from_sign_magnitude(alloc, false, octets)?)
}

/// Reads a number whose first octet has bit 8 set.
fn read_negative(alloc: Global, octets: &[u8]) -> Result<Integer, ItemError>
    ensures { MatchResult result (λ n. 0 < magnitude octets.now → n ≡ negative_value octets.now)
        (λ e. e ≡ Memory) }
{
    let digits = negated(Vec::from_slice(alloc, octets)?);
    Ok(Integer::from_sign_magnitude(alloc, true, &digits)?)
}

/// Whether there are as few octets as there can be.
fn is_shortest(octets: &[u8]) -> bool
    ensures { Decides result (IsShortest octets.now) }
{
    match octets {
        [] => false,
        [_] => true,
        [first, second, ..] => {
            let nine_bits = u16::from(*first) * 2 + u16::from(*second / 128 % 2);
            nine_bits != 0 && nine_bits != 511
        }
    }
}
