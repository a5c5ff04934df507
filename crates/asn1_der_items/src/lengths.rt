//! The length octets of an element.
ghost use Rattle.asn1_values.specs.Numbers.{magnitude};
ghost use Rattle.asn1_der_items.specs.Base128.{Front as FrontView};
ghost use Rattle.asn1_der_items.specs.Lengths.{WritesLength, length_at, long_length_at};
ghost use Rattle.std.specs.Option.{SomeIff};
ghost use Rattle.std.specs.Prelude.{◌≡◌, ◌<◌, ◌≤◌, ◌^◌, ◌++◌, IfOk, IsOk, List, Some, length, ℕ};

use crate::base128::Front;
use crate::error::ElementError;
use asn1_items::{ItemError, significant};
use std::alloc::AllocError;

/// Writes the length of the bytes from an index on in front of them. Its first octet is written over the one before that index.
#[inline(always)]
pub(crate) fn write_length(bytes: &mut Vec<u8>, start: usize) -> Result<(), ElementError>
    ensures { WritesLength start bytes.old.items bytes.new.items result }
{
    if start == 0 || bytes.len() < start {
        return Err(ElementError::NotOpen);
    }
    let size = bytes.len() - start;
    if size < 128 {
        bytes[start - 1] = size as u8;
        return Ok(());
    }
    let octets = (size as u64).to_be_bytes();
    let digits = significant(&octets);
    bytes[start - 1] = digits.len() as u8 + 128;
    Ok(insert_octets(bytes, start, digits)?)
}

/// Puts octets in front of the bytes from an index on.
#[inline(never)]
fn insert_octets(bytes: &mut Vec<u8>, position: usize, octets: &[u8]) -> Result<(), AllocError>
    requires { position ≤ length bytes.old.items }
    ensures { (before after : List ℕ) → bytes.old.items ≡ before ++ after → position ≡ length before →
        IfOk result (λ _. bytes.new.items ≡ before ++ (octets.now ++ after)) }
{
    let mut left = octets.len();
    while left > 0 {
        left -= 1;
        bytes.insert(position, octets[left])?;
    }
    Ok(())
}

/// Reads a length that is below 2^64.
#[inline(always)]
pub(crate) fn read_length(bytes: &[u8]) -> Result<Front<'_>, ItemError>
    ensures only { IfOk result (λ f.
        length_at bytes.now ≡ Some (record { number = f.number; rest = f.rest.now })) }
    ensures found { (f : FrontView) → length_at bytes.now ≡ Some f → IsOk result }
{
    let [first, rest @ ..] = bytes else {
        return Err(ItemError::Missing(1));
    };
    if *first < 128 {
        return Ok(Front {
            number: u64::from(*first),
            rest,
        });
    }
    read_long_length(usize::from(*first - 128), rest)
}

/// Reads a length from the first `count` of these octets.
#[inline(never)]
fn read_long_length(count: usize, octets: &[u8]) -> Result<Front<'_>, ItemError>
    ensures only { IfOk result (λ f. long_length_at count octets.now ≡
        Some (record { number = f.number; rest = f.rest.now })) }
    ensures found { (f : FrontView) → long_length_at count octets.now ≡ Some f → IsOk result }
{
    let Some((digits, rest)) = octets.split_at_checked(count) else {
        return Err(ItemError::Missing(count - octets.len()));
    };
    match number_of(digits) {
        Some(number) if number >= 128 && digits.first() != Some(&0) => Ok(Front { number, rest }),
        _ => Err(ItemError::Malformed),
    }
}

/// The number of the bytes, the highest first, if it is below 2^64. There may be zeros in front.
pub fn number_of(bytes: &[u8]) -> Option<u64>
    ensures { SomeIff result (magnitude bytes.now < 2 ^ 64) (magnitude bytes.now) }
{
    let mut number = 0u64;
    for byte in bytes {
        number = number.checked_mul(256)? + u64::from(*byte);
    }
    Some(number)
}
