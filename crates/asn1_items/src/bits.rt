//! Bits as octets, the first bit the highest.
ghost use Rattle.asn1_items.specs.Bits.{AreBits, AreOctetsOf, bits_of_octet, bits_of_octets};
ghost use Rattle.asn1_items.specs.Numbers.{Appended};
ghost use Rattle.asn1_items.specs.declared.error.ItemError.TheVariants.{Memory};
ghost use Rattle.std.specs.Bool.{Decides};
ghost use Rattle.std.specs.Prelude.{◌≡◌, ◌<◌, ◌≤◌, ◌+◌, ◌-◌, ◌*◌, ◌/◌, ◌∷◌, ◌++◌, [], Bool, IfOk, IfSome, List, MatchResult, None, false, length, replicate, take};

use crate::error::ItemError;
use asn1_values::BitVec;
use std::alloc::{AllocError, Global};

/// Appends how many bits of the last octet are unused, and the octets.
pub(crate) fn append_bits(bytes: &mut Vec<u8>, bits: &[bool]) -> Result<(), AllocError>
    ensures { IfOk result (λ _. Appended (AreBits bits.now) bytes.old.items bytes.new.items) }
{
    let whole = bits.len() / 8;
    bytes.reserve(whole + 2)?;
    bytes.push(((8 - bits.len() % 8) % 8) as u8)?;
    let start = bytes.len();
    bytes.resize(start + whole, 0)?;
    write_octets(bytes.as_mut_slice(), start, bits);
    match last_octet(&bits[whole * 8..]) {
        Some(octet) => {
            bytes.push(octet)?;
            Ok(())
        }
        None => Ok(()),
    }
}

/// Appends the same of bits that lie in octets.
#[inline(always)]
pub(crate) fn append_packed_bits(bytes: &mut Vec<u8>, bits: &BitVec) -> Result<(), AllocError>
    ensures { IfOk result (λ _. Appended (AreBits bits.now) bytes.old.items bytes.new.items) }
{
    bytes.push(bits.unused_bits())?;
    bytes.extend_from_slice(bits.octets())
}

/// Writes the octets of bits over the bytes from an index on, but for the bits that are no whole octet.
fn write_octets(bytes: &mut [u8], start: usize, bits: &[bool])
    requires { start + length bits.now / 8 ≡ length bytes.old }
    ensures { AreOctetsOf bits.now start bytes.old bytes.new }
{
    for index in 0..bits.len() / 8 {
        bytes[start + index] = octet_at(bits, index * 8);
    }
}

/// The octet of the eight bits from an index on.
#[inline(always)]
fn octet_at(bits: &[bool], start: usize) -> u8
    requires { start + 8 ≤ length bits.now }
    ensures { take (start + 8) bits.now ≡ take start bits.now ++ bits_of_octet result }
{
    octet_of(
        bits[start],
        bits[start + 1],
        bits[start + 2],
        bits[start + 3],
        bits[start + 4],
        bits[start + 5],
        bits[start + 6],
        bits[start + 7],
    )
}

/// The octet of these bits, the highest first.
#[inline(always)]
fn octet_of(a: bool, b: bool, c: bool, d: bool, e: bool, f: bool, g: bool, h: bool) -> u8
    ensures { bits_of_octet result ≡ a ∷ b ∷ c ∷ d ∷ e ∷ f ∷ g ∷ h ∷ [] }
{
    let high = ((u8::from(a) * 2 + u8::from(b)) * 2 + u8::from(c)) * 2 + u8::from(d);
    let low = ((u8::from(e) * 2 + u8::from(f)) * 2 + u8::from(g)) * 2 + u8::from(h);
    high * 16 + low
}

/// The octet of the last bits, fewer than eight, if there are some. Its other bits are 0.
fn last_octet(bits: &[bool]) -> Option<u8>
    ensures octet { IfSome result (λ o. length bits.now < 8 →
        bits_of_octet o ≡ bits.now ++ replicate (8 - length bits.now) false) }
    ensures some_bits { IfSome result (λ _. 1 ≤ length bits.now) }
    ensures no_bits { result ≡ None → bits.now ≡ [] }
{
    match bits {
        [] => None,
        [a] => Some(octet_of(*a, false, false, false, false, false, false, false)),
        [a, b] => Some(octet_of(*a, *b, false, false, false, false, false, false)),
        [a, b, c] => Some(octet_of(*a, *b, *c, false, false, false, false, false)),
        [a, b, c, d] => Some(octet_of(*a, *b, *c, *d, false, false, false, false)),
        [a, b, c, d, e] => Some(octet_of(*a, *b, *c, *d, *e, false, false, false)),
        [a, b, c, d, e, f] => Some(octet_of(*a, *b, *c, *d, *e, *f, false, false)),
        [a, b, c, d, e, f, g, ..] => Some(octet_of(*a, *b, *c, *d, *e, *f, *g, false)),
    }
}

/// Reads bits. Unused bits that are not 0 are refused.
///
/// # Errors
/// [`ItemError::Memory`], and [`ItemError::Malformed`] where the bytes are no bits.
pub fn read_bits(alloc: Global, bytes: &[u8]) -> Result<Vec<bool>, ItemError>
    ensures read { (list : List Bool) → AreBits list bytes.now →
        MatchResult result (λ v. v.items ≡ list) (λ e. e ≡ Memory) }
    ensures only { IfOk result (λ v. AreBits v.items bytes.now) }
{
    let [unused, octets @ ..] = bytes else {
        return Err(ItemError::Malformed);
    };
    let unused = *unused as usize;
    let mut bits = bits_in(alloc, octets)?;
    let total = bits.len();
    if unused > 7 || total < unused || !are_clear(&bits[total - unused..]) {
        return Err(ItemError::Malformed);
    }
    bits.truncate(total - unused);
    Ok(bits)
}

/// Reads bits into octets, as [`read_bits`] does into a list.
///
/// # Errors
/// Those of [`read_bits`]; [`ItemError::Memory`] also for 2^61 octets or more, which no memory holds.
pub fn read_packed_bits(alloc: Global, bytes: &[u8]) -> Result<BitVec, ItemError>
    ensures read { (list : List Bool) → AreBits list bytes.now →
        MatchResult result (λ v. v ≡ list) (λ e. e ≡ Memory) }
    ensures only { IfOk result (λ v. AreBits v bytes.now) }
{
    let [unused, octets @ ..] = bytes else {
        return Err(ItemError::Malformed);
    };
    if octets.len() >= 1 << 61 {
        return Err(ItemError::Memory);
    }
    match BitVec::of_clear_octets(Vec::from_slice(alloc, octets)?, *unused) {
        Some(bits) => Ok(bits),
        None => Err(ItemError::Malformed),
    }
}

/// Whether no bit is set.
fn are_clear(bits: &[bool]) -> bool
    ensures { Decides result (bits.now ≡ replicate (length bits.now) false) }
{
    match bits {
        [] => true,
        [first, rest @ ..] => !*first && are_clear(rest),
    }
}

/// The bits of the octets, the highest of each first.
fn bits_in(alloc: Global, octets: &[u8]) -> Result<Vec<bool>, AllocError>
    ensures { IfOk result (λ v. v.items ≡ bits_of_octets octets.now) }
{
    let Some(count) = octets.len().checked_mul(8) else {
        return Err(AllocError);
    };
    let mut bits = Vec::from_elem(alloc, false, count)?;
    write_bits(bits.as_mut_slice(), octets);
    Ok(bits)
}

/// Writes the bits of octets over others, the highest of each octet first.
fn write_bits(bits: &mut [bool], octets: &[u8])
    requires { length bits.old ≡ length octets.now * 8 }
    ensures { bits.new ≡ bits_of_octets octets.now }
{
    for index in 0..octets.len() {
        write_octet(bits, index * 8, octets[index]);
    }
}

/// Writes the bits of an octet over the eight from an index on.
#[inline(always)]
fn write_octet(bits: &mut [bool], start: usize, octet: u8)
    requires { start + 8 ≤ length bits.old }
    ensures written { take (start + 8) bits.new ≡ take start bits.old ++ bits_of_octet octet }
    ensures long { length bits.new ≡ length bits.old }
{
    bits[start] = octet / 128 % 2 == 1;
    bits[start + 1] = octet / 64 % 2 == 1;
    bits[start + 2] = octet / 32 % 2 == 1;
    bits[start + 3] = octet / 16 % 2 == 1;
    bits[start + 4] = octet / 8 % 2 == 1;
    bits[start + 5] = octet / 4 % 2 == 1;
    bits[start + 6] = octet / 2 % 2 == 1;
    bits[start + 7] = octet % 2 == 1;
}
