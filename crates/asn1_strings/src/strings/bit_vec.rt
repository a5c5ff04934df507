//! Bits in octets.
ghost use Rattle.std.specs.Bool.{Decides};
ghost use Rattle.std.specs.Cmp.{bool_eq_equiv, partial_equiv_from_equiv};
ghost use Rattle.std.specs.Cmp.Lexicographic.{lists_equiv, lists_per, pointwise};
ghost use Rattle.std.specs.Iterator.{YieldsFirst, item_count};
ghost use Rattle.std.specs.Prelude.{◌≡◌, ◌↔◌, ◌<◌, ◌≤◌, ◌+◌, ◌*◌, ◌-◌, ◌%◌, ◌^◌, ◌++◌, [], IfOk, IfSome, IsSome, IsTrue, false, length, replicate, slice_get, slice_index_or, take};
ghost use Rattle.asn1_strings.specs.BitLists.{bits_left};
ghost use Rattle.asn1_strings.specs.Bits.{AreOfBits, bits_but, bits_of_octet, bits_of_octets, without_trailing_zeros};

use crate::strings::string_unit::StringUnit;
use std::alloc::{AllocError, Global};
use std::marker::Model;

/// A BIT STRING (X.680, 22) by octets, with eight bits in each: the first bit is the highest of the first octet, and the bits
/// behind the last one are 0 (X.690, 8.6.2).
///
/// Contracts see it as the list of its bits. It is equal to another if their bits are.
#[derive(Drop)]
pub struct BitVec {
    octets: Vec<u8>,
    unused: u8,
}

impl Model for BitVec {
    ghost use Rattle.std.specs.Prelude.{Bool, List};
    ghost use Rattle.asn1_strings.specs.Bits.{AreOfBits, bits_but};

    ghost Value = { List Bool };

    ghost view = { λ b. bits_but b.unused b.octets.items };

    ghost invariant = { λ b. AreOfBits b.octets.items b.unused };
}

impl BitVec {
    /// No bits.
    pub fn new(alloc: Global) -> Self
        ensures { result ≡ [] }
    {
        BitVec {
            octets: Vec::new(alloc),
            unused: 0,
        }
    }

    /// The bits of octets, but for the last ones, as many as are unused. There is none if eight bits or more are unused, or more
    /// than there are, or if there are 2^61 octets or more. The octets stay where they are in memory, and those unused bits
    /// become 0.
    pub fn from_octets(octets: Vec<u8>, unused: u8) -> Option<Self>
        ensures made { IsSome result ↔
            ((unused < 8) × (unused ≤ length octets.items * 8) × (length octets.items * 8 < 2 ^ 64)) }
        ensures bits { IfSome result (λ made. made ≡ bits_but unused octets.items) }
    {
        if unused >= 8 || octets.len() >= 1 << 61 || usize::from(unused) > octets.len() * 8 {
            return None;
        }
        let mut octets = octets;
        clear_last(octets.as_mut_slice(), unused);
        Some(BitVec { octets, unused })
    }

    /// The bits of octets, but for the last ones, as many as are unused, if the octets are as [`BitVec::octets`] and
    /// [`BitVec::unused_bits`] give them back: fewer than eight bits are unused, and these are 0. There is none of 2^61 octets or
    /// more.
    pub fn of_clear_octets(octets: Vec<u8>, unused: u8) -> Option<Self>
        ensures made { IsSome result ↔ AreOfBits octets.items unused }
        ensures bits { IfSome result (λ made. made ≡ bits_but unused octets.items) }
    {
        if unused >= 8 || octets.len() >= 1 << 61 || usize::from(unused) > octets.len() * 8 {
            return None;
        }
        if has_clear_end(octets.as_slice(), unused) {
            Some(BitVec { octets, unused })
        } else {
            None
        }
    }

    /// How many bits there are.
    pub fn len(&self) -> usize
        ensures { result ≡ length self.now }
    {
        self.octets.len() * 8 - usize::from(self.unused)
    }

    /// Whether there are none.
    pub fn is_empty(&self) -> bool
        ensures { IsTrue result ↔ (length self.now ≡ 0) }
    {
        self.octets.is_empty()
    }

    /// The bit at an index, if there is one.
    pub fn get(&self, index: usize) -> Option<bool>
        ensures { result ≡ slice_get self.now index }
    {
        if index < self.len() {
            Some(self.bit(index))
        } else {
            None
        }
    }

    /// The bit at an index.
    fn bit(&self, index: usize) -> bool
        requires { index < length self.now }
        ensures { result ≡ slice_index_or self.now index false }
    {
        bit_at(self.octets[index / 8], index % 8)
    }

    /// The bits, in their order.
    pub fn iter(&self) -> BitIter<'_>
        ensures { bits_left result ≡ self.now }
    {
        BitIter {
            bits: self,
            index: 0,
        }
    }

    /// The bits in a list, a `bool` each.
    pub fn to_vec(&self, alloc: Global) -> Result<Vec<bool>, AllocError>
        ensures { IfOk result (λ bits. bits.items ≡ self.now) }
    {
        let mut bits = Vec::new(alloc);
        'copied: while bits.len() < self.len() {
            let bit = self.bit(bits.len());
            bits.push(bit)?;
        }
        Ok(bits)
    }

    /// The first bits, as many as asked for; all if there are fewer. Takes no memory.
    pub fn truncate(self, count: usize) -> Self
        ensures { result ≡ take count self }
    {
        if count >= self.len() {
            return self;
        }
        let unused = unused_after(count);
        let mut octets = self.octets;
        octets.truncate((count + usize::from(unused)) / 8);
        clear_last(octets.as_mut_slice(), unused);
        BitVec { octets, unused }
    }

    /// The bits without the 0 bits at their end.
    pub fn without_trailing_zeros(self) -> Self
        ensures { result ≡ without_trailing_zeros self }
    {
        let count = self.significant_len();
        self.truncate(count)
    }

    /// How many bits there are before the 0 bits at the end.
    pub(crate) fn significant_len(&self) -> usize
        ensures within { result ≤ length self.now }
        ensures zeros { take result self.now ≡ without_trailing_zeros self.now }
    {
        let mut count = self.len();
        'zeros: while count > 0 {
            if self.bit(count - 1) {
                return count;
            }
            count -= 1;
        }
        count
    }

    /// The octets of the bits, of which the unused ones at the end are 0.
    pub fn octets(&self) -> &[u8]
        ensures bits { bits_of_octets result.now ≡ self.now ++
            replicate (length result.now * 8 - length self.now) false }
        ensures fewest { length result.now * 8 < length self.now + 8 }
    {
        self.octets.as_slice()
    }

    /// How many bits of the last octet are unused.
    pub fn unused_bits(&self) -> u8
        ensures few { result < 8 }
        ensures whole { (length self.now + result) % 8 ≡ 0 }
    {
        self.unused
    }
}

/// The bits of a [`BitVec`] that are left.
#[derive(Drop)]
pub struct BitIter<'a> {
    bits: &'a BitVec,
    index: usize,
}

impl Iterator for BitIter<'_> {
    type Item = bool;

    ghost next_gives = { YieldsFirst bits_left };

    ghost remaining = { item_count bits_left };

    fn next(&mut self) -> Option<bool> {
        if self.index >= self.bits.len() {
            return None;
        }
        let next = self.bits.bit(self.index);
        self.index += 1;
        Some(next)
    }
}

/// Whether the bits are equal.
impl PartialEq for BitVec {
    ghost eq = { pointwise ⟦<bool as PartialEq>⟧.eq };

    ghost laws = { lists_per (partial_equiv_from_equiv bool_eq_equiv) };

    fn eq(&self, other: &Self) -> bool {
        u8::units_are_in_range(&self.octets);
        u8::units_are_in_range(&other.octets);
        self.unused == other.unused && self.octets == other.octets
    }
}

impl Eq for BitVec {
    ghost laws = { lists_equiv bool_eq_equiv };
}

/// The bit at a place of an octet, of which the first is the highest.
fn bit_at(octet: u8, place: usize) -> bool
    ensures { place < 8 → result ≡ slice_index_or (bits_of_octet octet) place false }
{
    match place {
        0 => octet / 128 % 2 == 1,
        1 => octet / 64 % 2 == 1,
        2 => octet / 32 % 2 == 1,
        3 => octet / 16 % 2 == 1,
        4 => octet / 8 % 2 == 1,
        5 => octet / 4 % 2 == 1,
        6 => octet / 2 % 2 == 1,
        _ => octet % 2 == 1,
    }
}

/// How many bits of the last octet are unused, for this number of bits.
fn unused_after(count: usize) -> u8
    ensures few { result < 8 }
    ensures whole { (count + result) % 8 ≡ 0 }
{
    ((8 - count % 8) % 8) as u8
}

/// Makes as many bits 0 at the end of the octets as are unused.
fn clear_last(octets: &mut [u8], unused: u8)
    requires few { unused < 8 }
    requires within { unused ≤ length octets.old * 8 }
    ensures long { length octets.new ≡ length octets.old }
    ensures kept { bits_but unused octets.new ≡ bits_but unused octets.old }
    ensures zeros { bits_of_octets octets.new ≡ bits_but unused octets.new ++
        replicate unused false }
{
    let count = octets.len();
    if count > 0 {
        octets[count - 1] = cleared(octets[count - 1], unused);
    }
}

/// Whether as many bits at the end of the octets are 0 as are unused.
fn has_clear_end(octets: &[u8], unused: u8) -> bool
    requires few { unused < 8 }
    requires within { unused ≤ length octets.now * 8 }
    ensures { Decides result (bits_of_octets octets.now ≡ bits_but unused octets.now ++
        replicate unused false) }
{
    match octets {
        [] => true,
        [.., last] => has_clear_bits(*last, unused),
    }
}

/// Whether as many bits at the end of the octet are 0 as are unused.
fn has_clear_bits(octet: u8, unused: u8) -> bool
    requires { unused < 8 }
    ensures { Decides result (bits_of_octet octet ≡ take (8 - unused) (bits_of_octet octet) ++
        replicate unused false) }
{
    cleared(octet, unused) == octet
}

/// An octet, of which as many of the last bits as are unused become 0.
fn cleared(octet: u8, unused: u8) -> u8
    requires { unused < 8 }
    ensures bits { bits_of_octet result ≡ take (8 - unused) (bits_of_octet octet) ++
        replicate unused false }
    ensures no_more { result ≤ octet }
{
    match unused {
        0 => octet,
        1 => octet / 2 * 2,
        2 => octet / 4 * 4,
        3 => octet / 8 * 8,
        4 => octet / 16 * 16,
        5 => octet / 32 * 32,
        6 => octet / 64 * 64,
        _ => octet / 128 * 128,
    }
}
