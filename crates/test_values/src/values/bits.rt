//! Bits in octets, and named bits.
use crate::assertions::assert_that;
use asn1_values::{BitVec, NamedBitString};
use std::alloc::Global;
use std::process::Abort;

/// The bits of these octets, but for the last ones, as many as are unused.
fn bits(rt: &impl Abort, alloc: Global, octets: &[u8], unused: u8) -> BitVec {
    let octets = Vec::from_slice(alloc, octets).expect(rt, "memory");
    BitVec::from_octets(octets, unused).expect(rt, "bits")
}

/// Whether the octets are taken as they are.
fn are_taken(rt: &impl Abort, alloc: Global, octets: &[u8], unused: u8) -> bool {
    let octets = Vec::from_slice(alloc, octets).expect(rt, "memory");
    BitVec::of_clear_octets(octets, unused).is_some()
}

/// The octets of the bits 0A3B5F291CD (X.690, 8.6.4.2), and four bits more.
const OCTETS: &[u8] = &[0x0a, 0x3b, 0x5f, 0x29, 0x1c, 0xdf];

#[test]
fn bits_are_those_of_their_octets(rt: HostRuntime) {
    let alloc = rt.alloc();
    let made = bits(&rt, alloc, OCTETS, 4);
    assert_that(&rt, made.len() == 44 && !made.is_empty(), "44 bits");
    assert_that(&rt, made.get(0) == Some(false), "the first bit");
    assert_that(&rt, made.get(4) == Some(true), "the fifth bit");
    assert_that(&rt, made.get(43) == Some(true), "the last bit");
    assert_that(&rt, made.get(44).is_none(), "no other bit");
    assert_that(&rt, made.unused_bits() == 4, "four unused bits");
    let clear: &[u8] = &[0x0a, 0x3b, 0x5f, 0x29, 0x1c, 0xd0];
    assert_that(&rt, made.octets() == clear, "unused bits are 0");
    let mut ones = 0usize;
    for bit in made.iter() {
        if bit {
            ones = ones.saturating_add(1);
        }
    }
    assert_that(&rt, ones == 22, "22 bits are 1");
    let list = made.to_vec(alloc).expect(&rt, "memory");
    assert_that(&rt, list.len() == 44 && list[4], "the list of the bits");
    assert_that(&rt, BitVec::new(alloc).is_empty(), "no bits");
}

#[test]
fn octets_with_unused_bits_that_are_1_are_not_taken(rt: HostRuntime) {
    let alloc = rt.alloc();
    assert_that(&rt, are_taken(&rt, alloc, &[0xa0], 5), "three bits");
    assert_that(&rt, !are_taken(&rt, alloc, &[0xa1], 5), "an unused bit");
    assert_that(&rt, !are_taken(&rt, alloc, &[0xa0], 8), "eight unused bits");
    assert_that(&rt, !are_taken(&rt, alloc, &[], 1), "an unused bit of none");
    assert_that(&rt, are_taken(&rt, alloc, &[], 0), "no bits");
}

#[test]
fn first_bits_are_kept(rt: HostRuntime) {
    let alloc = rt.alloc();
    let some = bits(&rt, alloc, &[0xff, 0xff], 0).truncate(11);
    assert_that(&rt, some == bits(&rt, alloc, &[0xff, 0xe0], 5), "11 bits");
    let none = bits(&rt, alloc, &[0xff, 0xff], 0).truncate(0);
    assert_that(&rt, none == BitVec::new(alloc), "none");
    let all = bits(&rt, alloc, &[0xff, 0xe0], 5).truncate(12);
    assert_that(&rt, all == bits(&rt, alloc, &[0xff, 0xe0], 5), "all");
}

#[test]
fn named_bits_have_no_zeros_at_their_end(rt: HostRuntime) {
    let alloc = rt.alloc();
    let named = NamedBitString::new(bits(&rt, alloc, &[0xa0, 0x00], 3));
    assert_that(&rt, named.as_bits().len() == 3, "three bits");
    assert_that(
        &rt,
        named.has(0) && !named.has(1) && named.has(2),
        "their bits",
    );
    assert_that(&rt, !named.has(3) && !named.has(100), "bits behind them");
    let none = NamedBitString::from(bits(&rt, alloc, &[0x00], 0));
    assert_that(&rt, none.as_bits().is_empty(), "no bits");
    let three = bits(&rt, alloc, &[0xa0], 5);
    assert_that(
        &rt,
        NamedBitString::of_bits(three).is_some(),
        "a 1 at the end",
    );
    let four = bits(&rt, alloc, &[0xa0], 4);
    assert_that(
        &rt,
        NamedBitString::of_bits(four).is_none(),
        "a 0 at the end",
    );
}
