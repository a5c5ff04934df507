//! Permitted alphabets.
use super::{LETTERS, permitted};
use crate::assertions::assert_that;
use asn1_bounds::PermittedAlphabet;
use std::alloc::Global;
use std::process::Abort;

// Two alphabets, and what they leave.
const COMMON: &[(&[u32], &[u32], &[u32])] = &[
    (&[97, 98, 99], &[99, 100, 97], &[97, 99]),
    (&[97, 97, 98], &[97], &[97, 97]),
    (&[1], &[], &[]),
];

fn assert_common(rt: &impl Abort, alloc: Global, left: &[u32], right: &[u32], common: &[u32]) {
    let left = permitted(rt, alloc, left);
    let right = permitted(rt, alloc, right);
    let both = left.intersect(alloc, &right).expect(rt, "memory");
    assert_that(rt, both.as_inner() == common, "what both permit");
}

#[test]
fn leaves_common_characters(rt: HostRuntime) {
    let alloc = rt.alloc();
    for (left, right, common) in COMMON {
        assert_common(&rt, alloc, left, right, common);
    }
}

/// Asserts that a copy has the letters a, b and c.
fn assert_copy(rt: &impl Abort, alloc: Global, letters: &PermittedAlphabet) {
    let copy = letters.try_clone(alloc).expect(rt, "memory");
    assert_that(rt, copy.as_inner() == LETTERS, "the letters");
}

#[test]
fn copies_characters(rt: HostRuntime) {
    let letters = permitted(&rt, rt.alloc(), LETTERS);
    assert_copy(&rt, rt.alloc(), &letters);
}
