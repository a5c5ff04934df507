//! Constraints with an extension marker.
use super::{LETTERS, permitted};
use crate::assertions::assert_that;
use asn1_bounds::{Bounded, Extensible, PermittedAlphabet, Value};
use std::alloc::Global;
use std::process::Abort;

/// Asserts that both parts have these characters in common, without a marker.
fn assert_common(
    rt: &impl Abort,
    alloc: Global,
    left: &Extensible<PermittedAlphabet>,
    right: &Extensible<PermittedAlphabet>,
    characters: &[u32],
) {
    let both = left.intersect(alloc, right).expect(rt, "memory");
    assert_that(
        rt,
        both.constraint.as_inner() == characters,
        "the characters",
    );
    assert_that(rt, both.extensible.is_none(), "no marker");
}

/// Asserts that the copy of the part is equal to it.
fn assert_copy(rt: &impl Abort, alloc: Global, part: &Extensible<PermittedAlphabet>) {
    let copy = part.try_clone(alloc).expect(rt, "memory");
    assert_that(rt, copy == *part, "the copy");
}

#[test]
fn is_extensible_where_both_are(rt: HostRuntime) {
    let value = Value::new(Bounded::Single(1));
    let additions = [Value::new(Bounded::Single(2))];
    let extensible = Extensible::new_extensible(value, &additions);
    let fixed = Extensible::new(value);
    assert_that(&rt, extensible.intersect(&fixed) == fixed, "one of them");
    let both = extensible.intersect(&extensible);
    assert_that(&rt, both == extensible, "both");
}

#[test]
fn intersects_alphabets(rt: HostRuntime) {
    let alloc = rt.alloc();
    let letters = Extensible::new(permitted(&rt, alloc, LETTERS)).set_extensible(true);
    let other = Extensible::new(permitted(&rt, alloc, &[99, 97]));
    assert_copy(&rt, alloc, &letters);
    assert_common(&rt, alloc, &letters, &other, &[97, 99]);
}
