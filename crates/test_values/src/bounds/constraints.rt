//! Constraint sets.
use super::{LETTERS, has_size, has_value, permits, permitted};
use crate::assertions::assert_that;
use asn1_bounds::{Bounded, Constraint, ConstraintTable, Constraints, Extensible, Size, Value};
use std::alloc::Global;
use std::process::Abort;

fn value(start: i128, end: i128) -> Value {
    Value::new(Bounded::const_new(start, end))
}

/// The set of a constraint of values and one of characters.
fn of_both(
    rt: &impl Abort,
    alloc: Global,
    value: Value,
    characters: &[u32],
) -> Constraints<'static> {
    let letters = Constraint::from(permitted(rt, alloc, characters));
    let constraints = [letters, Constraint::from(value)];
    Constraints::new(alloc, &constraints).expect(rt, "memory")
}

/// Asserts that the set has the values from 5 to 10, no length, and a marker, which PER sees.
fn assert_narrowed(rt: &impl Abort, set: &Constraints<'_>) {
    assert_that(rt, has_value(set, value(5, 10)), "the values");
    let no_length = Size::new(Bounded::const_new(1, 0));
    assert_that(rt, has_size(set, no_length), "no length");
    assert_that(rt, set.extensible(), "the marker");
    assert_that(rt, set.per_visibly_extensible(), "the marker, to PER");
}

#[test]
fn intersects_constraints_of_a_kind(rt: HostRuntime) {
    let constraints = [
        Constraint::from(value(1, 10)),
        Constraint::from(Size::fixed(3)),
        Constraint::from(value(5, 15)),
        Constraint::from(Size::fixed(5)),
        Constraint::Extensible,
    ];
    let set = Constraints::new(rt.alloc(), &constraints).expect(&rt, "memory");
    assert_narrowed(&rt, &set);
}

#[test]
fn intersects_alphabets(rt: HostRuntime) {
    let alloc = rt.alloc();
    let letters = Constraint::from(permitted(&rt, alloc, LETTERS));
    let others = Constraint::from(permitted(&rt, alloc, &[99, 100]));
    let set = Constraints::new(alloc, &[letters, others]).expect(&rt, "memory");
    assert_that(&rt, permits(&set, &[99]), "c");
}

/// Asserts that the two sets have in common the values from 5 to 10 and the letter c, with no lengths and no marker.
fn assert_common(rt: &impl Abort, alloc: Global, left: &Constraints, right: &Constraints) {
    let both = left.intersect(alloc, right).expect(rt, "memory");
    assert_that(rt, has_value(&both, value(5, 10)), "the values");
    assert_that(rt, permits(&both, &[99]), "c");
    assert_that(rt, both.size().is_none(), "no lengths");
    assert_that(rt, !both.extensible(), "no marker");
}

#[test]
fn intersects_sets(rt: HostRuntime) {
    let alloc = rt.alloc();
    let left = of_both(&rt, alloc, value(1, 10), LETTERS);
    let right = of_both(&rt, alloc, value(5, 15), &[99, 48]);
    assert_common(&rt, alloc, &left, &right);
}

/// Asserts that a copy of the set has the letters, the values from 1 to 10, no lengths and no marker.
fn assert_copy(rt: &impl Abort, alloc: Global, set: &Constraints<'_>) {
    let copy = set.try_clone(alloc).expect(rt, "memory");
    assert_that(rt, permits(&copy, LETTERS), "the letters");
    assert_that(rt, has_value(&copy, value(1, 10)), "the values");
    assert_that(rt, copy.size().is_none(), "no lengths");
    assert_that(rt, !copy.extensible(), "no marker");
}

#[test]
fn copies_a_set(rt: HostRuntime) {
    let letters = ConstraintTable::NONE.with_permitted_alphabet(LETTERS);
    let table = letters.with_value(Extensible::new(value(1, 10)));
    let set = table.to_constraints(rt.alloc()).expect(&rt, "memory");
    assert_copy(&rt, rt.alloc(), &set);
}
