//! One constraint.
use super::{LETTERS, permitted};
use crate::assertions::assert_that;
use asn1_bounds::{Bounded, Constraint, Extensible, Size, Value};
use std::alloc::Global;
use std::process::Abort;

/// Asserts that a copy of the constraint is equal to it, and of the same kind.
fn assert_copy(rt: &impl Abort, alloc: Global, constraint: &Constraint) {
    let copy = constraint.try_clone(alloc).expect(rt, "memory");
    assert_that(rt, copy == *constraint, "the copy");
    assert_that(rt, copy.kind().eq(&constraint.kind()), "the kind");
}

#[test]
fn copies_an_extensible_part(rt: HostRuntime) {
    let letters = permitted(&rt, rt.alloc(), LETTERS);
    let part = Extensible::new(letters).set_extensible(true);
    assert_copy(&rt, rt.alloc(), &Constraint::from(part));
}

/// Asserts the number of the kind, and which of values, lengths and characters the constraint has.
fn assert_kind(rt: &impl Abort, constraint: &Constraint, kind: isize, parts: (bool, bool, bool)) {
    assert_that(rt, constraint.variant_as_isize() == kind, "the number");
    assert_that(rt, constraint.to_value().is_some() == parts.0, "values");
    assert_that(rt, constraint.to_size().is_some() == parts.1, "lengths");
    assert_that(
        rt,
        constraint.as_permitted_alphabet().is_some() == parts.2,
        "characters",
    );
}

#[test]
fn has_the_part_of_its_kind(rt: HostRuntime) {
    let values = Value::new(Bounded::const_new(1, 5));
    let letters = permitted(&rt, rt.alloc(), LETTERS);
    assert_kind(
        &rt,
        &Constraint::Value(Extensible::new(values)),
        0,
        (true, false, false),
    );
    assert_kind(
        &rt,
        &Constraint::Size(Extensible::new(Size::fixed(3))),
        1,
        (false, true, false),
    );
    assert_kind(
        &rt,
        &Constraint::PermittedAlphabet(Extensible::new(letters)),
        2,
        (false, false, true),
    );
}
