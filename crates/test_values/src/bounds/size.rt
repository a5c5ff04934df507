//! Constraints of lengths.
use crate::assertions::assert_that;
use asn1_bounds::{Bounded, Size};

#[test]
fn has_no_length_in_common(rt: HostRuntime) {
    let both = Size::fixed(3).intersect(&Size::fixed(5));
    assert_that(
        &rt,
        *both.bounded() == Bounded::const_new(1, 0),
        "no length",
    );
    assert_that(&rt, !both.bounded().contains(&3), "not 3");
}

#[test]
fn has_no_bound_by_default(rt: HostRuntime) {
    let size = Size::default();
    assert_that(&rt, *size.bounded() == Bounded::None, "no bound");
}

#[test]
fn one_length_is_fixed(rt: HostRuntime) {
    let mut size = Size::fixed(3);
    assert_that(&rt, size.is_fixed(), "of 3");
    *size.bounded_mut() = Bounded::const_new(3, 4);
    assert_that(&rt, !size.is_fixed(), "of 3 or 4");
}
