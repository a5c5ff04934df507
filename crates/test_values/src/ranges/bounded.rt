//! The common members of bounds, their number, and their text.
use crate::assertions::{assert_that, assert_written, number};
use asn1_ranges::{Bounded, WholeNumber};
use either::{Either, Left, Right};
use std::alloc::Global;
use std::process::Abort;

const OPEN: Bounded<i128> = Bounded::Range {
    start: None,
    end: None,
};

fn range(start: i128, end: i128) -> Bounded<i128> {
    Bounded::const_new(start, end)
}

/// Asserts what two bounds have in common, from either side.
fn assert_common(
    rt: &impl Abort,
    left: Bounded<i128>,
    right: Bounded<i128>,
    both: Option<Bounded<i128>>,
) {
    assert_that(rt, left.intersect(right) == both, "from the left");
    assert_that(rt, right.intersect(left) == both, "from the right");
}

const SINGLE: Bounded<i128> = Bounded::Single(5);

const CLOSED: Bounded<i128> = Bounded::Range {
    start: Some(1),
    end: Some(10),
};

const FROM: Bounded<i128> = Bounded::Range {
    start: Some(1),
    end: None,
};

const UP_TO: Bounded<i128> = Bounded::Range {
    start: None,
    end: Some(10),
};

const APART: Bounded<i128> = Bounded::Range {
    start: Some(11),
    end: Some(20),
};

const WITHOUT_MEMBERS: Bounded<i128> = Bounded::Range {
    start: Some(5),
    end: Some(3),
};

// Two bounds of each pair of kinds, and what they have in common.
const COMMON: &[(Bounded<i128>, Bounded<i128>, Option<Bounded<i128>>)] = &[
    (Bounded::None, Bounded::None, Some(Bounded::None)),
    (Bounded::None, SINGLE, Some(SINGLE)),
    (Bounded::None, CLOSED, Some(CLOSED)),
    (Bounded::None, FROM, Some(FROM)),
    (Bounded::None, UP_TO, Some(UP_TO)),
    (Bounded::None, OPEN, Some(OPEN)),
    (SINGLE, SINGLE, Some(SINGLE)),
    (SINGLE, CLOSED, Some(SINGLE)),
    (SINGLE, FROM, Some(SINGLE)),
    (SINGLE, UP_TO, Some(SINGLE)),
    (SINGLE, OPEN, Some(SINGLE)),
    (CLOSED, CLOSED, Some(CLOSED)),
    (CLOSED, FROM, Some(CLOSED)),
    (CLOSED, UP_TO, Some(CLOSED)),
    (CLOSED, OPEN, Some(CLOSED)),
    (FROM, FROM, Some(FROM)),
    (FROM, UP_TO, Some(CLOSED)),
    (FROM, OPEN, Some(FROM)),
    (UP_TO, UP_TO, Some(UP_TO)),
    (UP_TO, OPEN, Some(UP_TO)),
    (OPEN, OPEN, Some(OPEN)),
    (CLOSED, APART, None),
    (SINGLE, APART, None),
    (WITHOUT_MEMBERS, CLOSED, None),
    (WITHOUT_MEMBERS, Bounded::Single(4), None),
    (WITHOUT_MEMBERS, Bounded::None, Some(WITHOUT_MEMBERS)),
];

#[test]
fn intersects_each_pair(rt: HostRuntime) {
    for (left, right, both) in COMMON {
        assert_common(&rt, *left, *right, *both);
    }
}

const PRINTED: &[(Bounded<i128>, &str)] = &[
    (CLOSED, "1..10"),
    (FROM, "1.."),
    (UP_TO, "..10"),
    (OPEN, ".."),
    (SINGLE, "5"),
    (Bounded::None, ".."),
];

#[test]
fn prints_bounds(rt: HostRuntime) {
    for (bound, text) in PRINTED {
        assert_written(&rt, rt.alloc(), bound, text);
    }
}

fn assert_count<T: WholeNumber>(rt: &impl Abort, bound: Bounded<T>, count: Option<T>) {
    assert_that(rt, bound.range() == count, "the count");
}

/// Asserts that all the numbers of a type are counted up to its greatest one.
fn assert_all_counted<T: WholeNumber>(rt: &impl Abort, least: T, greatest: T) {
    assert_count(rt, Bounded::const_new(least, greatest), Some(greatest));
}

#[test]
fn counts_every_kind_of_integer(rt: HostRuntime) {
    assert_all_counted(&rt, u8::MIN, u8::MAX);
    assert_all_counted(&rt, u16::MIN, u16::MAX);
    assert_all_counted(&rt, u32::MIN, u32::MAX);
    assert_all_counted(&rt, u64::MIN, u64::MAX);
    assert_all_counted(&rt, u128::MIN, u128::MAX);
    assert_all_counted(&rt, usize::MIN, usize::MAX);
    assert_all_counted(&rt, i8::MIN, i8::MAX);
    assert_all_counted(&rt, i16::MIN, i16::MAX);
    assert_all_counted(&rt, i32::MIN, i32::MAX);
    assert_all_counted(&rt, i64::MIN, i64::MAX);
    assert_all_counted(&rt, i128::MIN, i128::MAX);
    assert_all_counted(&rt, isize::MIN, isize::MAX);
}

#[test]
fn counts_members(rt: HostRuntime) {
    assert_count(&rt, range(5, 3), Some(0));
    assert_count(&rt, range(-1, 1), Some(3));
    assert_count(&rt, Bounded::Single(i128::MIN), Some(1));
    assert_count(&rt, range(1, i128::MAX), Some(i128::MAX));
    assert_count(&rt, range(2, i128::MAX), Some(i128::MAX - 1));
    assert_count(&rt, Bounded::<usize>::new(0, 255), Some(256));
    assert_count(&rt, FROM, None);
}

fn assert_value(rt: &impl Abort, found: Either<i128, i128>, wanted: Either<i128, i128>) {
    assert_that(rt, found == wanted, "the effective value");
}

#[test]
fn gives_effective_values(rt: HostRuntime) {
    assert_value(&rt, Bounded::new(5, 10).effective_value(7), Left(2));
    assert_value(&rt, UP_TO.effective_value(7), Right(7));
    assert_value(&rt, Bounded::Single(5).effective_value(5), Right(5));
    let from_below_0 = Bounded::start_from(-1).effective_value(i128::MAX - 1);
    assert_value(&rt, from_below_0, Left(i128::MAX));
}

#[test]
fn hands_out_what_is_given_for_a_number_outside(rt: HostRuntime) {
    let outside = Bounded::<i128>::new(5, 10).contains_or(&11, 7u8);
    assert_that(&rt, outside == Err(7), "outside");
    let inside = Bounded::<i128>::new(5, 10).contains_or(&7, 7u8);
    assert_that(&rt, inside == Ok(()), "inside");
}

fn assert_minimum(rt: &impl Abort, bound: Bounded<i128>, least: i128) {
    assert_that(rt, bound.minimum() == least, "the minimum");
}

#[test]
fn gives_minima(rt: HostRuntime) {
    assert_minimum(&rt, UP_TO, 0);
    assert_minimum(&rt, Bounded::start_from(5), 5);
    assert_minimum(&rt, Bounded::None, 0);
}

// The magnitude of the number below the least `i128`.
const TWO_TO_127_AND_1: [u8; 16] = [0x80, 0, 0, 0, 0, 0, 0, 0, 0, 0, 0, 0, 0, 0, 0, 1];

/// Asserts whether the number below the least `i128` is in the bound.
fn assert_below(rt: &impl Abort, alloc: Global, bound: Bounded<i128>, is_in: bool) {
    let below = number(rt, alloc, true, &TWO_TO_127_AND_1);
    assert_that(rt, bound.in_bound(&below) == is_in, "below an i128");
}

#[test]
fn holds_numbers_beyond_its_own_type(rt: HostRuntime) {
    let from_0 = Bounded::<i128>::start_from(0);
    assert_that(&rt, from_0.in_bound(&u128::MAX), "the greatest u128");
    assert_below(&rt, rt.alloc(), from_0, false);
    assert_below(&rt, rt.alloc(), Bounded::up_to(0), true);
}

#[test]
fn goes_by_kind_and_ends(rt: HostRuntime) {
    let single = Bounded::<i128>::Single(0);
    assert_that(&rt, Bounded::None < single, "no bound and a single");
    assert_that(&rt, single < range(0, 0), "a single and a range");
}

fn assert_octets(rt: &impl Abort, bound: Bounded<i128>, is_signed: bool, octets: Option<u8>) {
    let found = bound.range_in_bytes();
    assert_that(rt, found == (is_signed, octets), "the octets");
}

const UP_TO_ONE: Bounded<i128> = Bounded::Range {
    start: None,
    end: Some(1),
};

// Bounds, whether their numbers are signed, and in how many octets they go.
const OCTETS: &[(Bounded<i128>, bool, Option<u8>)] = &[
    (WITHOUT_MEMBERS, false, Some(1)),
    (Bounded::Single(-129), true, Some(2)),
    (Bounded::Single(-9_223_372_036_854_775_809), true, None),
    (Bounded::Single(18_446_744_073_709_551_615), false, Some(8)),
    (Bounded::Single(18_446_744_073_709_551_616), false, None),
    (UP_TO_ONE, true, None),
    (FROM, false, None),
    (Bounded::None, true, None),
];

#[test]
fn gives_octets(rt: HostRuntime) {
    for (bound, is_signed, octets) in OCTETS {
        assert_octets(&rt, *bound, *is_signed, *octets);
    }
}

// The least and the greatest number of each signed type, and in how many octets they go; then with one number more at either
// end. Before these a single number, and a range of none.
const SIGNED: &[(i128, i128, Option<u8>)] = &[
    (-1, -1, Some(1)),
    (-1, -300, Some(2)),
    (-128, 127, Some(1)),
    (-129, 127, Some(2)),
    (-128, 128, Some(2)),
    (-32_768, 32_767, Some(2)),
    (-32_769, 32_767, Some(4)),
    (-32_768, 32_768, Some(4)),
    (-2_147_483_648, 2_147_483_647, Some(4)),
    (-2_147_483_649, 2_147_483_647, Some(8)),
    (-2_147_483_648, 2_147_483_648, Some(8)),
    (
        -9_223_372_036_854_775_808,
        9_223_372_036_854_775_807,
        Some(8),
    ),
    (-9_223_372_036_854_775_809, 9_223_372_036_854_775_807, None),
    (-9_223_372_036_854_775_808, 9_223_372_036_854_775_808, None),
];

// The same of each unsigned type, whose numbers begin at 0. With a number below 0 they are signed.
const UNSIGNED: &[(i128, i128, Option<u8>)] = &[
    (0, 0, Some(1)),
    (0, 255, Some(1)),
    (-1, 255, Some(2)),
    (0, 256, Some(2)),
    (0, 65_535, Some(2)),
    (-1, 65_535, Some(4)),
    (0, 65_536, Some(4)),
    (0, 4_294_967_295, Some(4)),
    (-1, 4_294_967_295, Some(8)),
    (0, 4_294_967_296, Some(8)),
    (0, 18_446_744_073_709_551_615, Some(8)),
    (-1, 18_446_744_073_709_551_615, None),
    (0, 18_446_744_073_709_551_616, None),
];

#[test]
fn gives_octets_of_the_integer_types(rt: HostRuntime) {
    for (least, greatest, octets) in SIGNED {
        assert_octets(&rt, range(*least, *greatest), true, *octets);
    }
    for (least, greatest, octets) in UNSIGNED {
        assert_octets(&rt, range(*least, *greatest), *least < 0, *octets);
    }
}

fn outside() -> u8 {
    7
}

#[test]
fn a_member_outside_gets_the_error(rt: HostRuntime) {
    assert_that(&rt, CLOSED.contains_or_else(&10, outside) == Ok(()), "10");
    assert_that(&rt, CLOSED.contains_or_else(&11, outside) == Err(7), "11");
}
