//! Whole numbers of any size.
use crate::assertions::{assert_that, assert_written, number};
use asn1_values::{ConstrainedInteger, Integer, IntegerType};
use std::alloc::Global;
use std::process::Abort;

/// The magnitude of `i128::MIN`, which is one above that of `i128::MAX`.
const TWO_TO_127: [u8; 16] = [0x80, 0, 0, 0, 0, 0, 0, 0, 0, 0, 0, 0, 0, 0, 0, 0];

/// Asserts what the magnitude of a negative number is.
fn assert_magnitude(rt: &impl Abort, alloc: Global, number: &Integer, magnitude: &[u8]) {
    let (is_negative, bytes) = number.sign_magnitude(alloc).expect(rt, "memory");
    assert_that(rt, is_negative, "the sign");
    assert_that(rt, bytes.as_slice() == magnitude, "the magnitude");
}

#[test]
fn gives_sign_and_magnitude_back(rt: HostRuntime) {
    let alloc = rt.alloc();
    let mut magnitude = [0; 100];
    magnitude[3] = 1;
    magnitude[99] = 0xff;
    let wide = number(&rt, alloc, true, &magnitude);
    assert_magnitude(&rt, alloc, &wide, &magnitude[3..]);
}

/// Asserts which `i128` the number of this sign and magnitude is, if it is one.
fn assert_i128(
    rt: &impl Abort,
    alloc: Global,
    is_negative: bool,
    magnitude: &[u8],
    narrow: Option<i128>,
) {
    let wide = number(rt, alloc, is_negative, magnitude);
    assert_that(rt, wide.to_i128() == narrow, "the i128");
}

/// Asserts that the number of this sign and magnitude is equal to that `i128`, and has its sign.
fn assert_equal(rt: &impl Abort, alloc: Global, is_negative: bool, magnitude: &[u8], narrow: i128) {
    let wide = number(rt, alloc, is_negative, magnitude);
    assert_that(rt, wide == Integer::from_i128(narrow), "the number");
    assert_that(rt, wide.is_negative() == (narrow < 0), "the sign");
}

#[test]
fn one_number_has_one_form(rt: HostRuntime) {
    let alloc = rt.alloc();
    assert_equal(&rt, alloc, true, &TWO_TO_127, i128::MIN);
    assert_equal(&rt, alloc, true, &[0, 0], 0);
    assert_i128(&rt, alloc, true, &TWO_TO_127, Some(i128::MIN));
    assert_i128(&rt, alloc, false, &TWO_TO_127, None);
}

/// Whether there is no number from 1 to 10 of that value.
fn is_out_of_limits(number: i128) -> bool {
    ConstrainedInteger::<1, 10>::new(Integer::from_i128(number)).is_none()
}

#[test]
fn numbers_out_of_range_are_refused(rt: HostRuntime) {
    let of_256 = u8::try_from_integer(Integer::from_i128(256));
    assert_that(&rt, of_256.is_none(), "256");
    let of_255 = u8::try_from_integer(Integer::from_i128(255));
    assert_that(&rt, of_255 == Some(255), "255");
    assert_that(&rt, is_out_of_limits(11), "11");
    assert_that(&rt, !is_out_of_limits(10), "10");
}

/// Asserts how the number of this sign and magnitude is written.
fn assert_decimal(rt: &impl Abort, alloc: Global, is_negative: bool, magnitude: &[u8], text: &str) {
    let wide = number(rt, alloc, is_negative, magnitude);
    assert_written(rt, alloc, &wide, text);
}

#[test]
fn numbers_are_written(rt: HostRuntime) {
    let alloc = rt.alloc();
    let least = Integer::from_i128(i128::MIN);
    let text = "-170141183460469231731687303715884105728";
    assert_written(&rt, alloc, &least, text);
    let text = "170141183460469231731687303715884105728";
    assert_decimal(&rt, alloc, false, &TWO_TO_127, text);
    let text = "-3416168075755303790063682333432653416970";
    assert_decimal(&rt, alloc, true, &[0x0a; 17], text);
}

/// Asserts that a copy of the number, and one by way of the type's own conversions, is the same number.
fn assert_copied(rt: &impl Abort, alloc: Global, number: &Integer) {
    let copy = number.try_clone(alloc).expect(rt, "memory");
    assert_that(rt, copy == *number, "the copy");
    let other = number.to_integer(alloc).expect(rt, "memory");
    assert_that(rt, other == *number, "the conversion");
}

/// Whether the greatest `u128`, whose number takes memory, is given back.
fn is_given_back(alloc: Global) -> bool {
    match u128::MAX.to_integer(alloc) {
        Ok(number) => u128::try_from_integer(number) == Some(u128::MAX),
        Err(_) => false,
    }
}

#[test]
fn wide_numbers_are_copied(rt: HostRuntime) {
    let alloc = rt.alloc();
    assert_copied(&rt, alloc, &number(&rt, alloc, false, &[1; 17]));
    assert_that(&rt, is_given_back(alloc), "the greatest u128");
}
