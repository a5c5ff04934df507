//! Assertions that the tests of several modules call.
use asn1_values::Integer;
use std::alloc::Global;
use std::fmt::Display;
use std::process::Abort;

/// Asserts the condition. The text names it where it does not hold.
pub(crate) fn assert_that(rt: &impl Abort, is_so: bool, what: &str) {
    assert!(rt; is_so, "assertion failed: {what}");
}

/// Asserts that the value is written as this text.
pub(crate) fn assert_written<T: Display>(rt: &impl Abort, alloc: Global, value: &T, text: &str) {
    let written = value.to_string(alloc).expect(rt, "memory");
    assert_that(rt, written.as_str() == text, text);
}

/// The number of this sign and magnitude.
pub(crate) fn number(
    rt: &impl Abort,
    alloc: Global,
    is_negative: bool,
    magnitude: &[u8],
) -> Integer {
    Integer::from_sign_magnitude(alloc, is_negative, magnitude).expect(rt, "memory")
}
