//! Constraints of values.
use crate::assertions::assert_that;
use asn1_bounds::{Bounded, Value};

#[test]
fn has_no_value_in_common(rt: HostRuntime) {
    let left = Value::new(Bounded::new(1, 5));
    let both = left.intersect(&Value::new(Bounded::new(6, 10)));
    assert_that(
        &rt,
        *both.bounded() == Bounded::const_new(1, -1),
        "no value",
    );
    let octets = (both.get_sign(), both.get_range());
    assert_that(&rt, octets == (false, None), "no octets");
    let in_bytes = both.bounded().range_in_bytes();
    assert_that(&rt, in_bytes == (false, None), "range_in_bytes");
}

#[test]
fn is_signed_by_default(rt: HostRuntime) {
    assert_that(&rt, Value::default().get_sign(), "the sign");
}
