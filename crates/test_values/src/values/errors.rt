//! The texts of errors.
use crate::assertions::assert_written;
use asn1_values::{AlphabetError, ArcError, ObjectIdentifierError, OutOfRangeError, StringError};

#[test]
fn says_what_is_wrong(rt: HostRuntime) {
    assert_written(&rt, rt.alloc(), &OutOfRangeError, "number out of range");
    let not_allowed = StringError::NotAllowed(AlphabetError(3));
    assert_written(&rt, rt.alloc(), &not_allowed, "unit 3 is not allowed");
    assert_written(&rt, rt.alloc(), &StringError::Memory, "no memory");
}

const OF_ARCS: &[(ObjectIdentifierError, &str)] = &[
    (
        ObjectIdentifierError::Arc(2, ArcError::Empty),
        "arc 2: no digits",
    ),
    (
        ObjectIdentifierError::Arc(2, ArcError::NotADigit),
        "arc 2: a character that is no digit",
    ),
    (
        ObjectIdentifierError::Arc(2, ArcError::LeadingZero),
        "arc 2: a leading zero",
    ),
    (
        ObjectIdentifierError::Arc(2, ArcError::TooGreat),
        "arc 2: above 4294967295",
    ),
    (ObjectIdentifierError::Memory, "no memory"),
];

#[test]
fn says_which_arc_is_none(rt: HostRuntime) {
    for (error, text) in OF_ARCS {
        assert_written(&rt, rt.alloc(), error, text);
    }
}
