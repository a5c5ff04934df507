//! Object identifiers from and to dotted texts.
use crate::assertions::{assert_that, assert_written};
use asn1_values::{ArcError, ObjectIdentifier, ObjectIdentifierError};
use std::alloc::Global;
use std::process::Abort;

/// Asserts that the text is read as these arcs, and written as it was.
fn assert_read(rt: &impl Abort, alloc: Global, text: &str, arcs: &[u32]) {
    let name = ObjectIdentifier::try_from_str(alloc, text).expect(rt, "a dotted text");
    assert_that(rt, name.has_arcs(arcs), "the arcs");
    assert_written(rt, alloc, &name, text);
}

#[test]
fn dotted_texts_are_read_and_written(rt: HostRuntime) {
    assert_read(&rt, rt.alloc(), "1.2.840.113549", &[1, 2, 840, 113549]);
    assert_read(&rt, rt.alloc(), "0.4294967295", &[0, u32::MAX]);
}

/// Whether the text is refused for the arc with this index.
fn is_refused(alloc: Global, text: &str, index: usize, why: ArcError) -> bool {
    let made = ObjectIdentifier::try_from_str(alloc, text);
    made.err() == Some(ObjectIdentifierError::Arc(index, why))
}

const REFUSED: &[(&str, usize, ArcError)] = &[
    ("", 0, ArcError::Empty),
    ("1.2.", 2, ArcError::Empty),
    ("1..2", 1, ArcError::Empty),
    ("1.+2", 1, ArcError::NotADigit),
    ("1. 2.03", 1, ArcError::NotADigit),
    ("1.2.00", 2, ArcError::LeadingZero),
    ("1.4294967296", 1, ArcError::TooGreat),
];

#[test]
fn other_texts_are_refused(rt: HostRuntime) {
    for (text, index, why) in REFUSED {
        assert_that(&rt, is_refused(rt.alloc(), text, *index, *why), text);
    }
}
