//! The texts of all errors, one by one.
use asn1_bounds::{InnerSubtypeConstraintError, TooWide};
use asn1_laws::{DecodeError, EncodeError, Needed};
use asn1_report::CheckError;
use asn1_rules::{RecodeError, RoundTripError};
use asn1_tags::{Tag, VariantsError};
use asn1_values::AlphabetError;
use std::alloc::Global;
use std::fmt::Display;
use std::process::Abort;

const WRITING: &[(EncodeError, &str)] = &[
    (EncodeError::Memory, "no memory"),
    (EncodeError::Depth, "nested too deep"),
    (EncodeError::Failed, "the encoder has failed"),
    (EncodeError::Custom("item too long"), "item too long"),
];

const READING: &[(DecodeError, &str)] = &[
    (DecodeError::Custom("bad item"), "bad item"),
    (
        DecodeError::Incomplete(Needed::Size(1)),
        "more input is needed",
    ),
    (
        DecodeError::ExceedsMaxLength { length: 70000 },
        "length 70000 is too great",
    ),
    (DecodeError::MissingField("id"), "missing field id"),
    (
        DecodeError::NoValidChoice("Shape"),
        "no valid alternative of Shape",
    ),
    (
        DecodeError::FieldError {
            name: "id",
            cause: 13,
        },
        "field id: error 13",
    ),
    (DecodeError::DuplicateField("id"), "field id stands twice"),
    (
        DecodeError::UnknownField {
            index: 3,
            tag: Tag::INTEGER,
        },
        "unknown field 3, Universal 2",
    ),
    (
        DecodeError::IncorrectItemNumber {
            expected: 2,
            actual: 3,
        },
        "expected 2 items, found 3",
    ),
    (DecodeError::Memory, "no memory"),
    (DecodeError::Depth, "nested too deep"),
    (DecodeError::Failed, "the decoder has failed"),
    (DecodeError::OutOfRange, "value out of range"),
];

const UNITS: &[(AlphabetError, &str)] = &[(AlphabetError(1), "unit 1 is not allowed")];

const VARIANTS: &[(VariantsError, &str)] = &[
    (VariantsError::Memory, "no memory"),
    (
        VariantsError::TableMismatch(3),
        "table entry 3 does not fit",
    ),
];

const BOUNDS: &[(TooWide, &str)] = &[(TooWide, "bound does not fit")];

const COMPONENTS: &[(InnerSubtypeConstraintError, &str)] = &[
    (InnerSubtypeConstraintError::Missing("a"), "missing a"),
    (InnerSubtypeConstraintError::Unexpected("b"), "unexpected b"),
    (InnerSubtypeConstraintError::Value("c"), "wrong value of c"),
    (
        InnerSubtypeConstraintError::Contained("d"),
        "wrong content of d",
    ),
    (InnerSubtypeConstraintError::Memory, "no memory"),
];

const RECODING: &[(RecodeError, &str)] = &[
    (
        RecodeError::Read(DecodeError::OutOfRange),
        "value out of range",
    ),
    (RecodeError::Write(EncodeError::Depth), "nested too deep"),
];

const ROUND_TRIPS: &[(RoundTripError, &str)] = &[
    (
        RoundTripError::Writing(EncodeError::Depth),
        "not written: nested too deep",
    ),
    (
        RoundTripError::Reading(DecodeError::Memory),
        "not read back: no memory",
    ),
];

const CHECKS: &[(CheckError, &str)] = &[
    (CheckError::Reading, "check: reading failed"),
    (CheckError::Writing, "check: writing failed"),
    (CheckError::Memory, "check: no memory"),
];

/// Asserts that each error has the text beside it.
fn assert_texts<E: Display>(rt: &impl Abort, alloc: Global, rows: &[(E, &str)]) {
    for row in rows {
        let written = row.0.to_string(alloc).expect(rt, "memory");
        assert!(rt; written.as_str() == row.1, "{}", row.1);
    }
}

#[test]
fn errors_are_told_by_their_texts(rt: HostRuntime) {
    let alloc = rt.alloc();
    assert_texts(&rt, alloc, WRITING);
    assert_texts(&rt, alloc, READING);
    assert_texts(&rt, alloc, UNITS);
    assert_texts(&rt, alloc, VARIANTS);
    assert_texts(&rt, alloc, BOUNDS);
    assert_texts(&rt, alloc, COMPONENTS);
    assert_texts(&rt, alloc, RECODING);
    assert_texts(&rt, alloc, ROUND_TRIPS);
    assert_texts(&rt, alloc, CHECKS);
}
