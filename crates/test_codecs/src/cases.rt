//! Assertions on a case and on bytes, and bytes that several tests have.
use asn1_samples::Person;
use asn1_values::Integer;
use std::alloc::Global;
use std::process::Abort;
use test_calls::Failure;
use test_calls::made::text;

/// The person Ann, of age 30, in packed form and in the tag form.
pub(crate) const PERSON: &[u8] = &[
    0x02, 0x00, 0x00, 0x00, 0x00, 0x10, 0x00, 0x00, 0x00, 0x1b, 0x01, 0x00, 0x00, 0x00, 0x00, 0x02,
    0x02, 0x00, 0x00, 0x00, 0x02, 0x00, 0x1e, 0x01, 0x00, 0x00, 0x00, 0x00, 0x0c, 0x08, 0x00, 0x00,
    0x00, 0x03, 0x41, 0x6e, 0x6e,
];

/// The same person in DER.
pub(crate) const PERSON_IN_DER: &[u8] = &[0x30, 8, 2, 1, 30, 0x0c, 3, 0x41, 0x6e, 0x6e];

/// The person of this age and name.
pub(crate) fn person(rt: &impl Abort, alloc: Global, age: u8, name: &str) -> Person {
    Person {
        age: Integer::from(age),
        name: text(alloc, name).expect(rt, "memory"),
    }
}

/// Asserts that a case passes.
pub(crate) fn assert_passes(rt: &impl Abort, case: &str, answer: Result<(), Failure>) {
    assert!(rt; answer.is_ok(), "{case}: {answer:?}");
}

/// Asserts that bytes are these.
pub(crate) fn assert_bytes(rt: &impl Abort, bytes: &[u8], expected: &[u8]) {
    assert!(rt; bytes == expected);
}

/// Asserts that a condition holds.
pub(crate) fn assert_that(rt: &impl Abort, condition: bool) {
    assert!(rt; condition);
}
