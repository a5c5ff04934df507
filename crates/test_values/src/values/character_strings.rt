//! Character strings that are made of texts.
use crate::assertions::{assert_that, assert_written};
use asn1_values::{AlphabetError, PrintableString, StringError};
use std::alloc::Global;
use std::process::Abort;

/// Asserts that a string is made of the text, and written as it.
fn assert_text(rt: &impl Abort, alloc: Global, text: &str) {
    let made = PrintableString::try_from_str(alloc, text).expect(rt, "an allowed text");
    assert_written(rt, alloc, &made, text);
}

/// Whether no string is made of the text, for the character with this index.
fn is_refused(alloc: Global, text: &str, index: usize) -> bool {
    let made = PrintableString::try_from_str(alloc, text);
    made.err() == Some(StringError::NotAllowed(AlphabetError(index)))
}

/// Whether no string is made of the units, for the unit with this index.
fn is_refused_of(rt: &impl Abort, alloc: Global, units: &[u8], index: usize) -> bool {
    let units = Vec::from_slice(alloc, units).expect(rt, "memory");
    PrintableString::new(units).err() == Some(AlphabetError(index))
}

#[test]
fn units_outside_the_alphabet_are_refused(rt: HostRuntime) {
    assert_that(&rt, is_refused_of(&rt, rt.alloc(), b"A*", 1), "A*");
}

#[test]
fn strings_are_made_of_texts(rt: HostRuntime) {
    assert_text(&rt, rt.alloc(), "Ann (1)");
    assert_that(&rt, is_refused(rt.alloc(), "Ann*", 3), "Ann*");
}
