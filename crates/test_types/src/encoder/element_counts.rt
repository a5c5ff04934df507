//! The number of elements that a codec gets beside the records, which no contract covers.
use crate::encoder::listener::Listener;
use asn1_bounds::Constraints;
use asn1_enc::Encoder;
use asn1_tags::{Identifier, Tag};
use asn1_types::SetOf;
use std::alloc::Global;
use std::process::Abort;

const NAME: Identifier = Identifier::EMPTY;

/// Asserts that a list tells how many elements it has.
fn assert_sequence_of(rt: &impl Abort, alloc: Global, bits: &[bool]) {
    let mut listener = Listener::new(alloc);
    let answer = listener.encode_sequence_of(Tag::SEQUENCE, bits, &Constraints::NONE, NAME);
    assert!(rt; answer.is_err() && listener.count == Some(bits.len()));
}

/// Asserts that a set of elements does.
fn assert_set_of(rt: &impl Abort, alloc: Global, octets: &[u8]) {
    let mut listener = Listener::new(alloc);
    let elements = SetOf::from_vec(Vec::from_slice(alloc, octets).expect(rt, "memory"));
    let answer = listener.encode_set_of(Tag::SET, &elements, &Constraints::NONE, NAME);
    assert!(rt; answer.is_err() && listener.count == Some(octets.len()));
}

#[test]
fn lists_tell_their_length(rt: HostRuntime) {
    assert_sequence_of(&rt, rt.alloc(), &[true, false, true]);
    assert_set_of(&rt, rt.alloc(), &[7, 8]);
}
