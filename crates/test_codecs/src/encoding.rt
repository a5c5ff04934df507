//! Errors of writing, and an encoder after an error.
use crate::cases::{assert_bytes, assert_that, person};
use asn1_bench::{ItemBuffer, PackedBuffer};
use asn1_ber::BerBuffer;
use asn1_bounds::Constraints;
use asn1_buffers::{BufferEncoder, RecordBuffer, write_whole};
use asn1_der::DerBuffer;
use asn1_enc::{Encode, EncodeError, Encoder};
use asn1_samples::{Color, Contact, Profile};
use asn1_tagform::NextItem;
use asn1_tags::{Identifier, Tag};
use std::alloc::{AllocError, Global};
use std::process::Abort;
use test_calls::NAME;

/// Asserts that a call failed by this error, and that the next call of the encoder answers that it has failed.
fn assert_error<E: Encoder>(
    rt: &impl Abort,
    encoder: &mut E,
    answer: Result<(), EncodeError>,
    error: EncodeError,
) {
    assert!(rt; answer == Err(error));
    let later = encoder.encode_null(Tag::NULL, Identifier::NULL);
    assert!(rt; later == Err(EncodeError::Failed));
    assert!(rt; encoder.refuse_memory() == EncodeError::Failed);
}

const NOTHING_IS_OPEN: EncodeError = EncodeError::Custom("nothing is open");

/// No scope may be opened.
fn open_too_deep<E: Encoder>(rt: &impl Abort, encoder: &mut E) {
    let answer = encoder.open_explicit_prefix(Tag::NULL, Identifier::NULL);
    assert_error(rt, encoder, answer, EncodeError::Depth);
}

/// A person has a scope, which may not be opened.
fn write_a_person<E: Encoder>(rt: &impl Abort, alloc: Global, encoder: &mut E) {
    let answer = person(rt, alloc, 30, "Ann").encode(encoder);
    assert_error(rt, encoder, answer, EncodeError::Depth);
}

fn refuse_memory<E: Encoder>(rt: &impl Abort, encoder: &mut E) {
    let error = encoder.refuse_memory();
    assert_error(rt, encoder, Err(error), EncodeError::Memory);
}

fn close_a_scope<E: Encoder>(rt: &impl Abort, encoder: &mut E) {
    let answer = encoder.close();
    assert_error(rt, encoder, answer, NOTHING_IS_OPEN);
}

fn close_a_group<E: Encoder>(rt: &impl Abort, encoder: &mut E) {
    let answer = encoder.close_group();
    assert_error(rt, encoder, answer, NOTHING_IS_OPEN);
}

fn open_a_group<E: Encoder>(rt: &impl Abort, encoder: &mut E) {
    encoder.open_group::<Contact>().expect(rt, "memory");
}

fn open_a_scope<E: Encoder>(rt: &impl Abort, encoder: &mut E) {
    encoder
        .open_explicit_prefix(Tag::NULL, Identifier::NULL)
        .expect(rt, "memory");
}

fn close_a_group_as_a_scope<E: Encoder>(rt: &impl Abort, encoder: &mut E) {
    open_a_group(rt, encoder);
    close_a_scope(rt, encoder);
}

fn close_a_scope_as_a_group<E: Encoder>(rt: &impl Abort, encoder: &mut E) {
    open_a_scope(rt, encoder);
    close_a_group(rt, encoder);
}

fn close_the_group_around_a_scope<E: Encoder>(rt: &impl Abort, encoder: &mut E) {
    open_a_group(rt, encoder);
    close_a_scope_as_a_group(rt, encoder);
}

fn close_the_scope_around_a_group<E: Encoder>(rt: &impl Abort, encoder: &mut E) {
    open_a_scope(rt, encoder);
    close_a_group_as_a_scope(rt, encoder);
}

fn no_memory(_alloc: Global) -> Result<bool, AllocError> {
    Err(AllocError)
}

fn write_no_default<E: Encoder>(rt: &impl Abort, encoder: &mut E) {
    let answer = encoder.encode_default(&true, no_memory, NAME);
    assert_error(rt, encoder, answer, EncodeError::Memory);
}

/// A new encoder, which may open this many scopes.
fn new<B: RecordBuffer>(alloc: Global, depth: usize) -> BufferEncoder<B> {
    BufferEncoder::new(alloc, depth)
}

fn fail_each<B: RecordBuffer>(rt: &impl Abort, alloc: Global) {
    open_too_deep(rt, &mut new::<B>(alloc, 0));
    write_a_person(rt, alloc, &mut new::<B>(alloc, 0));
    refuse_memory(rt, &mut new::<B>(alloc, 0));
    close_a_scope(rt, &mut new::<B>(alloc, 0));
    write_no_default(rt, &mut new::<B>(alloc, 0));
}

#[test]
fn an_encoder_that_answers_an_error_has_failed(rt: HostRuntime) {
    fail_each::<PackedBuffer>(&rt, rt.alloc());
    fail_each::<ItemBuffer<NextItem>>(&rt, rt.alloc());
    fail_each::<DerBuffer>(&rt, rt.alloc());
    fail_each::<BerBuffer>(&rt, rt.alloc());
}

/// The calls of groups, which a buffer of items keeps apart from scopes. A group has no bytes in DER, so no call fails there.
fn fail_each_group<B: RecordBuffer>(rt: &impl Abort, alloc: Global) {
    close_a_group(rt, &mut new::<B>(alloc, 0));
    close_a_group_as_a_scope(rt, &mut new::<B>(alloc, 1));
    close_a_scope_as_a_group(rt, &mut new::<B>(alloc, 1));
    close_the_group_around_a_scope(rt, &mut new::<B>(alloc, 1));
    close_the_scope_around_a_group(rt, &mut new::<B>(alloc, 1));
}

#[test]
fn something_else_is_open(rt: HostRuntime) {
    fail_each_group::<PackedBuffer>(&rt, rt.alloc());
    fail_each_group::<ItemBuffer<NextItem>>(&rt, rt.alloc());
}

/// A call of each kind that takes memory.
fn write_all<E: Encoder>(encoder: &mut E) -> Result<(), EncodeError> {
    let constraints = &Constraints::NONE;
    encoder.encode_octet_string(Tag::OCTET_STRING, constraints, &[1], Identifier::EMPTY)?;
    encoder.encode_sequence_of(Tag::SEQUENCE, &[1u8, 2], constraints, Identifier::EMPTY)?;
    encoder.open_group::<Contact>()?;
    encoder.encode_utf8_string(Tag::UTF8_STRING, constraints, "Ann", Identifier::EMPTY)?;
    encoder.close_group()
}

/// The bytes of those calls: an octet, a list of 1 and 2, and a text between the marks of a group.
const ALL: &[u8] = &[
    1, 0, 0, 0, 0, 4, 6, 0, 0, 0, 1, 1, 4, 0, 0, 0, 0, 16, 0, 0, 0, 26, 1, 0, 0, 0, 0, 2, 2, 0, 0,
    0, 2, 0, 1, 1, 0, 0, 0, 0, 2, 2, 0, 0, 0, 2, 0, 2, 0x12, 1, 0, 0, 0, 0, 12, 8, 0, 0, 0, 3, 65,
    110, 110, 0x14,
];

/// The same without the marks.
const ALL_WITHOUT_MARKS: &[u8] = &[
    1, 0, 0, 0, 0, 4, 6, 0, 0, 0, 1, 1, 4, 0, 0, 0, 0, 16, 0, 0, 0, 26, 1, 0, 0, 0, 0, 2, 2, 0, 0,
    0, 2, 0, 1, 1, 0, 0, 0, 0, 2, 2, 0, 0, 0, 2, 0, 2, 1, 0, 0, 0, 0, 12, 8, 0, 0, 0, 3, 65, 110,
    110,
];

/// The same in DER (X.690, 8.7, 8.10 and 8.23).
const ALL_IN_DER: &[u8] = &[
    4, 1, 1, 0x30, 6, 2, 1, 1, 2, 1, 2, 0x0c, 3, 0x41, 0x6e, 0x6e,
];

/// Whether these bytes were written. Else memory ran out, and the encoder has failed.
fn writes_all<B: RecordBuffer>(rt: &impl Abort, alloc: Global, bytes: &[u8]) -> bool {
    let mut encoder = new::<B>(alloc, 1);
    let answer = write_all(&mut encoder);
    if answer.is_err() {
        assert_error(rt, &mut encoder, answer, EncodeError::Memory);
        return false;
    }
    assert_bytes(rt, &encoder.finish(), bytes);
    true
}

/// Asserts that of two runs one has its memory, also where `rt try --test --fail-alloc N` refuses the Nth growth.
fn assert_one_writes_all<B: RecordBuffer>(rt: &impl Abort, alloc: Global, bytes: &[u8]) {
    let first = writes_all::<B>(rt, alloc, bytes);
    let second = writes_all::<B>(rt, alloc, bytes);
    assert_that(rt, first || second);
}

#[test]
fn memory_runs_out(rt: HostRuntime) {
    assert_one_writes_all::<PackedBuffer>(&rt, rt.alloc(), ALL);
    assert_one_writes_all::<ItemBuffer<NextItem>>(&rt, rt.alloc(), ALL_WITHOUT_MARKS);
    assert_one_writes_all::<DerBuffer>(&rt, rt.alloc(), ALL_IN_DER);
    assert_one_writes_all::<BerBuffer>(&rt, rt.alloc(), ALL_IN_DER);
}

/// The level 7 and the color red, with a contact of which nothing is there. No bytes are read as this value, but as one without a
/// contact.
fn out_of_reach() -> Profile {
    let contact = Contact {
        phone: None,
        mail: None,
    };
    Profile {
        nick: None,
        level: 7,
        color: Color::Red,
        contact: Some(contact),
    }
}

fn assert_profile<B: RecordBuffer>(rt: &impl Abort, alloc: Global, bytes: &[u8]) {
    let written = write_whole::<B, Profile>(alloc, &out_of_reach(), 1);
    assert_bytes(rt, &written.expect(rt, "memory"), bytes);
}

#[test]
fn a_group_of_nothing_is_written_as_absent(rt: HostRuntime) {
    let packed = [
        0x02, 0, 0, 0, 0, 0x10, 0, 0, 0, 0x10, 0x11, 1, 2, 0, 0, 0, 1, 2, 0, 0, 0, 2, 0, 7, 0x11,
        0x13,
    ];
    assert_profile::<PackedBuffer>(&rt, rt.alloc(), &packed);
    let without_marks = [
        0x02, 0, 0, 0, 0, 0x10, 0, 0, 0, 0x0d, 1, 2, 0, 0, 0, 1, 2, 0, 0, 0, 2, 0, 7,
    ];
    assert_profile::<ItemBuffer<NextItem>>(&rt, rt.alloc(), &without_marks);
    assert_profile::<DerBuffer>(&rt, rt.alloc(), &[0x30, 3, 0x81, 1, 7]);
    assert_profile::<BerBuffer>(&rt, rt.alloc(), &[0x30, 3, 0x81, 1, 7]);
}
