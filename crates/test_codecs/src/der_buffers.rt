//! The order and the refusals of a buffer of DER.
use crate::cases::assert_bytes;
use asn1_buffers::{MarkKind, RecordBuffer, ScopeKind, WriteError, write_whole};
use asn1_der::DerBuffer;
use asn1_enc::EncodeError;
use asn1_items::Content;
use asn1_tags::Tag;
use asn1_types::Any;
use std::alloc::Global;
use std::process::Abort;
use test_calls::made::list;

/// Begins a scope.
fn begin(rt: &impl Abort, buffer: &mut DerBuffer, kind: ScopeKind, tag: Tag) {
    buffer.begin_scope(kind, tag).expect(rt, "memory");
}

/// Appends a NULL under a tag.
fn append_null(rt: &impl Abort, buffer: &mut DerBuffer, tag: Tag) {
    buffer
        .append_scalar(tag, Content::Null)
        .expect(rt, "memory");
}

// openssl asn1parse -genstr ENUM:-129
#[test]
fn a_negative_item_is_that_of_openssl(rt: HostRuntime) {
    let mut buffer = DerBuffer::new(rt.alloc());
    buffer
        .append_scalar(Tag::ENUMERATED, Content::Discriminant(-129))
        .expect(&rt, "memory");
    assert_bytes(&rt, &buffer.finish(), &[0x0a, 2, 0xff, 0x7f]);
}

/// Asserts that the bytes of the buffer are these, after the end of a scope.
fn assert_ended(rt: &impl Abort, mut buffer: DerBuffer, bytes: &[u8]) {
    buffer.end_scope().expect(rt, "a scope");
    assert_bytes(rt, &buffer.finish(), bytes);
}

// X.690, 10.3, with X.680, 8.6: universal, application, context, private, and ascending numbers.
#[test]
fn the_elements_of_a_set_ascend_by_their_tags(rt: HostRuntime) {
    let mut buffer = DerBuffer::new(rt.alloc());
    begin(&rt, &mut buffer, ScopeKind::Set, Tag::SET);
    append_null(&rt, &mut buffer, Tag::new_private(0));
    append_null(&rt, &mut buffer, Tag::new_context(31));
    append_null(&rt, &mut buffer, Tag::new_context(1));
    append_null(&rt, &mut buffer, Tag::new_application(2));
    append_null(&rt, &mut buffer, Tag::NULL);
    assert_ended(
        &rt,
        buffer,
        &[0x31, 11, 5, 0, 0x42, 0, 0x81, 0, 0x9f, 31, 0, 0xc0, 0],
    );
}

/// A buffer in which a CHOICE of NULL is open, with a NULL under each of these tags.
fn choice_of_null(rt: &impl Abort, alloc: Global, tags: &[Tag]) -> DerBuffer {
    let mut buffer = DerBuffer::new(alloc);
    begin(rt, &mut buffer, ScopeKind::Alternative, Tag::NULL);
    for tag in tags {
        append_null(rt, &mut buffer, *tag);
    }
    buffer
}

/// Asserts that a CHOICE of NULL is rejected that is not one NULL.
fn assert_no_choice(rt: &impl Abort, alloc: Global, tags: &[Tag]) {
    let mut buffer = choice_of_null(rt, alloc, tags);
    let rejected = WriteError::Rejected("a choice is not one element of its tag");
    assert!(rt; buffer.end_scope() == Err(rejected));
}

#[test]
fn a_choice_is_its_alternative(rt: HostRuntime) {
    assert_ended(&rt, choice_of_null(&rt, rt.alloc(), &[Tag::NULL]), &[5, 0]);
    assert_no_choice(&rt, rt.alloc(), &[]);
    assert_no_choice(&rt, rt.alloc(), &[Tag::NULL, Tag::NULL]);
    assert_no_choice(&rt, rt.alloc(), &[Tag::new_context(0)]);
}

#[test]
fn presence_marks_and_groups_have_no_bytes(rt: HostRuntime) {
    let mut buffer = DerBuffer::new(rt.alloc());
    buffer.begin_group().expect(&rt, "memory");
    buffer.append_mark(MarkKind::Absent).expect(&rt, "no bytes");
    buffer.end_group().expect(&rt, "memory");
    assert!(rt; buffer.finish().is_empty());
}

/// Writes an open type of these bytes.
fn write_open_type(rt: &impl Abort, alloc: Global, bytes: &[u8]) -> Result<Vec<u8>, EncodeError> {
    let value = Any::new(list(alloc, bytes).expect(rt, "memory"));
    write_whole::<DerBuffer, Any>(alloc, &value, 0)
}

fn assert_no_element(rt: &impl Abort, alloc: Global, bytes: &[u8]) {
    let rejected = EncodeError::Custom("an open type is not one element");
    assert!(rt; write_open_type(rt, alloc, bytes).err() == Some(rejected));
}

#[test]
fn an_open_type_is_one_element(rt: HostRuntime) {
    let alloc = rt.alloc();
    let null = write_open_type(&rt, alloc, &[5, 0]).expect(&rt, "one element");
    assert_bytes(&rt, &null, &[5, 0]);
    assert_no_element(&rt, alloc, &[]);
    assert_no_element(&rt, alloc, &[5]);
    assert_no_element(&rt, alloc, &[5, 0, 5, 0]);
    assert_no_element(&rt, alloc, &[5, 0x81, 0]);
}
