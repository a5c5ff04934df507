//! The order of a SET's elements, presence by the next tag, and long contents: what no line of `test_vectors` can show.
use asn1_dec::{DecodeError, Decoder};
use asn1_der::DerDecoder;
use asn1_der_items::{begin_element, end_element, find_element};
use asn1_tags::{Tag, TagTree};
use asn1_types::InstanceOf;
use std::alloc::Global;
use std::process::Abort;

const BAD_ITEM: DecodeError = DecodeError::Custom("bad item");

/// Asserts the answer of opening a SET of these bytes.
fn assert_opened(
    rt: &impl Abort,
    alloc: Global,
    bytes: &[u8],
    expected: Result<usize, DecodeError>,
) {
    let opened = DerDecoder::new(alloc, bytes, 4).open_set::<InstanceOf<bool>>(Tag::SET);
    assert!(rt; opened == expected);
}

// X.690, 10.3, and X.680, 8.6.
#[test]
fn the_elements_of_a_set_ascend_by_their_tags(rt: HostRuntime) {
    let alloc = rt.alloc();
    assert_opened(&rt, alloc, &[0x31, 6, 0x80, 1, 0, 0x81, 1, 0], Ok(6));
    assert_opened(
        &rt,
        alloc,
        &[0x31, 6, 0x81, 1, 0, 0x80, 1, 0],
        Err(BAD_ITEM),
    );
    assert_opened(&rt, alloc, &[0x31, 6, 0x0a, 1, 0, 0x41, 1, 0], Ok(6));
    assert_opened(
        &rt,
        alloc,
        &[0x31, 6, 0x41, 1, 0, 0x0a, 1, 0],
        Err(BAD_ITEM),
    );
    assert_opened(&rt, alloc, &[0x31, 6, 0xa0, 1, 5, 0x81, 1, 5], Ok(6));
    assert_opened(&rt, alloc, &[0x31, 0], Ok(0));
    assert_opened(&rt, alloc, &[0x31, 4, 0x80, 1, 0, 0x81], Err(BAD_ITEM));
}

/// Asserts whether a BOOLEAN that may be absent is there.
fn assert_presence(
    rt: &impl Abort,
    alloc: Global,
    bytes: &[u8],
    expected: Result<bool, DecodeError>,
) {
    let presence = DerDecoder::new(alloc, bytes, 4).presence(Tag::BOOL, TagTree::Leaf(Tag::BOOL));
    assert!(rt; presence == expected);
}

#[test]
fn the_next_tag_tells_presence(rt: HostRuntime) {
    let alloc = rt.alloc();
    assert_presence(&rt, alloc, &[1, 1, 0xff], Ok(true));
    assert_presence(&rt, alloc, &[5, 0], Ok(false));
    assert_presence(&rt, alloc, &[], Ok(false));
    assert_presence(&rt, alloc, &[1, 0x80], Err(BAD_ITEM));
}

// X.690, 8.1.3.5.
#[test]
fn a_length_of_65536_has_three_octets(rt: HostRuntime) {
    let mut bytes = Vec::new(rt.alloc());
    begin_element(&mut bytes, Tag::OCTET_STRING, false).expect(&rt, "memory");
    let start = bytes.len();
    bytes
        .resize(start.saturating_add(65536), 7)
        .expect(&rt, "memory");
    end_element(&mut bytes, start).expect(&rt, "memory");
    assert!(rt; bytes.starts_with(&[4, 0x83, 1, 0, 0]) && bytes.len() == 65541);
    let found = find_element(&bytes).expect(&rt, "an element");
    assert!(rt; found.contents.len() == 65536);
}
