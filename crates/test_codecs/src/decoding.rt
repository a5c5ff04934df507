//! Errors of reading, and a decoder after an error.
use crate::cases::{assert_bytes, assert_that};
use asn1_bench::{ItemDecoder, PackedDecoder};
use asn1_ber::BerDecoder;
use asn1_buffers::WholeDecoder;
use asn1_dec::{Decode, DecodeError, DecodeSet, Needed};
use asn1_der::DerDecoder;
use asn1_samples::{Badge, Labelled, Person, Settings};
use asn1_tagform::NextItem;
use asn1_tags::Tag;
use asn1_values::{ConstrainedInteger, OctetString};
use std::alloc::Global;
use std::process::Abort;
use test_calls::Codec;

/// INTEGER 11 as an item.
const ELEVEN: &[u8] = &[1, 0, 0, 0, 0, 2, 2, 0, 0, 0, 2, 0, 11];

/// INTEGER 11 in DER.
const ELEVEN_IN_DER: &[u8] = &[2, 1, 11];

/// Asserts that a number outside its limits has been read.
fn assert_outside<D: WholeDecoder>(rt: &impl Abort, mut decoder: D) {
    let limited = ConstrainedInteger::<1, 10>::decode(&mut decoder).err();
    assert!(rt; limited == Some(DecodeError::OutOfRange) && decoder.end().is_ok());
}

#[test]
fn a_number_outside_its_limits_has_been_read(rt: HostRuntime) {
    assert_outside(&rt, PackedDecoder::new(rt.alloc(), ELEVEN, 0));
    assert_outside(&rt, ItemDecoder::<NextItem>::new(rt.alloc(), ELEVEN, 0));
    assert_outside(&rt, DerDecoder::new(rt.alloc(), ELEVEN_IN_DER, 0));
    assert_outside(&rt, BerDecoder::new(rt.alloc(), ELEVEN_IN_DER, 0));
}

/// Asserts that a decoder without bytes that refuses has failed.
fn assert_refuses<D: WholeDecoder>(rt: &impl Abort, mut decoder: D) {
    assert!(rt; decoder.refuse(DecodeError::OutOfRange) == DecodeError::OutOfRange);
    assert!(rt; decoder.end() == Err(DecodeError::Failed));
}

/// Asserts that a decoder without bytes, which may open no scope, looks at the depth before the bytes, and has then failed.
fn assert_too_deep<D: WholeDecoder>(rt: &impl Abort, mut decoder: D) {
    assert!(rt; Vec::<bool>::decode(&mut decoder).err() == Some(DecodeError::Depth));
    assert!(rt; bool::decode(&mut decoder).err() == Some(DecodeError::Failed));
    assert!(rt; decoder.end() == Err(DecodeError::Failed));
}

#[test]
fn a_decoder_that_answers_an_error_has_failed(rt: HostRuntime) {
    assert_refuses(&rt, PackedDecoder::new(rt.alloc(), &[], 0));
    assert_refuses(&rt, ItemDecoder::<NextItem>::new(rt.alloc(), &[], 0));
    assert_refuses(&rt, DerDecoder::new(rt.alloc(), &[], 0));
    assert_refuses(&rt, BerDecoder::new(rt.alloc(), &[], 0));
    assert_too_deep(&rt, PackedDecoder::new(rt.alloc(), &[], 0));
    assert_too_deep(&rt, ItemDecoder::<NextItem>::new(rt.alloc(), &[], 0));
    assert_too_deep(&rt, DerDecoder::new(rt.alloc(), &[], 0));
    assert_too_deep(&rt, BerDecoder::new(rt.alloc(), &[], 0));
}

/// Asserts that this many bytes are missing, of which no memory is asked for.
fn assert_missing<T: Decode + Drop, D: WholeDecoder>(
    rt: &impl Abort,
    mut decoder: D,
    count: usize,
) {
    let error = T::decode(&mut decoder).err();
    assert!(rt; error == Some(DecodeError::Incomplete(Needed::Size(count))));
}

/// The header of an OCTET STRING of the greatest length, and one octet.
const LONG: &[u8] = &[1, 0, 0, 0, 0, 4, 6, 0xff, 0xff, 0xff, 0xff, 7];

/// The header of a list of the greatest length, and one byte.
const LONG_LIST: &[u8] = &[4, 0, 0, 0, 0, 16, 0xff, 0xff, 0xff, 0xff, 2];

/// The same octets in DER, with a length of 2^31 - 1.
const LONG_IN_DER: &[u8] = &[4, 0x84, 0x7f, 0xff, 0xff, 0xff, 7];

/// The same list in DER.
const LONG_LIST_IN_DER: &[u8] = &[0x30, 0x84, 0x7f, 0xff, 0xff, 0xff, 2];

// With `--fail-alloc 1` too, since no memory is asked for.
#[test]
fn a_length_reserves_nothing(rt: HostRuntime) {
    let alloc = rt.alloc();
    assert_missing::<OctetString, _>(&rt, PackedDecoder::new(alloc, LONG, 0), 4_294_967_294);
    assert_missing::<Vec<Person>, _>(&rt, PackedDecoder::new(alloc, LONG_LIST, 2), 4_294_967_294);
    assert_missing::<OctetString, _>(&rt, DerDecoder::new(alloc, LONG_IN_DER, 0), 2_147_483_646);
    assert_missing::<OctetString, _>(&rt, BerDecoder::new(alloc, LONG_IN_DER, 0), 2_147_483_646);
    assert_missing::<Vec<Person>, _>(
        &rt,
        DerDecoder::new(alloc, LONG_LIST_IN_DER, 2),
        2_147_483_646,
    );
    assert_missing::<Vec<Person>, _>(
        &rt,
        BerDecoder::new(alloc, LONG_LIST_IN_DER, 2),
        2_147_483_646,
    );
}

/// Asserts that a badge has no fourth component.
#[test]
fn no_other_component_of_a_badge_is_read(rt: HostRuntime) {
    let mut decoder = PackedDecoder::new(rt.alloc(), &[], 4);
    let unknown = DecodeError::UnknownField {
        index: 3,
        tag: Tag::BOOL,
    };
    let error = Badge::decode_field(&mut decoder, 3, Tag::BOOL).err();
    assert_that(&rt, error == Some(unknown));
}

/// Asserts that settings that are equal to the DEFAULT, but for a note, which is not compared, have these bytes, and that the note of
/// the DEFAULT is read.
fn assert_note_of_default(rt: &impl Abort, alloc: Global, codec: Codec, bytes: &[u8]) {
    let settings = Settings {
        entry: Labelled { key: 1, note: 9 },
    };
    let written = codec.write(alloc, &settings, 1).expect(rt, "memory");
    assert_bytes(rt, &written, bytes);
    let back = codec
        .read::<Settings>(alloc, &written, 1)
        .expect(rt, "a value");
    assert!(rt; back.entry.note == 0 && back == settings);
}

#[test]
fn the_note_of_a_default_is_read(rt: HostRuntime) {
    let alloc = rt.alloc();
    let packed = [2, 0, 0, 0, 0, 16, 0, 0, 0, 1, 0x11];
    assert_note_of_default(&rt, alloc, Codec::Packed, &packed);
    let without_marks = [2, 0, 0, 0, 0, 16, 0, 0, 0, 0];
    assert_note_of_default(&rt, alloc, Codec::TagForm, &without_marks);
    assert_note_of_default(&rt, alloc, Codec::Der, &[0x30, 0]);
    assert_note_of_default(&rt, alloc, Codec::Ber, &[0x30, 0]);
}
