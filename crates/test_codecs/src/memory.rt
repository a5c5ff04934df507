//! Memory that a type wants for itself, beside the codec.
//!
//! `rt try --test --fail-alloc N` refuses the Nth growth of each test. All is done twice, so that one of the two has its memory.
use crate::cases::{assert_bytes, assert_that};
use asn1_bench::{ItemBuffer, ItemDecoder, PackedBuffer, PackedDecoder};
use asn1_ber::{BerBuffer, BerDecoder};
use asn1_buffers::{BufferEncoder, RecordBuffer, WholeDecoder};
use asn1_dec::{Decode, DecodeError, Decoder};
use asn1_der::{DerBuffer, DerDecoder};
use asn1_enc::{Encode, EncodeError, Encoder};
use asn1_samples::Plate;
use asn1_tagform::NextItem;
use asn1_tags::{Identifier, Tag};
use std::alloc::Global;
use std::process::Abort;
use test_calls::made::letters;

/// The number 7 as an item.
const SEVEN: &[u8] = &[1, 0, 0, 0, 0, 2, 2, 0, 0, 0, 2, 0, 7];

/// The plate `AB` as an item.
const PLATE: &[u8] = &[1, 0, 0, 0, 0, 26, 9, 0, 0, 0, 2, 0x41, 0x42];

/// The plate `AB` in DER.
const PLATE_IN_DER: &[u8] = &[0x1a, 2, 0x41, 0x42];

/// Whether a box of a number is read. A box is made after its content was read; if there is no memory for it, the decoder is after
/// the content.
fn reads_box<D: WholeDecoder>(rt: &impl Abort, mut decoder: D) -> bool {
    let error = Box::<u8>::decode(&mut decoder).err();
    assert!(rt; error == None || error == Some(DecodeError::Memory));
    assert!(rt; decoder.end().is_ok());
    error == None
}

fn reads_packed_box(rt: &impl Abort, alloc: Global) -> bool {
    reads_box(rt, PackedDecoder::new(alloc, SEVEN, 0))
}

fn reads_box_in_der(rt: &impl Abort, alloc: Global) -> bool {
    reads_box(rt, DerDecoder::new(alloc, &[2, 1, 7], 0))
}

fn reads_box_in_ber(rt: &impl Abort, alloc: Global) -> bool {
    reads_box(rt, BerDecoder::new(alloc, &[2, 1, 7], 0))
}

#[test]
fn memory_for_a_box_runs_out(rt: HostRuntime) {
    let first = reads_packed_box(&rt, rt.alloc());
    assert_that(&rt, first || reads_packed_box(&rt, rt.alloc()));
    let first = reads_box_in_der(&rt, rt.alloc());
    assert_that(&rt, first || reads_box_in_der(&rt, rt.alloc()));
    let first = reads_box_in_ber(&rt, rt.alloc());
    assert_that(&rt, first || reads_box_in_ber(&rt, rt.alloc()));
}

/// Whether a plate is read. If there is no memory for the constraints of the type, the decoder is as it was, and else it has
/// failed.
fn reads_plate<D: Decoder>(rt: &impl Abort, decoder: &mut D) -> bool {
    let first = Plate::decode(decoder).err();
    if first == None {
        return true;
    }
    assert!(rt; first == Some(DecodeError::Memory));
    let again = Plate::decode(decoder).err();
    assert!(rt; again == None || again == Some(DecodeError::Failed));
    false
}

fn reads_packed_plate(rt: &impl Abort, alloc: Global) -> bool {
    reads_plate(rt, &mut PackedDecoder::new(alloc, PLATE, 0))
}

fn reads_plate_without_marks(rt: &impl Abort, alloc: Global) -> bool {
    reads_plate(rt, &mut ItemDecoder::<NextItem>::new(alloc, PLATE, 0))
}

fn reads_plate_in_der(rt: &impl Abort, alloc: Global) -> bool {
    reads_plate(rt, &mut DerDecoder::new(alloc, PLATE_IN_DER, 0))
}

fn reads_plate_in_ber(rt: &impl Abort, alloc: Global) -> bool {
    reads_plate(rt, &mut BerDecoder::new(alloc, PLATE_IN_DER, 0))
}

#[test]
fn memory_to_read_an_alphabet_runs_out(rt: HostRuntime) {
    let first = reads_packed_plate(&rt, rt.alloc());
    assert_that(&rt, first || reads_packed_plate(&rt, rt.alloc()));
    let first = reads_plate_without_marks(&rt, rt.alloc());
    assert_that(&rt, first || reads_plate_without_marks(&rt, rt.alloc()));
    let first = reads_plate_in_der(&rt, rt.alloc());
    assert_that(&rt, first || reads_plate_in_der(&rt, rt.alloc()));
    let first = reads_plate_in_ber(&rt, rt.alloc());
    assert_that(&rt, first || reads_plate_in_ber(&rt, rt.alloc()));
}

/// Asserts that memory ran out, and that the next call of the encoder answers that it has failed.
fn assert_no_memory<E: Encoder>(rt: &impl Abort, encoder: &mut E, error: EncodeError) {
    assert!(rt; error == EncodeError::Memory);
    let later = encoder.encode_null(Tag::NULL, Identifier::NULL);
    assert!(rt; later == Err(EncodeError::Failed));
}

/// Whether a plate is written as these bytes. Else memory ran out, and the encoder has failed.
fn writes_plate<B: RecordBuffer>(rt: &impl Abort, alloc: Global, bytes: &[u8]) -> bool {
    let Ok(letters) = letters(alloc, b"AB") else {
        return false;
    };
    let mut encoder = BufferEncoder::<B>::new(alloc, 0);
    if let Err(error) = Plate(letters).encode(&mut encoder) {
        assert_no_memory(rt, &mut encoder, error);
        return false;
    }
    assert_bytes(rt, &encoder.finish(), bytes);
    true
}

fn assert_one_writes_plate<B: RecordBuffer>(rt: &impl Abort, alloc: Global, bytes: &[u8]) {
    let first = writes_plate::<B>(rt, alloc, bytes);
    assert_that(rt, first || writes_plate::<B>(rt, alloc, bytes));
}

#[test]
fn memory_to_write_an_alphabet_runs_out(rt: HostRuntime) {
    assert_one_writes_plate::<PackedBuffer>(&rt, rt.alloc(), PLATE);
    assert_one_writes_plate::<ItemBuffer<NextItem>>(&rt, rt.alloc(), PLATE);
    assert_one_writes_plate::<DerBuffer>(&rt, rt.alloc(), PLATE_IN_DER);
    assert_one_writes_plate::<BerBuffer>(&rt, rt.alloc(), PLATE_IN_DER);
}
