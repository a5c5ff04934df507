//! Each call of the encoder and of the decoder.
use crate::cases::assert_passes;
use asn1_bench::{ItemBuffer, ItemDecoder, PackedBuffer, PackedDecoder};
use asn1_ber::{BerBuffer, BerDecoder};
use asn1_buffers::{BufferEncoder, RecordBuffer, WholeDecoder};
use asn1_der::{DerBuffer, DerDecoder};
use asn1_enc::EncodeError;
use asn1_tagform::NextItem;
use std::alloc::Global;
use std::process::Abort;
use test_calls::{CallRules, Calls, Failure, each_call_comes_back};

/// The bytes of writing calls, by a new encoder.
fn write<B: RecordBuffer, C: Calls>(
    alloc: Global,
    calls: &C,
    depth: usize,
) -> Result<Vec<u8>, EncodeError> {
    let mut encoder = BufferEncoder::<B>::new(alloc, depth);
    calls.write(&mut encoder)?;
    Ok(encoder.finish())
}

/// Makes reading calls with a decoder, which then has nothing left to read.
fn read<D: WholeDecoder, C: Calls>(mut decoder: D, calls: &C) -> Result<(), Failure> {
    calls.read(&mut decoder)?;
    decoder.end().map_err(Failure::of_reading)
}

/// The encoder and the decoder of the packed codec.
#[derive(Drop)]
struct PackedCalls {
    alloc: Global,
}

impl CallRules for PackedCalls {
    type Output = Vec<u8>;

    fn write_calls<C: Calls>(&self, calls: &C, depth: usize) -> Result<Vec<u8>, EncodeError> {
        write::<PackedBuffer, C>(self.alloc, calls, depth)
    }

    fn read_calls<C: Calls>(
        &self,
        calls: &C,
        output: &Vec<u8>,
        depth: usize,
    ) -> Result<(), Failure> {
        read(
            PackedDecoder::new(self.alloc, output.as_slice(), depth),
            calls,
        )
    }
}

/// Those of the tag form.
#[derive(Drop)]
struct TagCalls {
    alloc: Global,
}

impl CallRules for TagCalls {
    type Output = Vec<u8>;

    fn write_calls<C: Calls>(&self, calls: &C, depth: usize) -> Result<Vec<u8>, EncodeError> {
        write::<ItemBuffer<NextItem>, C>(self.alloc, calls, depth)
    }

    fn read_calls<C: Calls>(
        &self,
        calls: &C,
        output: &Vec<u8>,
        depth: usize,
    ) -> Result<(), Failure> {
        read(
            ItemDecoder::<NextItem>::new(self.alloc, output.as_slice(), depth),
            calls,
        )
    }
}

/// Those of DER.
#[derive(Drop)]
struct DerCalls {
    alloc: Global,
}

impl CallRules for DerCalls {
    type Output = Vec<u8>;

    fn write_calls<C: Calls>(&self, calls: &C, depth: usize) -> Result<Vec<u8>, EncodeError> {
        write::<DerBuffer, C>(self.alloc, calls, depth)
    }

    fn read_calls<C: Calls>(
        &self,
        calls: &C,
        output: &Vec<u8>,
        depth: usize,
    ) -> Result<(), Failure> {
        read(DerDecoder::new(self.alloc, output.as_slice(), depth), calls)
    }
}

/// Those of BER, whose decoder reads elements in normal form, as DER is.
#[derive(Drop)]
struct BerCalls {
    alloc: Global,
}

impl CallRules for BerCalls {
    type Output = Vec<u8>;

    fn write_calls<C: Calls>(&self, calls: &C, depth: usize) -> Result<Vec<u8>, EncodeError> {
        write::<BerBuffer, C>(self.alloc, calls, depth)
    }

    fn read_calls<C: Calls>(
        &self,
        calls: &C,
        output: &Vec<u8>,
        depth: usize,
    ) -> Result<(), Failure> {
        read(BerDecoder::new(self.alloc, output.as_slice(), depth), calls)
    }
}

fn assert_calls<R: CallRules>(rt: &impl Abort, alloc: Global, codec: &str, rules: &R) {
    assert_passes(rt, codec, each_call_comes_back(rules, alloc));
}

#[test]
fn calls_come_back(rt: HostRuntime) {
    let alloc = rt.alloc();
    assert_calls(&rt, alloc, "packed", &PackedCalls { alloc });
    assert_calls(&rt, alloc, "tag form", &TagCalls { alloc });
    assert_calls(&rt, alloc, "DER", &DerCalls { alloc });
    assert_calls(&rt, alloc, "BER", &BerCalls { alloc });
}
