//! A law of what no other contract names: what the encoder is as types see it.
ghost use Rattle.asn1_buffers.specs.Encoder.{buffer_writer};
ghost use Rattle.asn1_laws.specs.Writing.{Written};
ghost use Rattle.asn1_model.specs.Records.{Record};
ghost use Rattle.std.specs.Prelude.{◌↔◌, List};

use crate::buffer::RecordBuffer;
use crate::encoder::BufferEncoder;
use asn1_enc::Encoder;

/// A law of the encoder: what types see that it has written (`wrote`) and rejects (`rejects`).
pub fn the_encoder_writes_in_its_buffer<B: RecordBuffer>(encoder: &BufferEncoder<B>)
    ensures wrote { (w : Written) → ⟦<BufferEncoder<B> as Encoder>⟧.writer.wrote encoder.now w ↔
        (buffer_writer B.form).wrote encoder.now w }
    ensures rejects { (rs : List Record) → ⟦<BufferEncoder<B> as Encoder>⟧.writer.rejects rs ↔
        (buffer_writer B.form).rejects rs }
{}
