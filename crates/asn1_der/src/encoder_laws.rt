//! Laws of what no other contract names: what the buffer and the encoder are.
ghost use Rattle.asn1_bounds.specs.declared.codec.Codec.TheVariants.{Der};
ghost use Rattle.asn1_laws.specs.Writing.{Written};
ghost use Rattle.asn1_der_items.specs.Bytes.{HaveDer, SomeHasNoDer};
ghost use Rattle.asn1_der.specs.WrittenElements.{der_writer};
ghost use Rattle.asn1_model.specs.Records.{Record, held};
ghost use Rattle.std.specs.Prelude.{◌≡◌, ◌↔◌, List, ℕ};

use crate::DerEncoder;
use crate::buffer::DerBuffer;
use asn1_bounds::Codec;
use asn1_buffers::{BufferEncoder, RecordBuffer};
use asn1_enc::Encoder;

/// A law of the buffer: bytes are those of records if and only if they are their DER (`have_bytes`), and the records are not
/// taken of which one has no DER, at whatever depth (`rejects`). The name of the codec is `Der` (`codec`).
pub fn the_buffer_is_der()
    ensures have_bytes { (rs : List Record) (bytes : List ℕ) →
        ⟦<DerBuffer as RecordBuffer>⟧.form.have_bytes rs bytes ↔ HaveDer (held rs) bytes }
    ensures rejects { (rs : List Record) → ⟦<DerBuffer as RecordBuffer>⟧.form.rejects rs ↔
        SomeHasNoDer (held rs) }
    ensures codec { ⟦<DerBuffer as RecordBuffer>⟧.own_codec ≡ Der }
{}

/// A law: the name of an encoder of DER.
pub fn name_of_the_encoder(encoder: &DerEncoder) -> Codec
    ensures { result ≡ Der }
{
    encoder.codec()
}

/// A law of the encoder: what types see that it has written.
pub fn the_encoder_writes_der(encoder: &BufferEncoder<DerBuffer>)
    ensures { (w : Written) →
        ⟦<BufferEncoder<DerBuffer> as Encoder>⟧.writer.wrote encoder.now w ↔
        der_writer.wrote encoder.now w }
{}
