//! Laws of what no other contract names: what the codec is as types see it.
ghost use Rattle.asn1_bounds.specs.declared.codec.Codec.TheVariants.{Other};
ghost use Rattle.asn1_laws.specs.Reading.{Remaining};
ghost use Rattle.asn1_laws.specs.Writing.{Written};
ghost use Rattle.asn1_items.specs.Headers.{is_one_item};
ghost use Rattle.asn1_items.specs.Items.{HaveBytes, SomeTooLong, packed_marks, written_with};
ghost use Rattle.asn1_model.specs.Records.{PresenceMark, Record, held};
ghost use Rattle.asn1_bench.specs.Decoder.{Remains};
ghost use Rattle.asn1_bench.specs.WrittenItems.{item_writer};
ghost use Rattle.std.specs.Prelude.{◌≡◌, ◌↔◌, List, ℕ};

use crate::decoder::ItemDecoder;
use crate::item_buffer::ItemBuffer;
use crate::marks::PresenceMarks;
use crate::presence::Presence;
use crate::{PackedDecoder, PackedEncoder};
use asn1_bounds::Codec;
use asn1_buffers::{BufferEncoder, RecordBuffer};
use asn1_dec::Decoder;
use asn1_enc::Encoder;

/// A law of the encoder: what types see that it has written (`wrote`) and rejects (`rejects`).
pub fn the_encoder_writes_items<P: Presence>(encoder: &BufferEncoder<ItemBuffer<P>>)
    ensures wrote { (w : Written) →
        ⟦<BufferEncoder<ItemBuffer<P>> as Encoder>⟧.writer.wrote encoder.now w ↔
        (item_writer P.mark_bytes).wrote encoder.now w }
    ensures rejects { (rs : List Record) →
        ⟦<BufferEncoder<ItemBuffer<P>> as Encoder>⟧.writer.rejects rs ↔
        (item_writer {P = P} P.mark_bytes).rejects rs }
{}

/// A law of the buffer: bytes are those of records if and only if they are the bytes of their items (`have_bytes`), and the
/// records are not taken of which one is too long, at whatever depth (`rejects`). The name of the codec is that of its way to
/// tell what may be absent (`codec`).
pub fn the_buffer_has_the_bytes_of_items<P: Presence>()
    ensures have_bytes { (rs : List Record) (bytes : List ℕ) →
        ⟦<ItemBuffer<P> as RecordBuffer>⟧.form.have_bytes rs bytes ↔
        HaveBytes (written_with P.mark_bytes) (held rs) bytes }
    ensures rejects { (rs : List Record) → ⟦<ItemBuffer<P> as RecordBuffer>⟧.form.rejects rs ↔
        SomeTooLong (written_with P.mark_bytes) (held rs) }
    ensures codec { ⟦<ItemBuffer<P> as RecordBuffer>⟧.own_codec ≡ P.own_codec }
{}

/// A law of the packed codec: its encoder and its decoder both have the name `Other(0)`.
pub fn packed_codecs_have_one_name(
    encoder: &PackedEncoder,
    decoder: &PackedDecoder<'_>,
) -> (Codec, Codec)
    ensures { result ≡ (Other 0, Other 0) }
{
    (encoder.codec(), decoder.codec())
}

/// A law of the decoder: what types see that remains (`remains`), and that it takes one item as one value of an open type
/// (`accepts`).
pub fn the_decoder_takes_one_item<P: Presence>(decoder: &ItemDecoder<'_, P>)
    ensures remains { (remaining : Remaining) →
        ⟦<ItemDecoder<'static, P> as Decoder>⟧.reader.remains decoder.now remaining ↔
        Remains P.mark_bytes decoder.now remaining }
    ensures accepts { (bytes : List ℕ) →
        ⟦<ItemDecoder<'static, P> as Decoder>⟧.reader.accepts bytes ≡ is_one_item bytes }
{}

/// A law of the packed codec: its presence marks are one byte each (`marks`), and its name is `Other(0)` (`codec`).
pub fn the_packed_codec_has_presence_marks()
    ensures marks { (m : PresenceMark) → ⟦<PresenceMarks as Presence>⟧.mark_bytes m ≡
        packed_marks m }
    ensures codec { ⟦<PresenceMarks as Presence>⟧.own_codec ≡ Other 0 }
{}
