//! Codecs over items, and the packed codec, which is one of them.
//!
//! Such a codec writes each item as its kind, its tag, the kind of its content, its length, and its contents (`asn1_items`).
//! Codecs over items differ in [`Presence`] alone; the packed codec has a presence mark of one byte for each component that may
//! be absent.
//!
//! | Item | What it is | In `specs/` |
//! |---|---|---|
//! | [`BenchRules`] | the packed codec as a whole | `Format`, `Outputs` |
//! | [`BenchReader`] | reads values one after another from the front of bytes | `Fronts` |
//! | [`PackedEncoder`], [`PackedDecoder`], [`PackedBuffer`] | its encoder, its decoder, and the encoder's buffer | |
//! | [`Presence`], [`PresenceMarks`] | how a codec over items tells presence, and marks of one byte each | `Presence` |
//! | [`ItemBuffer`], [`ItemEncoder`] | the buffer and the encoder of any codec over items | `WrittenItems` |
//! | [`ItemDecoder`] | the decoder of any codec over items | `Decoder`, `Carried` |
//! | [`ByteReader`] | a reader of single bytes, for runs of streams without a codec | `Bytes` |
//! | [`NoRules`] | rules that refuse everything, for the same | `NoRules` |
//! | [`canonical`] | values without sets have one spelling | `OneOutput` |
//! | [`laws`], [`codec_laws`] | the laws of the whole codec and its reader, and of codecs over items | |
//!
//! The main promises (docs/PROMISES.md has more):
//!
//! - An encoder over items has written the bytes of the records, up to the order inside sets, and rejects the records that have
//!   2^32 bytes or more inside an item, and no others (`wrote`, `rejects` of [`codec_laws`]).
//! - A decoder of bytes that carry well-formed records begins where these remain (`before`), and [`ItemDecoder::finish`] succeeds
//!   if and only if all has been read (`all_read`).
//! - A call of an [`ItemDecoder`] that succeeds has read what it answers, and nothing else (`only` of each call): wherever records
//!   remain after it, these remained before it, with those of the answer in front. A CHOICE is opened only if the item inside has
//!   the tag of the item around it.
//! - [`BenchRules`] keeps the laws of `Rules` of `asn1_rules`, so `round_trip` holds of it. An output carries the records whose
//!   packed bytes it is, up to the order inside sets, and one value of an open type is one item (`carries`, `accepts` of
//!   [`laws`]). An answer of `read_value` was read of records that the bytes carry, whatever they are (`only`).
//! - [`BenchReader`] takes one whole item for one value (`cut`), and is steady. For a well-tagged type it belongs to these rules
//!   (`belongs`), so `round_trip_in_pieces` holds of it.
//! - What is written of a value without SET and SET OF is its only spelling, if equal values of its type have the same records
//!   (`what_is_written_is_the_only_spelling` of [`canonical`]).
//!
//! No contract says by which error other bytes are refused. Tests show that it is `Custom` with the text `bad item` where they are
//! not those of the expected item, and `Incomplete` where they end outside all scopes, with the number of bytes that the
//! part that is read lacks.
#![tactic(auto)]

mod byte_reader;
pub mod canonical;
pub mod codec_laws;
mod decoder;
mod item_buffer;
pub mod laws;
mod marks;
mod no_rules;
mod presence;
mod reader;
mod rules;

use asn1_buffers::BufferEncoder;
pub use byte_reader::ByteReader;
pub use decoder::ItemDecoder;
pub use item_buffer::ItemBuffer;
pub use marks::PresenceMarks;
pub use no_rules::NoRules;
pub use presence::Presence;
pub use reader::BenchReader;
pub use rules::BenchRules;

/// An encoder that writes items.
pub type ItemEncoder<P> = BufferEncoder<ItemBuffer<P>>;

/// A buffer of packed bytes.
pub type PackedBuffer = ItemBuffer<PresenceMarks>;

/// An encoder that writes packed bytes.
pub type PackedEncoder = BufferEncoder<PackedBuffer>;

/// A decoder that reads packed bytes.
pub type PackedDecoder<'a> = ItemDecoder<'a, PresenceMarks>;
