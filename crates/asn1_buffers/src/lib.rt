//! One encoder over any buffer in which the bytes of records are put together; whole values, written and read.
//!
//! | Item | What it is |
//! |---|---|
//! | [`RecordBuffer`] | a buffer of the bytes of records, in the form of a codec |
//! | [`BufferEncoder`] | the encoder over it |
//! | [`write_whole`], [`read_whole`] | write a value to bytes, and read one of all bytes |
//! | [`WholeDecoder`] | a decoder of a whole input |
//! | [`MarkKind`], [`ScopeKind`] | the kinds of presence marks and of scopes |
//! | [`WriteError`] | why something was not written |
//! | [`laws`] | what types see of the encoder, and what the derives give |
//!
//! A buffer says what has been written in it, in the order of the records (`BufferForm` of `specs/Buffers.antt`), and nothing of
//! the depth, of what follows an error, or of orders that mean the same; these are the encoder's.
//!
//! Promises, and the words of the contracts:
//!
//! - The encoder keeps the laws of every encoder (`Encoder`). It has written what its buffer has; as types see it, the order
//!   inside sets means nothing (`buffer_writer` of `specs/Encoder.antt`). It rejects the records that the buffer rejects, up to
//!   order, and no others. So an error of a type's writing is `Memory`, `Depth`, `Custom` with a text of the buffer or, after
//!   another error, `Failed`. A `Custom` of the encoder's own, with the text `nothing is open`, comes only where a scope is closed
//!   and none is open, which always fails (`none_open` of `close`).
//! - Scopes may come back in another order than they were written: a buffer may sort what is in a set when the set ends
//!   (`ScopeIsHeld`).
//! - The format of a codec that writes in a buffer (`buffer_format` of `specs/Format.antt`) keeps to its law, and
//!   [`write_whole`] writes by it.
//! - [`read_whole`] reads back equal a value whose own records remain (`read`), refuses the records that its type refuses
//!   (`refuses`), and refuses trailing records (`none_left`; the words are in `specs/CompleteInput.antt`). Whatever remains, the answer
//!   was read of all of it (`only`).
#![tactic(auto)]

mod buffer;
mod encoder;
mod error;
pub mod laws;
mod whole;

pub use asn1_items::{MarkKind, ScopeKind};
pub use buffer::RecordBuffer;
pub use encoder::BufferEncoder;
pub use error::WriteError;
pub use whole::{WholeDecoder, read_whole, write_whole};
