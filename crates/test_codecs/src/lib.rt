//! Tests of the codecs over bytes by single calls, each written once and most run for the packed codec, the tag form, DER and BER.
//! Values and their bytes are lines of `test_vectors`; damaged bytes and refused growths are lines of `try_codecs`.
//!
//! | Module | What it tries |
//! |---|---|
//! | `calls` | each call of an encoder and of a decoder (`each_call_comes_back` of `test_calls`) |
//! | `encoding` | errors of writing, an encoder after an error, and a group without components |
//! | `decoding` | errors of reading, and a decoder after an error |
//! | `memory` | memory that a type wants for itself, beside the codec |
//! | `streams` | values one after another, out of bytes that come byte by byte |
//! | `recoding` | a value that goes from one codec to another |
//! | `der_buffers` | what a buffer of DER sorts and rejects |
//! | `der_decoder` | the order of a SET's elements, presence by the next tag, and long contents |
//! | `big_types` | types of many components, through DER |
//! | `price` | the first type of docs/TYPES.md, through packed bytes and DER |
#![tactic(auto)]

#[cfg(test)]
mod big_types;
#[cfg(test)]
mod calls;
#[cfg(test)]
mod cases;
#[cfg(test)]
mod decoding;
#[cfg(test)]
mod der_buffers;
#[cfg(test)]
mod der_decoder;
#[cfg(test)]
mod encoding;
#[cfg(test)]
mod memory;
#[cfg(test)]
mod price;
#[cfg(test)]
mod recoding;
#[cfg(test)]
mod streams;
