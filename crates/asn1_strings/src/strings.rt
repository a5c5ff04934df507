//! The kinds of string. Each is a name for one of two types, whose last argument tells the kinds apart (`kind`).
pub(crate) mod alphabet_string;
pub(crate) mod ascii_text;
pub(crate) mod binary;
pub(crate) mod bit_vec;
pub(crate) mod character;
pub(crate) mod named_bits;
pub(crate) mod string_unit;
mod texts;
pub(crate) mod unit_string;
