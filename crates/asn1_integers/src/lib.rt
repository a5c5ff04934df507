//! The numbers below ASN.1's types: whole numbers of any size, and whole numbers within limits.
//!
//! The crate is below the bounds, types and codecs of the schema layer. A codec gives and takes numbers of these types, and
//! a constrained number guards its limits. Strings and names of objects are in `asn1_strings`, and neither crate uses the
//! other.
//!
//! | Type | What it is | Contracts see |
//! |---|---|---|
//! | [`Integer`] | a whole number of any size | its number |
//! | [`IntegerType`] | what the built-in integers and `Integer` have in common | `number`, and the numbers that fit |
//! | [`ConstrainedInteger`], [`LimitedInteger`] | a whole number from a least to a greatest one | its number |
//! | [`OutOfRangeError`] | why a built-in integer was not made | |
//!
//! The module [`laws`] says by contracts what derives, aliases and definitions give.
//!
//! The contracts promise, in these words:
//!
//! - A number goes into an `Integer` and comes back: `Integer::from_sign_magnitude` gives the number of
//!   the sign and the bytes, `signed` and `magnitude` of `specs/Numbers.antt`, and `sign_magnitude` gives
//!   them back (`number`) with no leading zero (`shortest`). `to_i128` answers if and only if the number
//!   fits. Equality, order and hash are those of the number.
//! - `Integer` is also made by `From` of an `i128` and of each built-in integer of at most 64 bits, copied by `try_clone`
//!   (`number`), and made by `Default`, which is 0. Each built-in integer
//!   is made by `TryFrom<Integer>` if and only if the number fits it, else the error is [`OutOfRangeError`].
//! - An `Integer` is written as `integer_text` of `specs/Text.antt`: in decimal digits; so is a `LimitedInteger`.
//! - `IntegerType::try_from_integer` answers if and only if the number fits the type (`fitting`), and with
//!   the value of that number (`same_number`). Two values with one number are equal (`injective`).
//! - `LimitedInteger::new` succeeds if and only if the number is within the limits (`within`).
//!
//! Calls that take memory take the allocator, and fail only if memory runs out: `from_sign_magnitude`,
//! `sign_magnitude`, `try_clone` and `to_integer`. All but the second take none for a number of 128 bits
//! (`succeeds`).
#![tactic(auto)]

mod constrained;
mod decimal;
mod error;
mod integer;
mod integer_type;
pub mod laws;
mod magnitude;

pub use constrained::{Between, ConstrainedInteger, LimitedInteger, Limits};
pub use error::OutOfRangeError;
pub use integer::Integer;
pub use integer_type::IntegerType;
