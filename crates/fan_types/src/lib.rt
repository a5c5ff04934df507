//! Octets of values of one's own types, for C: the calls that a static library over a crate of types has for each type.
//!
//! | Item | What it answers of octets | In `specs/` |
//! |---|---|---|
//! | [`check`] | whether they are the DER of a value of the type, and if not where and why | `Checks`, `OpenTypes` |
//! | [`der`] | the DER of the value that they are in BER | `Conversions` |
//! | [`text`], [`json`] | the text of that value in X.680's notation, and its JSON | `Conversions` |
//!
//! The answer is the number of a status (`specs/Statuses` of `fan_calls`). `asn1_print_calls` prints the static library of a crate of
//! types, whose exports are one call of these each; a static library cannot be named by another crate, so these are in a library.
//!
//! The contracts promise:
//!
//! - FAN_OK of [`check`] comes only of octets that are the DER of a value of the type, with at most 64 nested scopes (`der`), and that
//!   break no rule of X.690 that reading asks for, also inside open types (`keeps`). In that value each number that is written is within
//!   the limits of its type, and each open type holds one element. No clause says that a group of additions in it has a component; a
//!   group without one has the records of a group that is absent.
//! - Octets that are the only DER of a valid value of a well-tagged type and keep these rules have FAN_OK, with scopes nested at most 64
//!   deep; or FAN_DEEP, only if they or elements are nested deeper; or FAN_MEMORY (`found`). Octets with records that the type refuses
//!   never have FAN_OK (`admitted`).
//! - FAN_FAULT, FAN_ROOM and FAN_DEEP of [`check`] come of octets that `check_der` may refuse so (`refused`, `deep`); FAN_ROOM if the
//!   reason does not fit (`no_room`). The position is one of the octets or their end (`within`). With another status neither the position
//!   nor the size is written (`no_position`, `no_size`).
//! - What [`der`], [`text`] and [`json`] write with FAN_OK is what `convert_value` of asn1_convert may make of the octets (`written`).
//!   FAN_FAULT and FAN_DEEP come only of octets for which it may fail so (`refused`, `deep`), FAN_ROOM only of a result that does not fit
//!   (`no_room`); then nothing is written (`stays`), but the size with FAN_ROOM (`no_size`).
//!
//! No contract covers which position a refusal has, its words, and texts in X.680's notation.
#![tactic(auto)]

mod checking;
mod conversion;
mod refusal;

pub use checking::check;
pub use conversion::{der, json, text};

#[cfg(test)]
mod tests;
