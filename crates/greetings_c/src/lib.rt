//! Octets of values of the types of `greetings`, for C: `libgreetings_c.a`.
//!
//! For each type `TYPE_check` tells whether octets are the DER of a value, and if not where and why. `TYPE_der` writes the value whose BER
//! octets are as DER, `TYPE_text` in X.680's notation, and `TYPE_json` as JSON. Each is one call of `fan_types`, which has its page.
//! The header, the Python and the Rust module are beside the folder of this file.
#![tactic(auto)]

pub mod audience;
pub mod greeting;
