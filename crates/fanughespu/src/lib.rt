//! Octets of DER, of BER, of certificates and of messages of LDAP, for C: `libfanughespu.a`.
//!
//! | Function | What it answers of octets |
//! |---|---|
//! | [`fan_der_check`] | whether they are elements of DER, and where not |
//! | [`fan_der_element`], [`FanElement`] | the element with which they begin |
//! | [`fan_integer_text`] | the number of which they are the contents octets, as text |
//! | [`fan_ber_normal`] | the elements of BER that they are, with definite lengths of the fewest octets |
//! | [`fan_certificate_report`] | the report of the certificate that they are, or why there is none |
//! | [`fan_certificate_broken_rule`] | a rule of DER that they break as a certificate, and where |
//! | [`fan_certificate_part`] | where a part of the certificate that they are begins, and its length |
//! | [`fan_ldap_lines`] | the messages of LDAP with which they begin, as lines |
//! | [`fan_version`] | the version of these calls |
//!
//! A slice crosses to C as a pointer and a length, and `alloc` as nothing. Results go into the memory of the caller, and nothing is
//! kept after a call. The answer is a status (`specs/Statuses` of `fan_calls`). Each call states which it answers (`statuses`), and what
//! holds of each of them. The clauses tell which octets have it, too, but for these:
//!
//! - Octets that break a rule of DER may have FAN_OK or FAN_FAULT of [`fan_certificate_report`], and so may the DER of a certificate that
//!   is not valid, or whose parameters are not what they have to be.
//! - FAN_DEEP of [`fan_certificate_broken_rule`] comes of no others than octets that lie too deep, but these may have FAN_OK.
//! - FAN_ROOM comes of a result that does not fit. Since no contract covers the words of messages, the octets alone do not tell how
//!   long a text of [`fan_certificate_report`] or [`fan_ldap_lines`] is. FAN_MEMORY may always come of a call that takes memory.
//!
//! The linker, the header for C and the lengths that a caller hands in are outside of the proof (docs/EMBEDDING.md).
#![tactic(auto)]

mod ber;
mod certificate_parts;
mod certificate_reports;
mod certificate_rules;
mod elements;
mod integers;
mod ldap;
mod refusal;
mod version;

pub use ber::fan_ber_normal;
pub use certificate_parts::fan_certificate_part;
pub use certificate_reports::fan_certificate_report;
pub use certificate_rules::fan_certificate_broken_rule;
pub use elements::{FanElement, fan_der_check, fan_der_element};
pub use integers::fan_integer_text;
pub use ldap::fan_ldap_lines;
pub use version::fan_version;

#[cfg(test)]
mod tests;
