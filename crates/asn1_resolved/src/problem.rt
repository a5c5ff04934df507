//! Problems.
use asn1_names::Place;

/// What is wrong with a module.
#[derive(Drop)]
pub struct Problem {
    /// The place.
    pub place: Place,
    /// Whether the module can be used.
    pub severity: Severity,
    /// The text, in a user's words.
    pub text: Vec<u8>,
}

/// Whether a module with a problem can be used.
#[derive(Clone, Copy, Debug, PartialEq, Eq)]
pub enum Severity {
    /// It cannot.
    Error,
    /// It can.
    Warning,
}
