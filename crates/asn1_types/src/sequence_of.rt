//! SEQUENCE OF (X.680, 26).

/// A SEQUENCE OF is a vector of its elements (rasn's `SequenceOf`).
pub type SequenceOf<T> = Vec<T>;
