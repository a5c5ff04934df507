//! The error of this crate's conversions.
use thiserror::Error;

/// A number that is none of a type's.
#[derive(Debug, Clone, Copy, PartialEq, Eq, Error)]
#[error("number out of range")]
pub struct OutOfRangeError;
