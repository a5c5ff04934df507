//! The errors of a check.
ghost use Rattle.std.specs.Prelude.{◌≡◌, Some};
ghost use Rattle.asn1_report.specs.Errors.{error_text};
ghost use Rattle.asn1_report.specs.declared.error.CheckError.TheVariants as errors;

use std::alloc::AllocError;
use std::error::Error;
use std::fmt;

/// Why a check ended before the end of its input.
#[derive(Clone, Copy, Debug, PartialEq, Eq)]
pub enum CheckError {
    /// A read failed, or 2^64 - 1 reads met no end of the input.
    Reading,
    /// A write failed.
    Writing,
    /// Memory ran out for a buffer, the leaves of a tree, a table or a line's text.
    Memory,
}

impl fmt::Display for CheckError {
    ghost output = { λ error. Some (error_text error) };

    fn fmt<W: fmt::Write>(&self, f: &mut fmt::Formatter<W>) -> fmt::Result {
        match self {
            CheckError::Reading => write!(f, "check: reading failed"),
            CheckError::Writing => write!(f, "check: writing failed"),
            CheckError::Memory => write!(f, "check: no memory"),
        }
    }
}

impl Error for CheckError {}

impl From<AllocError> for CheckError {
    ghost from_gives = { λ refused error. error ≡ errors.Memory };

    fn from(_refused: AllocError) -> Self {
        CheckError::Memory
    }
}
