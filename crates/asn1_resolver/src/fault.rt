//! Why a part of a module was not resolved.
use std::alloc::{AllocError, AllocFailed};

/// Why a part of a module was not resolved.
#[derive(Clone, Copy, Debug, PartialEq, Eq)]
pub(crate) enum Fault {
    /// It is in error, and the error was reported.
    Refused,
    /// Memory ran out.
    Memory,
}

impl From<AllocError> for Fault {
    fn from(_refused: AllocError) -> Self {
        Fault::Memory
    }
}

impl<T: Drop> From<AllocFailed<T>> for Fault {
    fn from(_refused: AllocFailed<T>) -> Self {
        Fault::Memory
    }
}
