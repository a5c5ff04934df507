//! Why something was not written.
ghost use Rattle.asn1_buffers.specs.declared.error.WriteError.TheVariants.{Memory};
ghost use Rattle.asn1_items.specs.declared.error.BufferError.TheVariants as buffer_error;
ghost use Rattle.std.specs.Prelude.{◌≡◌, ◌↔◌};

use asn1_items::BufferError;
use std::alloc::AllocError;
use thiserror::Error;

/// Why something was not written in a buffer.
#[derive(Clone, Copy, Debug, Drop, PartialEq, Eq, Error)]
pub enum WriteError {
    /// There was no memory.
    #[error("no memory")]
    Memory,
    /// It has no bytes in the form of the buffer, or nothing is open that could be closed.
    #[error("{0}")]
    Rejected(&'static str),
}

impl From<AllocError> for WriteError {
    ghost from_gives = { λ _ e. e ≡ Memory };

    fn from(_refused: AllocError) -> WriteError {
        WriteError::Memory
    }
}

impl From<BufferError> for WriteError {
    ghost from_gives = { λ error e. (e ≡ Memory) ↔ (error ≡ buffer_error.Memory) };

    #[cold]
    fn from(error: BufferError) -> WriteError {
        match error {
            BufferError::Memory => WriteError::Memory,
            BufferError::TooLong => WriteError::Rejected("item too long"),
            BufferError::NotOpen => WriteError::Rejected("nothing is open"),
        }
    }
}
