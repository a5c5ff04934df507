//! Why bytes were not read, or not written.
ghost use Rattle.asn1_items.specs.declared.error.ItemError.TheVariants.{Memory};
ghost use Rattle.asn1_items.specs.declared.error.BufferError.TheVariants as buffer_error;
ghost use Rattle.std.specs.Prelude.{◌≡◌};

use std::alloc::AllocError;
use thiserror::Error;

/// Why an item was not read.
#[derive(Clone, Copy, Debug, Drop, PartialEq, Eq, Error)]
pub enum ItemError {
    /// There was no memory for what was read.
    #[error("no memory")]
    Memory,
    /// The bytes end too early: this many are missing of the part that is read.
    #[error("{0} bytes are missing")]
    Missing(usize),
    /// The bytes are not those of what is read.
    #[error("bad item")]
    Malformed,
}

impl From<AllocError> for ItemError {
    ghost from_gives = { λ _ e. e ≡ Memory };

    fn from(_refused: AllocError) -> ItemError {
        ItemError::Memory
    }
}

/// Why an item was not written.
#[derive(Clone, Copy, Debug, Drop, PartialEq, Eq, Error)]
pub enum BufferError {
    /// There was no memory for the bytes.
    #[error("no memory")]
    Memory,
    /// The item has 2^32 bytes or more inside.
    #[error("item too long")]
    TooLong,
    /// Nothing is open that could be closed.
    #[error("nothing is open")]
    NotOpen,
}

impl From<AllocError> for BufferError {
    ghost from_gives = { λ _ e. e ≡ buffer_error.Memory };

    fn from(_refused: AllocError) -> BufferError {
        BufferError::Memory
    }
}
