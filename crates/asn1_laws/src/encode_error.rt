//! Why a value was not written.
ghost use Rattle.std.specs.Prelude.{◌≡◌};
ghost use Rattle.asn1_laws.specs.declared.encode_error.EncodeError.TheVariants.{Memory};

use std::alloc::AllocError;
use thiserror::Error;

/// Why a value was not written. After an error the encoder has failed: each later call of it answers [`EncodeError::Failed`].
#[derive(Clone, Copy, Debug, Drop, PartialEq, Eq, Error)]
pub enum EncodeError {
    /// There was no memory.
    #[error("no memory")]
    Memory,
    /// The value's records are nested deeper than the depth left of the encoder.
    #[error("nested too deep")]
    Depth,
    /// An earlier call of the encoder failed.
    #[error("the encoder has failed")]
    Failed,
    /// The codec rejects these records, by a message of its own.
    #[error("{0}")]
    Custom(&'static str),
}

impl From<AllocError> for EncodeError {
    ghost from_gives = { λ _ e. e ≡ Memory };

    fn from(_refused: AllocError) -> EncodeError {
        EncodeError::Memory
    }
}
