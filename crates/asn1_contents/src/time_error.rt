//! Why numbers make no time.
use std::alloc::AllocError;

/// Why numbers make no DATE or no TIME-OF-DAY.
#[derive(Clone, Copy, Debug, Drop, PartialEq, Eq)]
pub enum TimeError {
    /// They are no day or no time.
    NoSuchTime,
    /// Memory ran out.
    Memory,
}

impl From<AllocError> for TimeError {
    ghost use Rattle.std.specs.Prelude.{◌≡◌};
    ghost use Rattle.asn1_contents.specs.declared.time_error.TimeError.TheVariants.{Memory};

    ghost from_gives = { λ _ error. error ≡ Memory };

    fn from(_error: AllocError) -> TimeError {
        TimeError::Memory
    }
}
