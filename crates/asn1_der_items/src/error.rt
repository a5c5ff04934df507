//! Why an element was not written.
ghost use Rattle.asn1_der_items.specs.declared.error.ElementError.TheVariants.{Memory};
ghost use Rattle.std.specs.Prelude.{◌≡◌};

use std::alloc::AllocError;
use thiserror::Error;

/// Why an element was not written.
#[derive(Clone, Copy, Debug, Drop, PartialEq, Eq, Error)]
pub enum ElementError {
    /// There was no memory for the bytes.
    #[error("no memory")]
    Memory,
    /// There are fewer than two arcs, the first is above 2, or the second is above 39 after a first below 2.
    #[error("no such object identifier")]
    NoSuchArcs,
    /// A unit of a TeletexString is above 255.
    #[error("unit above 255")]
    WideUnit,
    /// There are fewer bytes than are to be left before the element.
    #[error("nothing is open")]
    NotOpen,
}

impl From<AllocError> for ElementError {
    ghost from_gives = { λ _ e. e ≡ Memory };

    fn from(_refused: AllocError) -> ElementError {
        ElementError::Memory
    }
}
