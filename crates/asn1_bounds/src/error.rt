//! The errors of this crate.
use std::alloc::AllocError;
use thiserror::Error;

/// A bound of lengths has an end that no value constraint can hold, being above the greatest `i128`.
#[derive(Clone, Copy, Debug, Drop, PartialEq, Eq, Error)]
#[error("bound does not fit")]
pub struct TooWide;

/// Why an inner type constraint (X.680, 51.8) refuses a value, with the name of the component at fault.
#[derive(Clone, Copy, Debug, Drop, PartialEq, Eq, Error)]
pub enum InnerSubtypeConstraintError {
    /// A component that must be there is not.
    #[error("missing {0}")]
    Missing(&'static str),
    /// A component that must not be there is.
    #[error("unexpected {0}")]
    Unexpected(&'static str),
    /// A component has a value that it may not have.
    #[error("wrong value of {0}")]
    Value(&'static str),
    /// The contents of a component, in the bytes of a codec, could not be read or break the constraint.
    #[error("wrong content of {0}")]
    Contained(&'static str),
    /// There was no memory to find out.
    #[error("no memory")]
    Memory,
}

impl From<AllocError> for InnerSubtypeConstraintError {
    ghost use Rattle.std.specs.Prelude.{◌≡◌};
    ghost use Rattle.asn1_bounds.specs.declared.error.InnerSubtypeConstraintError.TheVariants.{Memory};

    ghost from_gives = { λ _ error. error ≡ Memory };

    fn from(_error: AllocError) -> Self {
        InnerSubtypeConstraintError::Memory
    }
}
