//! The error of this crate.
ghost use Rattle.std.specs.Prelude.{◌≡◌};
ghost use Rattle.asn1_tags.specs.declared.error.VariantsError.TheVariants.{Memory};

use std::alloc::AllocError;
use thiserror::Error;

/// Why there is no `Variants` of these trees with this table.
#[derive(Clone, Copy, Debug, Drop, PartialEq, Eq, Error)]
pub enum VariantsError {
    /// There was no memory for the tags.
    #[error("no memory")]
    Memory,
    /// The table does not fit the tags. The index is that of the first entry that fails, or the
    /// shorter length where the lengths differ and no entry below it fails.
    #[error("table entry {0} does not fit")]
    TableMismatch(usize),
}

impl From<AllocError> for VariantsError {
    ghost from_gives = { λ _ e. e ≡ Memory };

    fn from(_refused: AllocError) -> VariantsError {
        VariantsError::Memory
    }
}
