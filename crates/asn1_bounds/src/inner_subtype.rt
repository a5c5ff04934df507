//! Constraints of components (X.680, 51.8).
ghost use Rattle.std.specs.Prelude.{Option, None, Result};

use crate::codec::Codec;
use crate::error::InnerSubtypeConstraintError;
use std::alloc::Global;

/// A type with an inner type constraint (X.680, 51.8), which says of components that they are there, are not there, or
/// hold certain values.
///
/// Both calls take the value itself: one that the constraint admits comes back, and one that it refuses is dropped.
/// An implementation looks at the components in the order that it states, and names the first that is at fault.
pub trait InnerSubtypeConstraint: Sized {
    ghost use Rattle.asn1_bounds.specs.declared.codec.Codec.{Codec};
    ghost use Rattle.asn1_bounds.specs.declared.error.InnerSubtypeConstraintError.{InnerSubtypeConstraintError};

    // The possible answers for a value if its contents are decoded with this codec, or are left alone if there
    // is none. Each implementation states its own, so that a caller who knows the type knows the answer.
    ghost validation_gives: { Self → Option Codec → Result Self InnerSubtypeConstraintError → Type 0 };

    /// The value, where the constraint admits it. With a codec, what components contain in that codec's bytes is decoded
    /// and has to meet the constraint too; without one it is not looked at.
    ///
    /// [`InnerSubtypeConstraintError::Memory`] comes only if memory was needed and there was none.
    fn validate_and_decode_containing(
        self,
        alloc: Global,
        decode_containing_with: Option<Codec>,
    ) -> Result<Self, InnerSubtypeConstraintError>
        ensures { validation_gives self decode_containing_with result };

    /// The value, where the constraint admits it, with no look at what components contain.
    final fn validate_components(self, alloc: Global) -> Result<Self, InnerSubtypeConstraintError>
        ensures { validation_gives self None result }
    {
        self.validate_and_decode_containing(alloc, None)
    }
}
