//! The laws of the derived members of the error, and of its conversion.
ghost use Rattle.std.specs.Prelude.{◌≡◌, ◌↔◌, IsTrue};
ghost use Rattle.std.specs.declared.alloc.AllocError.{AllocError};
ghost use Rattle.asn1_report.specs.declared.error.CheckError.{CheckError};

use crate::error::CheckError;
use std::alloc::AllocError;

/// Errors of a check are equal if and only if they are the same case. A clone of an error is that error, and no clone
/// fails. A refused allocation becomes [`CheckError::Memory`].
///
/// The function does nothing: its contract states the laws of the derives and of the conversion.
pub fn errors_are_compared_by_case()
    ensures equality { (a b : CheckError) →
        (IsTrue (⟦<CheckError as PartialEq>⟧.eq a b) ↔ (a ≡ b)) }
    ensures clone { (a b : CheckError) → ⟦<CheckError as Clone>⟧.is_clone a b → b ≡ a }
    ensures clone_succeeds { (a : CheckError) → ⟦<CheckError as Clone>⟧.is_infallible a }
    ensures memory { (refused : AllocError) (error : CheckError) →
        ⟦<CheckError as From<AllocError>>⟧.from_gives refused error → error ≡ CheckError.Memory }
{}
