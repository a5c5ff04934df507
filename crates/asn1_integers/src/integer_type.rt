//! The interface that all types of whole numbers share (X.680, 19: the values of INTEGER are all whole numbers).
ghost use Rattle.std.specs.Prelude.{◌≡◌, ◌↔◌, ℤ, pos, ◌<ℤ◌, FitsSigned, IsTrue, IsOk, IsSome, IfSome, IfOk};
ghost use Rattle.std.specs.Int.{w128};
ghost use Rattle.std.specs.Option.{SomeIff};

mod conversions;
mod signed;
mod unsigned;

use crate::integer::Integer;
use std::alloc::{AllocError, Global};

/// A type of whole numbers: each built-in integer, and [`Integer`].
pub trait IntegerType: Sized {
    // The number of a value, and the numbers that values have.
    ghost number: { Self → ℤ };

    ghost fits: { ℤ → Type 0 };

    /// 0.
    fn zero() -> Self
        ensures { number result ≡ pos 0 };

    /// The number, if it is an `i128`.
    fn to_i128(&self) -> Option<i128>
        ensures { SomeIff result (FitsSigned w128 (number self.now)) (number self.now) };

    /// Whether the number is below 0.
    fn is_negative(&self) -> bool
        ensures { IsTrue result ↔ (number self.now <ℤ pos 0) };

    /// The number as an [`Integer`], which takes memory only if the number is no `i128`.
    fn to_integer(&self, alloc: Global) -> Result<Integer, AllocError>
        ensures same_number { IfOk result (λ integer. integer ≡ number self.now) }
        ensures fitting { fits (number self.now) }
        ensures succeeds { FitsSigned w128 (number self.now) → IsOk result };

    /// The value of this type with that number, if the type has one.
    fn try_from_integer(integer: Integer) -> Option<Self>
        ensures fitting { IsSome result ↔ fits integer }
        ensures same_number { IfSome result (λ value. number value ≡ integer) };

    // A value is known by its number.
    ghost injective: { (a b : Self) → number a ≡ number b → a ≡ b };
}

impl IntegerType for Integer {
    ghost use Rattle.std.specs.Prelude.{⊤};

    ghost number = { λ z. z };

    ghost fits = { λ _. ⊤ };

    ghost injective = { λ a b same. same };

    fn zero() -> Self {
        Integer::from_i128(0)
    }

    #[inline(always)]
    fn to_i128(&self) -> Option<i128> {
        Integer::to_i128(self)
    }

    fn is_negative(&self) -> bool {
        Integer::is_negative(self)
    }

    #[inline(always)]
    fn to_integer(&self, alloc: Global) -> Result<Integer, AllocError> {
        self.try_clone(alloc)
    }

    fn try_from_integer(integer: Integer) -> Option<Self> {
        Some(integer)
    }
}
