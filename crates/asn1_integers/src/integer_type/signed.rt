//! The signed integers.
ghost use Rattle.std.specs.Prelude.{FitsSigned};
ghost use Rattle.std.specs.Int.{w8, w16, w32, w64, w128};

use crate::integer::Integer;
use crate::integer_type::IntegerType;
use std::alloc::{AllocError, Global};

impl IntegerType for i8 {
    ghost number = { λ z. z };

    ghost fits = { FitsSigned w8 };

    ghost injective = { λ a b same. same };

    fn zero() -> Self {
        0
    }

    fn to_i128(&self) -> Option<i128> {
        Some(i128::from(*self))
    }

    fn is_negative(&self) -> bool {
        *self < 0
    }

    fn to_integer(&self, _alloc: Global) -> Result<Integer, AllocError> {
        Ok(Integer::from_i128(i128::from(*self)))
    }

    fn try_from_integer(integer: Integer) -> Option<Self> {
        let number = integer.into_i128()?;
        i8::try_from(number).ok()
    }
}

impl IntegerType for i16 {
    ghost number = { λ z. z };

    ghost fits = { FitsSigned w16 };

    ghost injective = { λ a b same. same };

    fn zero() -> Self {
        0
    }

    fn to_i128(&self) -> Option<i128> {
        Some(i128::from(*self))
    }

    fn is_negative(&self) -> bool {
        *self < 0
    }

    fn to_integer(&self, _alloc: Global) -> Result<Integer, AllocError> {
        Ok(Integer::from_i128(i128::from(*self)))
    }

    fn try_from_integer(integer: Integer) -> Option<Self> {
        let number = integer.into_i128()?;
        i16::try_from(number).ok()
    }
}

impl IntegerType for i32 {
    ghost number = { λ z. z };

    ghost fits = { FitsSigned w32 };

    ghost injective = { λ a b same. same };

    fn zero() -> Self {
        0
    }

    fn to_i128(&self) -> Option<i128> {
        Some(i128::from(*self))
    }

    fn is_negative(&self) -> bool {
        *self < 0
    }

    fn to_integer(&self, _alloc: Global) -> Result<Integer, AllocError> {
        Ok(Integer::from_i128(i128::from(*self)))
    }

    fn try_from_integer(integer: Integer) -> Option<Self> {
        let number = integer.into_i128()?;
        i32::try_from(number).ok()
    }
}

impl IntegerType for i64 {
    ghost number = { λ z. z };

    ghost fits = { FitsSigned w64 };

    ghost injective = { λ a b same. same };

    fn zero() -> Self {
        0
    }

    fn to_i128(&self) -> Option<i128> {
        Some(i128::from(*self))
    }

    fn is_negative(&self) -> bool {
        *self < 0
    }

    fn to_integer(&self, _alloc: Global) -> Result<Integer, AllocError> {
        Ok(Integer::from_i128(i128::from(*self)))
    }

    fn try_from_integer(integer: Integer) -> Option<Self> {
        let number = integer.into_i128()?;
        i64::try_from(number).ok()
    }
}

impl IntegerType for i128 {
    ghost number = { λ z. z };

    ghost fits = { FitsSigned w128 };

    ghost injective = { λ a b same. same };

    fn zero() -> Self {
        0
    }

    fn to_i128(&self) -> Option<i128> {
        Some(*self)
    }

    fn is_negative(&self) -> bool {
        *self < 0
    }

    fn to_integer(&self, _alloc: Global) -> Result<Integer, AllocError> {
        Ok(Integer::from_i128(*self))
    }

    fn try_from_integer(integer: Integer) -> Option<Self> {
        integer.into_i128()
    }
}

impl IntegerType for isize {
    ghost number = { λ z. z };

    ghost fits = { FitsSigned w64 };

    ghost injective = { λ a b same. same };

    fn zero() -> Self {
        0
    }

    fn to_i128(&self) -> Option<i128> {
        Some(*self as i128)
    }

    fn is_negative(&self) -> bool {
        *self < 0
    }

    fn to_integer(&self, _alloc: Global) -> Result<Integer, AllocError> {
        Ok(Integer::from_i128(*self as i128))
    }

    fn try_from_integer(integer: Integer) -> Option<Self> {
        let number = integer.into_i128()?;
        isize::try_from(number).ok()
    }
}
