//! The unsigned integers.
ghost use Rattle.std.specs.Prelude.{pos};
ghost use Rattle.std.specs.Int.{FitsUnsigned, w8, w16, w32, w64, w128};

use crate::integer::Integer;
use crate::integer_type::IntegerType;
use crate::magnitude;
use std::alloc::{AllocError, Global};

impl IntegerType for u8 {
    ghost number = { pos };

    ghost fits = { FitsUnsigned w8 };

    ghost injective = { λ a b same. Prim.cc };

    fn zero() -> Self {
        0
    }

    fn to_i128(&self) -> Option<i128> {
        Some(i128::from(*self))
    }

    fn is_negative(&self) -> bool {
        false
    }

    fn to_integer(&self, _alloc: Global) -> Result<Integer, AllocError> {
        Ok(Integer::from_i128(i128::from(*self)))
    }

    fn try_from_integer(integer: Integer) -> Option<Self> {
        let number = integer.into_i128()?;
        u8::try_from(number).ok()
    }
}

impl IntegerType for u16 {
    ghost number = { pos };

    ghost fits = { FitsUnsigned w16 };

    ghost injective = { λ a b same. Prim.cc };

    fn zero() -> Self {
        0
    }

    fn to_i128(&self) -> Option<i128> {
        Some(i128::from(*self))
    }

    fn is_negative(&self) -> bool {
        false
    }

    fn to_integer(&self, _alloc: Global) -> Result<Integer, AllocError> {
        Ok(Integer::from_i128(i128::from(*self)))
    }

    fn try_from_integer(integer: Integer) -> Option<Self> {
        let number = integer.into_i128()?;
        u16::try_from(number).ok()
    }
}

impl IntegerType for u32 {
    ghost number = { pos };

    ghost fits = { FitsUnsigned w32 };

    ghost injective = { λ a b same. Prim.cc };

    fn zero() -> Self {
        0
    }

    fn to_i128(&self) -> Option<i128> {
        Some(i128::from(*self))
    }

    fn is_negative(&self) -> bool {
        false
    }

    fn to_integer(&self, _alloc: Global) -> Result<Integer, AllocError> {
        Ok(Integer::from_i128(i128::from(*self)))
    }

    fn try_from_integer(integer: Integer) -> Option<Self> {
        let number = integer.into_i128()?;
        u32::try_from(number).ok()
    }
}

impl IntegerType for u64 {
    ghost number = { pos };

    ghost fits = { FitsUnsigned w64 };

    ghost injective = { λ a b same. Prim.cc };

    fn zero() -> Self {
        0
    }

    fn to_i128(&self) -> Option<i128> {
        Some(i128::from(*self))
    }

    fn is_negative(&self) -> bool {
        false
    }

    fn to_integer(&self, _alloc: Global) -> Result<Integer, AllocError> {
        Ok(Integer::from_i128(i128::from(*self)))
    }

    fn try_from_integer(integer: Integer) -> Option<Self> {
        let number = integer.into_i128()?;
        u64::try_from(number).ok()
    }
}

impl IntegerType for u128 {
    ghost number = { pos };

    ghost fits = { FitsUnsigned w128 };

    ghost injective = { λ a b same. Prim.cc };

    fn zero() -> Self {
        0
    }

    fn to_i128(&self) -> Option<i128> {
        i128::try_from(*self).ok()
    }

    fn is_negative(&self) -> bool {
        false
    }

    fn to_integer(&self, alloc: Global) -> Result<Integer, AllocError> {
        Integer::from_sign_magnitude(alloc, false, &magnitude::from_u128(*self))
    }

    fn try_from_integer(integer: Integer) -> Option<Self> {
        integer.to_u128()
    }
}

impl IntegerType for usize {
    ghost number = { pos };

    ghost fits = { FitsUnsigned w64 };

    ghost injective = { λ a b same. Prim.cc };

    fn zero() -> Self {
        0
    }

    fn to_i128(&self) -> Option<i128> {
        Some(*self as i128)
    }

    fn is_negative(&self) -> bool {
        false
    }

    fn to_integer(&self, _alloc: Global) -> Result<Integer, AllocError> {
        Ok(Integer::from_i128(*self as i128))
    }

    fn try_from_integer(integer: Integer) -> Option<Self> {
        let number = integer.into_i128()?;
        usize::try_from(number).ok()
    }
}
