//! Built-in integers from an [`Integer`]: the value with that number, if the type has one.
ghost use Rattle.std.specs.Prelude.{FitsSigned, unsigned_abs};
ghost use Rattle.std.specs.Int.{FitsUnsigned, w8, w16, w32, w64, w128};
ghost use Rattle.std.specs.Result.{OkIff};

use crate::error::OutOfRangeError;
use crate::integer::Integer;
use crate::integer_type::IntegerType;

impl TryFrom<Integer> for u8 {
    type Error = OutOfRangeError;

    ghost try_from_gives = { λ z r. OkIff r (FitsUnsigned w8 z) (unsigned_abs z) };

    fn try_from(number: Integer) -> Result<Self, OutOfRangeError> {
        Self::try_from_integer(number).ok_or(OutOfRangeError)
    }
}

impl TryFrom<Integer> for u16 {
    type Error = OutOfRangeError;

    ghost try_from_gives = { λ z r. OkIff r (FitsUnsigned w16 z) (unsigned_abs z) };

    fn try_from(number: Integer) -> Result<Self, OutOfRangeError> {
        Self::try_from_integer(number).ok_or(OutOfRangeError)
    }
}

impl TryFrom<Integer> for u32 {
    type Error = OutOfRangeError;

    ghost try_from_gives = { λ z r. OkIff r (FitsUnsigned w32 z) (unsigned_abs z) };

    fn try_from(number: Integer) -> Result<Self, OutOfRangeError> {
        Self::try_from_integer(number).ok_or(OutOfRangeError)
    }
}

impl TryFrom<Integer> for u64 {
    type Error = OutOfRangeError;

    ghost try_from_gives = { λ z r. OkIff r (FitsUnsigned w64 z) (unsigned_abs z) };

    fn try_from(number: Integer) -> Result<Self, OutOfRangeError> {
        Self::try_from_integer(number).ok_or(OutOfRangeError)
    }
}

impl TryFrom<Integer> for u128 {
    type Error = OutOfRangeError;

    ghost try_from_gives = { λ z r. OkIff r (FitsUnsigned w128 z) (unsigned_abs z) };

    fn try_from(number: Integer) -> Result<Self, OutOfRangeError> {
        Self::try_from_integer(number).ok_or(OutOfRangeError)
    }
}

impl TryFrom<Integer> for usize {
    type Error = OutOfRangeError;

    ghost try_from_gives = { λ z r. OkIff r (FitsUnsigned w64 z) (unsigned_abs z) };

    fn try_from(number: Integer) -> Result<Self, OutOfRangeError> {
        Self::try_from_integer(number).ok_or(OutOfRangeError)
    }
}

impl TryFrom<Integer> for i8 {
    type Error = OutOfRangeError;

    ghost try_from_gives = { λ z r. OkIff r (FitsSigned w8 z) z };

    fn try_from(number: Integer) -> Result<Self, OutOfRangeError> {
        Self::try_from_integer(number).ok_or(OutOfRangeError)
    }
}

impl TryFrom<Integer> for i16 {
    type Error = OutOfRangeError;

    ghost try_from_gives = { λ z r. OkIff r (FitsSigned w16 z) z };

    fn try_from(number: Integer) -> Result<Self, OutOfRangeError> {
        Self::try_from_integer(number).ok_or(OutOfRangeError)
    }
}

impl TryFrom<Integer> for i32 {
    type Error = OutOfRangeError;

    ghost try_from_gives = { λ z r. OkIff r (FitsSigned w32 z) z };

    fn try_from(number: Integer) -> Result<Self, OutOfRangeError> {
        Self::try_from_integer(number).ok_or(OutOfRangeError)
    }
}

impl TryFrom<Integer> for i64 {
    type Error = OutOfRangeError;

    ghost try_from_gives = { λ z r. OkIff r (FitsSigned w64 z) z };

    fn try_from(number: Integer) -> Result<Self, OutOfRangeError> {
        Self::try_from_integer(number).ok_or(OutOfRangeError)
    }
}

impl TryFrom<Integer> for i128 {
    type Error = OutOfRangeError;

    ghost try_from_gives = { λ z r. OkIff r (FitsSigned w128 z) z };

    fn try_from(number: Integer) -> Result<Self, OutOfRangeError> {
        Self::try_from_integer(number).ok_or(OutOfRangeError)
    }
}

impl TryFrom<Integer> for isize {
    type Error = OutOfRangeError;

    ghost try_from_gives = { λ z r. OkIff r (FitsSigned w64 z) z };

    fn try_from(number: Integer) -> Result<Self, OutOfRangeError> {
        Self::try_from_integer(number).ok_or(OutOfRangeError)
    }
}
