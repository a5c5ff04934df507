//! Integers from the built-in integers of at most 64 bits and from an `i128`, and 0 as their default.
ghost use Rattle.std.specs.Prelude.{◌≡◌, pos};

use crate::integer::Integer;

impl Default for Integer {
    ghost is_default = { λ z. z ≡ pos 0 };

    fn default() -> Self {
        Self::from_i128(0)
    }
}

impl From<i128> for Integer {
    ghost from_gives = { λ n z. z ≡ n };

    fn from(number: i128) -> Self {
        Self::from_i128(number)
    }
}

impl From<u64> for Integer {
    ghost from_gives = { λ n z. z ≡ pos n };

    fn from(number: u64) -> Self {
        Self::from_i128(i128::from(number))
    }
}

impl From<u8> for Integer {
    ghost from_gives = { λ n z. z ≡ pos n };

    fn from(number: u8) -> Self {
        Self::from_i128(i128::from(number))
    }
}

impl From<u16> for Integer {
    ghost from_gives = { λ n z. z ≡ pos n };

    fn from(number: u16) -> Self {
        Self::from_i128(i128::from(number))
    }
}

impl From<u32> for Integer {
    ghost from_gives = { λ n z. z ≡ pos n };

    fn from(number: u32) -> Self {
        Self::from_i128(i128::from(number))
    }
}

impl From<usize> for Integer {
    ghost from_gives = { λ n z. z ≡ pos n };

    fn from(number: usize) -> Self {
        Self::from_i128(number as i128)
    }
}

impl From<i8> for Integer {
    ghost from_gives = { λ n z. z ≡ n };

    fn from(number: i8) -> Self {
        Self::from_i128(i128::from(number))
    }
}

impl From<i16> for Integer {
    ghost from_gives = { λ n z. z ≡ n };

    fn from(number: i16) -> Self {
        Self::from_i128(i128::from(number))
    }
}

impl From<i32> for Integer {
    ghost from_gives = { λ n z. z ≡ n };

    fn from(number: i32) -> Self {
        Self::from_i128(i128::from(number))
    }
}

impl From<i64> for Integer {
    ghost from_gives = { λ n z. z ≡ n };

    fn from(number: i64) -> Self {
        Self::from_i128(i128::from(number))
    }
}

impl From<isize> for Integer {
    ghost from_gives = { λ n z. z ≡ n };

    fn from(number: isize) -> Self {
        Self::from_i128(number as i128)
    }
}
