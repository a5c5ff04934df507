//! The types of whole numbers that the ends of a bound can have.
ghost use Rattle.std.specs.Prelude.{◌≡◌, ℤ, pos, ◌≤ℤ◌, ◌^◌, ◌-◌};
ghost use Rattle.std.specs.Int.{int_min};
ghost use Rattle.std.specs.Ordering.{int_cmp};
ghost use Rattle.std.proofs.Common.{rules, refl};
ghost use Rattle.asn1_ranges.specs.Count.{numbers_between, distance};

/// A type of whole numbers, as each built-in integer is: what a bound needs of the type of its ends.
///
/// In contracts `number` is the whole number that a value is, and `greatest` the greatest one of the type.
pub trait WholeNumber: Copy + Ord {
    // The whole number that a value is.
    ghost number: { Self → ℤ };

    // The greatest number of the type.
    ghost greatest: { ℤ };

    /// How many whole numbers there are from this one to `last`: none if `last` is below this one, and the
    /// greatest number of the type where there are more than it can tell.
    fn count_to(self, last: Self) -> Self
        ensures { number result ≡
            int_min (pos (numbers_between (number self) (number last))) greatest };

    /// How far this number is above `start`, where it is not below it and the type has a number for that. Otherwise
    /// some number of the type.
    fn offset_from(self, start: Self) -> Self
        ensures { number start ≤ℤ number self → distance number start self ≤ℤ greatest →
            number result ≡ distance number start self };

    // Values go in the order of their numbers.
    ghost ordered: { (a b : Self) → Self.cmp a b ≡ int_cmp (number a) (number b) };

    // No two values are the same number.
    ghost distinct: { (a b : Self) → number a ≡ number b → a ≡ b };
}

impl WholeNumber for u8 {
    ghost number = { pos };

    ghost greatest = { pos (2 ^ 8 - 1) };

    ghost ordered = { Prim.search rules };

    ghost distinct = { Prim.search rules };

    fn count_to(self, last: u8) -> u8 {
        if last < self {
            return 0;
        }
        last.saturating_sub(self).saturating_add(1)
    }

    fn offset_from(self, start: u8) -> u8 {
        self.saturating_sub(start)
    }
}

impl WholeNumber for u16 {
    ghost number = { pos };

    ghost greatest = { pos (2 ^ 16 - 1) };

    ghost ordered = { Prim.search rules };

    ghost distinct = { Prim.search rules };

    fn count_to(self, last: u16) -> u16 {
        if last < self {
            return 0;
        }
        last.saturating_sub(self).saturating_add(1)
    }

    fn offset_from(self, start: u16) -> u16 {
        self.saturating_sub(start)
    }
}

impl WholeNumber for u32 {
    ghost number = { pos };

    ghost greatest = { pos (2 ^ 32 - 1) };

    ghost ordered = { Prim.search rules };

    ghost distinct = { Prim.search rules };

    fn count_to(self, last: u32) -> u32 {
        if last < self {
            return 0;
        }
        last.saturating_sub(self).saturating_add(1)
    }

    fn offset_from(self, start: u32) -> u32 {
        self.saturating_sub(start)
    }
}

impl WholeNumber for u64 {
    ghost number = { pos };

    ghost greatest = { pos (2 ^ 64 - 1) };

    ghost ordered = { Prim.search rules };

    ghost distinct = { Prim.search rules };

    fn count_to(self, last: u64) -> u64 {
        if last < self {
            return 0;
        }
        last.saturating_sub(self).saturating_add(1)
    }

    fn offset_from(self, start: u64) -> u64 {
        self.saturating_sub(start)
    }
}

impl WholeNumber for u128 {
    ghost number = { pos };

    ghost greatest = { pos (2 ^ 128 - 1) };

    ghost ordered = { Prim.search rules };

    ghost distinct = { Prim.search rules };

    fn count_to(self, last: u128) -> u128 {
        if last < self {
            return 0;
        }
        last.saturating_sub(self).saturating_add(1)
    }

    fn offset_from(self, start: u128) -> u128 {
        self.saturating_sub(start)
    }
}

impl WholeNumber for usize {
    ghost number = { pos };

    ghost greatest = { pos (2 ^ 64 - 1) };

    ghost ordered = { Prim.search rules };

    ghost distinct = { Prim.search rules };

    fn count_to(self, last: usize) -> usize {
        if last < self {
            return 0;
        }
        last.saturating_sub(self).saturating_add(1)
    }

    fn offset_from(self, start: usize) -> usize {
        self.saturating_sub(start)
    }
}

impl WholeNumber for i8 {
    ghost number = { λ n. n };

    ghost greatest = { pos (2 ^ 7 - 1) };

    ghost ordered = { λ _ _. refl };

    ghost distinct = { λ _ _ same. same };

    fn count_to(self, last: i8) -> i8 {
        if last < self {
            return 0;
        }
        last.saturating_sub(self).saturating_add(1)
    }

    fn offset_from(self, start: i8) -> i8 {
        self.saturating_sub(start)
    }
}

impl WholeNumber for i16 {
    ghost number = { λ n. n };

    ghost greatest = { pos (2 ^ 15 - 1) };

    ghost ordered = { λ _ _. refl };

    ghost distinct = { λ _ _ same. same };

    fn count_to(self, last: i16) -> i16 {
        if last < self {
            return 0;
        }
        last.saturating_sub(self).saturating_add(1)
    }

    fn offset_from(self, start: i16) -> i16 {
        self.saturating_sub(start)
    }
}

impl WholeNumber for i32 {
    ghost number = { λ n. n };

    ghost greatest = { pos (2 ^ 31 - 1) };

    ghost ordered = { λ _ _. refl };

    ghost distinct = { λ _ _ same. same };

    fn count_to(self, last: i32) -> i32 {
        if last < self {
            return 0;
        }
        last.saturating_sub(self).saturating_add(1)
    }

    fn offset_from(self, start: i32) -> i32 {
        self.saturating_sub(start)
    }
}

impl WholeNumber for i64 {
    ghost number = { λ n. n };

    ghost greatest = { pos (2 ^ 63 - 1) };

    ghost ordered = { λ _ _. refl };

    ghost distinct = { λ _ _ same. same };

    fn count_to(self, last: i64) -> i64 {
        if last < self {
            return 0;
        }
        last.saturating_sub(self).saturating_add(1)
    }

    fn offset_from(self, start: i64) -> i64 {
        self.saturating_sub(start)
    }
}

impl WholeNumber for i128 {
    ghost number = { λ n. n };

    ghost greatest = { pos (2 ^ 127 - 1) };

    ghost ordered = { λ _ _. refl };

    ghost distinct = { λ _ _ same. same };

    fn count_to(self, last: i128) -> i128 {
        if last < self {
            return 0;
        }
        last.saturating_sub(self).saturating_add(1)
    }

    fn offset_from(self, start: i128) -> i128 {
        self.saturating_sub(start)
    }
}

impl WholeNumber for isize {
    ghost number = { λ n. n };

    ghost greatest = { pos (2 ^ 63 - 1) };

    ghost ordered = { λ _ _. refl };

    ghost distinct = { λ _ _ same. same };

    fn count_to(self, last: isize) -> isize {
        if last < self {
            return 0;
        }
        last.saturating_sub(self).saturating_add(1)
    }

    fn offset_from(self, start: isize) -> isize {
        self.saturating_sub(start)
    }
}

/// A type of whole numbers that an `i128` can hold, each of them.
pub trait FitsI128: WholeNumber {
    /// The number as an `i128`.
    fn to_i128(self) -> i128
        ensures { result ≡ Self.number self };
}

impl FitsI128 for u8 {
    fn to_i128(self) -> i128 {
        i128::from(self)
    }
}

impl FitsI128 for u16 {
    fn to_i128(self) -> i128 {
        i128::from(self)
    }
}

impl FitsI128 for u32 {
    fn to_i128(self) -> i128 {
        i128::from(self)
    }
}

impl FitsI128 for u64 {
    fn to_i128(self) -> i128 {
        i128::from(self)
    }
}

impl FitsI128 for i8 {
    fn to_i128(self) -> i128 {
        i128::from(self)
    }
}

impl FitsI128 for i16 {
    fn to_i128(self) -> i128 {
        i128::from(self)
    }
}

impl FitsI128 for i32 {
    fn to_i128(self) -> i128 {
        i128::from(self)
    }
}

impl FitsI128 for i64 {
    fn to_i128(self) -> i128 {
        i128::from(self)
    }
}

impl FitsI128 for i128 {
    fn to_i128(self) -> i128 {
        self
    }
}
