//! Laws of the derives of bounds, and of the ghost members that an impl states for itself.
ghost use Rattle.std.specs.Prelude.{◌≡◌, ◌-◌, ◌^◌, Some, ℕ, ℤ, pos};
ghost use Rattle.asn1_ranges.specs.declared.bounded.Bounded.{Bounded};
ghost use Rattle.asn1_ranges.specs.BoundComparison.{IsExactEquality, ClonesExactly, bound_eq, bound_cmp, bound_hash};
ghost use Rattle.asn1_ranges.specs.Text.{bound_text};

use crate::bounded::Bounded;
use crate::number::WholeNumber;
use std::fmt;
use std::hash::Hash;

/// Bounds are equal if they are of one kind with equal ends. No bound is below each single, and a single below each
/// range; of two ranges the lesser start is first, then the lesser end, and a missing one is below each other. The
/// hash is fed the kind and the ends. The default is no bound.
pub fn bounds_are_compared_by_ends<T: Ord + Hash>()
    ensures equality { (a b : Bounded T) → ⟦<Bounded<T> as PartialEq>⟧.eq a b ≡ bound_eq T.eq a b }
    ensures order { (a b : Bounded T) → ⟦<Bounded<T> as Ord>⟧.cmp a b ≡ bound_cmp T.cmp a b }
    ensures partial_order { (a b : Bounded T) →
        ⟦<Bounded<T> as PartialOrd>⟧.partial_cmp a b ≡ Some (⟦<Bounded<T> as Ord>⟧.cmp a b) }
    ensures hash { (a : Bounded T) → ⟦<Bounded<T> as Hash>⟧.hash_input a ≡
        bound_hash T.hash_input a }
    ensures default { (a : Bounded T) → ⟦<Bounded<T> as Default>⟧.is_default a → a ≡ Bounded.None }
{}

/// Two bounds of values, or of lengths, are equal if and only if they are the same bound, and a clone is its source.
pub fn bounds_of_numbers_are_equal_only_to_themselves()
    ensures values { IsExactEquality ⟦<Bounded<i128> as PartialEq>⟧.eq }
    ensures lengths { IsExactEquality ⟦<Bounded<usize> as PartialEq>⟧.eq }
    ensures clone { ClonesExactly ⟦<Bounded<i128> as Clone>⟧.is_clone
        ⟦<Bounded<i128> as Clone>⟧.is_infallible }
{}

/// The text of a bound is that of its ends, with two dots between those of a range.
pub fn bounds_are_printed_by_ends<T: fmt::Display>()
    ensures { (a : Bounded T) → ⟦<Bounded<T> as fmt::Display>⟧.output a ≡ bound_text T.output a }
{}

/// The number that a value of a built-in integer type represents in contracts is the value.
pub fn whole_numbers_are_their_values()
    ensures of_u8 { (n : ℕ) → ⟦<u8 as WholeNumber>⟧.number n ≡ pos n }
    ensures of_u16 { (n : ℕ) → ⟦<u16 as WholeNumber>⟧.number n ≡ pos n }
    ensures of_u32 { (n : ℕ) → ⟦<u32 as WholeNumber>⟧.number n ≡ pos n }
    ensures of_u64 { (n : ℕ) → ⟦<u64 as WholeNumber>⟧.number n ≡ pos n }
    ensures of_u128 { (n : ℕ) → ⟦<u128 as WholeNumber>⟧.number n ≡ pos n }
    ensures of_usize { (n : ℕ) → ⟦<usize as WholeNumber>⟧.number n ≡ pos n }
    ensures of_i8 { (n : ℤ) → ⟦<i8 as WholeNumber>⟧.number n ≡ n }
    ensures of_i16 { (n : ℤ) → ⟦<i16 as WholeNumber>⟧.number n ≡ n }
    ensures of_i32 { (n : ℤ) → ⟦<i32 as WholeNumber>⟧.number n ≡ n }
    ensures of_i64 { (n : ℤ) → ⟦<i64 as WholeNumber>⟧.number n ≡ n }
    ensures of_i128 { (n : ℤ) → ⟦<i128 as WholeNumber>⟧.number n ≡ n }
    ensures of_isize { (n : ℤ) → ⟦<isize as WholeNumber>⟧.number n ≡ n }
{}

/// The greatest number of a built-in integer type is that of its width: of `w` bits one below 2 to the power of `w`, and of
/// `w - 1` where the type is signed.
pub fn whole_numbers_end_where_their_widths_do()
    ensures of_u8 { ⟦<u8 as WholeNumber>⟧.greatest ≡ pos (2 ^ 8 - 1) }
    ensures of_u16 { ⟦<u16 as WholeNumber>⟧.greatest ≡ pos (2 ^ 16 - 1) }
    ensures of_u32 { ⟦<u32 as WholeNumber>⟧.greatest ≡ pos (2 ^ 32 - 1) }
    ensures of_u64 { ⟦<u64 as WholeNumber>⟧.greatest ≡ pos (2 ^ 64 - 1) }
    ensures of_u128 { ⟦<u128 as WholeNumber>⟧.greatest ≡ pos (2 ^ 128 - 1) }
    ensures of_usize { ⟦<usize as WholeNumber>⟧.greatest ≡ pos (2 ^ 64 - 1) }
    ensures of_i8 { ⟦<i8 as WholeNumber>⟧.greatest ≡ pos (2 ^ 7 - 1) }
    ensures of_i16 { ⟦<i16 as WholeNumber>⟧.greatest ≡ pos (2 ^ 15 - 1) }
    ensures of_i32 { ⟦<i32 as WholeNumber>⟧.greatest ≡ pos (2 ^ 31 - 1) }
    ensures of_i64 { ⟦<i64 as WholeNumber>⟧.greatest ≡ pos (2 ^ 63 - 1) }
    ensures of_i128 { ⟦<i128 as WholeNumber>⟧.greatest ≡ pos (2 ^ 127 - 1) }
    ensures of_isize { ⟦<isize as WholeNumber>⟧.greatest ≡ pos (2 ^ 63 - 1) }
{}
