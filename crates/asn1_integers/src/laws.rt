//! Laws of what no other contract names: derives, aliases, and the definitions that a trait's implementation picks.
//!
//! A derive compares, an alias names and a ghost member defines without a word in any contract. Each function here
//! says by its contract what they give, so that a wrong one is refused.
ghost use Rattle.std.specs.Prelude.{◌≡◌, ◌↔◌, ◌≤ℤ◌, ◌++◌, ℕ, ℤ, pos, Result, Some, IsTrue, IsSome, IfSome, unsigned_abs};
ghost use Rattle.std.specs.Int.{is_negative};
ghost use Rattle.std.specs.Int.Digits.{digits_of};
ghost use Rattle.std.specs.Hash as fed;
ghost use Rattle.std.specs.Ordering.{as_partial_cmp, int_cmp, int_eq};
ghost use Rattle.std.specs.Result.{OkIff};
ghost use Rattle.asn1_integers.specs.declared.error.OutOfRangeError.{OutOfRangeError};
ghost use Rattle.std.specs.Fmt.{styled_signed_decimal};
ghost use Rattle.asn1_integers.specs.Text.{integer_text, is_narrow};

use crate::constrained::{ConstrainedInteger, LimitedInteger, Limits};
use crate::error::OutOfRangeError;
use crate::integer::Integer;
use crate::integer_type::IntegerType;
use std::fmt::{Debug, Display};
use std::hash::Hash;

/// Whether the numbers are the same. Integers are compared and ordered by their numbers, and feed a hasher the sign and
/// the bytes of the magnitude, the most significant first and with no leading zero.
pub fn integers_are_compared_by_number(a: &Integer, b: &Integer) -> bool
    ensures same { IsTrue result ↔ (a.now ≡ b.now) }
    ensures equality { (x y : ℤ) → ⟦<Integer as PartialEq>⟧.eq x y ≡ int_eq x y }
    ensures partial_order { (x y : ℤ) → ⟦<Integer as PartialOrd>⟧.partial_cmp x y ≡
        as_partial_cmp int_cmp x y }
    ensures order { (x y : ℤ) → ⟦<Integer as Ord>⟧.cmp x y ≡ int_cmp x y }
    ensures hash { (x : ℤ) → ⟦<Integer as Hash>⟧.hash_input x ≡ fed.bool (is_negative x) ++
        fed.slice fed.u8 (digits_of 256 (unsigned_abs x)) }
{
    a == b
}

/// The same of integers within limits, which are compared, ordered and hashed as their numbers are.
pub fn limited_integers_are_compared_by_number<L: Limits>(
    a: &LimitedInteger<L>,
    b: &LimitedInteger<L>,
) -> bool
    ensures same { IsTrue result ↔ (a.now ≡ b.now) }
    ensures equality { (x y : ℤ) → ⟦<LimitedInteger<L> as PartialEq>⟧.eq x y ≡ int_eq x y }
    ensures partial_order { (x y : ℤ) → ⟦<LimitedInteger<L> as PartialOrd>⟧.partial_cmp x y ≡
        as_partial_cmp int_cmp x y }
    ensures order { (x y : ℤ) → ⟦<LimitedInteger<L> as Ord>⟧.cmp x y ≡ int_cmp x y }
    ensures hash { (x : ℤ) → ⟦<LimitedInteger<L> as Hash>⟧.hash_input x ≡
        ⟦<Integer as Hash>⟧.hash_input x }
    ensures text { (x : ℤ) → ⟦<LimitedInteger<L> as Display>⟧.output x ≡ Some (integer_text x) }
    ensures debug { (x : ℤ) → ⟦<LimitedInteger<L> as Debug>⟧.debug_output x ≡
        Some (integer_text x) }
{
    a == b
}

/// The number, if it is from `S` to `E`.
pub fn constrained_integers_are_within<const S: i64, const E: i64>(
    number: Integer,
) -> Option<ConstrainedInteger<S, E>>
    ensures within { IsSome result ↔ ((S ≤ℤ number) × (number ≤ℤ E)) }
    ensures same { IfSome result (λ constrained. constrained ≡ number) }
{
    ConstrainedInteger::new(number)
}

/// The number of a whole number's value is that value, in each type.
pub fn integers_are_their_numbers()
    ensures of_u8 { (n : ℕ) → ⟦<u8 as IntegerType>⟧.number n ≡ pos n }
    ensures of_u16 { (n : ℕ) → ⟦<u16 as IntegerType>⟧.number n ≡ pos n }
    ensures of_u32 { (n : ℕ) → ⟦<u32 as IntegerType>⟧.number n ≡ pos n }
    ensures of_u64 { (n : ℕ) → ⟦<u64 as IntegerType>⟧.number n ≡ pos n }
    ensures of_u128 { (n : ℕ) → ⟦<u128 as IntegerType>⟧.number n ≡ pos n }
    ensures of_usize { (n : ℕ) → ⟦<usize as IntegerType>⟧.number n ≡ pos n }
    ensures of_i8 { (z : ℤ) → ⟦<i8 as IntegerType>⟧.number z ≡ z }
    ensures of_i16 { (z : ℤ) → ⟦<i16 as IntegerType>⟧.number z ≡ z }
    ensures of_i32 { (z : ℤ) → ⟦<i32 as IntegerType>⟧.number z ≡ z }
    ensures of_i64 { (z : ℤ) → ⟦<i64 as IntegerType>⟧.number z ≡ z }
    ensures of_i128 { (z : ℤ) → ⟦<i128 as IntegerType>⟧.number z ≡ z }
    ensures of_isize { (z : ℤ) → ⟦<isize as IntegerType>⟧.number z ≡ z }
    ensures of_integer { (z : ℤ) → ⟦<Integer as IntegerType>⟧.number z ≡ z }
{}

/// An `Integer` is made of its number, its default is 0, and its text is that of its number, with options such as a width
/// where an `i128` holds it.
pub fn integers_are_made_and_written_by_number()
    ensures default { (z : ℤ) → ⟦<Integer as Default>⟧.is_default z ↔ (z ≡ pos 0) }
    ensures of_i128 { (n z : ℤ) → ⟦<Integer as From<i128>>⟧.from_gives n z ↔ (z ≡ n) }
    ensures of_u64 { (n : ℕ) (z : ℤ) → ⟦<Integer as From<u64>>⟧.from_gives n z ↔ (z ≡ pos n) }
    ensures of_u8 { (n : ℕ) (z : ℤ) → ⟦<Integer as From<u8>>⟧.from_gives n z ↔ (z ≡ pos n) }
    ensures of_u16 { (n : ℕ) (z : ℤ) → ⟦<Integer as From<u16>>⟧.from_gives n z ↔ (z ≡ pos n) }
    ensures of_u32 { (n : ℕ) (z : ℤ) → ⟦<Integer as From<u32>>⟧.from_gives n z ↔ (z ≡ pos n) }
    ensures of_usize { (n : ℕ) (z : ℤ) → ⟦<Integer as From<usize>>⟧.from_gives n z ↔ (z ≡ pos n) }
    ensures of_i8 { (n z : ℤ) → ⟦<Integer as From<i8>>⟧.from_gives n z ↔ (z ≡ n) }
    ensures of_i16 { (n z : ℤ) → ⟦<Integer as From<i16>>⟧.from_gives n z ↔ (z ≡ n) }
    ensures of_i32 { (n z : ℤ) → ⟦<Integer as From<i32>>⟧.from_gives n z ↔ (z ≡ n) }
    ensures of_i64 { (n z : ℤ) → ⟦<Integer as From<i64>>⟧.from_gives n z ↔ (z ≡ n) }
    ensures of_isize { (n z : ℤ) → ⟦<Integer as From<isize>>⟧.from_gives n z ↔ (z ≡ n) }
    ensures text { (z : ℤ) → ⟦<Integer as Display>⟧.output z ≡ Some (integer_text z) }
    ensures debug { (z : ℤ) → ⟦<Integer as Debug>⟧.debug_output z ≡ Some (integer_text z) }
    ensures styled { (z : ℤ) (options : _) → IsTrue (is_narrow z) →
        ⟦<Integer as Display>⟧.styled_output z options ≡ Some (styled_signed_decimal options z) }
{}

/// A built-in integer is made of an `Integer` if and only if the number is from its least to its greatest one, and then
/// has that number.
pub fn built_in_integers_are_made_of_numbers_that_fit()
    ensures to_u8 { (z : ℤ) (made : Result ℕ OutOfRangeError) →
        ⟦<u8 as TryFrom<Integer>>⟧.try_from_gives z made ↔
        OkIff made ((pos 0 ≤ℤ z) × (z ≤ℤ pos u8.MAX)) (unsigned_abs z) }
    ensures to_u16 { (z : ℤ) (made : Result ℕ OutOfRangeError) →
        ⟦<u16 as TryFrom<Integer>>⟧.try_from_gives z made ↔
        OkIff made ((pos 0 ≤ℤ z) × (z ≤ℤ pos u16.MAX)) (unsigned_abs z) }
    ensures to_u32 { (z : ℤ) (made : Result ℕ OutOfRangeError) →
        ⟦<u32 as TryFrom<Integer>>⟧.try_from_gives z made ↔
        OkIff made ((pos 0 ≤ℤ z) × (z ≤ℤ pos u32.MAX)) (unsigned_abs z) }
    ensures to_u64 { (z : ℤ) (made : Result ℕ OutOfRangeError) →
        ⟦<u64 as TryFrom<Integer>>⟧.try_from_gives z made ↔
        OkIff made ((pos 0 ≤ℤ z) × (z ≤ℤ pos u64.MAX)) (unsigned_abs z) }
    ensures to_u128 { (z : ℤ) (made : Result ℕ OutOfRangeError) →
        ⟦<u128 as TryFrom<Integer>>⟧.try_from_gives z made ↔
        OkIff made ((pos 0 ≤ℤ z) × (z ≤ℤ pos u128.MAX)) (unsigned_abs z) }
    ensures to_usize { (z : ℤ) (made : Result ℕ OutOfRangeError) →
        ⟦<usize as TryFrom<Integer>>⟧.try_from_gives z made ↔
        OkIff made ((pos 0 ≤ℤ z) × (z ≤ℤ pos usize.MAX)) (unsigned_abs z) }
    ensures to_i8 { (z : ℤ) (made : Result ℤ OutOfRangeError) →
        ⟦<i8 as TryFrom<Integer>>⟧.try_from_gives z made ↔
        OkIff made ((i8.MIN ≤ℤ z) × (z ≤ℤ i8.MAX)) z }
    ensures to_i16 { (z : ℤ) (made : Result ℤ OutOfRangeError) →
        ⟦<i16 as TryFrom<Integer>>⟧.try_from_gives z made ↔
        OkIff made ((i16.MIN ≤ℤ z) × (z ≤ℤ i16.MAX)) z }
    ensures to_i32 { (z : ℤ) (made : Result ℤ OutOfRangeError) →
        ⟦<i32 as TryFrom<Integer>>⟧.try_from_gives z made ↔
        OkIff made ((i32.MIN ≤ℤ z) × (z ≤ℤ i32.MAX)) z }
    ensures to_i64 { (z : ℤ) (made : Result ℤ OutOfRangeError) →
        ⟦<i64 as TryFrom<Integer>>⟧.try_from_gives z made ↔
        OkIff made ((i64.MIN ≤ℤ z) × (z ≤ℤ i64.MAX)) z }
    ensures to_i128 { (z : ℤ) (made : Result ℤ OutOfRangeError) →
        ⟦<i128 as TryFrom<Integer>>⟧.try_from_gives z made ↔
        OkIff made ((i128.MIN ≤ℤ z) × (z ≤ℤ i128.MAX)) z }
    ensures to_isize { (z : ℤ) (made : Result ℤ OutOfRangeError) →
        ⟦<isize as TryFrom<Integer>>⟧.try_from_gives z made ↔
        OkIff made ((isize.MIN ≤ℤ z) × (z ≤ℤ isize.MAX)) z }
{}

/// There is one such error. A clone of it never fails.
pub fn out_of_range_errors_are_equal(a: &OutOfRangeError, b: &OutOfRangeError) -> bool
    ensures same { IsTrue result }
    ensures clone { ⟦<OutOfRangeError as Clone>⟧.is_clone a.now b.now ↔ (b.now ≡ a.now) }
    ensures clone_succeeds { ⟦<OutOfRangeError as Clone>⟧.is_infallible a.now }
{
    a == b
}
