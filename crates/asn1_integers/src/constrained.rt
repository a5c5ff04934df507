//! Whole numbers within limits.
ghost use Rattle.std.specs.Prelude.{◌≡◌, ◌↔◌, ℤ, ◌≤ℤ◌, IsSome, IfSome, Some};
ghost use Rattle.asn1_integers.specs.Text.{integer_text};

use crate::integer::Integer;
use std::fmt;
use std::marker::{Model, PhantomData};

/// The least and the greatest number of a [`LimitedInteger`].
pub trait Limits {
    // Both ends are within.
    ghost start: { ℤ };

    ghost end: { ℤ };

    /// The least number.
    fn start() -> i128
        ensures { result ≡ start };

    /// The greatest number.
    fn end() -> i128
        ensures { result ≡ end };
}

/// The limits `S` and `E`, for limits of at most 64 bits. For wider ones implement [`Limits`].
#[derive(Drop)]
pub enum Between<const S: i64, const E: i64> {}

impl<const S: i64, const E: i64> Limits for Between<S, E> {
    ghost start = { S };

    ghost end = { E };

    fn start() -> i128 {
        i128::from(S)
    }

    fn end() -> i128 {
        i128::from(E)
    }
}

/// A whole number from the start to the end of its limits.
///
/// Contracts see it as its number.
#[derive(Drop)]
#[derive_where(PartialEq, Eq, PartialOrd, Ord, Hash)]
pub struct LimitedInteger<L: Limits> {
    number: Integer,
    limits: PhantomData<L>,
}

/// A whole number from `S` to `E`.
pub type ConstrainedInteger<const S: i64, const E: i64> = LimitedInteger<Between<S, E>>;

impl<L: Limits> Model for LimitedInteger<L> {
    ghost Value = { ℤ };

    ghost view = { λ i. i.number };

    ghost invariant = { λ i. (L.start ≤ℤ i.number) × (i.number ≤ℤ L.end) };

    ghost inverse = { λ number. record { number = number; limits = record {} } };
}

impl<L: Limits> LimitedInteger<L> {
    /// The number, if it is within the limits.
    pub fn new(number: Integer) -> Option<Self>
        ensures within { IsSome result ↔ ((L.start ≤ℤ number) × (number ≤ℤ L.end)) }
        ensures same { IfSome result (λ limited. limited ≡ number) }
    {
        if Integer::from_i128(L::start()) <= number && number <= Integer::from_i128(L::end()) {
            Some(LimitedInteger {
                number,
                limits: PhantomData,
            })
        } else {
            None
        }
    }

    /// The number.
    pub fn get(&self) -> &Integer
        ensures same { result.now ≡ self.now }
        ensures from_start { L.start ≤ℤ self.now }
        ensures to_end { self.now ≤ℤ L.end }
    {
        &self.number
    }
}

/// The number, in decimal digits.
impl<L: Limits> fmt::Display for LimitedInteger<L> {
    ghost output = { λ number. Some (integer_text number) };

    fn fmt<W: fmt::Write>(&self, f: &mut fmt::Formatter<W>) -> fmt::Result {
        fmt::Display::fmt(&self.number, f)
    }
}

/// As `Display` writes it.
impl<L: Limits> fmt::Debug for LimitedInteger<L> {
    ghost debug_output = { λ number. Some (integer_text number) };

    fn fmt<W: fmt::Write>(&self, f: &mut fmt::Formatter<W>) -> fmt::Result {
        fmt::Display::fmt(&self.number, f)
    }
}
