//! Bounds of integers: the least value, and membership of numbers of any size.
ghost use Rattle.std.specs.Prelude.{◌≡◌, ◌↔◌, ◌≤ℤ◌, IsTrue, pos, IfSome, IfNone};
ghost use Rattle.asn1_ranges.specs.Ends.{start_of};
ghost use Rattle.asn1_ranges.specs.Members.{IsFrom, IsMember, IsUpTo};

use crate::bounded::Bounded;
use asn1_values::IntegerType;

impl<T: IntegerType + Copy> Bounded<T> {
    /// The start, if there is one, and else 0. A single is its own start.
    pub fn minimum(&self) -> T
        ensures start { IfSome (start_of self.now) (λ start. result ≡ start) }
        ensures zero { IfNone (start_of self.now) (T.number result ≡ pos 0) }
    {
        match self.as_start() {
            Some(start) => *start,
            None => T::zero(),
        }
    }
}

impl Bounded<i128> {
    /// Whether the number is a member of the bound, also where it is no `i128`.
    pub fn in_bound<I: IntegerType>(&self, element: &I) -> bool
        ensures { IsTrue result ↔ IsMember (λ n. n) self.now (I.number element.now) }
    {
        match *self {
            Bounded::None => true,
            Bounded::Single(value) => is_at_least(element, value) && is_at_most(element, value),
            Bounded::Range { start, end } => is_from(element, start) && is_up_to(element, end),
        }
    }
}

// Whether the number is not below the start, if there is one.
fn is_from<I: IntegerType>(element: &I, start: Option<i128>) -> bool
    ensures { IsTrue result ↔ IsFrom (λ n. n) start (I.number element.now) }
{
    match start {
        Some(start) => is_at_least(element, start),
        None => true,
    }
}

// Whether the number is not above the end, if there is one.
fn is_up_to<I: IntegerType>(element: &I, end: Option<i128>) -> bool
    ensures { IsTrue result ↔ IsUpTo (λ n. n) end (I.number element.now) }
{
    match end {
        Some(end) => is_at_most(element, end),
        None => true,
    }
}

#[tactic(auto, using(crate::proofs::BeyondI128::outside))]
fn is_at_least<I: IntegerType>(element: &I, start: i128) -> bool
    ensures { IsTrue result ↔ (start ≤ℤ I.number element.now) }
{
    match element.to_i128() {
        Some(number) => start <= number,
        None => !element.is_negative(),
    }
}

#[tactic(auto, using(crate::proofs::BeyondI128::outside))]
fn is_at_most<I: IntegerType>(element: &I, end: i128) -> bool
    ensures { IsTrue result ↔ (I.number element.now ≤ℤ end) }
{
    match element.to_i128() {
        Some(number) => number <= end,
        None => element.is_negative(),
    }
}
