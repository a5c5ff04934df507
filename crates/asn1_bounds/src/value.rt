//! Constraints of value (X.680, 51.2 and 51.4).
ghost use Rattle.std.specs.Prelude.{◌≡◌, ◌↔◌, ℤ, pos, FitsSigned, IfSome};
ghost use Rattle.std.specs.Int.{w128};
ghost use Rattle.std.specs.Option.{option_map};
ghost use Rattle.std.specs.Result.{OkIff};
ghost use Rattle.asn1_bounds.specs.Admitted.{HasValue, value_intersection};
ghost use Rattle.asn1_ranges.specs.Octets.{is_signed, octets_of};

use crate::error::TooWide;
use asn1_ranges::{Bounded, FitsI128};

/// A constraint of the values of an INTEGER (X.680, 51.2 and 51.4).
#[derive(Clone, Copy, Debug, Default, PartialEq, Eq, PartialOrd, Ord, Hash)]
pub struct Value {
    /// Whose members are the values.
    pub bound: Bounded<i128>,
}

impl Value {
    /// The constraint to the members of the bound.
    #[inline(always)]
    pub fn new(bound: Bounded<i128>) -> Self
        ensures { result ≡ record { bound = bound } }
    {
        Value { bound }
    }

    /// Whether the values need a sign, as [`Bounded::range_in_bytes`] answers it.
    pub fn get_sign(&self) -> bool
        ensures { result ≡ is_signed self.now.bound }
    {
        self.bound.range_in_bytes().0
    }

    /// The least number of octets for the values, as [`Bounded::range_in_bytes`] answers it.
    pub fn get_range(&self) -> Option<u8>
        ensures { result ≡ octets_of self.now.bound }
    {
        self.bound.range_in_bytes().1
    }

    /// The bound.
    #[inline(always)]
    pub fn bounded(&self) -> &Bounded<i128>
        ensures { result.now ≡ self.now.bound }
    {
        &self.bound
    }

    /// The constraint to the values of both. If they have none in common, its bound is the range from 1 to -1,
    /// which has no members.
    pub fn intersect(&self, other: &Self) -> Self
        ensures shape { result.bound ≡ value_intersection self.now.bound other.now.bound }
        ensures members { (n : ℤ) → HasValue result.bound n ↔
            (HasValue self.now.bound n × HasValue other.now.bound n) }
        ensures commutative { result.bound ≡ value_intersection other.now.bound self.now.bound }
        ensures associative { (third : _) → value_intersection result.bound third ≡
            value_intersection self.now.bound (value_intersection other.now.bound third) }
        ensures left_identity { self.now.bound ≡ Bounded.None → result ≡ other.now }
        ensures right_identity { other.now.bound ≡ Bounded.None → result ≡ self.now }
    {
        Value::new(
            self.bound
                .intersect(other.bound)
                .unwrap_or(Bounded::const_new(1, -1)),
        )
    }
}

impl<T: FitsI128> From<Bounded<T>> for Value {
    ghost use Rattle.std.specs.Prelude.{◌≡◌};
    ghost use Rattle.asn1_bounds.specs.Admitted.{numbers};

    ghost from_gives = { λ bound value. value.bound ≡ numbers T.number bound };

    fn from(bound: Bounded<T>) -> Self {
        Value::new(match bound {
            Bounded::None => Bounded::None,
            Bounded::Single(value) => Bounded::Single(value.to_i128()),
            Bounded::Range { start, end } => Bounded::Range {
                start: widened(start),
                end: widened(end),
            },
        })
    }
}

// The end as an `i128`, if there is one.
fn widened<T: FitsI128>(end: Option<T>) -> Option<i128>
    ensures { result ≡ option_map T.number end }
{
    Some(end?.to_i128())
}

impl TryFrom<Bounded<usize>> for Value {
    type Error = TooWide;

    ghost use Rattle.std.specs.Prelude.{pos};
    ghost use Rattle.std.specs.Result.{OkIff};
    ghost use Rattle.asn1_bounds.specs.Admitted.{numbers, HasNarrowEnds};

    ghost try_from_gives = { λ bound result.
        OkIff result (HasNarrowEnds bound) (record { bound = numbers pos bound }) };

    fn try_from(bound: Bounded<usize>) -> Result<Self, TooWide> {
        Ok(Value::new(match bound {
            Bounded::None => Bounded::None,
            Bounded::Single(value) => Bounded::Single(narrowed(value)?),
            Bounded::Range { start, end } => Bounded::Range {
                start: narrowed_end(start)?,
                end: narrowed_end(end)?,
            },
        }))
    }
}

// The number as an `i128`, where it is one.
fn narrowed(number: usize) -> Result<i128, TooWide>
    ensures { OkIff result (FitsSigned w128 (pos number)) (pos number) }
{
    i128::try_from(number).or(Err(TooWide))
}

// The end as an `i128`, where it is missing or one.
fn narrowed_end(end: Option<usize>) -> Result<Option<i128>, TooWide>
    ensures { OkIff result (IfSome end (λ n. FitsSigned w128 (pos n))) (option_map pos end) }
{
    match end {
        Some(end) => Ok(Some(narrowed(end)?)),
        None => Ok(None),
    }
}
