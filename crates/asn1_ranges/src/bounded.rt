//! A bound: no bound, a single value, or a range.
ghost use Rattle.std.specs.Prelude.{◌≡◌, ◌↔◌, IsTrue, ◌≤ℤ◌, IsSome, IfSome, IfNone, IsOk, IfErr};
ghost use Rattle.std.specs.Option.{ForSome, option_copied};
ghost use Rattle.either.specs.Either.{IsLeftAnd};
ghost use Rattle.either.specs.declared.Either.TheVariants.{Right};
ghost use Rattle.asn1_ranges.specs.Count.{distance};
ghost use Rattle.asn1_ranges.specs.Ends.{start_of, end_of, range_start};
ghost use Rattle.asn1_ranges.specs.Members.{Holds, CountsMembers, IsFrom, IsUpTo};
ghost use Rattle.asn1_ranges.specs.Text.{bound_text};

use crate::number::WholeNumber;
use either::{Either, Left, Right};
use std::fmt;

/// The values that a constraint leaves of a type: all of them, a single one, or a range whose ends belong to it.
///
/// A missing end of a range leaves that side open (`MIN` and `MAX` of X.680, 51.4). The default is no bound.
#[derive(Clone, Copy, Debug, Default, Drop, PartialEq, Eq, PartialOrd, Ord, Hash)]
pub enum Bounded<T> {
    /// No bound: every value is left.
    #[default]
    None,
    /// One value alone.
    Single(T),
    /// The values from `start` to `end`.
    Range { start: Option<T>, end: Option<T> },
}

impl<T> Bounded<T> {
    /// The range from `value` without end.
    pub fn start_from(value: T) -> Self
        ensures { result ≡ Bounded.Range (Some value) None }
    {
        Bounded::Range {
            start: Some(value),
            end: None,
        }
    }

    /// The range without start up to `value`.
    pub fn up_to(value: T) -> Self
        ensures { result ≡ Bounded.Range None (Some value) }
    {
        Bounded::Range {
            start: None,
            end: Some(value),
        }
    }

    /// The one value.
    pub fn single_value(value: T) -> Self
        ensures { result ≡ Bounded.Single value }
    {
        Self::Single(value)
    }

    /// The range from `start` to `end`, which are taken as they come: with the start above the end it has no member.
    pub fn const_new(start: T, end: T) -> Self
        ensures { result ≡ Bounded.Range (Some start) (Some end) }
    {
        Bounded::Range {
            start: Some(start),
            end: Some(end),
        }
    }

    /// The start, if there is one. A single is its own start.
    pub fn as_start(&self) -> Option<&T>
        ensures { option_copied result ≡ start_of self.now }
    {
        match self {
            Bounded::None => None,
            Bounded::Single(value) => Some(value),
            Bounded::Range { start, .. } => start.as_ref(),
        }
    }

    /// The end, if there is one. A single is its own end.
    pub fn as_end(&self) -> Option<&T>
        ensures { option_copied result ≡ end_of self.now }
    {
        match self {
            Bounded::None => None,
            Bounded::Single(value) => Some(value),
            Bounded::Range { end, .. } => end.as_ref(),
        }
    }

    /// Both ends, as [`Bounded::as_start`] and [`Bounded::as_end`] answer them.
    pub fn start_and_end(&self) -> (Option<&T>, Option<&T>)
        ensures start { option_copied result.0 ≡ start_of self.now }
        ensures end { option_copied result.1 ≡ end_of self.now }
    {
        (self.as_start(), self.as_end())
    }
}

impl<T: WholeNumber> Bounded<T> {
    /// The range from `start` to `end`.
    pub fn new(start: T, end: T) -> Self
        requires { T.number start ≤ℤ T.number end }
        ensures { result ≡ Bounded.Range (Some start) (Some end) }
    {
        Bounded::const_new(start, end)
    }

    /// Whether the number is a member of the bound.
    pub fn contains(&self, element: &T) -> bool
        ensures inside { IsTrue result ↔ Holds T.number self.now element.now }
    {
        match self {
            Bounded::None => true,
            Bounded::Single(value) => element == value,
            Bounded::Range { start, end } => {
                is_from(*start, *element) && is_up_to(*end, *element)
            }
        }
    }

    /// `Ok` where the number is a member of the bound, and else the error.
    pub fn contains_or<E: Drop>(&self, element: &T, error: E) -> Result<(), E>
        ensures inside { IsOk result ↔ Holds T.number self.now element.now }
        ensures outside { IfErr result (λ answer. answer ≡ error) }
    {
        if self.contains(element) {
            Ok(())
        } else {
            Err(error)
        }
    }

    /// `Ok` where the number is a member of the bound, and else the error that the closure makes, which is called
    /// only then.
    pub fn contains_or_else<E, F: FnOnce() -> E + Drop>(
        &self,
        element: &T,
        error: F,
    ) -> Result<(), E>
        requires { ¬ Holds T.number self.now element.now → F.pre error }
        ensures inside { IsOk result ↔ Holds T.number self.now element.now }
        ensures outside { IfErr result (F.post error) }
    {
        if self.contains(element) {
            Ok(())
        } else {
            Err(error())
        }
    }

    /// How many members the bound has, or the greatest number of the type where there are more than that; `None` for
    /// a bound that is open on a side.
    pub fn range(&self) -> Option<T>
        ensures closed { IsSome result ↔ (IsSome (start_of self.now) × IsSome (end_of self.now)) }
        ensures counted { IfSome result
            (λ members. CountsMembers T.number T.greatest self.now (T.number members)) }
    {
        let start = self.as_start()?;
        let end = self.as_end()?;
        Some(start.count_to(*end))
    }

    /// The number that a codec writes for a member: its offset (`Left`) from the start of a range that has one, and else the
    /// value itself (`Right`).
    pub fn effective_value(&self, value: T) -> Either<T, T>
        requires above { ForSome (range_start self.now)
            (λ start. T.number start ≤ℤ T.number value) }
        requires fits { ForSome (range_start self.now)
            (λ start. distance T.number start value ≤ℤ T.greatest) }
        ensures offset { IfSome (range_start self.now)
            (λ start. IsLeftAnd result
            (λ offset. T.number offset ≡ distance T.number start value)) }
        ensures value { IfNone (range_start self.now) (result ≡ Right value) }
    {
        let start = match self {
            Bounded::Range { start, .. } => *start,
            _ => None,
        };
        match start {
            Some(start) => Left(value.offset_from(start)),
            None => Right(value),
        }
    }
}

// Whether the number is not below the start, if there is one.
fn is_from<T: WholeNumber>(start: Option<T>, element: T) -> bool
    ensures { IsTrue result ↔ IsFrom T.number start (T.number element) }
{
    match start {
        Some(start) => start <= element,
        None => true,
    }
}

// Whether the number is not above the end, if there is one.
fn is_up_to<T: WholeNumber>(end: Option<T>, element: T) -> bool
    ensures { IsTrue result ↔ IsUpTo T.number end (T.number element) }
{
    match end {
        Some(end) => element <= end,
        None => true,
    }
}

impl<T: fmt::Display> fmt::Display for Bounded<T> {
    ghost output = { bound_text T.output };

    fn fmt<W: fmt::Write>(&self, f: &mut fmt::Formatter<W>) -> fmt::Result {
        match self {
            Bounded::None => write!(f, ".."),
            Bounded::Single(value) => write!(f, "{value}"),
            Bounded::Range { start, end } => match (start, end) {
                (Some(start), Some(end)) => write!(f, "{start}..{end}"),
                (Some(start), None) => write!(f, "{start}.."),
                (None, Some(end)) => write!(f, "..{end}"),
                (None, None) => write!(f, ".."),
            },
        }
    }
}
