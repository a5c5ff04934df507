//! Strings whose units come from an alphabet.
ghost use Rattle.std.specs.Prelude.{◌≡◌, ◌↔◌, Bool, not, length, IsTrue, IsNone, IsOk, IfOk, OnOk, IfErr, Some, position};
ghost use Rattle.std.specs.List.{AllPass};
ghost use Rattle.asn1_strings.specs.Refusals.{IsRefusal};

use crate::error::{AlphabetError, StringError};
use crate::strings::string_unit::StringUnit;
use crate::strings::unit_string::UnitString;
use std::alloc::Global;
use std::marker::Model;

/// The units that a kind of string may hold.
pub trait Alphabet<U> {
    // The units of the alphabet.
    ghost allows: { U → Bool };

    /// Whether strings of this kind may hold the unit.
    fn allows(unit: &U) -> bool
        ensures { result ≡ allows unit.now };
}

/// A string of units of type `U`, each of them in the alphabet `A`. The alphabet also names the kind.
///
/// Contracts see it as the list of its units. Strings are equal if their units are, and go
/// lexicographically.
#[derive(Drop)]
#[derive_where(PartialEq, Eq, PartialOrd, Ord, Hash; U)]
pub struct AlphabetString<U, A: Alphabet<U>> {
    units: UnitString<U, A>,
}

impl<U, A: Alphabet<U>> Model for AlphabetString<U, A> {
    ghost use Rattle.std.specs.Prelude.{List};
    ghost use Rattle.std.specs.List.{AllPass};

    ghost Value = { List U };

    ghost view = { λ s. s.units };

    ghost invariant = { λ s. AllPass A.allows s.units };

    ghost inverse = { λ units. record { units = units } };
}

impl<U, A: Alphabet<U>> AlphabetString<U, A> {
    /// The string of these units, or the index of the first one that the alphabet lacks.
    pub fn new(units: Vec<U>) -> Result<Self, AlphabetError>
    where
        U: Drop,
        ensures allowed { IsOk result ↔ AllPass A.allows units.items }
        ensures units { IfOk result (λ s. s ≡ units.items) }
        ensures first { IfErr result (λ e. position (λ u. not (A.allows u)) units.items ≡
            Some e.0) }
    {
        match first_refused::<U, A>(&units) {
            Some(index) => Err(AlphabetError(index)),
            None => Ok(Self::of_allowed(units)),
        }
    }

    fn of_allowed(units: Vec<U>) -> Self
        requires { AllPass A.allows units.items }
        ensures { result ≡ units.items }
    {
        AlphabetString {
            units: UnitString::new(units),
        }
    }
}

impl<U, A: Alphabet<U>> AlphabetString<U, A> {
    /// How many units there are.
    pub fn len(&self) -> usize
        ensures { result ≡ length self.now }
    {
        self.units.len()
    }

    /// Whether there are none.
    pub fn is_empty(&self) -> bool
        ensures { IsTrue result ↔ (length self.now ≡ 0) }
    {
        self.units.is_empty()
    }
}

impl<U: StringUnit, A: Alphabet<U>> AlphabetString<U, A> {
    /// The units, in their order, each of them in the alphabet.
    pub fn as_slice(&self) -> &[U]
        ensures units { result.now ≡ self.now }
        ensures allowed { AllPass A.allows self.now }
    {
        self.units.as_slice()
    }

    /// The units, in their order, each of them in the alphabet. The string is their memory, so none is taken.
    pub fn into_vec(self) -> Vec<U>
        ensures units { result.items ≡ self }
        ensures allowed { AllPass A.allows result.items }
    {
        self.units.into_vec()
    }
}

impl<A: Alphabet<u8>> AlphabetString<u8, A> {
    /// The string of these octets. Fails as `new` does, or where the allocator refuses room for them.
    pub(crate) fn try_from_slice(alloc: Global, units: &[u8]) -> Result<Self, StringError>
        ensures allowed { OnOk result (AllPass A.allows units.now) }
        ensures units { IfOk result (λ s. s ≡ units.now) }
        ensures refused { IfErr result (IsRefusal A.allows units.now) }
    {
        match first_refused::<u8, A>(units) {
            Some(index) => Err(StringError::NotAllowed(AlphabetError(index))),
            None => match Vec::from_slice(alloc, units) {
                Ok(units) => Ok(Self::of_allowed(units)),
                Err(_refused) => Err(StringError::Memory),
            },
        }
    }
}

impl<U: Drop, A: Alphabet<U>> TryFrom<Vec<U>> for AlphabetString<U, A> {
    type Error = AlphabetError;

    // The answer of `new`.
    ghost try_from_gives = { λ units made. (IsOk made ↔ AllPass A.allows units.items) × IfOk made (λ s. s ≡ units.items) × IfErr made (λ e. position (λ u. not (A.allows u)) units.items ≡ Some e.0) };

    fn try_from(units: Vec<U>) -> Result<Self, AlphabetError> {
        Self::new(units)
    }
}

/// The index of the first unit that the alphabet lacks.
fn first_refused<U, A: Alphabet<U>>(units: &[U]) -> Option<usize>
    ensures first { result ≡ position (λ u. not (A.allows u)) units.now }
    ensures none { IsNone result ↔ AllPass A.allows units.now }
{
    units.iter().position(|unit| !A::allows(unit))
}
