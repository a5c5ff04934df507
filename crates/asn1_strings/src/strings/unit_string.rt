//! Strings of any units, and how strings are compared and hashed.
ghost use Rattle.std.specs.Prelude.{◌≡◌, ◌↔◌, All, IsTrue, length};
ghost use Rattle.std.specs.Cmp.Lexicographic.{pointwise, slice_cmp, slice_partial_cmp, lists_per, lists_equiv, lists_po, lists_agrees, lists_total, lists_ties};
ghost use Rattle.std.specs.Hash as fed;
ghost use Rattle.std.specs.Hash.{items_Alike};

use crate::strings::string_unit::StringUnit;
use std::cmp::Ordering;
use std::hash::{Hash, Hasher};
use std::marker::{Model, PhantomData};

/// A string of any units of type `U`. `K` names its kind, so that two kinds with the same units are
/// two types.
///
/// Contracts see it as the list of its units. Strings are equal if their units are, and go
/// lexicographically.
#[derive(Drop)]
pub struct UnitString<U, K> {
    units: Vec<U>,
    kind: PhantomData<K>,
}

impl<U, K> Model for UnitString<U, K> {
    ghost use Rattle.std.specs.Prelude.{List};

    ghost Value = { List U };

    ghost view = { λ s. s.units.items };
}

impl<U, K> UnitString<U, K> {
    /// The string of these units.
    pub fn new(units: Vec<U>) -> Self
        ensures { result ≡ units.items }
    {
        UnitString {
            units,
            kind: PhantomData,
        }
    }

    /// How many units there are.
    pub fn len(&self) -> usize
        ensures { result ≡ length self.now }
    {
        self.units.len()
    }

    /// Whether there are none.
    pub fn is_empty(&self) -> bool
        ensures { IsTrue result ↔ (length self.now ≡ 0) }
    {
        self.units.is_empty()
    }
}

impl<U: StringUnit, K> UnitString<U, K> {
    /// The units, in their order, each of them a value of its type.
    pub fn as_slice(&self) -> &[U]
        ensures units { result.now ≡ self.now }
        ensures in_range { All U.IsInRange self.now }
    {
        U::units_are_in_range(&self.units);
        self.units.as_slice()
    }

    /// The units, in their order, each of them a value of its type. The string is their memory, so none is taken.
    pub fn into_vec(self) -> Vec<U>
        ensures units { result.items ≡ self }
        ensures in_range { All U.IsInRange result.items }
    {
        U::units_are_in_range(&self.units);
        self.units
    }
}

impl<U, K> From<Vec<U>> for UnitString<U, K> {
    ghost from_gives = { λ units s. s ≡ units.items };

    fn from(units: Vec<U>) -> Self {
        Self::new(units)
    }
}

impl<U: PartialEq, K> PartialEq for UnitString<U, K> {
    ghost eq = { pointwise U.eq };

    ghost laws = { lists_per U.laws };

    fn eq(&self, other: &Self) -> bool {
        self.units == other.units
    }
}

impl<U: Eq, K> Eq for UnitString<U, K> {
    ghost laws = { lists_equiv U.Eq.laws };
}

impl<U: PartialOrd, K> PartialOrd for UnitString<U, K> {
    ghost partial_cmp = { slice_partial_cmp U.partial_cmp };

    ghost laws = { lists_po U.PartialOrd.laws };

    fn partial_cmp(&self, other: &Self) -> Option<Ordering> {
        self.units.partial_cmp(&other.units)
    }
}

impl<U: Ord, K> Ord for UnitString<U, K> {
    ghost cmp = { slice_cmp U.cmp };

    ghost total = { lists_total U.total };

    ghost matches_partial_cmp = { lists_agrees U.matches_partial_cmp };

    ghost matches_eq = { lists_ties U.cmp U.matches_eq };

    fn cmp(&self, other: &Self) -> Ordering {
        self.units.cmp(&other.units)
    }
}

impl<U: Hash, K> Hash for UnitString<U, K> {
    ghost hash_input = { fed.slice U.hash_input };

    ghost respects_eq = { (items_Alike (record { fed = U.respects_eq })).fed };

    fn hash<H: Hasher>(&self, state: &mut H) {
        self.units.hash(state);
    }
}
