//! Constraints of length (X.680, 51.5).
ghost use Rattle.std.specs.Prelude.{◌≡◌, ◌↔◌, ℕ, IsTrue};
ghost use Rattle.std.specs.Borrow.{sem};
ghost use Rattle.asn1_ranges.specs.Ends.{is_single, is_range};
ghost use Rattle.asn1_bounds.specs.Admitted.{HasLength, size_intersection};

use asn1_ranges::Bounded;

/// A constraint of the length of a string or a list (X.680, 51.5).
#[derive(Clone, Copy, Debug, Default, PartialEq, Eq, PartialOrd, Ord, Hash)]
pub struct Size {
    /// Whose members are the lengths.
    pub bound: Bounded<usize>,
}

impl Size {
    ghost use Rattle.asn1_bounds.specs.BorrowedBounds.{LendsBound};

    /// The constraint to the members of the bound.
    pub fn new(bound: Bounded<usize>) -> Self
        ensures { result ≡ record { bound = bound } }
    {
        Size { bound }
    }

    /// The constraint to the one length.
    pub fn fixed(length: usize) -> Self
        ensures { result.bound ≡ Bounded.Single length }
    {
        Size::new(Bounded::single_value(length))
    }

    /// Whether the bound is a single length.
    pub fn is_fixed(&self) -> bool
        ensures { result ≡ is_single self.now.bound }
    {
        matches!(self.bound, Bounded::Single(_))
    }

    /// Whether the bound is a range.
    pub fn is_range(&self) -> bool
        ensures { result ≡ is_range self.now.bound }
    {
        matches!(self.bound, Bounded::Range { .. })
    }

    /// The bound.
    pub fn bounded(&self) -> &Bounded<usize>
        ensures { result.now ≡ self.now.bound }
    {
        &self.bound
    }

    /// The bound, to be written: the size is afterwards what is left in it.
    pub fn bounded_mut(&mut self) -> &mut Bounded<usize>
        ensures* writes_back { sem 𝓛 (LendsBound self.entry result) }
        ensures value { result.now ≡ self.old.bound }
    {
        &mut self.bound
    }

    /// The constraint to the lengths of both. If they have none in common, its bound is the range from 1 to 0,
    /// which has no members.
    pub fn intersect(&self, other: &Self) -> Self
        ensures shape { result.bound ≡ size_intersection self.now.bound other.now.bound }
        ensures members { (n : ℕ) → HasLength result.bound n ↔
            (HasLength self.now.bound n × HasLength other.now.bound n) }
        ensures commutative { result.bound ≡ size_intersection other.now.bound self.now.bound }
        ensures associative { (third : _) → size_intersection result.bound third ≡
            size_intersection self.now.bound (size_intersection other.now.bound third) }
        ensures left_identity { self.now.bound ≡ Bounded.None → result ≡ other.now }
        ensures right_identity { other.now.bound ≡ Bounded.None → result ≡ self.now }
    {
        Size::new(
            self.bound
                .intersect(other.bound)
                .unwrap_or(Bounded::const_new(1, 0)),
        )
    }
}
