//! Types whose values constraints can tell apart (X.680, 51).
ghost use Rattle.std.specs.Prelude.{◌≡◌, ◌↔◌, IsTrue, not, position, true};
ghost use Rattle.asn1_limits.specs.Facets.{Facets, HasNumberIn, HasSizeIn};

use asn1_bounds::Bounded;
use asn1_values::Alphabet;

/// A type of which constraints see the sizes, the number or the characters of each value.
pub trait Constrainable: PartialEq {
    // The facets of a value that constraints see.
    ghost facets: { Self → Facets };

    // The law: they see the same of equal values.
    ghost same_facets: { (v w : Self) → Self.eq v w ≡ true → facets v ≡ facets w };
}

/// A type whose values have a size (X.680, 51.5): how many elements, bits, octets or characters there are.
pub trait HasSize: Constrainable {
    /// Whether the value has a size that is a member of the bound.
    fn has_size_in(&self, sizes: Bounded<usize>) -> bool
        ensures { IsTrue result ↔ HasSizeIn sizes (Self.facets self.now) };
}

/// A type whose values are whole numbers (X.680, 51.4).
pub trait HasNumber: Constrainable {
    /// Whether the number is a member of the bound.
    fn has_number_in(&self, numbers: Bounded<i128>) -> bool
        ensures { IsTrue result ↔ HasNumberIn numbers (Self.facets self.now) };
}

/// A type whose values have characters (X.680, 51.7).
pub trait HasCharacters: Constrainable {
    /// The index of the first character that the alphabet lacks, if there is one.
    fn first_except<A: Alphabet<u32>>(&self) -> Option<usize>
        ensures { result ≡ position (λ c. not (A.allows c)) (Self.facets self.now).characters };
}
