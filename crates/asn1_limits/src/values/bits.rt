//! The sizes of bits in octets, and of named bits (X.680, 22.7 and 51.5).
ghost use Rattle.std.specs.Prelude.{◌≡◌, ◌↔◌, ◌≤◌, ℕ, IsTrue, length, pos};
ghost use Rattle.asn1_bounds.specs.Admitted.{HasLength};
ghost use Rattle.asn1_limits.specs.FacetLaws.{same_growth, same_size};
ghost use Rattle.asn1_limits.specs.Facets.{HasExtentIn, at_least, growing, sized};
ghost use Rattle.asn1_ranges.specs.Ends.{start_of};
ghost use Rattle.asn1_ranges.specs.Members.{IsFrom};

use crate::constrainable::{Constrainable, HasSize};
use asn1_bounds::Bounded;
use asn1_values::{BitVec, NamedBitString};

impl Constrainable for BitVec {
    ghost facets = { λ v. sized (length v) };

    ghost same_facets = { λ v w. same_size ⟦<bool as PartialEq>⟧.eq v w };
}

impl HasSize for BitVec {
    fn has_size_in(&self, sizes: Bounded<usize>) -> bool {
        sizes.contains(&self.len())
    }
}

impl Constrainable for NamedBitString {
    ghost facets = { λ v. growing (length v) };

    ghost same_facets = { λ v w. same_growth ⟦<bool as PartialEq>⟧.eq v w };
}

/// The bits have a size in the bound if some number of 0 bits behind them makes them so long.
impl HasSize for NamedBitString {
    fn has_size_in(&self, sizes: Bounded<usize>) -> bool {
        has_member_from(self.as_bits().len(), sizes)
    }
}

/// Whether a size that is not below the least one is a member of the bound.
fn has_member_from(least: usize, sizes: Bounded<usize>) -> bool
    ensures { IsTrue result ↔ HasExtentIn sizes (at_least least) }
{
    let size = match sizes.as_start() {
        Some(start) if *start > least => *start,
        _ => least,
    };
    sizes.contains(&size)
}
