//! The sizes of lists and sets (X.680, 51.5): how many elements there are.
ghost use Rattle.std.specs.Prelude.{length};
ghost use Rattle.std.proofs.Common.{ap};
ghost use Rattle.asn1_limits.specs.FacetLaws.{same_size};
ghost use Rattle.asn1_limits.specs.Facets.{sized};
ghost use Rattle.asn1_types.specs.MultisetLaws.{same_length};

use crate::constrainable::{Constrainable, HasSize};
use asn1_bounds::Bounded;
use asn1_types::SetOf;

impl<T: PartialEq> Constrainable for Vec<T> {
    ghost facets = { λ v. sized (length v.items) };

    ghost same_facets = { λ v w. same_size T.eq v.items w.items };
}

impl<T: PartialEq> HasSize for Vec<T> {
    fn has_size_in(&self, sizes: Bounded<usize>) -> bool {
        sizes.contains(&self.len())
    }
}

impl<T: PartialEq> Constrainable for SetOf<T> {
    ghost facets = { λ v. sized (length v) };

    ghost same_facets = { λ v w equal. ap sized (same_length T.eq v w equal) };
}

impl<T: PartialEq> HasSize for SetOf<T> {
    fn has_size_in(&self, sizes: Bounded<usize>) -> bool {
        sizes.contains(&self.len())
    }
}
