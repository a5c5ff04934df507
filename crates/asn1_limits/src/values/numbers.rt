//! Whole numbers (X.680, 19 and 51.4).
ghost use Rattle.std.specs.Prelude.{pos};
ghost use Rattle.asn1_limits.specs.FacetLaws.{same_integer, same_limited_integer, same_unsigned};
ghost use Rattle.asn1_limits.specs.Facets.{numbered};

use crate::constrainable::{Constrainable, HasNumber};
use asn1_bounds::Bounded;
use asn1_values::{Integer, LimitedInteger, Limits};

impl Constrainable for Integer {
    ghost facets = { numbered };

    ghost same_facets = { same_integer };
}

impl HasNumber for Integer {
    fn has_number_in(&self, numbers: Bounded<i128>) -> bool {
        numbers.in_bound(self)
    }
}

impl<L: Limits> Constrainable for LimitedInteger<L> {
    ghost facets = { numbered };

    ghost same_facets = { same_limited_integer };
}

impl<L: Limits> HasNumber for LimitedInteger<L> {
    fn has_number_in(&self, numbers: Bounded<i128>) -> bool {
        numbers.in_bound(self.get())
    }
}

impl Constrainable for i8 {
    ghost facets = { numbered };

    ghost same_facets = { same_integer };
}

impl HasNumber for i8 {
    fn has_number_in(&self, numbers: Bounded<i128>) -> bool {
        numbers.in_bound(self)
    }
}

impl Constrainable for i16 {
    ghost facets = { numbered };

    ghost same_facets = { same_integer };
}

impl HasNumber for i16 {
    fn has_number_in(&self, numbers: Bounded<i128>) -> bool {
        numbers.in_bound(self)
    }
}

impl Constrainable for i32 {
    ghost facets = { numbered };

    ghost same_facets = { same_integer };
}

impl HasNumber for i32 {
    fn has_number_in(&self, numbers: Bounded<i128>) -> bool {
        numbers.in_bound(self)
    }
}

impl Constrainable for i64 {
    ghost facets = { numbered };

    ghost same_facets = { same_integer };
}

impl HasNumber for i64 {
    fn has_number_in(&self, numbers: Bounded<i128>) -> bool {
        numbers.in_bound(self)
    }
}

impl Constrainable for i128 {
    ghost facets = { numbered };

    ghost same_facets = { same_integer };
}

impl HasNumber for i128 {
    fn has_number_in(&self, numbers: Bounded<i128>) -> bool {
        numbers.in_bound(self)
    }
}

impl Constrainable for isize {
    ghost facets = { numbered };

    ghost same_facets = { same_integer };
}

impl HasNumber for isize {
    fn has_number_in(&self, numbers: Bounded<i128>) -> bool {
        numbers.in_bound(self)
    }
}

impl Constrainable for u8 {
    ghost facets = { λ v. numbered (pos v) };

    ghost same_facets = { same_unsigned };
}

impl HasNumber for u8 {
    fn has_number_in(&self, numbers: Bounded<i128>) -> bool {
        numbers.in_bound(self)
    }
}

impl Constrainable for u16 {
    ghost facets = { λ v. numbered (pos v) };

    ghost same_facets = { same_unsigned };
}

impl HasNumber for u16 {
    fn has_number_in(&self, numbers: Bounded<i128>) -> bool {
        numbers.in_bound(self)
    }
}

impl Constrainable for u32 {
    ghost facets = { λ v. numbered (pos v) };

    ghost same_facets = { same_unsigned };
}

impl HasNumber for u32 {
    fn has_number_in(&self, numbers: Bounded<i128>) -> bool {
        numbers.in_bound(self)
    }
}

impl Constrainable for u64 {
    ghost facets = { λ v. numbered (pos v) };

    ghost same_facets = { same_unsigned };
}

impl HasNumber for u64 {
    fn has_number_in(&self, numbers: Bounded<i128>) -> bool {
        numbers.in_bound(self)
    }
}

impl Constrainable for u128 {
    ghost facets = { λ v. numbered (pos v) };

    ghost same_facets = { same_unsigned };
}

impl HasNumber for u128 {
    fn has_number_in(&self, numbers: Bounded<i128>) -> bool {
        numbers.in_bound(self)
    }
}

impl Constrainable for usize {
    ghost facets = { λ v. numbered (pos v) };

    ghost same_facets = { same_unsigned };
}

impl HasNumber for usize {
    fn has_number_in(&self, numbers: Bounded<i128>) -> bool {
        numbers.in_bound(self)
    }
}
