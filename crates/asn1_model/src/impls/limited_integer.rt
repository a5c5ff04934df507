//! An INTEGER (X.680, 19) within limits.
ghost use Rattle.std.specs.Prelude.{Some};
ghost use Rattle.asn1_ranges.specs.declared.bounded.Bounded.TheVariants as bounded;
ghost use Rattle.asn1_model.specs.Kinds.{integer_type, under_own_name};

use crate::asn_type::AsnType;
use crate::impls::built_in_integers::integer_within;
use crate::type_table::TypeTable;
use asn1_bounds::Bounded;
use asn1_tags::{Identifier, Tag};
use asn1_values::{LimitedInteger, Limits};

impl<L: Limits> AsnType for LimitedInteger<L> {
    ghost meaning = { under_own_name (integer_type (λ n. n) (bounded.Range (Some L.start) (Some L.end))) };

    #[inline(always)]
    fn table() -> TypeTable {
        integer_within(Bounded::const_new(L::start(), L::end()))
    }

    #[inline(always)]
    fn is_present(&self) -> bool {
        true
    }
}
