//! A SEQUENCE OF (X.680, 26) of a fixed size.
ghost use Rattle.asn1_model.specs.Kinds.{array_type};

use crate::asn_type::AsnType;
use crate::type_table::TypeTable;
use asn1_bounds::{ConstraintTable, Size};
use asn1_tags::{Identifier, Tag};

impl<T: AsnType, const N: usize> AsnType for [T; N] {
    ghost meaning = { array_type N T.meaning };

    #[inline(always)]
    fn table() -> TypeTable {
        let constraints = ConstraintTable::from(Size::fixed(N));
        TypeTable::new(Tag::SEQUENCE, Identifier::SEQUENCE_OF).with_constraints(constraints)
    }

    #[inline(always)]
    fn is_present(&self) -> bool {
        true
    }
}
