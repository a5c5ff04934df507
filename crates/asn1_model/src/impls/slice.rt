//! A SEQUENCE OF (X.680, 26) as a slice.
ghost use Rattle.asn1_model.specs.ConstraintSets.{unconstrained};
ghost use Rattle.asn1_model.specs.Kinds.{list_type};

use crate::asn_type::AsnType;
use crate::type_table::TypeTable;
use asn1_tags::{Identifier, Tag};

impl<T: AsnType> AsnType for &[T] {
    ghost meaning = { list_type (λ s. s.now) unconstrained T.meaning };

    #[inline(always)]
    fn table() -> TypeTable {
        TypeTable::new(Tag::SEQUENCE, Identifier::SEQUENCE_OF)
    }

    #[inline(always)]
    fn is_present(&self) -> bool {
        true
    }
}
