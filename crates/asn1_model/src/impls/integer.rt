//! An INTEGER (X.680, 19) of any size.
ghost use Rattle.asn1_model.specs.Kinds.{unbounded_integer_type, under_own_name};

use crate::asn_type::AsnType;
use crate::type_table::TypeTable;
use asn1_tags::{Identifier, Tag};
use asn1_values::Integer;

impl AsnType for Integer {
    ghost meaning = { under_own_name unbounded_integer_type };

    #[inline(always)]
    fn table() -> TypeTable {
        TypeTable::new(Tag::INTEGER, Identifier::INTEGER)
    }

    #[inline(always)]
    fn is_present(&self) -> bool {
        true
    }
}
