//! OBJECT IDENTIFIER (X.680, 32).
ghost use Rattle.asn1_model.specs.Kinds.{object_identifier};

use crate::asn_type::AsnType;
use crate::type_table::TypeTable;
use asn1_tags::{Identifier, Tag};
use asn1_values::ObjectIdentifier;

impl AsnType for ObjectIdentifier {
    ghost meaning = { object_identifier };

    #[inline(always)]
    fn table() -> TypeTable {
        TypeTable::new(Tag::OBJECT_IDENTIFIER, Identifier::OBJECT_IDENTIFIER)
    }

    #[inline(always)]
    fn is_present(&self) -> bool {
        true
    }
}
