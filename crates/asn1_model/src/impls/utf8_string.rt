//! UTF8String (X.680, 41).
ghost use Rattle.std.specs.String.{string_bytes};
ghost use Rattle.asn1_model.specs.Kinds.{utf8_string};

use crate::asn_type::AsnType;
use crate::type_table::TypeTable;
use asn1_tags::{Identifier, Tag};

impl AsnType for String {
    ghost meaning = { utf8_string string_bytes };

    #[inline(always)]
    fn table() -> TypeTable {
        TypeTable::new(Tag::UTF8_STRING, Identifier::UTF8_STRING)
    }

    #[inline(always)]
    fn is_present(&self) -> bool {
        true
    }
}
