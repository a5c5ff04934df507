//! Strings of any units, by their kind.
ghost use Rattle.asn1_model.specs.Kinds.{string_type};

use crate::asn_type::AsnType;
use crate::strings::StringType;
use crate::type_table::TypeTable;
use asn1_values::{StringUnit, UnitString};

impl<U: StringUnit, K: StringType<U>> AsnType for UnitString<U, K> {
    ghost meaning = { string_type K.own_tag K.own_name U.IsInRange K.content };

    #[inline(always)]
    fn table() -> TypeTable {
        K::table()
    }

    #[inline(always)]
    fn is_present(&self) -> bool {
        true
    }
}
