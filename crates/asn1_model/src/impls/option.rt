//! A component that may be absent.
ghost use Rattle.asn1_model.specs.Kinds.{option_type};

use crate::asn_type::AsnType;
use crate::type_table::TypeTable;

impl<T: AsnType> AsnType for Option<T> {
    ghost meaning = { option_type T.meaning };

    #[inline(always)]
    fn table() -> TypeTable {
        T::table()
    }

    #[inline(always)]
    fn is_present(&self) -> bool {
        self.is_some()
    }
}
