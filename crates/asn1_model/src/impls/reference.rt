//! A reference, which means what its target means.
ghost use Rattle.asn1_model.specs.Kinds.{wrapper_type};

use crate::asn_type::AsnType;
use crate::type_table::TypeTable;

impl<T: AsnType> AsnType for &T {
    ghost meaning = { wrapper_type (λ r. r.now) T.meaning };

    #[inline(always)]
    fn table() -> TypeTable {
        T::table()
    }

    #[inline(always)]
    fn is_present(&self) -> bool {
        (**self).is_present()
    }
}
