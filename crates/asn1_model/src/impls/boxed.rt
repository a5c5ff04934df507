//! A box, which means what its content means, under the content's name where no other is given.
ghost use Rattle.asn1_model.specs.Kinds.{wrapper_type, under_own_name};

use crate::asn_type::AsnType;
use crate::type_table::TypeTable;

impl<T: AsnType> AsnType for Box<T> {
    ghost meaning = { under_own_name (wrapper_type (λ b. b.value) T.meaning) };

    #[inline(always)]
    fn table() -> TypeTable {
        T::table()
    }

    #[inline(always)]
    fn is_present(&self) -> bool {
        (**self).is_present()
    }
}
