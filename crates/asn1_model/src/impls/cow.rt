//! A borrowed or owned value, which means what the value means, under its name where no other is given.
ghost use Rattle.std.specs.Cow.{cow_value};
ghost use Rattle.asn1_model.specs.Kinds.{wrapper_type, under_own_name};

use crate::asn_type::AsnType;
use crate::type_table::TypeTable;
use std::borrow::Cow;

impl<T: AsnType> AsnType for Cow<'_, T> {
    ghost meaning = { under_own_name (wrapper_type cow_value T.meaning) };

    #[inline(always)]
    fn table() -> TypeTable {
        T::table()
    }

    #[inline(always)]
    fn is_present(&self) -> bool {
        match self {
            Cow::Borrowed(target) => (*target).is_present(),
            Cow::Owned(value) => value.is_present(),
        }
    }
}
