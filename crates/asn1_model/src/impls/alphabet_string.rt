//! Strings with an alphabet, by their kind.
ghost use Rattle.std.specs.Prelude.{IsTrue};
ghost use Rattle.asn1_model.specs.Kinds.{string_type};

use crate::asn_type::AsnType;
use crate::strings::StringType;
use crate::type_table::TypeTable;
use asn1_values::{Alphabet, AlphabetString};

impl<U, A: Alphabet<U> + StringType<U>> AsnType for AlphabetString<U, A> {
    ghost meaning = { string_type A.own_tag A.own_name (λ unit. IsTrue (A.allows unit)) A.content };

    #[inline(always)]
    fn table() -> TypeTable {
        A::table()
    }

    #[inline(always)]
    fn is_present(&self) -> bool {
        true
    }
}
