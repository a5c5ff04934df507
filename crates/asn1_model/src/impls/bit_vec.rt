//! A BIT STRING (X.680, 22) whose bits lie in octets, and one with named bits.
ghost use Rattle.asn1_model.specs.Kinds.{bit_string, named_bit_string};

use crate::asn_type::AsnType;
use crate::strings::StringType;
use crate::type_table::TypeTable;
use asn1_values::kind::{NamedBits, PackedBits};
use asn1_values::{BitVec, NamedBitString};

impl AsnType for BitVec {
    ghost meaning = { bit_string };

    #[inline(always)]
    fn table() -> TypeTable {
        PackedBits::table()
    }

    #[inline(always)]
    fn is_present(&self) -> bool {
        true
    }
}

impl AsnType for NamedBitString {
    ghost meaning = { named_bit_string };

    #[inline(always)]
    fn table() -> TypeTable {
        NamedBits::table()
    }

    #[inline(always)]
    fn is_present(&self) -> bool {
        true
    }
}
