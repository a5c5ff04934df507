//! A SET OF in a schema, and its meaning.
ghost use Rattle.asn1_types.specs.Kinds.{set_of_type};

use super::SetOf;
use asn1_model::{AsnType, TypeTable};
use asn1_tags::{Identifier, Tag};

impl<T: AsnType> AsnType for SetOf<T> {
    ghost meaning = { set_of_type (λ set. set) T.meaning };

    #[inline(always)]
    fn table() -> TypeTable {
        TypeTable::new(Tag::SET, Identifier::SET_OF)
    }

    #[inline(always)]
    fn is_present(&self) -> bool {
        true
    }
}
