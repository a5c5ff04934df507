//! A type without any content, which no codec writes.
ghost use Rattle.asn1_model.specs.Kinds.{empty_type};

use crate::asn_type::AsnType;
use crate::type_table::TypeTable;
use asn1_tags::{Identifier, Tag};
use std::marker::PhantomData;

impl<T: AsnType> AsnType for PhantomData<T> {
    ghost meaning = { empty_type };

    #[inline(always)]
    fn table() -> TypeTable {
        TypeTable::new(Tag::NULL, Identifier::EMPTY)
    }

    #[inline(always)]
    fn is_present(&self) -> bool {
        true
    }
}
