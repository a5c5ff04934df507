//! BOOLEAN (X.680, 18).
ghost use Rattle.std.specs.Prelude.{Some, codes};
ghost use Rattle.asn1_model.specs.ConstraintSets.{unconstrained};
ghost use Rattle.asn1_model.specs.Kinds.{scalar_type, without_constraints};
ghost use Rattle.asn1_model.specs.Records.{boolean};
ghost use Rattle.asn1_model.specs.Tags.{universal};

use crate::asn_type::AsnType;
use crate::type_table::TypeTable;
use asn1_tags::{Identifier, Tag};

impl AsnType for bool {
    ghost meaning = { without_constraints (scalar_type (universal 1) unconstrained (Some (codes "BOOLEAN")) boolean) };

    #[inline(always)]
    fn table() -> TypeTable {
        TypeTable::new(Tag::BOOL, Identifier::BOOL)
    }

    #[inline(always)]
    fn is_present(&self) -> bool {
        true
    }
}
