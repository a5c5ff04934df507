//! NULL (X.680, 24).
ghost use Rattle.std.specs.Prelude.{Some, codes};
ghost use Rattle.asn1_model.specs.ConstraintSets.{unconstrained};
ghost use Rattle.asn1_model.specs.Kinds.{scalar_type, without_constraints};
ghost use Rattle.asn1_model.specs.Records.{null};
ghost use Rattle.asn1_model.specs.Tags.{universal};

use crate::asn_type::AsnType;
use crate::type_table::TypeTable;
use asn1_tags::{Identifier, Tag};

impl AsnType for () {
    ghost meaning = { without_constraints (scalar_type (universal 5) unconstrained (Some (codes "NULL")) (λ _. null)) };

    #[inline(always)]
    fn table() -> TypeTable {
        TypeTable::new(Tag::NULL, Identifier::NULL)
    }

    #[inline(always)]
    fn is_present(&self) -> bool {
        true
    }
}
