//! UTF8String (X.680, 41), borrowed.
ghost use Rattle.std.specs.Prelude.{◌≡◌, true, false, Some, codes};
ghost use Rattle.asn1_tags.specs.Names.{name_of};
ghost use Rattle.asn1_tags.specs.Trees.{leaf};
ghost use Rattle.asn1_tags.specs.declared.tags.Tag.{Tag};
ghost use Rattle.asn1_model.specs.ConstraintSets.{table_constraints, unconstrained};
ghost use Rattle.asn1_model.specs.Kinds.{utf8_string};
ghost use Rattle.asn1_model.specs.Tags.{universal};
ghost use Rattle.asn1_model.specs.TypeTables.{tree_under, is_of_choice};

use crate::asn_type::AsnType;
use crate::type_table::TypeTable;
use asn1_tags::{Identifier, Tag};

impl AsnType for &str {
    ghost meaning = { utf8_string (λ text. text.now) };

    #[inline(always)]
    fn table() -> TypeTable
        ensures tag { result.tag ≡ universal 12 }
        ensures tree { (tag : Tag) → tree_under result.tree tag ≡ leaf tag }
        ensures choice { is_of_choice result.tree ≡ false }
        ensures identifier { name_of result.identifier ≡ Some (codes "UTF8String") }
        ensures constraints { table_constraints result.constraints ≡ unconstrained }
    {
        TypeTable::new(Tag::UTF8_STRING, Identifier::UTF8_STRING)
    }

    #[inline(always)]
    fn is_present(&self) -> bool
        ensures { result ≡ true }
    {
        true
    }
}
