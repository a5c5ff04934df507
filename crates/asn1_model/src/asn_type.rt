//! The tables of a type, and what its values mean.
ghost use Rattle.std.specs.Prelude.{◌≡◌, IfOk, IsNone, IsOk};
ghost use Rattle.asn1_tags.specs.declared.tags.Tag.{Tag};
ghost use Rattle.asn1_tags.specs.Names.{name_of};
ghost use Rattle.asn1_tags.specs.Trees.{shape};
ghost use Rattle.asn1_model.specs.ConstraintSets.{constraint_set, table_constraints};
ghost use Rattle.asn1_model.specs.Meaning.{Meaning};
ghost use Rattle.asn1_model.specs.TypeTables.{tree_under, is_of_choice};

use crate::type_table::TypeTable;
use asn1_bounds::Constraints;
use asn1_tags::{Identifier, Tag, TagTree};
use std::alloc::{AllocError, Global};

/// A type of ASN.1: what a schema says of it, and what its values mean.
///
/// An implementation states the meaning, the table and whether a value is there; the other functions read the table. With
/// the meaning it proves the law of types (`one_record`): a value of a type whose values are single records, and whose
/// tags are distinct, is one record, and begins with one of the type's tags. Each word for a kind of type has the proof.
pub trait AsnType {
    // The meaning of the type to every codec.
    ghost meaning: { Meaning Self };

    /// The facts that a schema states of the type.
    fn table() -> TypeTable
        ensures tag { result.tag ≡ meaning.tag }
        ensures tree { (tag : Tag) → tree_under result.tree tag ≡ meaning.tree tag }
        ensures choice { is_of_choice result.tree ≡ meaning.is_choice }
        ensures identifier { name_of result.identifier ≡ meaning.name }
        ensures constraints { table_constraints result.constraints ≡ meaning.constraints };

    /// Whether the value is there, as each is but an option without one.
    fn is_present(&self) -> bool
        ensures { result ≡ meaning.is_present self.now };

    /// The type's own tag.
    #[inline(always)]
    final fn tag() -> Tag
        ensures { result ≡ meaning.tag }
    {
        Self::table().tag
    }

    /// The tags with which a value can begin under the type's own tag.
    #[inline(always)]
    final fn tag_tree() -> TagTree<'static>
        ensures { shape result ≡ meaning.tree meaning.tag }
    {
        Self::tag_tree_under(Self::tag())
    }

    /// The tags with which a value can begin, where the type is written under this tag: the tag alone, but for
    /// an untagged CHOICE and an open type.
    #[inline(always)]
    final fn tag_tree_under(tag: Tag) -> TagTree<'static>
        ensures { shape result ≡ meaning.tree tag }
    {
        Self::table().tree.under(tag)
    }

    /// Whether the type is a CHOICE.
    #[inline(always)]
    final fn is_choice() -> bool
        ensures { result ≡ meaning.is_choice }
    {
        Self::table().tree.is_choice()
    }

    /// The type's name.
    #[inline(always)]
    final fn identifier() -> Identifier
        ensures { name_of result ≡ meaning.name }
    {
        Self::table().identifier
    }

    /// The type's constraints. Takes memory only if a permitted alphabet is among them, and fails only if the
    /// allocator refuses it.
    #[inline(always)]
    final fn constraints(alloc: Global) -> Result<Constraints<'static>, AllocError>
        ensures set { IfOk result (λ set. constraint_set set ≡ meaning.constraints) }
        ensures without_alphabet { IsNone meaning.constraints.permitted_alphabet → IsOk result }
    {
        Self::table().constraints.to_constraints(alloc)
    }
}
