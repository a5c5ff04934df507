//! The facts that a schema states of a type.
ghost use Rattle.std.specs.Prelude.{◌≡◌};
ghost use Rattle.asn1_model.specs.ConstraintSets.{table_constraints, unconstrained};
ghost use Rattle.asn1_model.specs.Tags.{CHOICE};
ghost use Rattle.asn1_model.specs.TypeTables.{tree_under, is_of_choice};
ghost use Rattle.asn1_tags.specs.Trees.{shape};

use asn1_bounds::ConstraintTable;
use asn1_tags::{Identifier, Tag, TagTree};

/// How the tags with which a value can begin follow from the tag that its type is written under.
#[derive(Clone, Copy, Debug)]
pub enum TreeForm {
    /// That tag alone.
    Leaf,
    /// The alternatives of a CHOICE: their tags under the marker [`Tag::CHOICE`]; under any other tag that one.
    Choice(&'static [TagTree<'static>]),
    /// Every tag, whatever the type is written under: an open type.
    Open,
}

impl TreeForm {
    /// The tags with which a value can begin under a tag.
    #[inline(always)]
    pub fn under(self, tag: Tag) -> TagTree<'static>
        ensures { shape result ≡ tree_under self tag }
    {
        match self {
            TreeForm::Choice(alternatives) if tag.is_choice() => TagTree::Choice(alternatives),
            TreeForm::Open => TagTree::empty(),
            _ => TagTree::Leaf(tag),
        }
    }

    /// Whether it is that of a CHOICE.
    #[inline(always)]
    pub fn is_choice(self) -> bool
        ensures { result ≡ is_of_choice self }
    {
        matches!(self, TreeForm::Choice(_))
    }
}

/// The facts that a schema states of a type: rasn's `TAG`, `TAG_TREE`, `IDENTIFIER`, `IS_CHOICE` and `CONSTRAINTS` in one.
#[derive(Clone, Copy, Debug)]
pub struct TypeTable {
    /// The type's own tag.
    pub tag: Tag,
    /// The tags with which a value can begin.
    pub tree: TreeForm,
    /// The type's name.
    pub identifier: Identifier,
    /// The type's constraints.
    pub constraints: ConstraintTable<'static>,
}

impl TypeTable {
    ghost use Rattle.asn1_model.specs.declared.type_table.TreeForm.TheVariants.{Choice, Leaf};

    /// The table of a type of this tag and name, without constraints, whose values begin with its tag.
    #[inline(always)]
    pub fn new(tag: Tag, identifier: Identifier) -> TypeTable
        ensures tag { result.tag ≡ tag }
        ensures tree { result.tree ≡ Leaf }
        ensures identifier { result.identifier ≡ identifier }
        ensures constraints { table_constraints result.constraints ≡ unconstrained }
    {
        TypeTable {
            tag,
            tree: TreeForm::Leaf,
            identifier,
            constraints: ConstraintTable::NONE,
        }
    }

    /// The table of a CHOICE of these alternatives, of this name and without constraints.
    #[inline(always)]
    pub fn choice(identifier: Identifier, alternatives: &'static [TagTree<'static>]) -> TypeTable
        ensures tag { result.tag ≡ CHOICE }
        ensures tree { result.tree ≡ Choice alternatives.entry }
        ensures identifier { result.identifier ≡ identifier }
        ensures constraints { table_constraints result.constraints ≡ unconstrained }
    {
        TypeTable {
            tag: Tag::CHOICE,
            tree: TreeForm::Choice(alternatives),
            identifier,
            constraints: ConstraintTable::NONE,
        }
    }

    /// The table with these constraints in the place of its own.
    #[inline(always)]
    pub fn with_constraints(self, constraints: ConstraintTable<'static>) -> TypeTable
        ensures tag { result.tag ≡ self.tag }
        ensures tree { result.tree ≡ self.tree }
        ensures identifier { result.identifier ≡ self.identifier }
        ensures constraints { table_constraints result.constraints ≡
            table_constraints constraints.entry }
    {
        TypeTable {
            constraints,
            ..self
        }
    }
}
