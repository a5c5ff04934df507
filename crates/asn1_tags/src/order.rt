//! The order of trees: by the smallest tag, and ties by structure.
#![tactic(auto, using(crate::proofs::Leaves::tree_shapes, crate::proofs::Structures::steps))]

ghost use Rattle.std.specs.Prelude.{◌≡◌, ◌↔◌, IsTrue, Some, refl};
ghost use Rattle.std.specs.declared.cmp.Ordering.TheVariants.{Equal};
ghost use Rattle.std.specs.Ordering.{as_partial_cmp, eq_by_cmp, on};
ghost use Rattle.std.specs.Cmp.{partial_equiv_from_equiv};
ghost use Rattle.asn1_tags.specs.Order.{structure_cmp, structures_cmp, tree_cmp};
ghost use Rattle.asn1_tags.specs.OrderLaws.{structure_equiv, tree_partial, tree_ties, tree_total};
ghost use Rattle.asn1_tags.specs.Trees.{shape, shapes};

use crate::trees::TagTree;
use std::cmp::Ordering;

// By structure: a leaf before a choice, leaves by tag, and choices as lists of trees.
#[cycle(structure)]
fn cmp_structure(tree: &TagTree<'_>, other: &TagTree<'_>) -> Ordering
    ensures { result ≡ structure_cmp (shape tree.now) (shape other.now) }
{
    match tree {
        TagTree::Leaf(tag) => match other {
            TagTree::Leaf(others) => tag.const_cmp(others),
            TagTree::Choice(_) => Ordering::Less,
        },
        TagTree::Choice(nodes) => match other {
            TagTree::Leaf(_) => Ordering::Greater,
            TagTree::Choice(others) => cmp_structures(nodes, others),
        },
    }
}

// Lexicographically by the structure of the trees.
#[cycle(structure)]
fn cmp_structures(nodes: &[TagTree<'_>], others: &[TagTree<'_>]) -> Ordering
    ensures { result ≡ structures_cmp (shapes nodes.now) (shapes others.now) }
{
    for i in 0..nodes.len().min(others.len()) {
        let order = cmp_structure(&nodes[i], &others[i]);
        if order.is_ne() {
            return order;
        }
    }
    nodes.len().cmp(&others.len())
}

/// Two trees are equal if they have the same structure and the same tags in the same indices.
impl PartialEq for TagTree<'_> {
    ghost eq = { eq_by_cmp (on shape structure_cmp) };

    ghost laws = { partial_equiv_from_equiv structure_equiv };

    #[tactic(auto, using(crate::proofs::Structures::ties))]
    fn eq(&self, other: &Self) -> bool
        ensures member { result ≡ eq_by_cmp (on shape structure_cmp) self.now other.now }
        ensures same { IsTrue result ↔ (shape self.now ≡ shape other.now) }
    {
        cmp_structure(self, other).is_eq()
    }
}

impl Eq for TagTree<'_> {
    ghost laws = { structure_equiv };
}

impl PartialOrd for TagTree<'_> {
    ghost partial_cmp = { as_partial_cmp (on shape tree_cmp) };

    ghost laws = { tree_partial };

    fn partial_cmp(&self, other: &Self) -> Option<Ordering> {
        Some(self.cmp(other))
    }
}

/// Trees go by their smallest tag, and where that is the same, by structure: a leaf comes before a
/// choice, leaves go by tag, and choices lexicographically by the structure of their trees.
impl Ord for TagTree<'_> {
    ghost cmp = { on shape tree_cmp };

    ghost total = { tree_total };

    ghost matches_partial_cmp = { λ _ _. refl };

    ghost matches_eq = { tree_ties };

    #[tactic(auto, using(crate::proofs::Smallest::smallest_cmp, crate::proofs::Structures::equal_trees))]
    fn cmp(&self, other: &Self) -> Ordering
        ensures member { result ≡ on shape tree_cmp self.now other.now }
        ensures equal { (result ≡ Equal) ↔ (shape self.now ≡ shape other.now) }
    {
        match self.smallest_tag().const_cmp(&other.smallest_tag()) {
            Ordering::Equal => cmp_structure(self, other),
            order => order,
        }
    }
}
