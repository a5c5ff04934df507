//! The component that begins with a tag.
ghost use Rattle.asn1_components.specs.Components.{all_components};
ghost use Rattle.asn1_laws.specs.SetParts.{CanBeginWith};
ghost use Rattle.asn1_model.specs.Tags.{Has, tree_tags};
ghost use Rattle.asn1_tags.specs.Trees.{shape};
ghost use Rattle.std.specs.Prelude.{IfSome, IsTrue, MatchOption, ℕ};

use asn1_components::FieldTable;
use asn1_model::can_begin_with;
use asn1_tags::{Tag, TagTree};

/// The index of a component that can begin with the tag; `None` where there is none.
///
/// The components with one tag are asked first, since a walk over the tags of a CHOICE takes longer.
#[inline(always)]
pub fn component_with_tag<C: FieldTable>(tag: Tag) -> Option<usize>
    ensures { MatchOption result ((k : ℕ) → CanBeginWith (all_components C.components) k tag → ⊥)
        (λ k. CanBeginWith (all_components C.components) k tag) }
{
    if let Some(index) = component_with_one_tag::<C>(tag) {
        return Some(index);
    }
    for index in 0..C::field_count() {
        if let Some(field) = C::field_at(index) {
            if can_begin_with(field.tag_tree, tag) {
                return Some(field.index);
            }
        }
    }
    None
}

/// The index of a component whose one tag is this tag.
#[inline(always)]
fn component_with_one_tag<C: FieldTable>(tag: Tag) -> Option<usize>
    ensures { IfSome result (λ k. CanBeginWith (all_components C.components) k tag) }
{
    for index in 0..C::field_count() {
        if let Some(field) = C::field_at(index) {
            if is_one_tag(field.tag_tree, tag) {
                return Some(field.index);
            }
        }
    }
    None
}

/// Whether the tree is this one tag.
#[inline(always)]
fn is_one_tag(tree: TagTree<'static>, tag: Tag) -> bool
    ensures { IsTrue result → Has (tree_tags (shape tree.entry)) tag }
{
    match tree {
        TagTree::Leaf(_) => can_begin_with(tree, tag),
        TagTree::Choice(_) => false,
    }
}
