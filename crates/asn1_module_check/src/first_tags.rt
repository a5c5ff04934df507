//! The tags with which values of a type begin.
ghost use Rattle.std.specs.Prelude.{◌≡◌, IfOk, OnOk};
ghost use Rattle.asn1_module_check.specs.FirstTags as spec;
ghost use Rattle.asn1_module_check.specs.FirstTags.{both, capped, first_within, of_each, seen};

use asn1_clash::FlatTree;
use asn1_notation::TagClass;
use asn1_resolved::{Alternative, Schema, Type, TypeKind};
use asn1_tags::{Class, Tag};
use std::alloc::{AllocError, Global};

// How many tags a type may begin with. One with more is seen as one that begins with any.
const MAX_TAGS: usize = 100_000;

/// The tags with which values of a type begin.
pub(crate) fn first_tags(
    alloc: Global,
    schema: &Schema<'_>,
    definition: &Type<'_>,
) -> Result<FlatTree, AllocError>
    ensures { IfOk result (λ tree. seen tree ≡ spec.first_tags schema.now definition.now.kind) }
{
    let mut tree = FlatTree::new(alloc);
    add_first_tags(&mut tree, schema, definition, most_steps(schema))?;
    if is_full(&tree) {
        tree.clear();
        tree.add_empty_choice();
    }
    Ok(tree)
}

// How many references and alternatives may lead from a type to a tag.
fn most_steps(schema: &Schema<'_>) -> usize
    ensures { result ≡ spec.most_steps schema.now }
{
    schema.types.len().saturating_mul(2).saturating_add(200)
}

// Whether a tree can begin with any tag, or with too many to list.
fn is_full(tree: &FlatTree) -> bool
    ensures { result ≡ spec.is_full (seen tree.now) }
{
    tree.has_empty_choice || MAX_TAGS < tree.tags.len()
}

// Adds the tags with which values of a type begin, unless there are too many.
#[cycle(first_tags)]
fn add_first_tags(
    tree: &mut FlatTree,
    schema: &Schema<'_>,
    definition: &Type<'_>,
    depth: usize,
) -> Result<(), AllocError>
    ensures { OnOk result (capped (seen tree.new) ≡
        capped (both (seen tree.old) (first_within schema.now depth definition.now.kind))) }
{
    let Some(depth) = depth.checked_sub(1) else {
        tree.add_empty_choice();
        return Ok(());
    };
    if is_full(tree) {
        return Ok(());
    }
    match &definition.kind {
        TypeKind::Reference(index) => match schema.types.get(*index) {
            Some(referenced) => add_first_tags(tree, schema, &referenced.definition, depth),
            None => {
                tree.add_empty_choice();
                Ok(())
            }
        },
        TypeKind::Choice(alternatives) => {
            add_alternatives(tree, schema, alternatives.root.as_slice(), depth)?;
            add_alternatives(tree, schema, alternatives.additions.as_slice(), depth)
        }
        kind => add_own_tag(tree, kind),
    }
}

// Adds the tags with which alternatives begin, unless there are too many.
#[cycle(first_tags)]
fn add_alternatives(
    tree: &mut FlatTree,
    schema: &Schema<'_>,
    alternatives: &[Alternative<'_>],
    depth: usize,
) -> Result<(), AllocError>
    ensures { OnOk result (capped (seen tree.new) ≡
        capped (both (seen tree.old) (of_each (λ alternative.
        first_within schema.now depth alternative.definition.kind) alternatives.now))) }
{
    for alternative in alternatives {
        add_first_tags(tree, schema, &alternative.definition, depth)?;
    }
    Ok(())
}

// Adds the tag of a type that is no reference and no CHOICE. An open type begins with any.
fn add_own_tag(tree: &mut FlatTree, kind: &TypeKind<'_>) -> Result<(), AllocError>
    ensures { OnOk result (seen tree.new ≡ both (seen tree.old) (spec.own_tag kind.now)) }
{
    match kind {
        TypeKind::Tagged(tag, _) => tree.push(Tag {
            class: class_of(tag.class),
            value: tag.number,
        }),
        kind => match kind.universal_number() {
            Some(value) => tree.push(Tag {
                class: Class::Universal,
                value,
            }),
            None => {
                tree.add_empty_choice();
                Ok(())
            }
        },
    }
}

// The class of a tag.
fn class_of(class: TagClass) -> Class
    ensures { result ≡ spec.class_of class }
{
    match class {
        TagClass::Universal => Class::Universal,
        TagClass::Application => Class::Application,
        TagClass::Context => Class::Context,
        TagClass::Private => Class::Private,
    }
}
