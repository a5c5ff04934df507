//! The alternatives of CHOICE types.
use crate::components::{steps_of, tree_of};
use crate::defaults::last_index;
use crate::notation::quoted_part;
use crate::parameters::held_by;
use crate::plan::Plan;
use crate::types::PartTexts;
use asn1_names::Place;
use asn1_resolved::{Alternative, Alternatives, Type, TypeKind};
use asn1_rust_code::{Tagging, TypeName};
use asn1_rust_components::ChoiceType;
use asn1_rust_names::TakenNames;
use std::alloc::AllocError;

/// A CHOICE of alternatives that were lowered.
pub(crate) fn choice_with(
    plan: &mut Plan<'_, '_>,
    alternatives: &Alternatives<'_>,
    lowered: Vec<asn1_rust_components::Alternative>,
    place: Place,
) -> Result<ChoiceType, AllocError> {
    if alternatives.root.is_empty() {
        plan.error(
            place,
            "a CHOICE without an alternative in its root is not supported",
        )?;
    }
    Ok(ChoiceType {
        alternatives: lowered,
        extension_index: if alternatives.is_extensible {
            Some(alternatives.root.len())
        } else {
            None
        },
    })
}

/// An alternative whose type has this name.
pub(crate) fn alternative_with(
    plan: &mut Plan<'_, '_>,
    alternative: &Alternative<'_>,
    texts: &PartTexts,
    tagging: Tagging,
    definition: TypeName,
    variants: &mut TakenNames,
) -> Result<asn1_rust_components::Alternative, AllocError> {
    let tree = tree_of(
        plan,
        &alternative.definition,
        &definition,
        alternative.place,
    )?;
    let is_null = is_null(plan, &alternative.definition);
    let has_explicit_elements = has_explicit_elements(plan, &alternative.definition);
    let held = held_by(plan.alloc, &definition)?;
    Ok(asn1_rust_components::Alternative {
        name: plan.text(texts.name.as_str())?,
        variant: new_variant(plan, alternative.name, variants)?,
        notation: quoted_part(plan.alloc, texts.notation.as_str())?,
        definition,
        tagging,
        tree,
        is_null,
        has_explicit_elements,
        held,
    })
}

// Whether a type is NULL, by references and below tags too.
fn is_null(plan: &Plan<'_, '_>, definition: &Type<'_>) -> bool {
    let schema = plan.request.schema;
    match last_index(schema, definition, steps_of(plan)) {
        Some(index) => match schema.types.get(index) {
            Some(referred) => is_null_below_tags(&referred.definition),
            None => false,
        },
        None => is_null_below_tags(definition),
    }
}

// Whether a type is NULL below its tags.
#[cycle(null)]
fn is_null_below_tags(definition: &Type<'_>) -> bool {
    match &definition.kind {
        TypeKind::Tagged(_, inner) => is_null_below_tags(inner),
        TypeKind::Null => true,
        _ => false,
    }
}

// Whether a type is a list with elements behind an explicit tag, by references, below tags and in other lists too.
fn has_explicit_elements(plan: &Plan<'_, '_>, definition: &Type<'_>) -> bool {
    let schema = plan.request.schema;
    let mut found = what_is_behind(definition, false);
    for _ in 0..steps_of(plan) {
        found = match found {
            Behind::ExplicitElement => return true,
            Behind::Reference(index, is_element) => match schema.types.get(index) {
                Some(referred) => what_is_behind(&referred.definition, is_element),
                None => return false,
            },
            Behind::Other => return false,
        };
    }
    false
}

// What is behind the tags and the lists of a type.
#[derive(Clone, Copy)]
enum Behind {
    // An element behind an explicit tag.
    ExplicitElement,
    // A reference, and whether it is in a list.
    Reference(usize, bool),
    Other,
}

// What is behind the tags and the lists of a type, which is in a list or not.
#[cycle(behind)]
fn what_is_behind(definition: &Type<'_>, is_element: bool) -> Behind {
    match &definition.kind {
        TypeKind::Tagged(tag, _) if is_element && tag.is_explicit => Behind::ExplicitElement,
        TypeKind::Tagged(_, inner) => what_is_behind(inner, is_element),
        TypeKind::SequenceOf(element) => what_is_behind(element, true),
        TypeKind::SetOf(element) => what_is_behind(element, true),
        TypeKind::Reference(index) => Behind::Reference(*index, is_element),
        _ => Behind::Other,
    }
}

/// A name that no other has for the variant of this name in ASN.1.
pub(crate) fn new_variant(
    plan: &Plan<'_, '_>,
    name: &[u8],
    variants: &mut TakenNames,
) -> Result<String, AllocError> {
    let camel = plan.camel(name)?;
    variants.take(variant_name(camel.as_str()))
}

// The name of a variant: another, if it is a word of clauses.
fn variant_name(name: &str) -> &str {
    match name.as_bytes() {
        b"Type" => "TypeItem",
        b"Unit" => "UnitItem",
        b"Some" => "SomeItem",
        b"None" => "NoneItem",
        b"Ok" => "OkItem",
        b"Err" => "ErrItem",
        _ => name,
    }
}
