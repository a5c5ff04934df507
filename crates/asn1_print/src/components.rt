//! The components of SEQUENCE and SET types.
use crate::defaults::default_of;
use crate::notation::{component_text, quoted_part};
use crate::parameters::held_by;
use crate::plan::Plan;
use crate::tags::{Beginning, first_tags, least_rank, universal};
use crate::types::{PartTexts, push_imports};
use asn1_names::Place;
use asn1_resolved::{Addition, Component, Components, Type, Usage};
use asn1_rust_code::{Import, TagNumber, Tagging, TypeName};
use asn1_rust_components::{Constructed, Tree};
use asn1_rust_names::{TakenNames, snake_case};
use std::alloc::{AllocError, Global};

/// The greatest number of components of a type.
const MOST: usize = 144;

/// The number of references that are followed from a type.
pub(crate) fn steps_of(plan: &Plan<'_, '_>) -> usize {
    plan.request.schema.types.len().saturating_add(64)
}

// The indices of components, those with a lesser rank first.
fn order_of(plan: &Plan<'_, '_>, ranks: &[u64]) -> Result<Vec<usize>, AllocError> {
    let mut order: Vec<(u64, usize)> = Vec::new(plan.alloc);
    for (index, rank) in ranks.iter().enumerate() {
        order.push((*rank, index))?;
    }
    order.sort()?;
    let mut indices = Vec::new(plan.alloc);
    for (_, index) in &order {
        indices.push(*index)?;
    }
    Ok(indices)
}

/// A SEQUENCE or a SET of components that were lowered.
pub(crate) fn constructed_with(
    plan: &mut Plan<'_, '_>,
    components: &Components<'_>,
    lowered: Vec<asn1_rust_components::Component>,
    tag: Option<TagNumber>,
    is_set: bool,
) -> Result<Constructed, AllocError> {
    if let Some(place) = first_place(components) {
        require_few(plan, lowered.len(), place)?;
    }
    let table = if is_set {
        table_of(plan, components)?
    } else {
        Vec::new(plan.alloc)
    };
    Ok(Constructed {
        tag,
        components: lowered,
        extension_index: if components.is_extensible {
            Some(components.root.len())
        } else {
            None
        },
        table,
        trees: Vec::new(plan.alloc),
        is_of_set: false,
    })
}

/// Refuses a type of more components than one can have.
pub(crate) fn require_few(
    plan: &mut Plan<'_, '_>,
    count: usize,
    place: Place,
) -> Result<(), AllocError> {
    if count > MOST {
        plan.error(place, "a type of more than 144 components is not supported")?;
    }
    Ok(())
}

// The place of the first component: of the root, or else of the additions.
fn first_place(components: &Components<'_>) -> Option<Place> {
    if let Some(first) = components.root.as_slice().first() {
        return Some(first.place);
    }
    match components.additions.as_slice().first()? {
        Addition::Component(first) => Some(first.place),
        Addition::Group(group) => Some(group.as_slice().first()?.place),
    }
}

// The indices of the components of a SET, in the order of their tags.
fn table_of(plan: &Plan<'_, '_>, components: &Components<'_>) -> Result<Vec<usize>, AllocError> {
    let mut ranks = Vec::new(plan.alloc);
    for component in &components.root {
        let rank = least_rank(plan.alloc, plan.request.schema, &component.definition)?;
        ranks.push(rank)?;
    }
    order_of(plan, ranks.as_slice())
}

/// A group of components that were lowered.
pub(crate) fn group_with(
    alloc: Global,
    components: Vec<asn1_rust_components::Component>,
    trees: Vec<Tree>,
    is_of_set: bool,
) -> Constructed {
    Constructed {
        tag: None,
        components,
        extension_index: None,
        table: Vec::new(alloc),
        trees,
        is_of_set,
    }
}

/// A component whose type has this name.
pub(crate) fn component_with(
    plan: &mut Plan<'_, '_>,
    component: &Component<'_>,
    texts: &PartTexts,
    tagging: Tagging,
    definition: TypeName,
    fields: &mut TakenNames,
    is_addition: bool,
) -> Result<asn1_rust_components::Component, AllocError> {
    let usage = usage_of(plan, component, &definition, is_addition)?;
    let held = held_by(plan.alloc, &definition)?;
    Ok(asn1_rust_components::Component {
        name: plan.text(texts.name.as_str())?,
        field: field_name(plan, component, fields)?,
        notation: quoted_part(plan.alloc, texts.notation.as_str())?,
        definition,
        tagging,
        usage,
        is_addition,
        held,
    })
}

// The name of the field of a component.
fn field_name(
    plan: &Plan<'_, '_>,
    component: &Component<'_>,
    fields: &mut TakenNames,
) -> Result<String, AllocError> {
    let name = plan.words.separated(component.name)?;
    let snake = snake_case(plan.alloc, name.as_slice())?;
    fields.take(snake.as_str())
}

// Whether a component may be absent in Rust.
fn usage_of(
    plan: &mut Plan<'_, '_>,
    component: &Component<'_>,
    name: &TypeName,
    is_addition: bool,
) -> Result<asn1_rust_components::Usage, AllocError> {
    match &component.usage {
        Usage::Required => {
            if is_addition {
                Ok(asn1_rust_components::Usage::Optional)
            } else {
                Ok(asn1_rust_components::Usage::Required)
            }
        }
        Usage::Optional => Ok(asn1_rust_components::Usage::Optional),
        Usage::Default(value) => {
            let place = component.place;
            default_of(plan, value, &component.definition, name, place, is_addition)
        }
    }
}

/// The component that is the group of a module.
pub(crate) fn group_component(
    plan: &Plan<'_, '_>,
    module: &str,
    name: &str,
    summary: String,
    fields: &mut TakenNames,
    is_of_set: bool,
) -> Result<asn1_rust_components::Component, AllocError> {
    let constant = constant_name(plan, module)?;
    let definition = group_type(plan, module, name, constant.as_str())?;
    let field = fields.take("additions")?;
    let usage = if is_of_set {
        asn1_rust_components::Usage::GroupOfSet(constant)
    } else {
        asn1_rust_components::Usage::Group(constant)
    };
    Ok(asn1_rust_components::Component {
        name: plan.text(field.as_str())?,
        field,
        notation: summary,
        definition,
        tagging: Tagging::Untagged,
        usage,
        is_addition: true,
        held: None,
    })
}

// The type of a group, imported with the constant of its trees.
fn group_type(
    plan: &Plan<'_, '_>,
    module: &str,
    name: &str,
    constant: &str,
) -> Result<TypeName, AllocError> {
    let mut definition = plan.local_type(module, name)?;
    let trees = plan.local_type(module, constant)?;
    push_imports(plan.alloc, &mut definition, &trees)?;
    Ok(definition)
}

/// The definition of a group in ASN.1.
pub(crate) fn group_text(
    plan: &Plan<'_, '_>,
    group: &[Component<'_>],
) -> Result<String, AllocError> {
    let mut text = plan.text("[[ ")?;
    for (index, component) in group.iter().enumerate() {
        if index != 0 {
            text.push_str(", ")?;
        }
        let part = component_text(plan.alloc, plan.request.sources, component.place)?;
        text.push_str(part.as_str())?;
    }
    text.push_str(" ]]")?;
    Ok(text)
}

// The constant with the trees of the type of a module.
fn constant_name(plan: &Plan<'_, '_>, module: &str) -> Result<String, AllocError> {
    let mut constant = String::new(plan.alloc);
    for octet in module.as_bytes() {
        constant.push(char::from(octet.to_ascii_uppercase()))?;
    }
    Ok(constant)
}

/// The trees of tags of a type, of which code has this name.
pub(crate) fn tree_of(
    plan: &mut Plan<'_, '_>,
    definition: &Type<'_>,
    name: &TypeName,
    place: Place,
) -> Result<Tree, AllocError> {
    let steps = steps_of(plan);
    match first_tags(plan.request.schema, definition, steps) {
        Beginning::Leaf(tag) => Ok(Tree::Leaf(tag)),
        Beginning::Choice(index) => defined_choice_tree(plan, index, place),
        Beginning::Inline => choice_tree(plan, module_of(name)),
        Beginning::Any => {
            plan.error(
                place,
                "an open type has no tag by which it is told from others; give it a tag",
            )?;
            Ok(Tree::Leaf(universal(0)))
        }
    }
}

// The trees of the CHOICE with an index in the schema.
fn defined_choice_tree(
    plan: &mut Plan<'_, '_>,
    index: usize,
    place: Place,
) -> Result<Tree, AllocError> {
    if let Some(generic) = plan.generic_of(index) {
        return choice_tree(plan, generic.module.as_str());
    }
    match plan.types.get(index) {
        Some(planned) if planned.external.is_none() => choice_tree(plan, planned.module.as_str()),
        _ => {
            plan.error(
                place,
                "a CHOICE of another crate has no tag of its own here; give it a tag",
            )?;
            choice_tree(plan, "aliases")
        }
    }
}

// The module of the type of this name.
fn module_of(name: &TypeName) -> &str {
    match name.imports.as_slice().first() {
        Some(import) => import.path.as_str().trim_start_matches("crate::"),
        None => "aliases",
    }
}

// The trees of the CHOICE of a module.
fn choice_tree(plan: &Plan<'_, '_>, module: &str) -> Result<Tree, AllocError> {
    Ok(Tree::Choice(Import {
        is_foreign: false,
        path: format!(in plan.alloc; "crate::{module}")?,
        name: constant_name(plan, module)?,
    }))
}
