//! How a type of a circle holds the parameter.
use crate::plan::{Plan, has_file};
use crate::types::{set_of, wrapped};
use asn1_names::Place;
use asn1_resolved::{Type, TypeKind};
use asn1_rust_code::{Import, Tagging, TypeName};
use asn1_rust_components::{
    Alternative, Component, Constructed, Held, ListKind, Tree, TypeBody, TypeFile, Usage,
};
use std::alloc::{AllocError, Global};

/// The name of a type of the circle that is printed: the parameter, or a type with it.
pub(crate) fn name_in_circle(
    plan: &Plan<'_, '_>,
    index: usize,
) -> Result<Option<TypeName>, AllocError> {
    match plan.current_circle {
        Some(current) => name_in(plan, current.index, index),
        None => Ok(None),
    }
}

// The name of a type of a circle, below the lists that it is.
fn name_in(
    plan: &Plan<'_, '_>,
    circle: usize,
    first: usize,
) -> Result<Option<TypeName>, AllocError> {
    let mut lists: Vec<ListKind> = Vec::new(plan.alloc);
    let mut index = first;
    for _ in 0..plan.request.schema.types.len() {
        if plan.circle_of(index) != Some(circle) {
            return Ok(None);
        }
        if is_named(plan, circle, index) {
            return named_in_lists(plan, circle, index, lists.as_slice());
        }
        match reference_of(plan, index, &mut lists)? {
            Some(next) => index = next,
            None => return Ok(None),
        }
    }
    Ok(None)
}

// Whether a definition of a circle is the knot, or has a file.
fn is_named(plan: &Plan<'_, '_>, circle: usize, index: usize) -> bool {
    if plan.knot_of(circle) == Some(index) {
        return true;
    }
    match plan.request.schema.types.get(index) {
        Some(definition) => has_file(&definition.definition),
        None => false,
    }
}

// The name of such a definition in lists, the outermost first.
fn named_in_lists(
    plan: &Plan<'_, '_>,
    circle: usize,
    index: usize,
    lists: &[ListKind],
) -> Result<Option<TypeName>, AllocError> {
    match own_name(plan, circle, index)? {
        Some(name) => Ok(Some(listed(plan, name, lists)?)),
        None => Ok(None),
    }
}

// The parameter, if a definition is the knot, or else its type with the parameter.
fn own_name(
    plan: &Plan<'_, '_>,
    circle: usize,
    index: usize,
) -> Result<Option<TypeName>, AllocError> {
    if plan.knot_of(circle) == Some(index) {
        return Ok(Some(plan.plain_type("T")?));
    }
    match plan.generic_of(index) {
        Some(generic) => {
            let name = generic_name(plan, generic.module.as_str(), generic.name.as_str())?;
            Ok(Some(name))
        }
        None => Ok(None),
    }
}

// The type that a definition refers to, below lists, which are added.
fn reference_of(
    plan: &Plan<'_, '_>,
    index: usize,
    lists: &mut Vec<ListKind>,
) -> Result<Option<usize>, AllocError> {
    match plan.request.schema.types.get(index) {
        Some(definition) => reference_below(&definition.definition, lists),
        None => Ok(None),
    }
}

// The type that a type refers to, below lists, which are added.
#[cycle(below)]
fn reference_below(
    definition: &Type<'_>,
    lists: &mut Vec<ListKind>,
) -> Result<Option<usize>, AllocError> {
    match &definition.kind {
        TypeKind::Reference(index) => Ok(Some(*index)),
        TypeKind::SequenceOf(element) => {
            lists.push(ListKind::SequenceOf)?;
            reference_below(element, lists)
        }
        TypeKind::SetOf(element) => {
            lists.push(ListKind::SetOf)?;
            reference_below(element, lists)
        }
        _ => Ok(None),
    }
}

/// A type with the parameter.
pub(crate) fn generic_name(
    plan: &Plan<'_, '_>,
    module: &str,
    name: &str,
) -> Result<TypeName, AllocError> {
    let mut generic = plan.local_type(module, name)?;
    generic.text = format!(in plan.alloc; "{name}<T>")?;
    Ok(generic)
}

// A type in these lists, the outermost first.
fn listed(plan: &Plan<'_, '_>, name: TypeName, lists: &[ListKind]) -> Result<TypeName, AllocError> {
    let mut name = name;
    for kind in lists.iter().rev() {
        name = in_list(plan, name, *kind)?;
    }
    Ok(name)
}

// A type in a list.
fn in_list(plan: &Plan<'_, '_>, name: TypeName, kind: ListKind) -> Result<TypeName, AllocError> {
    match kind {
        ListKind::SequenceOf => wrapped(plan, "Vec", name),
        ListKind::SetOf => set_of(plan, name),
    }
}

/// How a type of this name holds the parameter, if it does.
pub(crate) fn held_by(alloc: Global, name: &TypeName) -> Result<Option<Held>, AllocError> {
    let mut lists: Vec<ListKind> = Vec::new(alloc);
    let mut text = name.text.as_str();
    for _ in 0..name.text.len() {
        match inside(text) {
            Some((kind, rest)) => {
                lists.push(kind)?;
                text = rest;
            }
            None => break,
        }
    }
    held_in(alloc, lists, name, text)
}

// A list, and the name of the type of its elements.
fn inside(text: &str) -> Option<(ListKind, &str)> {
    match text.strip_prefix("Vec<") {
        Some(rest) => Some((ListKind::SequenceOf, rest.strip_suffix(">")?)),
        None => {
            let rest = text.strip_prefix("SetOf<")?;
            Some((ListKind::SetOf, rest.strip_suffix(">")?))
        }
    }
}

// How the type with this text below these lists holds the parameter.
fn held_in(
    alloc: Global,
    lists: Vec<ListKind>,
    name: &TypeName,
    text: &str,
) -> Result<Option<Held>, AllocError> {
    if text == "T" {
        return Ok(Some(Held {
            lists,
            member: None,
        }));
    }
    match member_module(name, text) {
        Some(module) => Ok(Some(Held {
            lists,
            member: Some(String::from_str(alloc, module)?),
        })),
        None => Ok(None),
    }
}

// The module of a type with the parameter, by its text.
fn member_module<'t>(name: &'t TypeName, text: &str) -> Option<&'t str> {
    let core = text.strip_suffix("<T>")?;
    let import = name
        .imports
        .iter()
        .find(|import| import.name.as_str() == core)?;
    Some(module_of(import))
}

// The module of a name that is imported.
fn module_of(import: &Import) -> &str {
    import.path.as_str().trim_start_matches("crate::")
}

/// Whether a type has a part that holds the parameter.
pub(crate) fn has_parameter(body: &TypeBody) -> bool {
    match body {
        TypeBody::Choice(choice) => choice.alternatives.iter().any(alternative_holds),
        TypeBody::Sequence(body) => body.components.iter().any(component_holds),
        TypeBody::Set(body) => body.components.iter().any(component_holds),
        TypeBody::Group(body) => body.components.iter().any(component_holds),
        _ => false,
    }
}

// Whether an alternative holds the parameter.
fn alternative_holds(alternative: &Alternative) -> bool {
    names_parameter(&alternative.definition)
}

// Whether a component holds the parameter.
fn component_holds(component: &Component) -> bool {
    names_parameter(&component.definition)
}

// Whether the text of a type names the parameter.
fn names_parameter(name: &TypeName) -> bool {
    let text = name.text.as_str();
    text == "T" || text.split_once("<T>").is_some() || text.split_once(" T>").is_some()
}

/// Reports what a type of a circle cannot have.
pub(crate) fn require_supported(
    plan: &mut Plan<'_, '_>,
    file: &TypeFile,
    place: Place,
) -> Result<(), AllocError> {
    match unsupported(&file.body) {
        Some((name, cause)) => {
            let text = format!(in plan.alloc;
                "'{name}': {cause} is not supported in a circle of types; name a type that exists by --extern NAME=crate::Type"
            )?;
            plan.error(place, text.as_str())
        }
        None => Ok(()),
    }
}

// The first part of a type that no type of a circle can have, and what it is.
fn unsupported(body: &TypeBody) -> Option<(&str, &'static str)> {
    match body {
        TypeBody::Sequence(body) => {
            for component in &body.components {
                if let Some(cause) = cause_of_component(component) {
                    return Some((component.name.as_str(), cause));
                }
            }
            None
        }
        TypeBody::Choice(choice) => {
            for alternative in &choice.alternatives {
                if let Some(cause) = cause_of_alternative(alternative) {
                    return Some((alternative.name.as_str(), cause));
                }
            }
            None
        }
        TypeBody::Set(body) => first_component(body, "a component of a SET"),
        TypeBody::Group(body) => first_component(body, "a group of additions"),
        TypeBody::Enumerated(_) | TypeBody::RestrictedString(_) => None,
    }
}

// The first of components that no type of a circle can have.
fn first_component<'a>(
    body: &'a Constructed,
    cause: &'static str,
) -> Option<(&'a str, &'static str)> {
    let component = body.components.first()?;
    Some((component.name.as_str(), cause))
}

// Why a component cannot be in a type of a circle, if it cannot.
fn cause_of_component(component: &Component) -> Option<&'static str> {
    let names_knot = names_parameter(&component.definition);
    match &component.usage {
        Usage::Required | Usage::Optional => cause_of_type(&component.held, names_knot),
        Usage::Default(_) if names_knot => Some("a DEFAULT of a type of the circle"),
        Usage::Default(_) => None,
        Usage::EmptyList(_) => Some("a DEFAULT of a list"),
        Usage::Group(_) | Usage::GroupOfSet(_) => Some("a group of additions"),
    }
}

// Why a type cannot be in one of a circle, if it cannot: it is not known how it holds the parameter.
fn cause_of_type(held: &Option<Held>, names_knot: bool) -> Option<&'static str> {
    if names_knot && held.is_none() {
        Some("a tag on the elements of a list")
    } else {
        None
    }
}

// Why an alternative cannot be in a type of a circle, if it cannot.
fn cause_of_alternative(alternative: &Alternative) -> Option<&'static str> {
    if !is_leaf(&alternative.tree) {
        return Some("a CHOICE without a tag in another");
    }
    if is_parameter(&alternative.held) && is_implicit(alternative.tagging) {
        return Some("the SEQUENCE that cuts the circle, under an implicit tag in a CHOICE,");
    }
    cause_of_type(&alternative.held, names_parameter(&alternative.definition))
}

// Whether a type begins with one tag.
fn is_leaf(tree: &Tree) -> bool {
    match tree {
        Tree::Leaf(_) => true,
        Tree::Choice(_) => false,
    }
}

// Whether a type is the parameter itself.
fn is_parameter(held: &Option<Held>) -> bool {
    match held {
        Some(held) => held.lists.is_empty() && held.member.is_none(),
        None => false,
    }
}

// Whether a tagging is implicit.
fn is_implicit(tagging: Tagging) -> bool {
    match tagging {
        Tagging::Implicit(_) => true,
        _ => false,
    }
}
