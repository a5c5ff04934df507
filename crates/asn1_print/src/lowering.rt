//! Types and their parts as Rust has them. A type without a name gets a file where it is used.
use crate::bodies::push_file;
use crate::choices::{alternative_with, choice_with};
use crate::circle_files::{name_generic, unnamed_generic};
use crate::components::{
    component_with, constructed_with, group_component, group_text, group_with, require_few, tree_of,
};
use crate::enumerations::enumeration_of;
use crate::notation::{component_text, text_of};
use crate::plan::Plan;
use crate::types::{
    Owner, PartTexts, part_texts, plain_name, set_of, tagging_of, under_tag, warn_of_constraints,
    warn_of_names, wrapped,
};
use asn1_names::Place;
use asn1_resolved::{Addition, Alternative, Alternatives, Component, Components, Type, TypeKind};
use asn1_rust_code::{TagNumber, Tagging, TypeName};
use asn1_rust_components::{ChoiceType, Constructed, TypeBody};
use asn1_rust_names::TakenNames;
use std::alloc::AllocError;

/// The names of a file, and the tag of its type, if it is not that of its kind.
#[derive(Clone, Copy)]
pub(crate) struct FileNames<'a> {
    /// The name of the type in Rust.
    pub(crate) name: &'a str,
    /// The module.
    pub(crate) module: &'a str,
    /// The tag.
    pub(crate) tag: Option<TagNumber>,
}

/// The name of a type.
#[cycle(lowering)]
pub(crate) fn type_name(
    plan: &mut Plan<'_, '_>,
    definition: &Type<'_>,
    owner: Owner<'_>,
) -> Result<TypeName, AllocError> {
    warn_of_constraints(plan, definition)?;
    match &definition.kind {
        TypeKind::SequenceOf(element) => {
            let element = element_name(plan, element, owner)?;
            wrapped(plan, "Vec", element)
        }
        TypeKind::SetOf(element) => {
            let element = element_name(plan, element, owner)?;
            set_of(plan, element)
        }
        TypeKind::Tagged(tag, inner) => {
            let inner = type_name(plan, inner, owner)?;
            under_tag(plan, *tag, inner)
        }
        TypeKind::Sequence(_) => new_type(plan, definition, owner),
        TypeKind::Set(_) => new_type(plan, definition, owner),
        TypeKind::Choice(_) => new_type(plan, definition, owner),
        TypeKind::Enumerated(_) => new_type(plan, definition, owner),
        _ => plain_name(plan, definition),
    }
}

// The name of the type of elements.
#[cycle(lowering)]
fn element_name(
    plan: &mut Plan<'_, '_>,
    element: &Type<'_>,
    owner: Owner<'_>,
) -> Result<TypeName, AllocError> {
    let name = owner.name;
    let name = format!(in plan.alloc; "{name}Element")?;
    let own = Owner {
        name: name.as_str(),
        ..owner
    };
    type_name(plan, element, own)
}

// The name of a type without a name, for which a file is made, unless it was made before.
#[cycle(lowering)]
fn new_type(
    plan: &mut Plan<'_, '_>,
    definition: &Type<'_>,
    owner: Owner<'_>,
) -> Result<TypeName, AllocError> {
    if let Some(name) = made_type(plan, definition.place)? {
        return Ok(name);
    }
    let name = plan.new_name(owner.name)?;
    let module = plan.new_module(name.as_str())?;
    let names = FileNames {
        name: name.as_str(),
        module: module.as_str(),
        tag: None,
    };
    name_generic(plan, module.as_str(), name.as_str())?;
    add_file(plan, definition, names, owner)?;
    match unnamed_generic(plan, module.as_str(), name.as_str(), owner)? {
        Some(generic) => Ok(generic),
        None => plan.keep_unnamed_type(definition.place, name, module),
    }
}

// The type without a name at a place, if its file was made. A type of a circle has none: outside it has no parameter.
fn made_type(plan: &Plan<'_, '_>, place: Place) -> Result<Option<TypeName>, AllocError> {
    match plan.current_circle {
        Some(_) => Ok(None),
        None => plan.unnamed_type(place),
    }
}

/// Adds the file of a SEQUENCE, a SET, a CHOICE or an ENUMERATED.
#[cycle(lowering)]
pub(crate) fn add_file(
    plan: &mut Plan<'_, '_>,
    definition: &Type<'_>,
    names: FileNames<'_>,
    owner: Owner<'_>,
) -> Result<(), AllocError> {
    match &definition.kind {
        TypeKind::Sequence(components) => {
            let body = constructed_of(plan, components, names, false)?;
            push_file(plan, TypeBody::Sequence(body), names, owner)
        }
        TypeKind::Set(components) => {
            let body = constructed_of(plan, components, names, true)?;
            push_file(plan, TypeBody::Set(body), names, owner)
        }
        TypeKind::Choice(alternatives) => {
            let body = choice_of(plan, alternatives, names, definition.place)?;
            push_file(plan, TypeBody::Choice(body), names, owner)
        }
        TypeKind::Enumerated(enumeration) => {
            let body = enumeration_of(plan, enumeration, definition.place)?;
            push_file(plan, TypeBody::Enumerated(body), names, owner)
        }
        _ => Ok(()),
    }
}

// The components of a SEQUENCE or a SET.
#[cycle(lowering)]
fn constructed_of(
    plan: &mut Plan<'_, '_>,
    components: &Components<'_>,
    names: FileNames<'_>,
    is_set: bool,
) -> Result<Constructed, AllocError> {
    let mut fields = TakenNames::new(plan.alloc);
    let mut lowered = Vec::new(plan.alloc);
    for component in &components.root {
        lowered.push(component_of(plan, component, names.name, &mut fields, false)?)?;
    }
    for addition in &components.additions {
        lowered.push(addition_of(plan, addition, names.name, &mut fields, is_set)?)?;
    }
    constructed_with(plan, components, lowered, names.tag, is_set)
}

// An addition to the type of this name.
#[cycle(lowering)]
fn addition_of(
    plan: &mut Plan<'_, '_>,
    addition: &Addition<'_>,
    owner_name: &str,
    fields: &mut TakenNames,
    is_set: bool,
) -> Result<asn1_rust_components::Component, AllocError> {
    match addition {
        Addition::Component(component) => component_of(plan, component, owner_name, fields, true),
        Addition::Group(group) => group_of(plan, group.as_slice(), owner_name, fields, is_set),
    }
}

// A component of the type of this name.
#[cycle(lowering)]
fn component_of(
    plan: &mut Plan<'_, '_>,
    component: &Component<'_>,
    owner_name: &str,
    fields: &mut TakenNames,
    is_addition: bool,
) -> Result<asn1_rust_components::Component, AllocError> {
    let name = text_of(plan.alloc, component.name)?;
    let notation = component_text(plan.alloc, plan.request.sources, component.place)?;
    let texts = part_texts(plan, owner_name, name.as_str(), notation.as_str())?;
    let (tagging, definition) = part_of(plan, &component.definition, &texts)?;
    component_with(
        plan,
        component,
        &texts,
        tagging,
        definition,
        fields,
        is_addition,
    )
}

// The tagging of a part, and the name of its type.
#[cycle(lowering)]
fn part_of(
    plan: &mut Plan<'_, '_>,
    definition: &Type<'_>,
    texts: &PartTexts,
) -> Result<(Tagging, TypeName), AllocError> {
    let owner = texts.owner();
    warn_of_names(plan, definition)?;
    match &definition.kind {
        TypeKind::Tagged(tag, inner) => {
            let name = type_name(plan, inner, owner)?;
            Ok((tagging_of(*tag), name))
        }
        _ => {
            let name = type_name(plan, definition, owner)?;
            Ok((Tagging::Untagged, name))
        }
    }
}

// A group of additions to the type of this name, for which a file is made.
#[cycle(lowering)]
fn group_of(
    plan: &mut Plan<'_, '_>,
    group: &[Component<'_>],
    owner_name: &str,
    fields: &mut TakenNames,
    is_set: bool,
) -> Result<asn1_rust_components::Component, AllocError> {
    let alloc = plan.alloc;
    let wanted = format!(in alloc; "{owner_name}Additions")?;
    let name = plan.new_name(wanted.as_str())?;
    let module = plan.new_module(name.as_str())?;
    let mut own_fields = TakenNames::new(alloc);
    let mut components = Vec::new(alloc);
    let mut trees = Vec::new(alloc);
    for component in group {
        let lowered = component_of(plan, component, name.as_str(), &mut own_fields, false)?;
        trees.push(tree_of(
            plan,
            &component.definition,
            &lowered.definition,
            component.place,
        )?)?;
        components.push(lowered)?;
    }
    if let Some(first) = group.first() {
        require_few(plan, components.len(), first.place)?;
    }
    let summary = format!(in alloc; "A group of additions to `{owner_name}`.")?;
    let notation = group_text(plan, group)?;
    let names = FileNames {
        name: name.as_str(),
        module: module.as_str(),
        tag: None,
    };
    let owner = Owner {
        name: name.as_str(),
        asn1_name: "additions",
        summary: summary.as_str(),
        notation: notation.as_str(),
    };
    let body = TypeBody::Group(group_with(alloc, components, trees, is_set));
    push_file(plan, body, names, owner)?;
    group_component(
        plan,
        module.as_str(),
        name.as_str(),
        summary,
        fields,
        is_set,
    )
}

// A CHOICE.
#[cycle(lowering)]
fn choice_of(
    plan: &mut Plan<'_, '_>,
    alternatives: &Alternatives<'_>,
    names: FileNames<'_>,
    place: Place,
) -> Result<ChoiceType, AllocError> {
    let mut variants = TakenNames::new(plan.alloc);
    let mut lowered = Vec::new(plan.alloc);
    for alternative in &alternatives.root {
        lowered.push(alternative_of(plan, alternative, names.name, &mut variants)?)?;
    }
    for alternative in &alternatives.additions {
        lowered.push(alternative_of(plan, alternative, names.name, &mut variants)?)?;
    }
    choice_with(plan, alternatives, lowered, place)
}

// An alternative of the type of this name.
#[cycle(lowering)]
fn alternative_of(
    plan: &mut Plan<'_, '_>,
    alternative: &Alternative<'_>,
    owner_name: &str,
    variants: &mut TakenNames,
) -> Result<asn1_rust_components::Alternative, AllocError> {
    let name = text_of(plan.alloc, alternative.name)?;
    let notation = component_text(plan.alloc, plan.request.sources, alternative.place)?;
    let texts = part_texts(plan, owner_name, name.as_str(), notation.as_str())?;
    let (tagging, definition) = part_of(plan, &alternative.definition, &texts)?;
    alternative_with(plan, alternative, &texts, tagging, definition, variants)
}
