//! Circles of types: how each is cut.
use crate::notation::text_of;
use crate::plan::{Plan, has_file};
use crate::recursion::{circle_groups, is_acyclic_without};
use asn1_names::Place;
use asn1_resolved::{Alternative, Component, Type, TypeKind, Usage};
use asn1_rust_components::TypeFile;
use std::alloc::AllocError;

/// A circle of the schema.
#[derive(Drop)]
pub(crate) struct PlannedCircle {
    /// The index of the type at which it is cut.
    pub(crate) knot: usize,
    /// The name of that in Rust.
    pub(crate) name: String,
    /// The modules beside that of the knot.
    pub(crate) modules: KnotModules,
    /// The files of its types with a parameter, as far as they were made.
    pub(crate) files: Vec<TypeFile>,
    /// The file of the knot itself, without its type.
    pub(crate) own: Option<TypeFile>,
}

/// The modules beside that of a knot.
#[derive(Drop)]
pub(crate) struct KnotModules {
    /// The module of its reader.
    pub(crate) reader: String,
    /// The module of the names for the meanings of the types that hold no type of the circle.
    pub(crate) parts: String,
}

/// The circle of which a type is printed.
#[derive(Clone, Copy)]
pub(crate) struct CurrentCircle {
    /// The index of the circle.
    pub(crate) index: usize,
    /// The place of the definition.
    pub(crate) place: Place,
}

/// The type with a parameter that a definition of a circle is.
#[derive(Drop)]
pub(crate) struct GenericType {
    /// The index of the circle.
    pub(crate) circle: usize,
    /// The name in Rust.
    pub(crate) name: String,
    /// The module.
    pub(crate) module: String,
}

/// Finds the circles of the schema, and names their types.
pub(crate) fn plan_circles(plan: &mut Plan<'_, '_>) -> Result<(), AllocError> {
    for members in circle_groups(plan)? {
        plan_group(plan, members.as_slice())?;
    }
    Ok(())
}

// Names the types of a circle, or reports why it is not printed.
fn plan_group(plan: &mut Plan<'_, '_>, members: &[usize]) -> Result<(), AllocError> {
    match knot_of(plan, members)? {
        Some(knot) => {
            if has_value(plan, members, knot)? {
                plan_circle(plan, members, knot)
            } else {
                refuse_endless(plan, members)
            }
        }
        None => refuse_uncut(plan, members),
    }
}

// The type at which a circle is cut: a CHOICE, or else a SEQUENCE.
fn knot_of(plan: &Plan<'_, '_>, members: &[usize]) -> Result<Option<usize>, AllocError> {
    match cut_of(plan, members, true)? {
        Some(knot) => Ok(Some(knot)),
        None => cut_of(plan, members, false),
    }
}

// The first type that cuts a circle, among the CHOICE types or the SEQUENCE types.
fn cut_of(
    plan: &Plan<'_, '_>,
    members: &[usize],
    is_choice: bool,
) -> Result<Option<usize>, AllocError> {
    for member in members {
        if is_of_kind(plan, *member, is_choice) && is_acyclic_without(plan, members, *member)? {
            return Ok(Some(*member));
        }
    }
    Ok(None)
}

// Whether a definition is a CHOICE, or a SEQUENCE.
fn is_of_kind(plan: &Plan<'_, '_>, index: usize, is_choice: bool) -> bool {
    match plan.request.schema.types.get(index) {
        Some(definition) => match &definition.definition.kind {
            TypeKind::Choice(_) => is_choice,
            TypeKind::Sequence(_) => !is_choice,
            _ => false,
        },
        None => false,
    }
}

// The names of the types of a circle, for a message.
fn circle_text(plan: &Plan<'_, '_>, members: &[usize]) -> Result<String, AllocError> {
    let mut text = String::new(plan.alloc);
    for (index, member) in members.iter().enumerate() {
        if index != 0 {
            text.push_str(", ")?;
        }
        let name = quoted_name(plan, *member)?;
        text.push_str(name.as_str())?;
    }
    Ok(text)
}

// The name of a definition in ASN.1, for a message.
fn quoted_name(plan: &Plan<'_, '_>, index: usize) -> Result<String, AllocError> {
    match plan.request.schema.types.get(index) {
        Some(definition) => {
            let name = text_of(plan.alloc, definition.name)?;
            let name = name.as_str();
            format!(in plan.alloc; "'{name}'")
        }
        None => Ok(String::new(plan.alloc)),
    }
}

// Reports a circle that no single type cuts.
fn refuse_uncut(plan: &mut Plan<'_, '_>, members: &[usize]) -> Result<(), AllocError> {
    let names = circle_text(plan, members)?;
    let names = names.as_str();
    let text = format!(in plan.alloc;
        "no CHOICE or SEQUENCE without a tag is in each circle of the types {names}; name a type that exists by --extern NAME=crate::Type"
    )?;
    report_first(plan, members, text.as_str())
}

// Reports a circle of which no value ends.
fn refuse_endless(plan: &mut Plan<'_, '_>, members: &[usize]) -> Result<(), AllocError> {
    let names = circle_text(plan, members)?;
    let names = names.as_str();
    let text = format!(in plan.alloc; "no value of the types {names} ends: each holds another")?;
    report_first(plan, members, text.as_str())
}

// Reports an error at the first of these types.
fn report_first(plan: &mut Plan<'_, '_>, members: &[usize], text: &str) -> Result<(), AllocError> {
    let schema = plan.request.schema;
    match members.first() {
        Some(first) => match schema.types.get(*first) {
            Some(definition) => plan.error(definition.place, text),
            None => Ok(()),
        },
        None => Ok(()),
    }
}

// Names the types of a circle.
fn plan_circle(plan: &mut Plan<'_, '_>, members: &[usize], knot: usize) -> Result<(), AllocError> {
    let circle = plan.circles.len();
    for member in members {
        plan_member(plan, circle, *member, knot)?;
    }
    let name = match plan.types.get(knot) {
        Some(planned) => plan.text(planned.name.as_str())?,
        None => String::new(plan.alloc),
    };
    let modules = knot_modules(plan, name.as_str())?;
    plan.circles.push(PlannedCircle {
        knot,
        name,
        modules,
        files: Vec::new(plan.alloc),
        own: None,
    })?;
    Ok(())
}

// Whether the knot has a value without a value of itself inside: a part may be absent, is a list, or is of none of these types.
fn has_value(plan: &Plan<'_, '_>, members: &[usize], knot: usize) -> Result<bool, AllocError> {
    let mut ended: Vec<usize> = Vec::new(plan.alloc);
    for _ in members {
        for member in members {
            if ends_now(plan, *member, members, ended.as_slice()) {
                ended.push(*member)?;
            }
        }
    }
    Ok(ended.contains(&knot))
}

// Whether a definition is not known to have a value, and has one if those of these members have which are known to.
fn ends_now(plan: &Plan<'_, '_>, index: usize, members: &[usize], ended: &[usize]) -> bool {
    match plan.request.schema.types.get(index) {
        Some(definition) => {
            !ended.contains(&index) && ends(&definition.definition, members, ended)
        }
        None => false,
    }
}

// Whether a type has a value, if those of these members have which are known to.
#[cycle(ends)]
fn ends(definition: &Type<'_>, members: &[usize], ended: &[usize]) -> bool {
    match &definition.kind {
        TypeKind::Reference(index) => !members.contains(index) || ended.contains(index),
        TypeKind::Tagged(_, inner) => ends(inner, members, ended),
        TypeKind::Choice(choice) => {
            alternatives_end(choice.root.as_slice(), members, ended)
                || alternatives_end(choice.additions.as_slice(), members, ended)
        }
        TypeKind::Sequence(components) => {
            components_end(components.root.as_slice(), members, ended)
        }
        TypeKind::Set(components) => components_end(components.root.as_slice(), members, ended),
        _ => true,
    }
}

// Whether one of these alternatives has a value.
#[cycle(ends)]
fn alternatives_end(alternatives: &[Alternative<'_>], members: &[usize], ended: &[usize]) -> bool {
    for alternative in alternatives {
        if ends(&alternative.definition, members, ended) {
            return true;
        }
    }
    false
}

// Whether each of these components has a value, or may be absent.
#[cycle(ends)]
fn components_end(components: &[Component<'_>], members: &[usize], ended: &[usize]) -> bool {
    for component in components {
        if is_required(component) && !ends(&component.definition, members, ended) {
            return false;
        }
    }
    true
}

// Whether a component is always there.
fn is_required(component: &Component<'_>) -> bool {
    match &component.usage {
        Usage::Required => true,
        _ => false,
    }
}

// Names the type with a parameter that a definition is, if it has a file. The knot keeps its own module, and the others are names
// for their types with a parameter.
fn plan_member(
    plan: &mut Plan<'_, '_>,
    circle: usize,
    index: usize,
    knot: usize,
) -> Result<(), AllocError> {
    let schema = plan.request.schema;
    match schema.types.get(index) {
        Some(definition) => {
            require_kind(plan, &definition.definition)?;
            let is_alias = index != knot && has_file(&definition.definition);
            let generic = generic_type(plan, circle, index, index == knot)?;
            plan.set_generic(index, generic, is_alias)
        }
        None => Ok(()),
    }
}

// Reports a definition that cannot be of a circle.
fn require_kind(plan: &mut Plan<'_, '_>, definition: &Type<'_>) -> Result<(), AllocError> {
    match cause_of(definition) {
        Some(cause) => {
            let text = format!(in plan.alloc;
                "{cause} is not supported in a circle of types; name a type that exists by --extern NAME=crate::Type"
            )?;
            plan.error(definition.place, text.as_str())
        }
        None => Ok(()),
    }
}

// Why a definition cannot be of a circle, if it cannot. The components of a SET are reported themselves.
fn cause_of(definition: &Type<'_>) -> Option<&'static str> {
    match &definition.kind {
        TypeKind::Tagged(tag, inner) if tag.is_explicit || !is_sequence(inner) => {
            Some("a tag of a definition, but an implicit one of a SEQUENCE,")
        }
        TypeKind::SequenceOf(element) if !is_named_below(element) => {
            Some("a list of a type without a name")
        }
        TypeKind::SetOf(element) if !is_named_below(element) => {
            Some("a list of a type without a name")
        }
        _ => None,
    }
}

// Whether a type has a name, below lists.
#[cycle(named)]
fn is_named_below(definition: &Type<'_>) -> bool {
    match &definition.kind {
        TypeKind::Reference(_) => true,
        TypeKind::SequenceOf(element) => is_named_below(element),
        TypeKind::SetOf(element) => is_named_below(element),
        _ => false,
    }
}

// Whether a type is a SEQUENCE.
fn is_sequence(definition: &Type<'_>) -> bool {
    match &definition.kind {
        TypeKind::Sequence(_) => true,
        _ => false,
    }
}

// The type with a parameter that a definition is.
fn generic_type(
    plan: &mut Plan<'_, '_>,
    circle: usize,
    index: usize,
    is_knot: bool,
) -> Result<GenericType, AllocError> {
    let (own, module) = match plan.types.get(index) {
        Some(planned) => (
            plan.text(planned.name.as_str())?,
            plan.text(planned.module.as_str())?,
        ),
        None => (String::new(plan.alloc), String::new(plan.alloc)),
    };
    let own = own.as_str();
    let wanted = format!(in plan.alloc; "{own}Of")?;
    let name = plan.new_name(wanted.as_str())?;
    let module = if is_knot {
        plan.new_module(wanted.as_str())?
    } else {
        module
    };
    Ok(GenericType {
        circle,
        name,
        module,
    })
}

// The modules beside that of a knot of this name.
fn knot_modules(plan: &mut Plan<'_, '_>, name: &str) -> Result<KnotModules, AllocError> {
    let reader = format!(in plan.alloc; "{name}Reader")?;
    let parts = format!(in plan.alloc; "{name}Parts")?;
    Ok(KnotModules {
        reader: plan.new_module(reader.as_str())?,
        parts: plan.new_module(parts.as_str())?,
    })
}
