//! SET types with several extensible CHOICEs.
use asn1_names::Place;
use asn1_resolved::{
    Addition, Alternative, Component, Components, Problem, Schema, Severity, Type, TypeKind,
};
use std::alloc::{AllocError, Global};

/// The components of each SET that are extensible CHOICEs without a tag, but for the first, as errors: an addition to one could
/// be an addition to the other (X.680, 52.7.3).
pub fn check_extensible_choices(
    alloc: Global,
    schema: &Schema<'_>,
) -> Result<Vec<Problem>, AllocError> {
    let mut problems = Vec::new(alloc);
    for definition in &schema.types {
        check_type(alloc, &mut problems, schema, &definition.definition)?;
    }
    Ok(problems)
}

/// The same for a SET in a type that the schema does not define, as that of an object.
pub fn check_extensible_choices_in(
    alloc: Global,
    schema: &Schema<'_>,
    definition: &Type<'_>,
) -> Result<Vec<Problem>, AllocError> {
    let mut problems = Vec::new(alloc);
    check_type(alloc, &mut problems, schema, definition)?;
    Ok(problems)
}

// Adds the errors of a type and of those in it.
#[cycle(extensible_choices)]
fn check_type(
    alloc: Global,
    problems: &mut Vec<Problem>,
    schema: &Schema<'_>,
    definition: &Type<'_>,
) -> Result<(), AllocError> {
    match &definition.kind {
        TypeKind::Set(components) => {
            check_set(alloc, problems, schema, components)?;
            check_parts(alloc, problems, schema, components)
        }
        TypeKind::Sequence(components) => check_parts(alloc, problems, schema, components),
        TypeKind::Choice(alternatives) => {
            check_alternatives(alloc, problems, schema, alternatives.root.as_slice())?;
            check_alternatives(alloc, problems, schema, alternatives.additions.as_slice())
        }
        TypeKind::SequenceOf(element) => check_type(alloc, problems, schema, element),
        TypeKind::SetOf(element) => check_type(alloc, problems, schema, element),
        TypeKind::Tagged(_, inner) => check_type(alloc, problems, schema, inner),
        _ => Ok(()),
    }
}

// Adds the errors of the types of the components of a SEQUENCE or a SET.
#[cycle(extensible_choices)]
fn check_parts(
    alloc: Global,
    problems: &mut Vec<Problem>,
    schema: &Schema<'_>,
    components: &Components<'_>,
) -> Result<(), AllocError> {
    check_components(alloc, problems, schema, components.root.as_slice())?;
    for addition in &components.additions {
        match addition {
            Addition::Component(component) => {
                check_type(alloc, problems, schema, &component.definition)?;
            }
            Addition::Group(group) => check_components(alloc, problems, schema, group.as_slice())?,
        }
    }
    Ok(())
}

// Adds the errors of the types of components.
#[cycle(extensible_choices)]
fn check_components(
    alloc: Global,
    problems: &mut Vec<Problem>,
    schema: &Schema<'_>,
    components: &[Component<'_>],
) -> Result<(), AllocError> {
    for component in components {
        check_type(alloc, problems, schema, &component.definition)?;
    }
    Ok(())
}

// Adds the errors of the types of alternatives.
#[cycle(extensible_choices)]
fn check_alternatives(
    alloc: Global,
    problems: &mut Vec<Problem>,
    schema: &Schema<'_>,
    alternatives: &[Alternative<'_>],
) -> Result<(), AllocError> {
    for alternative in alternatives {
        check_type(alloc, problems, schema, &alternative.definition)?;
    }
    Ok(())
}

// Adds an error for each component of a SET that is an extensible CHOICE, but for the first.
fn check_set(
    alloc: Global,
    problems: &mut Vec<Problem>,
    schema: &Schema<'_>,
    components: &Components<'_>,
) -> Result<(), AllocError> {
    let mut has_one = false;
    for component in &components.root {
        has_one = check_component(alloc, problems, schema, component, has_one)?;
    }
    for addition in &components.additions {
        match addition {
            Addition::Component(component) => {
                has_one = check_component(alloc, problems, schema, component, has_one)?;
            }
            Addition::Group(group) => {
                for component in group {
                    has_one = check_component(alloc, problems, schema, component, has_one)?;
                }
            }
        }
    }
    Ok(())
}

// Adds an error if a component is an extensible CHOICE behind another, and answers whether it or one before it is one.
fn check_component(
    alloc: Global,
    problems: &mut Vec<Problem>,
    schema: &Schema<'_>,
    component: &Component<'_>,
    has_one: bool,
) -> Result<bool, AllocError> {
    let is_one = is_extensible_choice(schema, &component.definition);
    if has_one && is_one {
        problems.push(problem_of(alloc, component.place)?)?;
    }
    Ok(has_one || is_one)
}

// The error of a component.
fn problem_of(alloc: Global, place: Place) -> Result<Problem, AllocError> {
    Ok(Problem {
        place,
        severity: Severity::Error,
        text: Vec::from_slice(
            alloc,
            b"a SET has at most one extensible CHOICE without a tag; give this one a tag",
        )?,
    })
}

// A type, as far as it tells whether it is an extensible CHOICE without a tag.
#[derive(Clone, Copy)]
enum Step {
    // It is one or not.
    Told(bool),
    // It is the type of this index.
    Reference(usize),
}

// Whether a type is an extensible CHOICE without a tag.
fn is_extensible_choice(schema: &Schema<'_>, definition: &Type<'_>) -> bool {
    let mut step = step_of(&definition.kind);
    for _ in 0..=schema.types.len() {
        match step {
            Step::Told(is_one) => return is_one,
            Step::Reference(index) => match schema.types.get(index) {
                Some(referenced) => step = step_of(&referenced.definition.kind),
                None => return false,
            },
        }
    }
    false
}

// The step that a type is.
fn step_of(kind: &TypeKind<'_>) -> Step {
    match kind {
        TypeKind::Choice(alternatives) => Step::Told(alternatives.is_extensible),
        TypeKind::Reference(index) => Step::Reference(*index),
        _ => Step::Told(false),
    }
}
