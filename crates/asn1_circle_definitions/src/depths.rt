//! Lemmas that a property of the values inside holds down to each depth if and only if it holds of all.
use crate::circle::{Circle, elements_of, meaning_term};
use crate::lists::variant_name;
use crate::terms::field_term;
use asn1_rust_components::{Alternative, Component, Held, TypeBody, TypeFile, Usage};
use std::alloc::{AllocError, Global};

/// A property of a value, which is stated down to each depth.
#[derive(Clone, Copy)]
pub(crate) struct Property {
    /// The lemma of a type, behind its module.
    pub(crate) lemma: &'static str,
    /// The arguments of the lemma in front of a value.
    pub(crate) argument: &'static str,
    /// The same in its statement.
    pub(crate) binder: &'static str,
    /// The meaning inside down to a depth.
    pub(crate) level: &'static str,
    /// The property of a meaning.
    pub(crate) field: &'static str,
}

/// A value is of its type.
pub(crate) const OF_TYPE: Property = Property {
    lemma: "of_type",
    argument: "",
    binder: "",
    level: "type_level knot",
    field: "IsOfType",
};

/// A value is valid.
pub(crate) const VALID: Property = Property {
    lemma: "valid",
    argument: "accepts ",
    binder: "(accepts : List ℕ → Bool) ",
    level: "valid_level knot",
    field: "IsValid accepts",
};

/// The lemmas of a property, one for each type of a circle, an empty line behind each.
pub(crate) fn lemmas(
    alloc: Global,
    circle: Circle<'_>,
    property: Property,
) -> Result<String, AllocError> {
    let mut text = String::new(alloc);
    for file in circle.members {
        let lemma = type_lemma(alloc, file, property)?;
        text.push_str(lemma.as_str())?;
    }
    Ok(text)
}

// The lemma of a type.
fn type_lemma(alloc: Global, file: &TypeFile, property: Property) -> Result<String, AllocError> {
    let equations = equations(alloc, file, property)?;
    let equations = equations.as_str();
    let name = file.plain_name();
    let module = file.module.as_str();
    let Property {
        lemma,
        binder,
        level,
        field,
        ..
    } = property;
    format!(in alloc;
        "{module}_{lemma} : {binder}(v : {name} Knot) → ((n : ℕ) → ({module}_meaning ({level} n)).{field} v) ↔ ({module}_meaning within).{field} v
{equations}
"
    )
}

// The equations of a lemma.
fn equations(alloc: Global, file: &TypeFile, property: Property) -> Result<String, AllocError> {
    match &file.body {
        TypeBody::Choice(choice) => {
            choice_equations(alloc, file, choice.alternatives.as_slice(), property)
        }
        TypeBody::Sequence(body) => {
            sequence_equation(alloc, file, body.components.as_slice(), property)
        }
        _ => Ok(String::new(alloc)),
    }
}

// The equations for a CHOICE, one for each alternative.
fn choice_equations(
    alloc: Global,
    file: &TypeFile,
    alternatives: &[Alternative],
    property: Property,
) -> Result<String, AllocError> {
    let mut text = String::new(alloc);
    for alternative in alternatives {
        let equation = alternative_equation(alloc, file, alternative, property)?;
        text.push_str(equation.as_str())?;
    }
    Ok(text)
}

// The equation for an alternative.
fn alternative_equation(
    alloc: Global,
    file: &TypeFile,
    alternative: &Alternative,
    property: Property,
) -> Result<String, AllocError> {
    let own = variant_name(alloc, file, alternative.variant.as_str())?;
    let own = own.as_str();
    let proof = alternative_proof(alloc, alternative, property)?;
    let proof = proof.as_str();
    let module = file.module.as_str();
    let Property {
        lemma,
        argument,
        ..
    } = property;
    format!(in alloc; "{module}_{lemma} {argument}({own} v) = {proof}\n")
}

// The equation for a SEQUENCE.
fn sequence_equation(
    alloc: Global,
    file: &TypeFile,
    components: &[Component],
    property: Property,
) -> Result<String, AllocError> {
    let proof = components_proof(alloc, components, property)?;
    let proof = proof.as_str();
    let module = file.module.as_str();
    let Property {
        lemma,
        argument,
        ..
    } = property;
    format!(in alloc; "{module}_{lemma} {argument}v = {proof}\n")
}

// The proof for an alternative.
fn alternative_proof(
    alloc: Global,
    alternative: &Alternative,
    property: Property,
) -> Result<String, AllocError> {
    match &alternative.held {
        Some(held) => held_proof(alloc, held, "v", property),
        None => String::from_str(alloc, "same_at_all"),
    }
}

// The proof for components, one after another.
fn components_proof(
    alloc: Global,
    components: &[Component],
    property: Property,
) -> Result<String, AllocError> {
    let mut proof = String::from_str(alloc, "same_at_all")?;
    for component in components.iter().rev() {
        let own = component_proof(alloc, component, property)?;
        let own = own.as_str();
        let rest = proof.as_str();
        proof = format!(in alloc; "both_at_all ({own}) ({rest})")?;
    }
    Ok(proof)
}

// The proof for a component.
fn component_proof(
    alloc: Global,
    component: &Component,
    property: Property,
) -> Result<String, AllocError> {
    let field = field_term(alloc, component.field.as_str())?;
    let field = field.as_str();
    let value = format!(in alloc; "v.{field}")?;
    match &component.held {
        None => String::from_str(alloc, "same_at_all"),
        Some(held) => match component.usage {
            Usage::Required => held_proof(alloc, held, value.as_str(), property),
            _ => option_proof(alloc, held, value.as_str(), property),
        },
    }
}

// The proof for a value that may be absent.
fn option_proof(
    alloc: Global,
    held: &Held,
    value: &str,
    property: Property,
) -> Result<String, AllocError> {
    let (each, all) = properties(alloc, held, 0, property)?;
    let proof = held_proof(alloc, held, "x", property)?;
    let each = each.as_str();
    let all = all.as_str();
    let proof = proof.as_str();
    format!(in alloc; "if_some_by {each} {all} (λ x. {proof}) {value}")
}

// The property down to each depth, and of all, of a type from one of its lists on.
fn properties(
    alloc: Global,
    held: &Held,
    from: usize,
    property: Property,
) -> Result<(String, String), AllocError> {
    let Property { level, field, .. } = property;
    let inside = format!(in alloc; "({level} n)")?;
    let each = meaning_term(alloc, held, from, inside.as_str())?;
    let all = meaning_term(alloc, held, from, "within")?;
    let each = each.as_str();
    let all = all.as_str();
    Ok((
        format!(in alloc; "(λ n. {each}.{field})")?,
        format!(in alloc; "({all}.{field})")?,
    ))
}

// The proof for a value.
fn held_proof(
    alloc: Global,
    held: &Held,
    value: &str,
    property: Property,
) -> Result<String, AllocError> {
    let count = held.lists.len();
    let last = element_name(alloc, value, count)?;
    let Property {
        lemma,
        argument,
        ..
    } = property;
    let last = last.as_str();
    let mut proof = match &held.member {
        Some(module) => format!(in alloc; "{module}_{lemma} {argument}{last}")?,
        None => String::from_str(alloc, "itself_at_all")?,
    };
    for (index, kind) in held.lists.iter().enumerate().rev() {
        let list = element_name(alloc, value, index)?;
        let list = elements_of(alloc, *kind, list.as_str())?;
        let list = list.as_str();
        let element = element_name(alloc, value, index.saturating_add(1))?;
        let element = element.as_str();
        let (each, all) = properties(alloc, held, index.saturating_add(1), property)?;
        let each = each.as_str();
        let all = all.as_str();
        let inner = proof.as_str();
        proof = format!(in alloc; "each_by {each} {all} (λ {element}. {inner}) {list}")?;
    }
    Ok(proof)
}

/// The value at a depth of lists: the value itself, or an element.
pub(crate) fn element_name(alloc: Global, value: &str, depth: usize) -> Result<String, AllocError> {
    if depth == 0 {
        String::from_str(alloc, value)
    } else {
        format!(in alloc; "e{depth}")
    }
}
