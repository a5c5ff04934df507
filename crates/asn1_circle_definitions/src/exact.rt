//! Lemmas that records are read as the parts of a value if and only if they are down to some depth.
use crate::circle::{Circle, elements_of, meaning_term};
use crate::depths::element_name;
use crate::lists::variant_name;
use crate::terms::{field_term, tag_term};
use asn1_rust_code::Tagging;
use asn1_rust_components::{
    Alternative, ChoiceType, Component, Held, ListKind, TypeBody, TypeFile, Usage,
};
use std::alloc::{AllocError, Global};

/// The lemmas of each type of a circle, an empty line behind each.
pub(crate) fn lemmas(alloc: Global, circle: Circle<'_>) -> Result<String, AllocError> {
    let mut text = String::new(alloc);
    for (index, file) in circle.members.iter().enumerate() {
        let inside = inside_lemma(alloc, file)?;
        text.push_str(inside.as_str())?;
        if index.saturating_add(1) < circle.members.len() {
            let whole = whole_lemma(alloc, file)?;
            text.push_str(whole.as_str())?;
        }
    }
    Ok(text)
}

// The lemma on what is inside a value of a type.
fn inside_lemma(alloc: Global, file: &TypeFile) -> Result<String, AllocError> {
    match &file.body {
        TypeBody::Choice(choice) => choice_lemma(alloc, file, choice),
        TypeBody::Sequence(body) => { sequence_lemma(alloc, file, body.components.as_slice()) }
        _ => Ok(String::new(alloc)),
    }
}

// The lemma on a value of a type that is part of another.
fn whole_lemma(alloc: Global, file: &TypeFile) -> Result<String, AllocError> {
    let name = file.plain_name();
    let module = file.module.as_str();
    let inside = format!(in alloc; "({module}_read_inside v)")?;
    let inside = inside.as_str();
    let proof = match &file.body {
        TypeBody::Choice(_) => format!(in alloc;
            "choice_at_some _ _ v v {inside} (table_of ({module}_alternatives within)) unconstrained t unconstrained"
        )?,
        TypeBody::Sequence(_) => format!(in alloc;
            "inside_at_some (head_of_kind is_sequence t (rows ({module}_components within))) {inside}"
        )?,
        _ => return Ok(String::new(alloc)),
    };
    let proof = proof.as_str();
    format!(in alloc;
        "{module}_read : (t : Tag) (v : {name} Knot) → ReadAtSome (λ n. ({module}_meaning (read_level knot n)).IsReadAs v t unconstrained) (({module}_meaning within).IsReadAs v t unconstrained)
{module}_read t v = {proof}

"
    )
}

// The lemma on the alternative of a CHOICE, with an equation for each.
fn choice_lemma(alloc: Global, file: &TypeFile, choice: &ChoiceType) -> Result<String, AllocError> {
    let mut equations = String::new(alloc);
    for alternative in &choice.alternatives {
        let equation = alternative_equation(alloc, file, alternative)?;
        equations.push_str(equation.as_str())?;
    }
    let equations = equations.as_str();
    let name = file.plain_name();
    let module = file.module.as_str();
    format!(in alloc;
        "{module}_read_inside : (v : {name} Knot) → ReadAtSome (λ n. (chosen_meaning (all_of ({module}_alternatives (read_level knot n))) ({module}_pick (read_level knot n) v)).AreReadAs) (chosen_meaning (all_of ({module}_alternatives within)) ({module}_pick within v)).AreReadAs
{equations}
"
    )
}

// The equation for an alternative.
fn alternative_equation(
    alloc: Global,
    file: &TypeFile,
    alternative: &Alternative,
) -> Result<String, AllocError> {
    let own = variant_name(alloc, file, alternative.variant.as_str())?;
    let own = own.as_str();
    let proof = match &alternative.held {
        Some(held) => tagged_proof(alloc, held, alternative.tagging, "v")?,
        None => String::from_str(alloc, "same_read")?,
    };
    let proof = proof.as_str();
    let module = file.module.as_str();
    format!(in alloc; "{module}_read_inside ({own} v) = {proof}\n")
}

// The lemma on the components of a SEQUENCE.
fn sequence_lemma(
    alloc: Global,
    file: &TypeFile,
    components: &[Component],
) -> Result<String, AllocError> {
    let proof = components_proof(alloc, components)?;
    let proof = proof.as_str();
    let name = file.plain_name();
    let module = file.module.as_str();
    format!(in alloc;
        "{module}_read_inside : (v : {name} Knot) → ReadAtSome (λ n. ComponentsAreRead ({module}_components (read_level knot n)) v) (ComponentsAreRead ({module}_components within) v)
{module}_read_inside v = {proof}

"
    )
}

// The proof for components, one after another.
fn components_proof(alloc: Global, components: &[Component]) -> Result<String, AllocError> {
    let mut proof = String::from_str(alloc, "same_read")?;
    for component in components.iter().rev() {
        let own = component_proof(alloc, component)?;
        let own = own.as_str();
        let rest = proof.as_str();
        proof = format!(in alloc; "in_turn_at_some ({own}) ({rest})")?;
    }
    Ok(proof)
}

// The proof for a component.
fn component_proof(alloc: Global, component: &Component) -> Result<String, AllocError> {
    let field = field_term(alloc, component.field.as_str())?;
    let field = field.as_str();
    let value = format!(in alloc; "v.{field}")?;
    match &component.held {
        None => String::from_str(alloc, "same_read"),
        Some(held) => match component.usage {
            Usage::Required => tagged_proof(alloc, held, component.tagging, value.as_str()),
            _ => option_proof(alloc, held, component, value.as_str()),
        },
    }
}

// The proof for a component that may be absent.
fn option_proof(
    alloc: Global,
    held: &Held,
    component: &Component,
    value: &str,
) -> Result<String, AllocError> {
    let side = if component.is_addition {
        "in_additions"
    } else {
        "in_root"
    };
    let tag = match component.tagging {
        Tagging::Untagged => own_tag(alloc, held, 0)?,
        Tagging::Implicit(tag) => tag_term(alloc, tag)?,
        Tagging::Explicit(tag) => tag_term(alloc, tag)?,
    };
    let tag = tag.as_str();
    let proof = tagged_proof(alloc, held, component.tagging, "x")?;
    let proof = proof.as_str();
    format!(in alloc; "option_at_some {side} {tag} {value} (λ x. {proof})")
}

// The proof for a value under its tag.
fn tagged_proof(
    alloc: Global,
    held: &Held,
    tagging: Tagging,
    value: &str,
) -> Result<String, AllocError> {
    match tagging {
        Tagging::Untagged => {
            let own = own_tag(alloc, held, 0)?;
            held_proof(alloc, held, own.as_str(), value)
        }
        Tagging::Implicit(tag) => {
            let tag = tag_term(alloc, tag)?;
            held_proof(alloc, held, tag.as_str(), value)
        }
        Tagging::Explicit(tag) => {
            let tag = tag_term(alloc, tag)?;
            let tag = tag.as_str();
            let own = own_tag(alloc, held, 0)?;
            let inner = held_proof(alloc, held, own.as_str(), value)?;
            let inner = inner.as_str();
            format!(in alloc; "inside_at_some (explicit_tag {tag}) ({inner})")
        }
    }
}

// The own tag of a type, from one of its lists on.
fn own_tag(alloc: Global, held: &Held, from: usize) -> Result<String, AllocError> {
    let meaning = meaning_term(alloc, held, from, "within")?;
    let meaning = meaning.as_str();
    format!(in alloc; "{meaning}.tag")
}

// The proof for a value under this tag: for its elements, if it is a list.
fn held_proof(alloc: Global, held: &Held, tag: &str, value: &str) -> Result<String, AllocError> {
    let count = held.lists.len();
    let last = element_name(alloc, value, count)?;
    let last = last.as_str();
    let last_tag = tag_at(alloc, held, count, tag)?;
    let last_tag = last_tag.as_str();
    let mut proof = match &held.member {
        Some(module) => format!(in alloc; "{module}_read {last_tag} {last}")?,
        None => format!(in alloc; "within_read {last_tag} {last}")?,
    };
    for (index, kind) in held.lists.iter().enumerate().rev() {
        let list = element_name(alloc, value, index)?;
        let list = elements_of(alloc, *kind, list.as_str())?;
        let list = list.as_str();
        let element = element_name(alloc, value, index.saturating_add(1))?;
        let element = element.as_str();
        let own = tag_at(alloc, held, index, tag)?;
        let own = own.as_str();
        let head = head_word(*kind);
        let inner = proof.as_str();
        proof = format!(in alloc;
            "inside_at_some ({head} {own} unconstrained) (elements_at_some {list} (λ {element}. {inner}))"
        )?;
    }
    Ok(proof)
}

// The tag of a value at a depth of lists: the first has the tag that is given.
fn tag_at(alloc: Global, held: &Held, depth: usize, tag: &str) -> Result<String, AllocError> {
    if depth == 0 {
        String::from_str(alloc, tag)
    } else {
        own_tag(alloc, held, depth)
    }
}

// The word for the head of a list.
fn head_word(kind: ListKind) -> &'static str {
    match kind {
        ListKind::SequenceOf => "sequence_of",
        ListKind::SetOf => "set_of",
    }
}
