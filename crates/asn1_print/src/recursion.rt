//! Types that hold themselves.
use crate::plan::Plan;
use asn1_resolved::{Addition, Alternative, Component, Type, TypeKind};
use std::alloc::{AllocError, Global};

/// The circles of a schema, by references to types that do not exist already: the types of each hold one another.
pub(crate) fn circle_groups(plan: &Plan<'_, '_>) -> Result<Vec<Vec<usize>>, AllocError> {
    let references = &plan.references;
    let groups = groups_of(plan.alloc, references.as_slice())?;
    let groups = groups.as_slice();
    let mut circles: Vec<Vec<usize>> = Vec::new(plan.alloc);
    for (index, referred) in references.iter().enumerate() {
        if is_in_cycle(groups, index, referred.as_slice()) && is_first(groups, index) {
            let members = members_of(plan.alloc, groups, index)?;
            circles.push(members)?;
        }
    }
    Ok(circles)
}

// Whether a type is the first of its group.
fn is_first(groups: &[usize], index: usize) -> bool {
    let group = groups.get(index);
    for (other, known) in groups.iter().enumerate() {
        if Some(known) == group {
            return other == index;
        }
    }
    false
}

// The types of the group of a type.
fn members_of(alloc: Global, groups: &[usize], index: usize) -> Result<Vec<usize>, AllocError> {
    let group = groups.get(index);
    let mut members: Vec<usize> = Vec::new(alloc);
    for (other, known) in groups.iter().enumerate() {
        if Some(known) == group {
            members.push(other)?;
        }
    }
    Ok(members)
}

/// Whether the types of a circle but this one hold one another no more.
pub(crate) fn is_acyclic_without(
    plan: &Plan<'_, '_>,
    members: &[usize],
    cut: usize,
) -> Result<bool, AllocError> {
    let all = plan.references.as_slice();
    let references = references_without(plan.alloc, all, members, cut)?;
    let groups = groups_of(plan.alloc, references.as_slice())?;
    Ok(is_acyclic(groups.as_slice(), references.as_slice()))
}

// Whether no type refers to one of its own group.
fn is_acyclic(groups: &[usize], references: &[Vec<usize>]) -> bool {
    for (index, referred) in references.iter().enumerate() {
        if is_in_cycle(groups, index, referred.as_slice()) {
            return false;
        }
    }
    true
}

// The references of these types but one, to others than that.
fn references_without(
    alloc: Global,
    all: &[Vec<usize>],
    members: &[usize],
    cut: usize,
) -> Result<Vec<Vec<usize>>, AllocError> {
    let mut references: Vec<Vec<usize>> = Vec::new(alloc);
    for (index, referred) in all.iter().enumerate() {
        let kept = if index != cut && members.contains(&index) {
            others_than(alloc, referred.as_slice(), cut)?
        } else {
            Vec::new(alloc)
        };
        references.push(kept)?;
    }
    Ok(references)
}

// Those of these indices that are not this one.
fn others_than(alloc: Global, indices: &[usize], cut: usize) -> Result<Vec<usize>, AllocError> {
    let mut others: Vec<usize> = Vec::new(alloc);
    for index in indices {
        if *index != cut {
            others.push(*index)?;
        }
    }
    Ok(others)
}

/// The circles of types in a definition, but for its own: each once.
pub(crate) fn circles_in(plan: &Plan<'_, '_>, index: usize) -> Result<Vec<usize>, AllocError> {
    let mut starts: Vec<usize> = Vec::new(plan.alloc);
    starts.push(index)?;
    circles_behind(plan, starts.as_slice(), plan.circle_of(index))
}

/// The circles of types in a type that no definition is: each once.
pub(crate) fn circles_in_type(
    plan: &Plan<'_, '_>,
    definition: &Type<'_>,
) -> Result<Vec<usize>, AllocError> {
    let mut starts: Vec<usize> = Vec::new(plan.alloc);
    push_type(&mut starts, definition)?;
    circles_behind(plan, starts.as_slice(), None)
}

// The circles of these types and of those in them, but for one circle: each once.
fn circles_behind(
    plan: &Plan<'_, '_>,
    starts: &[usize],
    own: Option<usize>,
) -> Result<Vec<usize>, AllocError> {
    let mut circles: Vec<usize> = Vec::new(plan.alloc);
    if plan.circles.is_empty() {
        return Ok(circles);
    }
    let references = plan.references.as_slice();
    let mut reached = flags(plan.alloc, references.len())?;
    let mut types: Vec<usize> = Vec::new(plan.alloc);
    for start in starts {
        walk(plan.alloc, references, *start, &mut reached, &mut types)?;
    }
    for other in &types {
        if let Some(circle) = plan.circle_of(*other) {
            if own != Some(circle) && !circles.contains(&circle) {
                circles.push(circle)?;
            }
        }
    }
    Ok(circles)
}

/// The references of each type to types that do not exist already.
pub(crate) fn list_references(plan: &Plan<'_, '_>) -> Result<Vec<Vec<usize>>, AllocError> {
    let mut list = Vec::new(plan.alloc);
    for (index, definition) in plan.request.schema.types.iter().enumerate() {
        let mut all = Vec::new(plan.alloc);
        if !plan.is_external(index) {
            push_type(&mut all, &definition.definition)?;
        }
        let mut references = Vec::new(plan.alloc);
        for reference in &all {
            if !plan.is_external(*reference) {
                references.push(*reference)?;
            }
        }
        list.push(references)?;
    }
    Ok(list)
}

// Whether a type refers to one of its own group: these hold one another, or it refers to itself.
fn is_in_cycle(groups: &[usize], index: usize, references: &[usize]) -> bool {
    for reference in references {
        if groups.get(*reference) == groups.get(index) {
            return true;
        }
    }
    false
}

// The group of each type: types of one group are those that hold one another. It is found by a walk in the direction of the
// references, and one against it (Kosaraju and Sharir).
fn groups_of(alloc: Global, references: &[Vec<usize>]) -> Result<Vec<usize>, AllocError> {
    let order = leaving_order(alloc, references)?;
    let backward = backward_references(alloc, references)?;
    let mut reached = flags(alloc, references.len())?;
    let mut groups = Vec::new(alloc);
    for index in 0..references.len() {
        groups.push(index)?;
    }
    for start in order.iter().rev() {
        let mut group = Vec::new(alloc);
        walk(alloc, backward.as_slice(), *start, &mut reached, &mut group)?;
        for index in &group {
            if let Some(known) = groups.get_mut(*index) {
                *known = *start;
            }
        }
    }
    Ok(groups)
}

// The types in the order in which a walk in the direction of the references leaves them.
fn leaving_order(alloc: Global, references: &[Vec<usize>]) -> Result<Vec<usize>, AllocError> {
    let mut reached = flags(alloc, references.len())?;
    let mut order = Vec::new(alloc);
    for start in 0..references.len() {
        walk(alloc, references, start, &mut reached, &mut order)?;
    }
    Ok(order)
}

// The types that refer to each.
fn backward_references(
    alloc: Global,
    references: &[Vec<usize>],
) -> Result<Vec<Vec<usize>>, AllocError> {
    let mut backward: Vec<Vec<usize>> = Vec::new(alloc);
    for _ in references {
        backward.push(Vec::new(alloc))?;
    }
    for (index, referred) in references.iter().enumerate() {
        for reference in referred {
            if let Some(list) = backward.get_mut(*reference) {
                list.push(index)?;
            }
        }
    }
    Ok(backward)
}

// As many flags that are not set.
fn flags(alloc: Global, count: usize) -> Result<Vec<bool>, AllocError> {
    let mut flags = Vec::new(alloc);
    for _ in 0..count {
        flags.push(false)?;
    }
    Ok(flags)
}

// Appends the types that a walk from one reaches, unless they were reached before, each behind those that it leads to.
fn walk(
    alloc: Global,
    references: &[Vec<usize>],
    start: usize,
    reached: &mut Vec<bool>,
    left: &mut Vec<usize>,
) -> Result<(), AllocError> {
    // The types on the way, each with the number of its references that were followed.
    let mut way = Vec::new(alloc);
    if mark(reached, start) {
        way.push((start, 0usize))?;
    }
    for _ in 0..usize::MAX {
        let Some((index, followed)) = way.pop() else {
            return Ok(());
        };
        match reference_at(references, index, followed) {
            Some(reference) => {
                way.push((index, followed.saturating_add(1)))?;
                if mark(reached, reference) {
                    way.push((reference, 0))?;
                }
            }
            None => left.push(index)?,
        }
    }
    Ok(())
}

// A reference of a type, by its index among these.
fn reference_at(references: &[Vec<usize>], index: usize, which: usize) -> Option<usize> {
    references.get(index)?.get(which).copied()
}

// Marks an index, and answers whether it was not marked.
fn mark(reached: &mut Vec<bool>, index: usize) -> bool {
    match reached.get_mut(index) {
        Some(flag) => {
            let is_new = !*flag;
            *flag = true;
            is_new
        }
        None => false,
    }
}

// Appends the references of a type.
#[cycle(references)]
fn push_type(references: &mut Vec<usize>, definition: &Type<'_>) -> Result<(), AllocError> {
    match &definition.kind {
        TypeKind::Reference(index) => {
            references.push(*index)?;
            Ok(())
        }
        TypeKind::SequenceOf(element) => push_type(references, element),
        TypeKind::SetOf(element) => push_type(references, element),
        TypeKind::Tagged(_, inner) => push_type(references, inner),
        TypeKind::Sequence(components) => {
            push_components(references, components.root.as_slice())?;
            push_additions(references, components.additions.as_slice())
        }
        TypeKind::Set(components) => {
            push_components(references, components.root.as_slice())?;
            push_additions(references, components.additions.as_slice())
        }
        TypeKind::Choice(choice) => {
            push_alternatives(references, choice.root.as_slice())?;
            push_alternatives(references, choice.additions.as_slice())
        }
        _ => Ok(()),
    }
}

// Appends the references of components.
#[cycle(references)]
fn push_components(
    references: &mut Vec<usize>,
    components: &[Component<'_>],
) -> Result<(), AllocError> {
    for component in components {
        push_type(references, &component.definition)?;
    }
    Ok(())
}

// Appends the references of additions.
#[cycle(references)]
fn push_additions(
    references: &mut Vec<usize>,
    additions: &[Addition<'_>],
) -> Result<(), AllocError> {
    for addition in additions {
        match addition {
            Addition::Component(component) => push_type(references, &component.definition)?,
            Addition::Group(group) => push_components(references, group.as_slice())?,
        }
    }
    Ok(())
}

// Appends the references of alternatives.
#[cycle(references)]
fn push_alternatives(
    references: &mut Vec<usize>,
    alternatives: &[Alternative<'_>],
) -> Result<(), AllocError> {
    for alternative in alternatives {
        push_type(references, &alternative.definition)?;
    }
    Ok(())
}
