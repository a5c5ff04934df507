//! Lemmas on the records in the elements of lists.
use crate::circle::{Circle, elements_of, meaning_term};
use crate::places::{Place, around, bind, found_at, named};
use crate::records::{Subject, Task, cases, list_step, member_of};
use asn1_rust_components::{Held, ListKind};
use std::alloc::{AllocError, Global};

/// The lemma of the elements of a list.
pub(crate) fn elements_lemma<'a>(
    alloc: Global,
    tasks: &mut Vec<Task<'a>>,
    circle: Circle<'a>,
    place: &Place,
    held: &'a Held,
    index: usize,
) -> Result<String, AllocError> {
    match held.lists.get(index).copied() {
        Some(kind) => list_lemma(alloc, tasks, circle, place, held, index, kind),
        None => Ok(String::new(alloc)),
    }
}

// The lemma of the elements of a list of this kind.
fn list_lemma<'a>(
    alloc: Global,
    tasks: &mut Vec<Task<'a>>,
    circle: Circle<'a>,
    place: &Place,
    held: &'a Held,
    index: usize,
    kind: ListKind,
) -> Result<String, AllocError> {
    let depth = place.depth;
    let list = format!(in alloc; "v{depth}")?;
    let list = list.as_str();
    let bound = circle.value_term(alloc, held, index, "Knot")?;
    let bound = bound.as_str();
    let written = circle.value_term(alloc, held, index, circle.carrier())?;
    let written = written.as_str();
    let inner = element_place(alloc, place, kind, list, bound, written)?;
    let lemma = list_text(
        alloc, place, &inner, held, index, kind, list, bound, written,
    )?;
    let subject = Subject::Element(held, index.saturating_add(1));
    tasks.push(Task {
        place: inner,
        subject,
    })?;
    Ok(lemma)
}

// Its text, for a list of this name and type, and the place of its elements.
fn list_text(
    alloc: Global,
    place: &Place,
    inner: &Place,
    held: &Held,
    index: usize,
    kind: ListKind,
    list: &str,
    bound: &str,
    list_type: &str,
) -> Result<String, AllocError> {
    let next = index.saturating_add(1);
    let written = meaning_term(alloc, held, next, "already")?;
    let written = written.as_str();
    let all = meaning_term(alloc, held, next, "within")?;
    let all = all.as_str();
    let elements = elements_of(alloc, kind, list)?;
    let elements = elements.as_str();
    let each = each_records(alloc, kind, written, list_type)?;
    let found = found_at(alloc, place, each.as_str(), list)?;
    let found = found.as_str();
    let name = place.name.as_str();
    let binders = place.binders.as_str();
    let arguments = place.arguments.as_str();
    let element = place.depth.saturating_add(1);
    let inner_name = inner.name.as_str();
    let inner_arguments = inner.arguments.as_str();
    format!(in alloc;
        "{name} : {binders} ({list} : {bound}) → {found} ≡ flat_map (own_records {all}) {elements}
{name} {arguments} {list} = list_by (own_records {written}) (own_records {all}) _ (λ v{element}. {inner_name} {inner_arguments} v{element}) {elements}

"
    )
}

// The records of each element of a list of this type.
fn each_records(
    alloc: Global,
    kind: ListKind,
    records: &str,
    list_type: &str,
) -> Result<String, AllocError> {
    match kind {
        ListKind::SequenceOf => {
            format!(in alloc; "(λ (l : {list_type}). flat_map (own_records {records}) l.items)")
        }
        ListKind::SetOf => format!(in alloc; "(flat_map (own_records {records}))"),
    }
}

// The place of an element of a list with this name and type, which is of the other type where it was written.
fn element_place(
    alloc: Global,
    place: &Place,
    kind: ListKind,
    list: &str,
    bound: &str,
    written: &str,
) -> Result<Place, AllocError> {
    let front = format!(in alloc; "(with_one {list} ")?;
    let opening = format!(in alloc; "(λ (l : {written}). of_first (")?;
    let texts = match kind {
        ListKind::SequenceOf => [front.as_str(), ")", opening.as_str(), ") l.items)"],
        ListKind::SetOf => ["(", " ∷ [])", "(of_first (", "))"],
    };
    let inner = around(alloc, place, Some(bound), texts)?;
    named(alloc, inner, "each")
}

/// The lemma of an element.
pub(crate) fn element_lemma<'a>(
    alloc: Global,
    tasks: &mut Vec<Task<'a>>,
    circle: Circle<'a>,
    place: &Place,
    held: &'a Held,
    index: usize,
) -> Result<String, AllocError> {
    let statement = element_statement(alloc, circle, place, held, index)?;
    let statement = statement.as_str();
    let equations = element_equations(alloc, tasks, circle, place, held, index)?;
    let equations = equations.as_str();
    format!(in alloc; "{statement}{equations}\n")
}

// Its statement.
fn element_statement(
    alloc: Global,
    circle: Circle<'_>,
    place: &Place,
    held: &Held,
    index: usize,
) -> Result<String, AllocError> {
    let written = meaning_term(alloc, held, index, "already")?;
    let written = written.as_str();
    let written = format!(in alloc; "(own_records {written})")?;
    let all = meaning_term(alloc, held, index, "within")?;
    let all = all.as_str();
    let depth = place.depth;
    let value = format!(in alloc; "v{depth}")?;
    let value = value.as_str();
    let found = found_at(alloc, place, written.as_str(), value)?;
    let found = found.as_str();
    let bound = circle.value_term(alloc, held, index, "Knot")?;
    let bound = bound.as_str();
    let name = place.name.as_str();
    let binders = place.binders.as_str();
    format!(in alloc;
        "{name} : {binders} ({value} : {bound}) → {found} ≡ own_records {all} {value}\n"
    )
}

// Its equations: that of a list, or those of a type of the circle.
fn element_equations<'a>(
    alloc: Global,
    tasks: &mut Vec<Task<'a>>,
    circle: Circle<'a>,
    place: &Place,
    held: &'a Held,
    index: usize,
) -> Result<String, AllocError> {
    if index < held.lists.len() {
        return inner_list_equation(alloc, tasks, circle, place, held, index);
    }
    match member_of(circle, held) {
        Some(file) => cases(alloc, tasks, circle, place, file),
        None => Ok(String::new(alloc)),
    }
}

// The equation for an element that is a list.
fn inner_list_equation<'a>(
    alloc: Global,
    tasks: &mut Vec<Task<'a>>,
    circle: Circle<'a>,
    place: &Place,
    held: &'a Held,
    index: usize,
) -> Result<String, AllocError> {
    let bound = circle.value_term(alloc, held, index, "Knot")?;
    let inner = bind(alloc, place, bound.as_str())?;
    let depth = place.depth;
    let value = format!(in alloc; "v{depth}")?;
    let value = value.as_str();
    let step = list_step(alloc, tasks, circle, inner, held, index, value)?;
    let step = step.as_str();
    let name = place.name.as_str();
    let arguments = place.arguments.as_str();
    format!(in alloc; "{name} {arguments} {value} = rw ({step}) refl\n")
}
