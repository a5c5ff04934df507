//! The records inside a value, where those inside it have been written.
//!
//! The map of a recursive type over an option, a list or a CHOICE computes only where that is known, so each place of one has a lemma,
//! in which the value at that place is found again in what the map makes of a whole value.
use crate::circle::{Circle, elements_of};
use crate::elements::{element_lemma, elements_lemma};
use crate::lists::{component_name, variant_name};
use crate::places::{Place, around, bind, found_at, named, whole};
use crate::terms::field_term;
use asn1_rust_components::{
    Alternative, ChoiceType, Component, Held, ListKind, TypeBody, TypeFile, Usage,
};
use std::alloc::{AllocError, Global};

/// The greatest number of places.
const MOST: usize = 4096;

/// A lemma that is needed.
#[derive(Drop)]
pub(crate) struct Task<'a> {
    /// The place of what it says.
    pub(crate) place: Place,
    /// What it is on.
    pub(crate) subject: Subject<'a>,
}

/// The subject of a lemma.
#[derive(Drop)]
pub(crate) enum Subject<'a> {
    /// A component that may be absent, of this value.
    Component(&'a TypeFile, &'a Component, &'a Held, String),
    /// The elements of the list with an index among those of a type.
    Elements(&'a Held, usize),
    /// An element, from the list with an index on.
    Element(&'a Held, usize),
    /// A CHOICE.
    Choice(&'a TypeFile),
}

// A value at a place, whose type holds the parameter.
#[derive(Drop)]
struct Part<'a> {
    place: Place,
    held: &'a Held,
    value: String,
}

/// The lemmas on the records in each type of a circle, and that of the knot, of which values are made of this: an empty line behind
/// each.
pub(crate) fn lemmas<'a>(
    alloc: Global,
    circle: Circle<'a>,
    body: &'a TypeFile,
) -> Result<String, AllocError> {
    let finders = finders(alloc, circle)?;
    let finders = finders.as_str();
    let lemmas = place_lemmas(alloc, circle, body)?;
    let lemmas = backward(alloc, lemmas.as_slice())?;
    let lemmas = lemmas.as_str();
    format!(in alloc; "{finders}{lemmas}")
}

// Texts, the last one first.
fn backward(alloc: Global, texts: &[String]) -> Result<String, AllocError> {
    let mut all = String::new(alloc);
    for text in texts.iter().rev() {
        all.push_str(text.as_str())?;
    }
    Ok(all)
}

// The lemmas, those that others need behind these.
fn place_lemmas<'a>(
    alloc: Global,
    circle: Circle<'a>,
    body: &'a TypeFile,
) -> Result<Vec<String>, AllocError> {
    let mut tasks: Vec<Task<'a>> = Vec::new(alloc);
    let mut lemmas: Vec<String> = Vec::new(alloc);
    let first = whole_lemma(alloc, &mut tasks, circle, body)?;
    lemmas.push(first)?;
    for _ in 0..MOST {
        match tasks.pop() {
            Some(task) => {
                let lemma = task_lemma(alloc, &mut tasks, circle, task)?;
                lemmas.push(lemma)?;
            }
            None => break,
        }
    }
    Ok(lemmas)
}

// The functions that find the values of alternatives.
fn finders(alloc: Global, circle: Circle<'_>) -> Result<String, AllocError> {
    let mut text = String::new(alloc);
    for file in circle.members {
        if let TypeBody::Choice(choice) = &file.body {
            let own = choice_finders(alloc, circle, file, choice)?;
            text.push_str(own.as_str())?;
        }
    }
    Ok(text)
}

// The functions that find the values of the alternatives of a CHOICE.
fn choice_finders(
    alloc: Global,
    circle: Circle<'_>,
    file: &TypeFile,
    choice: &ChoiceType,
) -> Result<String, AllocError> {
    let mut text = String::new(alloc);
    for alternative in &choice.alternatives {
        if let Some(held) = &alternative.held {
            if has_lemmas(held) {
                let finder = finder_of(alloc, circle, file, alternative, held)?;
                text.push_str(finder.as_str())?;
            }
        }
    }
    Ok(text)
}

// Whether there can be a lemma on values inside this.
fn has_lemmas(held: &Held) -> bool {
    held.member.is_some() || held.lists.len() > 1
}

// The function that finds the value of an alternative.
fn finder_of(
    alloc: Global,
    circle: Circle<'_>,
    file: &TypeFile,
    alternative: &Alternative,
    held: &Held,
) -> Result<String, AllocError> {
    let own = variant_name(alloc, file, alternative.variant.as_str())?;
    let own = own.as_str();
    let carrier = circle.carrier();
    let value = circle.value_term(alloc, held, 0, carrier)?;
    let value = value.as_str();
    let type_name = file.plain_name();
    format!(in alloc;
        "abbrev of-{own} : ({value} → List Record) → {type_name} {carrier} → List Record
of-{own} g ({own} v) = g v
of-{own} g _ = []

"
    )
}

// The lemma of whole values.
fn whole_lemma<'a>(
    alloc: Global,
    tasks: &mut Vec<Task<'a>>,
    circle: Circle<'a>,
    body: &'a TypeFile,
) -> Result<String, AllocError> {
    let place = whole(alloc)?;
    let cases = cases(alloc, tasks, circle, &place, body)?;
    let cases = cases.as_str();
    let name = body.plain_name();
    let carrier = circle.carrier();
    let writer = circle.writer();
    let whole = format!(in alloc;
        "write (map-Knot Knot {carrier} {writer} (record f {{ 0 = record f.0 {{ value = v }} }}))"
    )?;
    let whole = whole.as_str();
    let written = if circle.are_valid {
        format!(in alloc; "({whole}).records")?
    } else {
        String::from_str(alloc, whole)?
    };
    let written = written.as_str();
    format!(in alloc;
        "same_records : (f : Knot-F Knot) (v : {name} Knot) → {written} ≡ (knot.content Knot within v).records
{cases}
"
    )
}

/// The equations of a lemma on a type of the circle at a place: of a CHOICE one for each alternative.
pub(crate) fn cases<'a>(
    alloc: Global,
    tasks: &mut Vec<Task<'a>>,
    circle: Circle<'a>,
    place: &Place,
    file: &'a TypeFile,
) -> Result<String, AllocError> {
    match &file.body {
        TypeBody::Choice(choice) => choice_cases(alloc, tasks, circle, place, file, choice),
        TypeBody::Sequence(body) => {
            sequence_case(
                alloc,
                tasks,
                circle,
                place,
                file,
                body.components.as_slice(),
            )
        }
        _ => Ok(String::new(alloc)),
    }
}

// The equations for a CHOICE.
fn choice_cases<'a>(
    alloc: Global,
    tasks: &mut Vec<Task<'a>>,
    circle: Circle<'a>,
    place: &Place,
    file: &'a TypeFile,
    choice: &'a ChoiceType,
) -> Result<String, AllocError> {
    let mut text = String::new(alloc);
    for alternative in &choice.alternatives {
        let case = choice_case(alloc, tasks, circle, place, file, alternative)?;
        text.push_str(case.as_str())?;
    }
    Ok(text)
}

// The equation for an alternative.
fn choice_case<'a>(
    alloc: Global,
    tasks: &mut Vec<Task<'a>>,
    circle: Circle<'a>,
    place: &Place,
    file: &'a TypeFile,
    alternative: &'a Alternative,
) -> Result<String, AllocError> {
    let own = variant_name(alloc, file, alternative.variant.as_str())?;
    let own = own.as_str();
    let steps = alternative_steps(alloc, tasks, circle, place, own, alternative)?;
    let proof = rewritten(alloc, steps.as_slice())?;
    let proof = proof.as_str();
    let name = place.name.as_str();
    let arguments = place.arguments.as_str();
    let depth = place.depth;
    format!(in alloc; "{name} {arguments} ({own} v{depth}) = {proof}\n")
}

// The rewritings for an alternative with this name of its variant.
fn alternative_steps<'a>(
    alloc: Global,
    tasks: &mut Vec<Task<'a>>,
    circle: Circle<'a>,
    place: &Place,
    own: &str,
    alternative: &'a Alternative,
) -> Result<Vec<String>, AllocError> {
    match &alternative.held {
        Some(held) => {
            let variant = alternative.variant.as_str();
            let part = alternative_part(alloc, circle, place, own, variant, held)?;
            part_steps(alloc, tasks, circle, part)
        }
        None => Ok(Vec::new(alloc)),
    }
}

// The value of an alternative with this name of its variant at a place.
fn alternative_part<'a>(
    alloc: Global,
    circle: Circle<'a>,
    place: &Place,
    own: &str,
    variant: &str,
    held: &'a Held,
) -> Result<Part<'a>, AllocError> {
    let bound = circle.value_term(alloc, held, 0, "Knot")?;
    let front = format!(in alloc; "({own} ")?;
    let found_front = format!(in alloc; "(of-{own} ")?;
    let texts = [front.as_str(), ")", found_front.as_str(), ")"];
    let inner = around(alloc, place, Some(bound.as_str()), texts)?;
    let inner = named(alloc, inner, variant)?;
    let depth = place.depth;
    let value = format!(in alloc; "v{depth}")?;
    Ok(Part {
        place: inner,
        held,
        value,
    })
}

// The equation for a SEQUENCE.
fn sequence_case<'a>(
    alloc: Global,
    tasks: &mut Vec<Task<'a>>,
    circle: Circle<'a>,
    place: &Place,
    file: &'a TypeFile,
    components: &'a [Component],
) -> Result<String, AllocError> {
    let steps = sequence_steps(alloc, tasks, circle, place, file, components)?;
    let proof = rewritten(alloc, steps.as_slice())?;
    let proof = proof.as_str();
    let name = place.name.as_str();
    let arguments = place.arguments.as_str();
    let depth = place.depth;
    format!(in alloc; "{name} {arguments} v{depth} = {proof}\n")
}

// The rewritings for a SEQUENCE.
fn sequence_steps<'a>(
    alloc: Global,
    tasks: &mut Vec<Task<'a>>,
    circle: Circle<'a>,
    place: &Place,
    file: &'a TypeFile,
    components: &'a [Component],
) -> Result<Vec<String>, AllocError> {
    let type_name = file.plain_name();
    let bound = format!(in alloc; "({type_name} Knot)")?;
    let inner = bind(alloc, place, bound.as_str())?;
    let depth = place.depth;
    let value = format!(in alloc; "v{depth}")?;
    let value = value.as_str();
    let waiting = required_parts(alloc, circle, &inner, file, components, value)?;
    let steps = option_steps(alloc, tasks, &inner, file, components, value)?;
    all_steps(alloc, tasks, circle, steps, waiting)
}

// A proof by these rewritings.
fn rewritten(alloc: Global, steps: &[String]) -> Result<String, AllocError> {
    if steps.is_empty() {
        return String::from_str(alloc, "refl");
    }
    let mut text = String::from_str(alloc, "rw (")?;
    for (index, step) in steps.iter().enumerate() {
        if index != 0 {
            text.push_str(", ")?;
        }
        text.push_str(step.as_str())?;
    }
    text.push_str(") refl")?;
    Ok(text)
}

// The rewritings for a value.
fn part_steps<'a>(
    alloc: Global,
    tasks: &mut Vec<Task<'a>>,
    circle: Circle<'a>,
    part: Part<'a>,
) -> Result<Vec<String>, AllocError> {
    let mut waiting: Vec<Part<'a>> = Vec::new(alloc);
    waiting.push(part)?;
    all_steps(alloc, tasks, circle, Vec::new(alloc), waiting)
}

// Rewritings, and behind them those for values: the lemmas that these need are added to the tasks.
fn all_steps<'a>(
    alloc: Global,
    tasks: &mut Vec<Task<'a>>,
    circle: Circle<'a>,
    steps: Vec<String>,
    waiting: Vec<Part<'a>>,
) -> Result<Vec<String>, AllocError> {
    let mut steps = steps;
    let mut waiting = waiting;
    for _ in 0..MOST {
        match waiting.pop() {
            Some(part) => add_part(alloc, tasks, circle, &mut steps, &mut waiting, part)?,
            None => break,
        }
    }
    Ok(steps)
}

// Adds the rewritings for a value, or the values in it.
fn add_part<'a>(
    alloc: Global,
    tasks: &mut Vec<Task<'a>>,
    circle: Circle<'a>,
    steps: &mut Vec<String>,
    waiting: &mut Vec<Part<'a>>,
    part: Part<'a>,
) -> Result<(), AllocError> {
    let Part { place, held, value } = part;
    let value = value.as_str();
    if held.lists.is_empty() {
        match member_of(circle, held) {
            Some(file) => add_member(alloc, tasks, circle, steps, waiting, place, file, value),
            None => Ok(()),
        }
    } else {
        let step = list_step(alloc, tasks, circle, place, held, 0, value)?;
        steps.push(step)?;
        Ok(())
    }
}

/// The type of the circle that a type is below its lists.
pub(crate) fn member_of<'a>(circle: Circle<'a>, held: &Held) -> Option<&'a TypeFile> {
    let module = held.member.as_ref()?;
    circle
        .members
        .iter()
        .find(|file| file.module.as_str() == module.as_str())
}

// Adds the rewritings for a value of a type of the circle, or the values in it.
fn add_member<'a>(
    alloc: Global,
    tasks: &mut Vec<Task<'a>>,
    circle: Circle<'a>,
    steps: &mut Vec<String>,
    waiting: &mut Vec<Part<'a>>,
    place: Place,
    file: &'a TypeFile,
    value: &str,
) -> Result<(), AllocError> {
    match &file.body {
        TypeBody::Choice(_) => {
            let step = choice_step(alloc, tasks, place, file, value)?;
            steps.push(step)?;
            Ok(())
        }
        TypeBody::Sequence(body) => {
            let components = body.components.as_slice();
            let own = option_steps(alloc, tasks, &place, file, components, value)?;
            let parts = required_parts(alloc, circle, &place, file, components, value)?;
            append_steps(steps, own)?;
            append_parts(waiting, parts)
        }
        _ => Ok(()),
    }
}

// Appends rewritings.
fn append_steps(steps: &mut Vec<String>, others: Vec<String>) -> Result<(), AllocError> {
    for step in others {
        steps.push(step)?;
    }
    Ok(())
}

// Appends values.
fn append_parts<'a>(waiting: &mut Vec<Part<'a>>, others: Vec<Part<'a>>) -> Result<(), AllocError> {
    for part in others {
        waiting.push(part)?;
    }
    Ok(())
}

// The rewriting for a CHOICE at a place, by its lemma.
fn choice_step<'a>(
    alloc: Global,
    tasks: &mut Vec<Task<'a>>,
    place: Place,
    file: &'a TypeFile,
    value: &str,
) -> Result<String, AllocError> {
    let place = named(alloc, place, file.module.as_str())?;
    let name = place.name.as_str();
    let arguments = place.arguments.as_str();
    let step = format!(in alloc; "{name} {arguments} {value}")?;
    let subject = Subject::Choice(file);
    tasks.push(Task { place, subject })?;
    Ok(step)
}

// The rewritings for the components that may be absent, by their lemmas.
fn option_steps<'a>(
    alloc: Global,
    tasks: &mut Vec<Task<'a>>,
    place: &Place,
    file: &'a TypeFile,
    components: &'a [Component],
    value: &str,
) -> Result<Vec<String>, AllocError> {
    let mut steps: Vec<String> = Vec::new(alloc);
    for component in components {
        if let Some(held) = optional_held(component) {
            let step = option_step(alloc, tasks, place, file, component, held, value)?;
            steps.push(step)?;
        }
    }
    Ok(steps)
}

// How the type of a component that may be absent holds the parameter.
fn optional_held(component: &Component) -> Option<&Held> {
    match component.usage {
        Usage::Required => None,
        _ => component.held.as_ref(),
    }
}

// How the type of a component that is always there holds the parameter.
fn required_held(component: &Component) -> Option<&Held> {
    match component.usage {
        Usage::Required => component.held.as_ref(),
        _ => None,
    }
}

// The rewriting for a component that may be absent, of a value at a place.
fn option_step<'a>(
    alloc: Global,
    tasks: &mut Vec<Task<'a>>,
    place: &Place,
    file: &'a TypeFile,
    component: &'a Component,
    held: &'a Held,
    value: &str,
) -> Result<String, AllocError> {
    let field = field_term(alloc, component.field.as_str())?;
    let field = field.as_str();
    let same = around(alloc, place, None, ["", "", "", ""])?;
    let same = named(alloc, same, component.field.as_str())?;
    let name = same.name.as_str();
    let arguments = same.arguments.as_str();
    let step = format!(in alloc; "{name} {arguments} {value}.{field}")?;
    let value = String::from_str(alloc, value)?;
    let subject = Subject::Component(file, component, held, value);
    tasks.push(Task {
        place: same,
        subject,
    })?;
    Ok(step)
}

// The components that are always there, of a value at a place.
fn required_parts<'a>(
    alloc: Global,
    circle: Circle<'a>,
    place: &Place,
    file: &TypeFile,
    components: &'a [Component],
    value: &str,
) -> Result<Vec<Part<'a>>, AllocError> {
    let mut parts: Vec<Part<'a>> = Vec::new(alloc);
    for component in components {
        if let Some(held) = required_held(component) {
            let part = required_part(alloc, circle, place, file, component, held, value)?;
            parts.push(part)?;
        }
    }
    Ok(parts)
}

// A component that is always there, of a value at a place.
fn required_part<'a>(
    alloc: Global,
    circle: Circle<'a>,
    place: &Place,
    file: &TypeFile,
    component: &Component,
    held: &'a Held,
    value: &str,
) -> Result<Part<'a>, AllocError> {
    let field = field_term(alloc, component.field.as_str())?;
    let field = field.as_str();
    let front = format!(in alloc; "(record {value} {{ {field} = ")?;
    let found_front = typed_front(alloc, circle, file)?;
    let found_back = format!(in alloc; " x.{field})")?;
    let texts = [
        front.as_str(),
        " })",
        found_front.as_str(),
        found_back.as_str(),
    ];
    let inner = around(alloc, place, None, texts)?;
    let inner = named(alloc, inner, component.field.as_str())?;
    let own = format!(in alloc; "{value}.{field}")?;
    Ok(Part {
        place: inner,
        held,
        value: own,
    })
}

// The front of a function of a value of a type that was written.
fn typed_front(alloc: Global, circle: Circle<'_>, file: &TypeFile) -> Result<String, AllocError> {
    let name = file.plain_name();
    let carrier = circle.carrier();
    format!(in alloc; "(λ (x : {name} {carrier}). ")
}

/// The rewriting for a list at a place: that of its elements, or its lemma.
pub(crate) fn list_step<'a>(
    alloc: Global,
    tasks: &mut Vec<Task<'a>>,
    circle: Circle<'a>,
    place: Place,
    held: &'a Held,
    index: usize,
    value: &str,
) -> Result<String, AllocError> {
    match held.lists.get(index).copied() {
        Some(kind) if is_innermost(held, index) => {
            let elements = elements_of(alloc, kind, value)?;
            let elements = elements.as_str();
            let writer = circle.writer();
            format!(in alloc; "flat_map-map (own_records already) {writer} {elements}")
        }
        _ => elements_step(alloc, tasks, place, held, index, value),
    }
}

// Whether the elements of a list are the parameter itself.
fn is_innermost(held: &Held, index: usize) -> bool {
    held.member.is_none() && index.saturating_add(1) == held.lists.len()
}

// The rewriting for the elements of a list, by their lemma.
fn elements_step<'a>(
    alloc: Global,
    tasks: &mut Vec<Task<'a>>,
    place: Place,
    held: &'a Held,
    index: usize,
    value: &str,
) -> Result<String, AllocError> {
    let place = named(alloc, place, "elements")?;
    let name = place.name.as_str();
    let arguments = place.arguments.as_str();
    let step = format!(in alloc; "{name} {arguments} {value}")?;
    let subject = Subject::Elements(held, index);
    tasks.push(Task { place, subject })?;
    Ok(step)
}

// A lemma that is needed.
fn task_lemma<'a>(
    alloc: Global,
    tasks: &mut Vec<Task<'a>>,
    circle: Circle<'a>,
    task: Task<'a>,
) -> Result<String, AllocError> {
    let Task { place, subject } = task;
    match subject {
        Subject::Component(file, component, held, value) => {
            let option = OptionSubject {
                file,
                component,
                held,
                value: value.as_str(),
            };
            option_lemma(alloc, tasks, circle, &place, option)
        }
        Subject::Elements(held, index) => {
            elements_lemma(alloc, tasks, circle, &place, held, index)
        }
        Subject::Element(held, index) => element_lemma(alloc, tasks, circle, &place, held, index),
        Subject::Choice(file) => choice_lemma(alloc, tasks, circle, &place, file),
    }
}

// A component that may be absent, of a value of a type.
#[derive(Clone, Copy)]
struct OptionSubject<'a, 'v> {
    file: &'a TypeFile,
    component: &'a Component,
    held: &'a Held,
    value: &'v str,
}

// The lemma of a component that may be absent, by cases.
fn option_lemma<'a>(
    alloc: Global,
    tasks: &mut Vec<Task<'a>>,
    circle: Circle<'a>,
    place: &Place,
    option: OptionSubject<'a, '_>,
) -> Result<String, AllocError> {
    let bound = circle.value_term(alloc, option.held, 0, "Knot")?;
    let bound = bound.as_str();
    let statement = option_statement(alloc, place, option)?;
    let statement = statement.as_str();
    let part = option_part(alloc, circle, place, option, bound)?;
    let steps = part_steps(alloc, tasks, circle, part)?;
    let proof = rewritten(alloc, steps.as_slice())?;
    let proof = proof.as_str();
    let name = place.name.as_str();
    let binders = place.binders.as_str();
    let arguments = place.arguments.as_str();
    let depth = place.depth;
    format!(in alloc;
        "{name} : {binders} (o : Option {bound}) → {statement}
{name} {arguments} None = refl
{name} {arguments} (Some v{depth}) = {proof}

"
    )
}

// Its statement.
fn option_statement(
    alloc: Global,
    place: &Place,
    option: OptionSubject<'_, '_>,
) -> Result<String, AllocError> {
    let definition = component_name(alloc, option.file, option.component)?;
    let definition = definition.as_str();
    let field = field_term(alloc, option.component.field.as_str())?;
    let field = field.as_str();
    let value = option.value;
    let written = format!(in alloc; "({definition} already).records")?;
    let whole = format!(in alloc; "(record {value} {{ {field} = o }})")?;
    let whole = whole.as_str();
    let found = found_at(alloc, place, written.as_str(), whole)?;
    let found = found.as_str();
    format!(in alloc; "{found} ≡ ({definition} within).records {whole}")
}

// The value of a component that may be absent, where it is there.
fn option_part<'a>(
    alloc: Global,
    circle: Circle<'a>,
    place: &Place,
    option: OptionSubject<'a, '_>,
    bound: &str,
) -> Result<Part<'a>, AllocError> {
    let field = field_term(alloc, option.component.field.as_str())?;
    let field = field.as_str();
    let value = option.value;
    let front = format!(in alloc; "(record {value} {{ {field} = Some ")?;
    let opening = typed_front(alloc, circle, option.file)?;
    let opening = opening.as_str();
    let found_front = format!(in alloc; "{opening}of_some (")?;
    let found_back = format!(in alloc; ") x.{field})")?;
    let texts = [
        front.as_str(),
        " })",
        found_front.as_str(),
        found_back.as_str(),
    ];
    let inner = around(alloc, place, Some(bound), texts)?;
    let depth = place.depth;
    let own = format!(in alloc; "v{depth}")?;
    Ok(Part {
        place: inner,
        held: option.held,
        value: own,
    })
}

// The lemma of a CHOICE, by cases.
fn choice_lemma<'a>(
    alloc: Global,
    tasks: &mut Vec<Task<'a>>,
    circle: Circle<'a>,
    place: &Place,
    file: &'a TypeFile,
) -> Result<String, AllocError> {
    let statement = choice_statement(alloc, circle, place, file)?;
    let statement = statement.as_str();
    let equations = cases(alloc, tasks, circle, place, file)?;
    let equations = equations.as_str();
    format!(in alloc; "{statement}{equations}\n")
}

// Its statement.
fn choice_statement(
    alloc: Global,
    circle: Circle<'_>,
    place: &Place,
    file: &TypeFile,
) -> Result<String, AllocError> {
    let type_name = file.plain_name();
    let depth = place.depth;
    let value = format!(in alloc; "v{depth}")?;
    let value = value.as_str();
    let written = chosen_records(alloc, file, circle.carrier(), "already")?;
    let all = chosen_records(alloc, file, "Knot", "within")?;
    let all = all.as_str();
    let found = found_at(alloc, place, written.as_str(), value)?;
    let found = found.as_str();
    let name = place.name.as_str();
    let binders = place.binders.as_str();
    format!(in alloc; "{name} : {binders} ({value} : {type_name} Knot) → {found} ≡ {all} {value}\n")
}

// The records of the chosen alternative of a value with these in it, by the meaning inside.
fn chosen_records(
    alloc: Global,
    file: &TypeFile,
    inner: &str,
    meaning: &str,
) -> Result<String, AllocError> {
    let module = file.module.as_str();
    let type_name = file.plain_name();
    format!(in alloc;
        "(λ (c : {type_name} {inner}). (chosen_meaning (all_of ({module}_alternatives {meaning})) ({module}_pick {meaning} c)).records)"
    )
}
