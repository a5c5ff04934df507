//! The table of a type of components.
use crate::common::{impl_line, owned, quoted};
use crate::constructed::{Kind, Subject, reading_trait};
use crate::definitions::{Component, Usage};
use asn1_rust_code::{Draft, TagNumber, Tagging};
use std::alloc::AllocError;

// The number of columns that are left of a line of the table.
const OPENING_WIDTH: usize = 88;

/// Appends the table of a type, with its own list of components.
pub(crate) fn append_table(draft: &mut Draft, subject: Subject<'_>) -> Result<(), AllocError> {
    let name = subject.file.name.as_str();
    let word = components_word(subject);
    draft.use_words(&[word])?;
    let reader = reading_trait(subject.kind);
    let list = match subject.body.extension_index {
        Some(index) => format!(in draft.alloc(); "{word} {index} ⟦<{name} as {reader}>⟧.layout")?,
        None => format!(in draft.alloc(); "{word} ⟦<{name} as {reader}>⟧.layout")?,
    };
    append_table_of(draft, subject, list.as_str())
}

/// Appends the table of a type with this list of components.
pub fn append_table_of(
    draft: &mut Draft,
    subject: Subject<'_>,
    list: &str,
) -> Result<(), AllocError> {
    let alloc = draft.alloc();
    draft.use_names(&["Field", "FieldTable"])?;
    let index = match subject.body.extension_index {
        Some(index) => format!(in alloc; "Some({index})")?,
        None => owned(draft, "None")?,
    };
    let count = subject.body.components.len();
    let head = impl_line(draft, "FieldTable", subject.file.name.as_str(), "AsnType")?;
    draft.line(0, head.as_str())?;
    draft.text(format!(in alloc;
        "    ghost components = {{ {list} }};

    fn field_count() -> usize {{
        {count}
    }}

"
    )?)?;
    append_field_at(draft, subject)?;
    draft.text(format!(in alloc;
        "    fn extension_index() -> Option<usize> {{
        {index}
    }}
}}

"
    )?)
}

// Appends the call that answers a line of the table.
fn append_field_at(draft: &mut Draft, subject: Subject<'_>) -> Result<(), AllocError> {
    let components = subject.body.components.as_slice();
    if components.is_empty() {
        draft.line(1, "fn field_at(_index: usize) -> Option<Field<'static>> {")?;
        draft.line(2, "None")?;
        draft.line(1, "}")?;
        return draft.blank();
    }
    draft.line(1, "fn field_at(index: usize) -> Option<Field<'static>> {")?;
    draft.line(2, "match index {")?;
    for index in 0..components.len() {
        let place = subject.body.table.get(index).copied().unwrap_or(index);
        if let Some(component) = components.get(place) {
            append_arm(draft, component, index, place)?;
        }
    }
    draft.line(3, "_ => None,")?;
    draft.line(2, "}")?;
    draft.line(1, "}")?;
    draft.blank()
}

// Appends the line of a component at an index of the table, with its index in the definition.
fn append_arm(
    draft: &mut Draft,
    component: &Component,
    index: usize,
    place: usize,
) -> Result<(), AllocError> {
    let opening = arm_opening(draft, component, index)?;
    let number = format!(in draft.alloc(); "{place}")?;
    let name = quoted(draft, component.name.as_str())?;
    let arguments = [number.as_str(), name.as_str()];
    match &component.usage {
        Usage::Group(constant) | Usage::GroupOfSet(constant) => {
            let arguments = [number.as_str(), constant.as_str(), name.as_str()];
            append_call(draft, opening.as_str(), &arguments)
        }
        _ => match component.tagging {
            Tagging::Untagged => append_call(draft, opening.as_str(), &arguments),
            Tagging::Implicit(tag) => {
                append_tagged(draft, opening.as_str(), number.as_str(), tag, name.as_str())
            }
            Tagging::Explicit(tag) => {
                append_tagged(draft, opening.as_str(), number.as_str(), tag, name.as_str())
            }
        },
    }
}

// Appends the line of a component with a tag.
fn append_tagged(
    draft: &mut Draft,
    opening: &str,
    number: &str,
    tag: TagNumber,
    name: &str,
) -> Result<(), AllocError> {
    let tag = draft.tag_code(tag)?;
    append_call(draft, opening, &[number, tag.as_str(), name])
}

// Appends the call that makes the line of a component. A type that is too long for the line of the call has one of its own.
fn append_call(draft: &mut Draft, opening: &str, arguments: &[&str]) -> Result<(), AllocError> {
    match opening.split_once("::<") {
        Some((call, rest)) if opening.len() > OPENING_WIDTH => {
            let alloc = draft.alloc();
            let line = format!(in alloc; "{call}::<")?;
            draft.line(3, line.as_str())?;
            let definition = rest.trim_end_matches(">(");
            let line = format!(in alloc; "{definition},")?;
            draft.line(4, line.as_str())?;
            draft.call(3, ">(", arguments, ")),")
        }
        _ => draft.call(3, opening, arguments, ")),"),
    }
}

// The call that makes the line of a component.
fn arm_opening(draft: &Draft, component: &Component, index: usize) -> Result<String, AllocError> {
    let alloc = draft.alloc();
    let text = component.definition.text.as_str();
    let usage = usage_word(&component.usage);
    match (&component.usage, component.tagging) {
        (Usage::Group(_) | Usage::GroupOfSet(_), _) => {
            format!(in alloc; "{index} => Some(Field::new_group(")
        }
        (_, Tagging::Untagged) => {
            format!(in alloc; "{index} => Some(Field::new_{usage}_type::<{text}>(")
        }
        (_, Tagging::Implicit(_)) => {
            format!(in alloc; "{index} => Some(Field::new_{usage}_type_with_tag::<{text}>(")
        }
        (_, Tagging::Explicit(_)) => format!(in alloc;
            "{index} => Some(Field::new_{usage}_explicit("
        ),
    }
}

// The word for the list of components.
fn components_word(subject: Subject<'_>) -> &'static str {
    match (subject.kind, subject.body.extension_index) {
        (Kind::Set, None) => "set_of_slots",
        (Kind::Set, Some(_)) => "extensible_set_after",
        (_, None) => "sequence_of_slots",
        (_, Some(_)) => "extensible_sequence_after",
    }
}

// The word for a usage in the calls that make a line of the table.
fn usage_word(usage: &Usage) -> &'static str {
    match usage {
        Usage::Required => "required",
        Usage::Optional => "optional",
        Usage::Group(_) | Usage::GroupOfSet(_) => "optional",
        _ => "default",
    }
}
