//! The slots of a type of components.
use crate::definitions::{Component, Usage};
use asn1_rust_code::{Draft, ListStyle};
use std::alloc::{AllocError, Global};

/// The greatest number of parts in a tuple of slots.
const PARTS: usize = 12;

/// The slot of the component with an index, of this many.
pub fn slot_path(alloc: Global, index: usize, count: usize) -> Result<String, AllocError> {
    if count <= PARTS {
        return format!(in alloc; "{index}");
    }
    let part = index / PARTS;
    let place = index % PARTS;
    format!(in alloc; "{part}.{place}")
}

/// Appends the tuple of slots. It has tuples of twelve in it, if there are more.
pub fn append_slots(draft: &mut Draft, components: &[Component]) -> Result<(), AllocError> {
    let alloc = draft.alloc();
    let mut slots = Vec::new(alloc);
    for component in components {
        let text = component.definition.text.as_str();
        slots.push(match component.usage {
            Usage::GroupOfSet(_) => {
                format!(in alloc; "Option<<{text} as DecodeSetByIndex>::Slots>")?
            }
            _ => format!(in alloc; "Option<{text}>")?,
        })?;
    }
    if slots.len() <= PARTS {
        let closing = if slots.len() == 1 { ",);" } else { ");" };
        draft.list(
            1,
            "type Slots = (",
            slots.as_slice(),
            closing,
            ListStyle::Arguments,
        )?;
        return draft.blank();
    }
    draft.line(1, "type Slots = (")?;
    for part in slots.as_slice().chunks(PARTS) {
        let closing = if part.len() == 1 { ",)," } else { ")," };
        draft.list(2, "(", part, closing, ListStyle::Arguments)?;
    }
    draft.line(1, ");")?;
    draft.blank()
}

/// Appends the list of components with their slots.
pub fn append_layout(draft: &mut Draft, components: &[Component]) -> Result<(), AllocError> {
    draft.use_signs(&["[]"])?;
    if components.is_empty() {
        draft.line(1, "ghost layout = { [] };")?;
        return draft.blank();
    }
    draft.use_signs(&["codes", "◌∷◌"])?;
    for (index, component) in components.iter().enumerate() {
        let entry = layout_entry(draft, component, index, components.len())?;
        append_entry(draft, "layout", entry.as_str(), index, components.len())?;
    }
    draft.blank()
}

/// Appends a line of a list in a ghost member: the first opens the list, and the last ends it.
pub fn append_entry(
    draft: &mut Draft,
    member: &str,
    entry: &str,
    index: usize,
    count: usize,
) -> Result<(), AllocError> {
    let alloc = draft.alloc();
    let end = if index.saturating_add(1) == count {
        " [] };"
    } else {
        ""
    };
    if index == 0 {
        let line = format!(in alloc; "ghost {member} = {{ {entry} ∷{end}")?;
        draft.line(1, line.as_str())
    } else {
        let line = format!(in alloc; "{entry} ∷{end}")?;
        draft.line(2, line.as_str())
    }
}

// A component with its slot, as a clause has it.
fn layout_entry(
    draft: &mut Draft,
    component: &Component,
    index: usize,
    count: usize,
) -> Result<String, AllocError> {
    let alloc = draft.alloc();
    let word = slot_word(component);
    draft.use_words(&[word])?;
    let name = component.name.as_str();
    let field = component.field.as_str();
    let slot = slot_path(alloc, index, count)?;
    let text = component.definition.text.as_str();
    if let Usage::GroupOfSet(_) = component.usage {
        return format!(in alloc;
            "{word} (codes \"{name}\") (λ v. v.{field}) ⟦<{text} as DecodeSetByIndex>⟧.layout (λ s. s.{slot}) ⟦<{text} as PartialEq>⟧.eq"
        );
    }
    let default = default_term(draft, component)?;
    let subject = subject_term(draft, component)?;
    format!(in alloc;
        "{word} (codes \"{name}\") (λ v. v.{field}) {default}(λ s. s.{slot}) {subject} ⟦<{text} as PartialEq>⟧.eq"
    )
}

// The default of a component, as a clause has it.
fn default_term(draft: &mut Draft, component: &Component) -> Result<String, AllocError> {
    let alloc = draft.alloc();
    match &component.usage {
        Usage::Default(value) => {
            if let Some(sign) = value.sign {
                draft.use_signs(&[sign])?;
            }
            if let Some(line) = &value.ghost_line {
                draft.use_ghost(line.as_str())?;
            }
            let term = value.term.as_str();
            format!(in alloc; "{term} ")
        }
        _ => Ok(String::new(alloc)),
    }
}

// The type of a component under its tag, or the components of a group, as a clause has them.
fn subject_term(draft: &mut Draft, component: &Component) -> Result<String, AllocError> {
    let alloc = draft.alloc();
    let text = component.definition.text.as_str();
    match &component.usage {
        Usage::Group(_) => format!(in alloc; "⟦<{text} as FieldTable>⟧.components"),
        Usage::EmptyList(element) => {
            let meaning = draft.tagged_meaning(&component.definition, component.tagging)?;
            let element = element.text.as_str();
            format!(in alloc; "{meaning} ⟦<{element} as PartialEq>⟧.eq")
        }
        _ => draft.tagged_meaning(&component.definition, component.tagging),
    }
}

// The word for a component with its slot.
fn slot_word(component: &Component) -> &'static str {
    match (&component.usage, component.is_addition) {
        (Usage::Group(_), _) => "group_slot",
        (Usage::GroupOfSet(_), _) => "group_in_set",
        (Usage::Required, _) => "required_slot",
        (Usage::Optional, false) => "optional_slot",
        (Usage::Optional, true) => "addition_slot",
        (Usage::Default(_), false) => "default_slot",
        (Usage::Default(_), true) => "addition_with_default_slot",
        (Usage::EmptyList(_), false) => "empty_list_slot",
        (Usage::EmptyList(_), true) => "addition_with_empty_list_slot",
    }
}
