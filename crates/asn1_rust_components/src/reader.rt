//! How a type of components is read.
use crate::common::quoted;
use crate::constructed::{Kind, Subject, reading_trait};
use crate::definitions::{Component, Usage};
use crate::slots::{append_layout, append_slots, slot_path};
use asn1_rust_code::{Draft, ListStyle};
use std::alloc::{AllocError, Global};

// The number of columns that are left of a line of a field, in front of its comma.
const FIELD_WIDTH: usize = 87;

/// Appends the trait by which a type is read.
pub(crate) fn append_reader(draft: &mut Draft, subject: Subject<'_>) -> Result<(), AllocError> {
    let name = subject.file.name.as_str();
    let components = subject.body.components.as_slice();
    let reader = reading_trait(subject.kind);
    draft.use_names(&[reader, "AsnType", "Decoded", "Decoder"])?;
    draft.use_foreign("std::alloc", "AllocError")?;
    draft.use_foreign("std::alloc", "Global")?;
    draft.text(format!(in draft.alloc(); "impl {reader} for {name} {{\n")?)?;
    append_slots(draft, components)?;
    append_layout(draft, components)?;
    append_full(draft, components)?;
    if comes_in_any_order(subject.kind) {
        append_missing(draft, components)?;
    }
    append_decode_field(draft, subject)?;
    draft.line(0, "}")?;
    draft.blank()
}

/// Appends the call that makes a value of filled slots.
pub fn append_full(draft: &mut Draft, components: &[Component]) -> Result<(), AllocError> {
    let alloc = draft.alloc();
    let allocator = if components.iter().any(needs_memory) {
        "alloc"
    } else {
        "_alloc"
    };
    let slots = if components.is_empty() {
        "_slots"
    } else {
        "slots"
    };
    let signature = format!(in alloc;
        "fn full({allocator}: Global, {slots}: Self::Slots) -> Result<Self, AllocError> {{"
    )?;
    draft.line(1, signature.as_str())?;
    let mut fields = Vec::new(alloc);
    for (index, component) in components.iter().enumerate() {
        let slot = slot_path(alloc, index, components.len())?;
        fields.push(filled_field(draft, component, slot.as_str())?)?;
    }
    if fields.is_empty() {
        draft.line(2, "Ok(Self {})")?;
    } else {
        draft.list(2, "Ok(Self {", fields.as_slice(), "})", ListStyle::Fields)?;
    }
    draft.line(1, "}")?;
    draft.blank()
}

// A field with the value of its slot.
fn filled_field(
    draft: &mut Draft,
    component: &Component,
    slot: &str,
) -> Result<String, AllocError> {
    let alloc = draft.alloc();
    let field = component.field.as_str();
    match &component.usage {
        Usage::Required => format!(in alloc; "{field}: slots.{slot}.unwrap()"),
        Usage::Default(value) => {
            draft.use_names(&["or_default"])?;
            let code = value.code.as_str();
            default_field(alloc, field, slot, code)
        }
        Usage::EmptyList(_) => {
            draft.use_names(&["or_empty"])?;
            format!(in alloc; "{field}: or_empty(alloc, slots.{slot})")
        }
        Usage::GroupOfSet(_) => {
            draft.use_names(&["group_of_slots"])?;
            format!(in alloc; "{field}: group_of_slots(alloc, slots.{slot})?")
        }
        _ => format!(in alloc; "{field}: slots.{slot}"),
    }
}

// A field with the value of its slot, or else its default: in one line, or with a line for each argument.
fn default_field(alloc: Global, field: &str, slot: &str, code: &str) -> Result<String, AllocError> {
    let line = format!(in alloc; "{field}: or_default(slots.{slot}, {code})")?;
    if line.len() <= FIELD_WIDTH {
        return Ok(line);
    }
    format!(in alloc;
        "{field}: or_default(
                slots.{slot},
                {code},
            )"
    )
}

// Appends the call that names a component of a SET that is missing.
fn append_missing(draft: &mut Draft, components: &[Component]) -> Result<(), AllocError> {
    let alloc = draft.alloc();
    if !components.iter().any(can_be_missing) {
        draft.line(
            1,
            "fn missing_at(_index: usize, _slots: &Self::Slots) -> Option<&'static str> {",
        )?;
        draft.line(2, "None")?;
        draft.line(1, "}")?;
        return draft.blank();
    }
    draft.line(
        1,
        "fn missing_at(index: usize, slots: &Self::Slots) -> Option<&'static str> {",
    )?;
    draft.line(2, "match index {")?;
    for (index, component) in components.iter().enumerate() {
        if can_be_missing(component) {
            let slot = slot_path(alloc, index, components.len())?;
            let name = component.name.as_str();
            let opening = match component.usage {
                Usage::GroupOfSet(_) => {
                    draft.use_names(&["missing_in_group"])?;
                    let text = component.definition.text.as_str();
                    format!(in alloc; "{index} => missing_in_group::<{text}>(")?
                }
                _ => {
                    draft.use_names(&["missing"])?;
                    format!(in alloc; "{index} => missing(")?
                }
            };
            let slot = format!(in alloc; "&slots.{slot}")?;
            let name = quoted(draft, name)?;
            let arguments = [slot.as_str(), name.as_str()];
            draft.call(3, opening.as_str(), &arguments, "),")?;
        }
    }
    draft.line(3, "_ => None,")?;
    draft.line(2, "}")?;
    draft.line(1, "}")?;
    draft.blank()
}

// Appends the call that reads a component into its slot.
fn append_decode_field(draft: &mut Draft, subject: Subject<'_>) -> Result<(), AllocError> {
    let components = subject.body.components.as_slice();
    let tag = if comes_in_any_order(subject.kind) {
        draft.use_names(&["Tag"])?;
        tag_parameter(components)
    } else {
        ""
    };
    if components.is_empty() {
        return draft.text(format!(in draft.alloc();
            "    fn decode_field<D: Decoder>(
        _index: usize,
{tag}        _slots: &mut Self::Slots,
        _decoder: &mut D,
    ) -> Decoded {{
        Ok(())
    }}
"
        )?);
    }
    if comes_in_any_order(subject.kind) {
        draft.text(format!(in draft.alloc();
            "    fn decode_field<D: Decoder>(
        index: usize,
{tag}        slots: &mut Self::Slots,
        decoder: &mut D,
    ) -> Decoded {{
"
        )?)?;
    } else {
        draft.line(
            1,
            "fn decode_field<D: Decoder>(index: usize, slots: &mut Self::Slots, decoder: &mut D) -> Decoded {",
        )?;
    }
    draft.line(2, "match index {")?;
    for (index, component) in components.iter().enumerate() {
        let slot = slot_path(draft.alloc(), index, components.len())?;
        append_reading_arm(draft, subject.kind, component, index, slot.as_str())?;
    }
    draft.line(3, "_ => Ok(()),")?;
    draft.line(2, "}")?;
    draft.line(1, "}")
}

/// Appends the line that reads a component of a SEQUENCE.
pub fn append_plain_arm(
    draft: &mut Draft,
    component: &Component,
    index: usize,
    slot: &str,
) -> Result<(), AllocError> {
    append_reading_arm(draft, Kind::Sequence, component, index, slot)
}

// Appends the line that reads a component.
fn append_reading_arm(
    draft: &mut Draft,
    kind: Kind,
    component: &Component,
    index: usize,
    slot: &str,
) -> Result<(), AllocError> {
    let call = reading_call(kind, component);
    draft.use_names(&[call])?;
    let opening = format!(in draft.alloc(); "{index} => {call}(")?;
    let slot = format!(in draft.alloc(); "&mut slots.{slot}")?;
    let slot = slot.as_str();
    if call == "group" {
        return draft.call(3, opening.as_str(), &[slot, "decoder"], "),");
    }
    if call == "component_of_group" {
        let text = component.definition.text.as_str();
        let opening = format!(in draft.alloc(); "{index} => {call}::<{text}, D>(")?;
        return draft.call(3, opening.as_str(), &[slot, "tag", "decoder"], "),");
    }
    let tagging = draft.tagging_code(component.tagging)?;
    let tagging = tagging.as_str();
    if comes_in_any_order(kind) {
        let name = quoted(draft, component.name.as_str())?;
        let arguments = [slot, "decoder", tagging, name.as_str()];
        return draft.call(3, opening.as_str(), &arguments, "),");
    }
    draft.call(3, opening.as_str(), &[slot, "decoder", tagging], "),")
}

// Whether the components come in any order.
fn comes_in_any_order(kind: Kind) -> bool {
    match kind {
        Kind::Set | Kind::GroupOfSet => true,
        Kind::Sequence | Kind::Group => false,
    }
}

// The line of the parameter for the tag, which a group needs.
fn tag_parameter(components: &[Component]) -> &'static str {
    if components.iter().any(is_group_of_set) {
        "        tag: Tag,\n"
    } else {
        "        _tag: Tag,\n"
    }
}

// Whether a component is a group of a SET.
fn is_group_of_set(component: &Component) -> bool {
    match component.usage {
        Usage::GroupOfSet(_) => true,
        _ => false,
    }
}

// Whether a component can be missing: it is always there, or it is a group with components that are.
fn can_be_missing(component: &Component) -> bool {
    match component.usage {
        Usage::Required | Usage::GroupOfSet(_) => true,
        _ => false,
    }
}

// Whether the value of a component may need memory.
fn needs_memory(component: &Component) -> bool {
    match component.usage {
        Usage::EmptyList(_) | Usage::GroupOfSet(_) => true,
        _ => false,
    }
}

// The call that reads a component.
fn reading_call(kind: Kind, component: &Component) -> &'static str {
    match (&component.usage, kind, component.is_addition) {
        (Usage::Group(_), _, _) => "group",
        (Usage::GroupOfSet(_), _, _) => "component_of_group",
        (_, Kind::Set | Kind::GroupOfSet, _) => "decode_unique",
        (Usage::Required, _, _) => "required",
        (_, _, true) => "addition",
        (_, _, false) => "optional",
    }
}
