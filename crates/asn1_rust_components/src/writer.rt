//! How components are written.
use crate::common::{identifier_code, impl_line, owned};
use crate::constructed::Subject;
use crate::definitions::{Component, Usage};
use asn1_rust_code::{Draft, ListStyle, TagNumber, Tagging};
use std::alloc::{AllocError, Global};

/// Appends `EncodeFields`.
pub fn append_field_writer(draft: &mut Draft, subject: Subject<'_>) -> Result<(), AllocError> {
    append_fields(draft, subject)?;
    draft.blank()
}

/// The same at the end of a file.
pub(crate) fn append_fields(draft: &mut Draft, subject: Subject<'_>) -> Result<(), AllocError> {
    let name = subject.file.name.as_str();
    let components = subject.body.components.as_slice();
    draft.use_names(&["Encode", "EncodeError", "EncodeFields", "Encoder"])?;
    let head = impl_line(draft, "EncodeFields", name, "Encode")?;
    draft.line(0, head.as_str())?;
    if components.is_empty() {
        draft.line(
            1,
            "fn encode_field<E: Encoder>(&self, _index: usize, _encoder: &mut E) -> Result<(), EncodeError> {",
        )?;
        draft.line(2, "Ok(())")?;
        draft.line(1, "}")?;
        return draft.line(0, "}");
    }
    draft.line(
        1,
        "fn encode_field<E: Encoder>(&self, index: usize, encoder: &mut E) -> Result<(), EncodeError> {",
    )?;
    draft.line(2, "match index {")?;
    for (index, component) in components.iter().enumerate() {
        append_arm(draft, component, index)?;
    }
    draft.line(3, "_ => Ok(()),")?;
    draft.line(2, "}")?;
    draft.line(1, "}")?;
    draft.line(0, "}")
}

// Appends the line that writes a component.
fn append_arm(draft: &mut Draft, component: &Component, index: usize) -> Result<(), AllocError> {
    match (&component.usage, component.is_addition) {
        (Usage::Group(_) | Usage::GroupOfSet(_), _) => append_group_arm(draft, component, index),
        (Usage::Default(value), _) => {
            let code = value.code.as_str();
            let default = format!(in draft.alloc(); "|_| Ok({code})")?;
            append_default_arm(draft, component, index, default)
        }
        (Usage::EmptyList(_), _) => {
            let default = owned(draft, "|alloc| Ok(Vec::new(alloc))")?;
            append_default_arm(draft, component, index, default)
        }
        (_, true) => append_addition_arm(draft, component, index),
        (_, false) => append_root_arm(draft, component, index),
    }
}

// Appends the line that writes a component of the root without a default.
fn append_root_arm(
    draft: &mut Draft,
    component: &Component,
    index: usize,
) -> Result<(), AllocError> {
    let alloc = draft.alloc();
    let front = format!(in alloc; "{index} => ")?;
    let name = component.field.as_str();
    let field = format!(in alloc; ".{name}")?;
    match component.tagging {
        Tagging::Untagged => draft.chain(3, front.as_str(), field.as_str(), ".encode(encoder)"),
        Tagging::Implicit(tag) => {
            let tag = draft.tag_code(tag)?;
            let call = format!(in alloc; ".encode_with_tag(encoder, {tag})")?;
            draft.chain(3, front.as_str(), field.as_str(), call.as_str())
        }
        Tagging::Explicit(tag) => append_explicit_arm(draft, component, index, tag),
    }
}

// Appends the line that writes a component of the root after a tag.
fn append_explicit_arm(
    draft: &mut Draft,
    component: &Component,
    index: usize,
    tag: TagNumber,
) -> Result<(), AllocError> {
    match component.usage {
        Usage::Required => append_explicit_required(draft, component, index, tag),
        _ => append_explicit_optional(draft, component, index, tag),
    }
}

// Appends the line that writes a component after a tag.
fn append_explicit_required(
    draft: &mut Draft,
    component: &Component,
    index: usize,
    tag: TagNumber,
) -> Result<(), AllocError> {
    let alloc = draft.alloc();
    let tag = draft.tag_code(tag)?;
    let name = identifier_code(draft, &component.definition)?;
    let value = reference_to(alloc, component)?;
    let opening = format!(in alloc; "{index} => encoder.encode_explicit_prefix(")?;
    let arguments = [tag.as_str(), value.as_str(), name.as_str()];
    draft.call(3, opening.as_str(), &arguments, "),")
}

// Appends the line that writes a component after a tag, if it is there.
fn append_explicit_optional(
    draft: &mut Draft,
    component: &Component,
    index: usize,
    tag: TagNumber,
) -> Result<(), AllocError> {
    let alloc = draft.alloc();
    draft.use_names(&["encode_explicit_optional"])?;
    let tag = draft.tag_code(tag)?;
    let value = reference_to(alloc, component)?;
    let opening = format!(in alloc; "{index} => encode_explicit_optional(")?;
    let arguments = ["encoder", tag.as_str(), value.as_str()];
    draft.call(3, opening.as_str(), &arguments, "),")
}

// A reference to the field of a component.
fn reference_to(alloc: Global, component: &Component) -> Result<String, AllocError> {
    let field = component.field.as_str();
    format!(in alloc; "&self.{field}")
}

// Appends a line that is a call.
fn append_call(draft: &mut Draft, opening: &str, arguments: &[String]) -> Result<(), AllocError> {
    draft.list(3, opening, arguments, "),", ListStyle::Arguments)
}

// Appends the line that writes a component with a default, which this closure makes.
fn append_default_arm(
    draft: &mut Draft,
    component: &Component,
    index: usize,
    default: String,
) -> Result<(), AllocError> {
    let alloc = draft.alloc();
    let mut arguments = Vec::new(alloc);
    let call = match component.tagging {
        Tagging::Untagged => "encode_default",
        Tagging::Implicit(tag) => {
            arguments.push(draft.tag_code(tag)?)?;
            "encode_default_with_tag"
        }
        Tagging::Explicit(tag) => {
            arguments.push(draft.tag_code(tag)?)?;
            "encode_default_with_explicit_prefix"
        }
    };
    arguments.push(reference_to(alloc, component)?)?;
    arguments.push(default)?;
    arguments.push(identifier_code(draft, &component.definition)?)?;
    let opening = format!(in alloc; "{index} => encoder.{call}(")?;
    append_call(draft, opening.as_str(), arguments.as_slice())
}

// Appends the line that writes an addition.
fn append_addition_arm(
    draft: &mut Draft,
    component: &Component,
    index: usize,
) -> Result<(), AllocError> {
    let alloc = draft.alloc();
    let name = identifier_code(draft, &component.definition)?;
    let tag = addition_tag(draft, component)?;
    let call = match component.tagging {
        Tagging::Explicit(_) => "encode_extension_addition_with_explicit_prefix",
        _ => "encode_extension_addition_with_tag",
    };
    let opening = format!(in alloc; "{index} => encoder.{call}(")?;
    let value = option_of(alloc, component)?;
    let arguments = [tag.as_str(), value.as_str(), name.as_str()];
    draft.call(3, opening.as_str(), &arguments, "),")
}

// The code of the tag of an addition.
fn addition_tag(draft: &mut Draft, component: &Component) -> Result<String, AllocError> {
    match component.tagging {
        Tagging::Untagged => {
            let text = component.definition.in_path(draft.alloc())?;
            format!(in draft.alloc(); "{text}::tag()")
        }
        Tagging::Implicit(tag) => draft.tag_code(tag),
        Tagging::Explicit(tag) => draft.tag_code(tag),
    }
}

// The value of a component that may be absent, by reference.
fn option_of(alloc: Global, component: &Component) -> Result<String, AllocError> {
    let field = component.field.as_str();
    format!(in alloc; "self.{field}.as_ref()")
}

// Appends the line that writes a group.
fn append_group_arm(
    draft: &mut Draft,
    component: &Component,
    index: usize,
) -> Result<(), AllocError> {
    let alloc = draft.alloc();
    draft.use_names(&["Identifier"])?;
    let value = option_of(alloc, component)?;
    let opening = format!(in alloc; "{index} => encoder.encode_extension_addition_group(")?;
    draft.call(
        3,
        opening.as_str(),
        &[value.as_str(), "Identifier::EMPTY"],
        "),",
    )
}
