//! A module for another language.
use crate::names::{ExportedType, Words, push_filled};
use std::alloc::AllocError;

/// The text of a module, in templates.
pub(crate) struct ModuleTemplates {
    /// Its beginning.
    pub(crate) head: &'static str,
    /// A part for each type.
    pub(crate) declaration: &'static str,
    /// What follows these.
    pub(crate) middle: &'static str,
    /// Another part for each type.
    pub(crate) definition: &'static str,
    /// Its end.
    pub(crate) end: &'static str,
}

/// Appends the module for the types of a crate.
pub(crate) fn push_module(
    text: &mut String,
    templates: &ModuleTemplates,
    crate_name: &str,
    types: &[ExportedType<'_>],
) -> Result<(), AllocError> {
    let words = Words::of_crate(crate_name);
    push_filled(text, templates.head, words)?;
    push_each(text, templates.declaration, crate_name, types)?;
    push_filled(text, templates.middle, words)?;
    push_each(text, templates.definition, crate_name, types)?;
    push_filled(text, templates.end, words)
}

/// Appends a template for each type.
fn push_each(
    text: &mut String,
    template: &str,
    crate_name: &str,
    types: &[ExportedType<'_>],
) -> Result<(), AllocError> {
    for exported in types {
        push_filled(text, template, Words::of_type(crate_name, exported))?;
    }
    Ok(())
}
