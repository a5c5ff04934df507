//! The parts of components and tags.
use crate::numbers::{print_number, print_number_name};
use crate::printer::Printer;
use crate::values::print_value;
use asn1_notation::{Number, Presence, Tag, TagClass, TagMode, Usage};
use std::alloc::AllocError;

/// Appends the number of a version.
pub(crate) fn print_version(
    printer: &mut Printer<'_>,
    version: &Option<Number>,
) -> Result<(), AllocError> {
    match version {
        Some(number) => {
            printer.push(b" ")?;
            print_number(printer, number)?;
            printer.push(b":")
        }
        None => Ok(()),
    }
}

/// Appends OPTIONAL or DEFAULT.
pub(crate) fn print_usage(printer: &mut Printer<'_>, usage: &Usage) -> Result<(), AllocError> {
    match usage {
        Usage::Required => Ok(()),
        Usage::Optional => printer.push(b" OPTIONAL"),
        Usage::Default(value) => {
            printer.push(b" DEFAULT ")?;
            print_value(printer, value)
        }
    }
}

/// Appends a tag.
pub(crate) fn print_tag(printer: &mut Printer<'_>, tag: &Tag) -> Result<(), AllocError> {
    printer.push(b"[")?;
    printer.push(tag_class(tag.class))?;
    print_number_name(printer, &tag.number)?;
    printer.push(tag_mode(tag.mode))
}

fn tag_class(class: TagClass) -> &'static [u8] {
    match class {
        TagClass::Universal => b"UNIVERSAL ",
        TagClass::Application => b"APPLICATION ",
        TagClass::Context => b"",
        TagClass::Private => b"PRIVATE ",
    }
}

fn tag_mode(mode: Option<TagMode>) -> &'static [u8] {
    match mode {
        None => b"] ",
        Some(TagMode::Implicit) => b"] IMPLICIT ",
        Some(TagMode::Explicit) => b"] EXPLICIT ",
    }
}

/// The word of a presence, with a space in front.
pub(crate) fn presence(presence: Option<Presence>) -> &'static [u8] {
    match presence {
        None => b"",
        Some(Presence::Present) => b" PRESENT",
        Some(Presence::Absent) => b" ABSENT",
        Some(Presence::Optional) => b" OPTIONAL",
    }
}
