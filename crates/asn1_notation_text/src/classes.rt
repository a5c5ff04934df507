//! Classes and parameters.
use crate::numbers::print_reference;
use crate::printer::Printer;
use crate::types::print_type;
use asn1_notation::{Class, ClassField, FieldKind, FieldUsage, Parameter, Span};
use std::alloc::AllocError;

/// Appends parameters, if there are any.
pub(crate) fn print_parameters(
    printer: &mut Printer<'_>,
    parameters: &[Parameter],
) -> Result<(), AllocError> {
    if parameters.is_empty() {
        return Ok(());
    }
    printer.push(b" {")?;
    for (index, parameter) in parameters.iter().enumerate() {
        printer.push_between(index, b", ")?;
        print_parameter(printer, parameter)?;
    }
    printer.push(b"}")
}

// Appends a parameter.
fn print_parameter(printer: &mut Printer<'_>, parameter: &Parameter) -> Result<(), AllocError> {
    if let Some(governor) = &parameter.governor {
        print_type(printer, governor)?;
        printer.push(b" : ")?;
    }
    printer.push_span(parameter.name)
}

/// Appends a class.
pub(crate) fn print_class(printer: &mut Printer<'_>, class: &Class) -> Result<(), AllocError> {
    match class {
        Class::Fields(fields, syntax) => {
            printer.push(b"CLASS {")?;
            print_fields(printer, fields.as_slice())?;
            printer.push(b" }")?;
            print_syntax(printer, syntax)
        }
        Class::Alias(reference) => print_reference(printer, reference),
    }
}

// Appends the fields of a class.
fn print_fields(printer: &mut Printer<'_>, fields: &[ClassField]) -> Result<(), AllocError> {
    for (index, field) in fields.iter().enumerate() {
        printer.push_between(index, b",")?;
        printer.push(b" ")?;
        print_field(printer, field)?;
    }
    Ok(())
}

// Appends WITH SYNTAX, if it is written.
fn print_syntax(printer: &mut Printer<'_>, syntax: &Option<Span>) -> Result<(), AllocError> {
    match syntax {
        Some(span) => {
            printer.push(b" WITH SYNTAX ")?;
            printer.push_span(*span)
        }
        None => Ok(()),
    }
}

// Appends a field.
fn print_field(printer: &mut Printer<'_>, field: &ClassField) -> Result<(), AllocError> {
    printer.push(b"&")?;
    printer.push_span(field.name)?;
    print_kind(printer, &field.kind)?;
    printer.push(if field.is_unique { b" UNIQUE" } else { b"" })?;
    match &field.usage {
        FieldUsage::Required => Ok(()),
        FieldUsage::Optional => printer.push(b" OPTIONAL"),
        FieldUsage::Default(span) => {
            printer.push(b" DEFAULT ")?;
            printer.push_span(*span)
        }
    }
}

// Appends what a field holds.
fn print_kind(printer: &mut Printer<'_>, kind: &FieldKind) -> Result<(), AllocError> {
    match kind {
        FieldKind::Type => Ok(()),
        FieldKind::Fixed(definition) => {
            printer.push(b" ")?;
            print_type(printer, definition)
        }
        FieldKind::Variable(names) => {
            printer.push(b" ")?;
            print_field_names(printer, names.as_slice())
        }
    }
}

/// Appends the names of fields, with dots between them.
pub(crate) fn print_field_names(
    printer: &mut Printer<'_>,
    names: &[Span],
) -> Result<(), AllocError> {
    for (index, name) in names.iter().enumerate() {
        printer.push_between(index, b".")?;
        printer.push(b"&")?;
        printer.push_span(*name)?;
    }
    Ok(())
}
