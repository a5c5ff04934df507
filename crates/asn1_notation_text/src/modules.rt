//! Modules.
use crate::classes::{print_class, print_parameters};
use crate::numbers::print_reference;
use crate::printer::Printer;
use crate::types::print_type;
use crate::values::print_value;
use asn1_notation::{
    Assignment, Definition, Exports, Import, Module, Span, TagDefault, Type, Value,
};
use std::alloc::AllocError;

/// Appends the text of a module.
pub fn print_module(printer: &mut Printer<'_>, module: &Module) -> Result<(), AllocError> {
    print_header(printer, module)?;
    print_exports(printer, &module.exports)?;
    print_imports(printer, module.imports.as_slice())?;
    for assignment in &module.assignments {
        print_line(printer, assignment)?;
    }
    printer.push(b"\nEND\n")
}

// Appends a module up to BEGIN.
fn print_header(printer: &mut Printer<'_>, module: &Module) -> Result<(), AllocError> {
    printer.push_span(module.name)?;
    print_identifier(printer, &module.identifier)?;
    printer.push(b" DEFINITIONS ")?;
    printer.push(tag_default(module.tagging))?;
    if module.is_extensible {
        printer.push(b" EXTENSIBILITY IMPLIED")?;
    }
    printer.push(b" ::=\nBEGIN\n")
}

// Appends the object identifier of a module, if there is one.
fn print_identifier(
    printer: &mut Printer<'_>,
    identifier: &Option<Value>,
) -> Result<(), AllocError> {
    match identifier {
        Some(value) => {
            printer.push(b" ")?;
            print_value(printer, value)
        }
        None => Ok(()),
    }
}

fn tag_default(tagging: TagDefault) -> &'static [u8] {
    match tagging {
        TagDefault::Explicit => b"EXPLICIT TAGS",
        TagDefault::Implicit => b"IMPLICIT TAGS",
        TagDefault::Automatic => b"AUTOMATIC TAGS",
    }
}

// Appends EXPORTS.
fn print_exports(printer: &mut Printer<'_>, exports: &Exports) -> Result<(), AllocError> {
    match exports {
        Exports::All => Ok(()),
        Exports::Names(names) => {
            printer.push(b"\nEXPORTS ")?;
            print_names(printer, names.as_slice())?;
            printer.push(b";\n")
        }
    }
}

// Appends names between commas.
fn print_names(printer: &mut Printer<'_>, names: &[Span]) -> Result<(), AllocError> {
    for (index, name) in names.iter().enumerate() {
        printer.push_between(index, b", ")?;
        printer.push_span(*name)?;
    }
    Ok(())
}

// Appends IMPORTS.
fn print_imports(printer: &mut Printer<'_>, imports: &[Import]) -> Result<(), AllocError> {
    if imports.is_empty() {
        return Ok(());
    }
    printer.push(b"\nIMPORTS")?;
    for import in imports {
        printer.push(b"\n    ")?;
        print_names(printer, import.names.as_slice())?;
        printer.push(b" FROM ")?;
        printer.push_span(import.module)?;
        print_identifier(printer, &import.identifier)?;
    }
    printer.push(b";\n")
}

// Appends a definition in a line of its own.
fn print_line(printer: &mut Printer<'_>, assignment: &Assignment) -> Result<(), AllocError> {
    printer.push(b"\n")?;
    print_assignment(printer, assignment)?;
    printer.push(b"\n")
}

/// Appends a definition.
pub fn print_assignment(
    printer: &mut Printer<'_>,
    assignment: &Assignment,
) -> Result<(), AllocError> {
    printer.push_span(assignment.name)?;
    print_parameters(printer, assignment.parameters.as_slice())?;
    printer.push(b" ")?;
    print_definition(printer, &assignment.definition)
}

// Appends what is behind the name of a definition.
fn print_definition(printer: &mut Printer<'_>, definition: &Definition) -> Result<(), AllocError> {
    match definition {
        Definition::Type(definition) => print_defined_type(printer, definition),
        Definition::Template(definition) => print_defined_type(printer, definition),
        Definition::Value(definition, value) => {
            print_type(printer, definition)?;
            printer.push(b" ::= ")?;
            print_value(printer, value)
        }
        Definition::Class(class) => {
            printer.push(b"::= ")?;
            print_class(printer, class)
        }
        Definition::Object(class, span) => {
            print_reference(printer, class)?;
            printer.push(b" ::= ")?;
            printer.push_span(*span)
        }
        Definition::Macro(span) => printer.push_span(*span),
    }
}

// Appends the type that is defined.
fn print_defined_type(printer: &mut Printer<'_>, definition: &Type) -> Result<(), AllocError> {
    printer.push(b"::= ")?;
    print_type(printer, definition)
}
