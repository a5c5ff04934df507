//! Values.
use crate::classes::print_field_names;
use crate::numbers::{print_named_number, print_number, print_reference};
use crate::printer::Printer;
use asn1_notation::{ListItem, Value, ValueKind};
use std::alloc::AllocError;

/// Appends a value.
#[cycle(print_values)]
pub fn print_value(printer: &mut Printer<'_>, value: &Value) -> Result<(), AllocError> {
    match &value.kind {
        ValueKind::Alternative(name, value) => {
            printer.push_span(*name)?;
            printer.push_words_behind(*name)?;
            printer.push(b" : ")?;
            print_value(printer, value)
        }
        ValueKind::List(items) => print_list(printer, items.as_slice()),
        kind => print_plain_value(printer, kind),
    }
}

// Appends a list.
#[cycle(print_values)]
fn print_list(printer: &mut Printer<'_>, items: &[ListItem]) -> Result<(), AllocError> {
    printer.push(b"{")?;
    for (index, item) in items.iter().enumerate() {
        printer.push_between(index, b",")?;
        for value in &item.values {
            printer.push(b" ")?;
            print_value(printer, value)?;
        }
    }
    printer.push(b" }")
}

// Appends a value that holds no other.
fn print_plain_value(printer: &mut Printer<'_>, value: &ValueKind) -> Result<(), AllocError> {
    match value {
        ValueKind::Boolean(true) => printer.push(b"TRUE"),
        ValueKind::Boolean(false) => printer.push(b"FALSE"),
        ValueKind::Null => printer.push(b"NULL"),
        ValueKind::Number(number) => print_number(printer, number),
        ValueKind::Binary(text) => printer.push_span(*text),
        ValueKind::Hex(text) => printer.push_span(*text),
        ValueKind::Text(text) => printer.push_span(*text),
        ValueKind::Reference(reference) => print_reference(printer, reference),
        ValueKind::Field(object, names) => {
            print_reference(printer, object)?;
            printer.push(b".")?;
            print_field_names(printer, names.as_slice())
        }
        ValueKind::Arc(name, number) => print_named_number(printer, name, number),
        _ => Ok(()),
    }
}
