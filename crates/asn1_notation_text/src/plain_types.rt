//! Types that hold no other.
use crate::classes::print_field_names;
use crate::numbers::{print_named_number, print_reference};
use crate::printer::Printer;
use crate::words::type_word;
use asn1_notation::{EnumerationItem, NamedNumber, Span, TypeKind};
use std::alloc::AllocError;

/// Appends a type that holds no other.
pub(crate) fn print_plain_kind(
    printer: &mut Printer<'_>,
    kind: &TypeKind,
) -> Result<(), AllocError> {
    match kind {
        TypeKind::Boolean
        | TypeKind::Null
        | TypeKind::OctetString
        | TypeKind::ObjectIdentifier
        | TypeKind::String(_)
        | TypeKind::Contents(_) => printer.push(type_word(kind)),
        TypeKind::Reference(reference) => print_reference(printer, reference),
        TypeKind::Integer(numbers) | TypeKind::BitString(numbers) => {
            printer.push(type_word(kind))?;
            print_named_numbers(printer, numbers.as_slice())
        }
        TypeKind::Enumerated(items) => print_enumerated(printer, items.as_slice()),
        TypeKind::Any(name) => print_any(printer, name),
        TypeKind::Field(class, names) => {
            print_reference(printer, class)?;
            printer.push(b".")?;
            print_field_names(printer, names.as_slice())
        }
        _ => Ok(()),
    }
}

// Appends named numbers or named bits, if there are any.
fn print_named_numbers(
    printer: &mut Printer<'_>,
    numbers: &[NamedNumber],
) -> Result<(), AllocError> {
    if numbers.is_empty() {
        return Ok(());
    }
    printer.push(b" {")?;
    for (index, number) in numbers.iter().enumerate() {
        printer.push_between(index, b",")?;
        printer.push(b" ")?;
        print_named_number(printer, &number.name, &number.number)?;
    }
    printer.push(b" }")
}

// Appends an ENUMERATED.
fn print_enumerated(
    printer: &mut Printer<'_>,
    items: &[EnumerationItem],
) -> Result<(), AllocError> {
    printer.push(b"ENUMERATED {")?;
    for (index, item) in items.iter().enumerate() {
        printer.push_between(index, b",")?;
        printer.push(b" ")?;
        print_enumeration_item(printer, item)?;
    }
    printer.push(b" }")
}

// Appends an item of an ENUMERATED.
fn print_enumeration_item(
    printer: &mut Printer<'_>,
    item: &EnumerationItem,
) -> Result<(), AllocError> {
    match item {
        EnumerationItem::Item(name, None) => printer.push_span(*name),
        EnumerationItem::Item(name, Some(number)) => print_named_number(printer, name, number),
        EnumerationItem::Marker(_) => printer.push(b"..."),
    }
}

// Appends ANY.
fn print_any(printer: &mut Printer<'_>, name: &Option<Span>) -> Result<(), AllocError> {
    printer.push(b"ANY")?;
    match name {
        Some(name) => {
            printer.push(b" DEFINED BY ")?;
            printer.push_span(*name)
        }
        None => Ok(()),
    }
}
