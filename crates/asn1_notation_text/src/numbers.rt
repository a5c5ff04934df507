//! Numbers and names of values.
use crate::printer::Printer;
use asn1_notation::{Number, NumberName, Reference, Span};
use std::alloc::AllocError;

/// Appends a whole number.
pub(crate) fn print_number(printer: &mut Printer<'_>, number: &Number) -> Result<(), AllocError> {
    if number.is_negative {
        printer.push(b"-")?;
    }
    printer.push_span(number.digits)
}

/// Appends a reference.
pub(crate) fn print_reference(
    printer: &mut Printer<'_>,
    reference: &Reference,
) -> Result<(), AllocError> {
    if let Some(module) = reference.module {
        printer.push_span(module)?;
        printer.push(b".")?;
    }
    printer.push_span(reference.name)?;
    printer.push_words_behind(reference.name)
}

/// Appends a number, or the name of a value.
pub(crate) fn print_number_name(
    printer: &mut Printer<'_>,
    number: &NumberName,
) -> Result<(), AllocError> {
    match number {
        NumberName::Number(number) => print_number(printer, number),
        NumberName::Reference(reference) => print_reference(printer, reference),
    }
}

/// Appends a name, with a number in parentheses.
pub(crate) fn print_named_number(
    printer: &mut Printer<'_>,
    name: &Span,
    number: &NumberName,
) -> Result<(), AllocError> {
    printer.push_span(*name)?;
    printer.push(b"(")?;
    print_number_name(printer, number)?;
    printer.push(b")")
}
