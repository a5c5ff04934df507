//! Constraints that hold no other and no type.
use crate::printer::Printer;
use crate::values::print_value;
use asn1_notation::{AtPath, ConstraintKind, EndPoint, EndValue, Value};
use std::alloc::AllocError;

/// Appends a constraint that holds no other and no type.
pub(crate) fn print_plain_constraint(
    printer: &mut Printer<'_>,
    kind: &ConstraintKind,
) -> Result<(), AllocError> {
    match kind {
        ConstraintKind::Value(value) => print_value(printer, value),
        ConstraintKind::Range(lower, upper) => {
            print_lower(printer, lower)?;
            printer.push(b"..")?;
            print_upper(printer, upper)
        }
        ConstraintKind::Pattern(value) => {
            printer.push(b"PATTERN ")?;
            print_value(printer, value)
        }
        ConstraintKind::EncodedBy(rules) => {
            printer.push(b"ENCODED BY ")?;
            print_value(printer, rules)
        }
        ConstraintKind::ConstrainedBy => printer.push(b"CONSTRAINED BY {}"),
        ConstraintKind::Table(set, paths) => {
            printer.push_span(*set)?;
            print_paths(printer, paths.as_slice())
        }
        _ => Ok(()),
    }
}

// Appends the paths to the components that tell an object, if there are any.
fn print_paths(printer: &mut Printer<'_>, paths: &[AtPath]) -> Result<(), AllocError> {
    if paths.is_empty() {
        return Ok(());
    }
    printer.push(b"{")?;
    for (index, path) in paths.iter().enumerate() {
        printer.push_between(index, b", ")?;
        print_path(printer, path)?;
    }
    printer.push(b"}")
}

// Appends the path to a component.
fn print_path(printer: &mut Printer<'_>, path: &AtPath) -> Result<(), AllocError> {
    printer.push(b"@")?;
    for _ in 0..path.dots {
        printer.push(b".")?;
    }
    for (index, name) in path.names.iter().enumerate() {
        printer.push_between(index, b".")?;
        printer.push_span(*name)?;
    }
    Ok(())
}

// Appends the lower end of a range.
fn print_lower(printer: &mut Printer<'_>, end: &EndPoint) -> Result<(), AllocError> {
    print_end(printer, &end.value)?;
    printer.push(if end.is_open { b"<" } else { b"" })
}

// Appends the upper end of a range.
fn print_upper(printer: &mut Printer<'_>, end: &EndPoint) -> Result<(), AllocError> {
    printer.push(if end.is_open { b"<" } else { b"" })?;
    print_end(printer, &end.value)
}

// Appends the value at an end of a range.
fn print_end(printer: &mut Printer<'_>, value: &EndValue) -> Result<(), AllocError> {
    match value {
        EndValue::Min => printer.push(b"MIN"),
        EndValue::Max => printer.push(b"MAX"),
        EndValue::Value(value) => print_value(printer, value),
    }
}

/// Appends ENCODED BY, if it is written.
pub(crate) fn print_rules(
    printer: &mut Printer<'_>,
    rules: &Option<Value>,
) -> Result<(), AllocError> {
    match rules {
        Some(value) => {
            printer.push(b" ENCODED BY ")?;
            print_value(printer, value)
        }
        None => Ok(()),
    }
}
