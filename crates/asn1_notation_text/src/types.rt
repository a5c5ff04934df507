//! Types and constraints.
use crate::numbers::print_reference;
use crate::parts::{presence, print_tag, print_usage, print_version};
use crate::plain_constraints::{print_plain_constraint, print_rules};
use crate::plain_types::print_plain_kind;
use crate::printer::Printer;
use crate::values::print_value;
use asn1_notation::{
    Argument, Component, ComponentItem, Constraint, ConstraintKind, Member, Span, Type, TypeKind,
};
use std::alloc::AllocError;

/// Appends a type.
#[cycle(print_types)]
pub fn print_type(printer: &mut Printer<'_>, definition: &Type) -> Result<(), AllocError> {
    match &definition.kind {
        TypeKind::SequenceOf(name, element) => {
            printer.push(b"SEQUENCE")?;
            print_constraints(printer, definition.constraints.as_slice())?;
            print_element(printer, name, element)
        }
        TypeKind::SetOf(name, element) => {
            printer.push(b"SET")?;
            print_constraints(printer, definition.constraints.as_slice())?;
            print_element(printer, name, element)
        }
        kind => {
            print_kind(printer, kind)?;
            print_constraints(printer, definition.constraints.as_slice())
        }
    }
}

// Appends the type of elements.
#[cycle(print_types)]
fn print_element(
    printer: &mut Printer<'_>,
    name: &Option<Span>,
    element: &Type,
) -> Result<(), AllocError> {
    printer.push(b" OF ")?;
    if let Some(name) = name {
        printer.push_span(*name)?;
        printer.push(b" ")?;
    }
    print_type(printer, element)
}

// Appends a type without its constraints.
#[cycle(print_types)]
fn print_kind(printer: &mut Printer<'_>, kind: &TypeKind) -> Result<(), AllocError> {
    match kind {
        TypeKind::Sequence(items) => {
            printer.push(b"SEQUENCE {")?;
            print_items(printer, items.as_slice())?;
            printer.push(b" }")
        }
        TypeKind::Set(items) => {
            printer.push(b"SET {")?;
            print_items(printer, items.as_slice())?;
            printer.push(b" }")
        }
        TypeKind::Choice(items) => {
            printer.push(b"CHOICE {")?;
            print_items(printer, items.as_slice())?;
            printer.push(b" }")
        }
        TypeKind::Tagged(tag, inner) => {
            print_tag(printer, tag)?;
            print_type(printer, inner)
        }
        TypeKind::Selection(name, inner) => {
            printer.push_span(*name)?;
            printer.push(b" < ")?;
            print_type(printer, inner)
        }
        TypeKind::Instance(reference, arguments) => {
            print_reference(printer, reference)?;
            let has_braces = !printer.has(reference.name, b"INSTANCE");
            printer.push(if has_braces { b" {" } else { b" " })?;
            print_arguments(printer, arguments.as_slice())?;
            printer.push(if has_braces { b"}" } else { b"" })
        }
        kind => print_plain_kind(printer, kind),
    }
}

// Appends arguments between commas.
#[cycle(print_types)]
fn print_arguments(printer: &mut Printer<'_>, arguments: &[Argument]) -> Result<(), AllocError> {
    for (index, argument) in arguments.iter().enumerate() {
        printer.push_between(index, b", ")?;
        print_argument(printer, argument)?;
    }
    Ok(())
}

// Appends an argument.
#[cycle(print_types)]
fn print_argument(printer: &mut Printer<'_>, argument: &Argument) -> Result<(), AllocError> {
    match argument {
        Argument::Type(definition) => print_type(printer, definition),
        Argument::Value(value) => print_value(printer, value),
        Argument::Braced(span) => printer.push_span(*span),
    }
}

// Appends the items of a SEQUENCE, a SET, a CHOICE or a group of additions.
#[cycle(print_types)]
fn print_items(printer: &mut Printer<'_>, items: &[ComponentItem]) -> Result<(), AllocError> {
    for (index, item) in items.iter().enumerate() {
        printer.push_between(index, b",")?;
        printer.push(b" ")?;
        print_item(printer, item)?;
    }
    Ok(())
}

// Appends an item.
#[cycle(print_types)]
fn print_item(printer: &mut Printer<'_>, item: &ComponentItem) -> Result<(), AllocError> {
    match item {
        ComponentItem::Component(component) => print_component(printer, component),
        ComponentItem::ComponentsOf(_, inner) => {
            printer.push(b"COMPONENTS OF ")?;
            print_type(printer, inner)
        }
        ComponentItem::Marker(_) => printer.push(b"..."),
        ComponentItem::Group(_, version, items) => {
            printer.push(b"[[")?;
            print_version(printer, version)?;
            print_items(printer, items.as_slice())?;
            printer.push(b" ]]")
        }
    }
}

// Appends a component.
#[cycle(print_types)]
fn print_component(printer: &mut Printer<'_>, component: &Component) -> Result<(), AllocError> {
    printer.push_span(component.name)?;
    printer.push(b" ")?;
    print_type(printer, &component.definition)?;
    print_usage(printer, &component.usage)
}

// Appends constraints, each in parentheses.
#[cycle(print_types)]
fn print_constraints(
    printer: &mut Printer<'_>,
    constraints: &[Constraint],
) -> Result<(), AllocError> {
    for constraint in constraints {
        printer.push(b" ")?;
        print_inside(printer, constraint)?;
    }
    Ok(())
}

// Appends a constraint in parentheses.
#[cycle(print_types)]
fn print_inside(printer: &mut Printer<'_>, constraint: &Constraint) -> Result<(), AllocError> {
    printer.push(b"(")?;
    print_constraint(printer, constraint)?;
    printer.push(b")")
}

/// Appends a constraint.
#[cycle(print_types)]
pub fn print_constraint(
    printer: &mut Printer<'_>,
    constraint: &Constraint,
) -> Result<(), AllocError> {
    match &constraint.kind {
        ConstraintKind::Union(parts) => print_parts(printer, parts.as_slice(), b" | "),
        ConstraintKind::Intersection(parts) => print_parts(printer, parts.as_slice(), b" ^ "),
        ConstraintKind::Except(first, left_out) => {
            print_inside(printer, first)?;
            printer.push(b" EXCEPT ")?;
            print_inside(printer, left_out)
        }
        ConstraintKind::AllExcept(left_out) => {
            printer.push(b"ALL EXCEPT ")?;
            print_inside(printer, left_out)
        }
        ConstraintKind::Extensible(root, additions) => {
            print_inside(printer, root)?;
            printer.push(b", ...")?;
            print_additions(printer, additions)
        }
        kind => print_element_constraint(printer, kind),
    }
}

// Appends a constraint that no operator makes of others.
#[cycle(print_types)]
fn print_element_constraint(
    printer: &mut Printer<'_>,
    kind: &ConstraintKind,
) -> Result<(), AllocError> {
    match kind {
        ConstraintKind::Size(inner) => {
            printer.push(b"SIZE ")?;
            print_inside(printer, inner)
        }
        ConstraintKind::From(inner) => {
            printer.push(b"FROM ")?;
            print_inside(printer, inner)
        }
        ConstraintKind::Included(inner) => {
            printer.push(b"INCLUDES ")?;
            print_type(printer, inner)
        }
        ConstraintKind::Containing(inner, rules) => {
            printer.push(b"CONTAINING ")?;
            print_type(printer, inner)?;
            print_rules(printer, rules)
        }
        ConstraintKind::WithComponent(inner) => {
            printer.push(b"WITH COMPONENT ")?;
            print_inside(printer, inner)
        }
        ConstraintKind::WithComponents(is_partial, members) => {
            printer.push(if *is_partial {
                b"WITH COMPONENTS { ..., "
            } else {
                b"WITH COMPONENTS { "
            })?;
            print_members(printer, members.as_slice())?;
            printer.push(b" }")
        }
        kind => print_plain_constraint(printer, kind),
    }
}

// Appends constraints with an operator between them.
#[cycle(print_types)]
fn print_parts(
    printer: &mut Printer<'_>,
    parts: &[Constraint],
    operator: &[u8],
) -> Result<(), AllocError> {
    for (index, part) in parts.iter().enumerate() {
        printer.push_between(index, operator)?;
        print_inside(printer, part)?;
    }
    Ok(())
}

// Appends what is allowed beside the root of a constraint.
#[cycle(print_types)]
fn print_additions(
    printer: &mut Printer<'_>,
    additions: &Option<Box<Constraint>>,
) -> Result<(), AllocError> {
    match additions {
        Some(additions) => {
            printer.push(b", ")?;
            print_inside(printer, additions)
        }
        None => Ok(()),
    }
}

// Appends the components of WITH COMPONENTS.
#[cycle(print_types)]
fn print_members(printer: &mut Printer<'_>, members: &[Member]) -> Result<(), AllocError> {
    for (index, member) in members.iter().enumerate() {
        printer.push_between(index, b", ")?;
        print_member(printer, member)?;
    }
    Ok(())
}

// Appends a component of WITH COMPONENTS.
#[cycle(print_types)]
fn print_member(printer: &mut Printer<'_>, member: &Member) -> Result<(), AllocError> {
    printer.push_span(member.name)?;
    if let Some(constraint) = &member.constraint {
        printer.push(b" ")?;
        print_inside(printer, constraint)?;
    }
    printer.push(presence(member.presence))
}
