//! The names in types and constraints.
use crate::collector::Collector;
use crate::values::{collect_end, collect_value};
use asn1_notation::{
    Argument, Component, ComponentItem, Constraint, ConstraintKind, EnumerationItem, Member,
    NamedNumber, Type, TypeKind, Usage, Value,
};
use std::alloc::AllocError;

/// Collects the names in a type.
#[cycle(collect_types)]
pub(crate) fn collect_type(
    collector: &mut Collector<'_>,
    definition: &Type,
) -> Result<(), AllocError> {
    collect_kind(collector, &definition.kind)?;
    collect_constraints(collector, definition.constraints.as_slice())
}

// Collects the names in a type without its constraints.
#[cycle(collect_types)]
fn collect_kind(collector: &mut Collector<'_>, kind: &TypeKind) -> Result<(), AllocError> {
    match kind {
        TypeKind::Reference(reference) => collector.refer_to_type(reference),
        TypeKind::Integer(numbers) => collect_numbers(collector, numbers.as_slice()),
        TypeKind::BitString(numbers) => collect_numbers(collector, numbers.as_slice()),
        TypeKind::Enumerated(items) => collect_enumeration(collector, items.as_slice()),
        TypeKind::Sequence(items) => collect_items(collector, items.as_slice()),
        TypeKind::Set(items) => collect_items(collector, items.as_slice()),
        TypeKind::Choice(items) => collect_items(collector, items.as_slice()),
        TypeKind::SequenceOf(_, element) => collect_type(collector, element),
        TypeKind::SetOf(_, element) => collect_type(collector, element),
        TypeKind::Tagged(tag, inner) => {
            collector.refer_to_number(&tag.number)?;
            collect_type(collector, inner)
        }
        TypeKind::Selection(_, inner) => collect_type(collector, inner),
        TypeKind::Field(class, _) => collector.refer_to_type(class),
        TypeKind::Instance(reference, arguments) => {
            collector.refer(reference)?;
            collect_arguments(collector, arguments.as_slice())
        }
        _ => Ok(()),
    }
}

// Collects the names in arguments. Those inside braces are left out.
#[cycle(collect_types)]
fn collect_arguments(
    collector: &mut Collector<'_>,
    arguments: &[Argument],
) -> Result<(), AllocError> {
    for argument in arguments {
        match argument {
            Argument::Type(definition) => collect_type(collector, definition)?,
            Argument::Value(value) => collect_value(collector, value)?,
            Argument::Braced(_) => {}
        }
    }
    Ok(())
}

// Collects named numbers, or named bits.
fn collect_numbers(
    collector: &mut Collector<'_>,
    numbers: &[NamedNumber],
) -> Result<(), AllocError> {
    for number in numbers {
        collector.name_item(number.name)?;
        collector.refer_to_number(&number.number)?;
    }
    Ok(())
}

// Collects the items of an ENUMERATED.
fn collect_enumeration(
    collector: &mut Collector<'_>,
    items: &[EnumerationItem],
) -> Result<(), AllocError> {
    for item in items {
        match item {
            EnumerationItem::Item(name, Some(number)) => {
                collector.name_item(*name)?;
                collector.refer_to_number(number)?;
            }
            EnumerationItem::Item(name, None) => collector.name_item(*name)?,
            EnumerationItem::Marker(_) => {}
        }
    }
    Ok(())
}

// Collects the names in the items of a SEQUENCE, a SET, a CHOICE or a group of additions.
#[cycle(collect_types)]
fn collect_items(collector: &mut Collector<'_>, items: &[ComponentItem]) -> Result<(), AllocError> {
    for item in items {
        collect_item(collector, item)?;
    }
    Ok(())
}

// Collects the names in an item.
#[cycle(collect_types)]
fn collect_item(collector: &mut Collector<'_>, item: &ComponentItem) -> Result<(), AllocError> {
    match item {
        ComponentItem::Component(component) => collect_component(collector, component),
        ComponentItem::ComponentsOf(_, inner) => collect_type(collector, inner),
        ComponentItem::Marker(_) => Ok(()),
        ComponentItem::Group(_, _, items) => collect_items(collector, items.as_slice()),
    }
}

// Collects the names in a component.
#[cycle(collect_types)]
fn collect_component(
    collector: &mut Collector<'_>,
    component: &Component,
) -> Result<(), AllocError> {
    collect_type(collector, &component.definition)?;
    match &component.usage {
        Usage::Default(value) => collect_value(collector, value),
        _ => Ok(()),
    }
}

// Collects the names in constraints.
#[cycle(collect_types)]
fn collect_constraints(
    collector: &mut Collector<'_>,
    constraints: &[Constraint],
) -> Result<(), AllocError> {
    for constraint in constraints {
        collect_constraint(collector, constraint)?;
    }
    Ok(())
}

// Collects the names in a constraint.
#[cycle(collect_types)]
fn collect_constraint(
    collector: &mut Collector<'_>,
    constraint: &Constraint,
) -> Result<(), AllocError> {
    match &constraint.kind {
        ConstraintKind::Union(parts) => collect_constraints(collector, parts.as_slice()),
        ConstraintKind::Intersection(parts) => collect_constraints(collector, parts.as_slice()),
        ConstraintKind::Except(first, left_out) => {
            collect_constraint(collector, first)?;
            collect_constraint(collector, left_out)
        }
        ConstraintKind::AllExcept(left_out) => collect_constraint(collector, left_out),
        ConstraintKind::Extensible(root, None) => collect_constraint(collector, root),
        ConstraintKind::Extensible(root, Some(additions)) => {
            collect_constraint(collector, root)?;
            collect_constraint(collector, additions)
        }
        kind => collect_element(collector, kind),
    }
}

// Collects the names in a constraint that no operator makes of others.
#[cycle(collect_types)]
fn collect_element(collector: &mut Collector<'_>, kind: &ConstraintKind) -> Result<(), AllocError> {
    match kind {
        ConstraintKind::Size(inner) => collect_constraint(collector, inner),
        ConstraintKind::From(inner) => collect_constraint(collector, inner),
        ConstraintKind::WithComponent(inner) => collect_constraint(collector, inner),
        ConstraintKind::Included(inner) => collect_type(collector, inner),
        ConstraintKind::Containing(inner, rules) => {
            collect_type(collector, inner)?;
            collect_rules(collector, rules)
        }
        ConstraintKind::WithComponents(_, members) => {
            collect_members(collector, members.as_slice())
        }
        kind => collect_plain(collector, kind),
    }
}

// Collects the names in a constraint that holds no other and no type.
fn collect_plain(collector: &mut Collector<'_>, kind: &ConstraintKind) -> Result<(), AllocError> {
    match kind {
        ConstraintKind::Value(value) => collect_value(collector, value),
        ConstraintKind::Range(lower, upper) => {
            collect_end(collector, lower)?;
            collect_end(collector, upper)
        }
        ConstraintKind::Pattern(value) => collect_value(collector, value),
        _ => Ok(()),
    }
}

// Collects the names in the object identifier behind ENCODED BY.
fn collect_rules(collector: &mut Collector<'_>, rules: &Option<Value>) -> Result<(), AllocError> {
    match rules {
        Some(value) => collect_value(collector, value),
        None => Ok(()),
    }
}

// Collects the names in the components of WITH COMPONENTS.
#[cycle(collect_types)]
fn collect_members(collector: &mut Collector<'_>, members: &[Member]) -> Result<(), AllocError> {
    for member in members {
        if let Some(constraint) = &member.constraint {
            collect_constraint(collector, constraint)?;
        }
    }
    Ok(())
}
