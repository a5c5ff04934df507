//! Constants for values.
use crate::notation::{assignment_text, text_of};
use crate::plan::Plan;
use asn1_notation::Assignment;
use asn1_resolved::{NamedNumber, Origin, Value, ValueDefinition};
use asn1_rust_components::{Constant, ConstantValue, NamedNumbers};
use asn1_rust_names::{TakenNames, upper_case};
use std::alloc::{AllocError, Global};

/// The text of a definition in the trees.
pub(crate) fn origin_text(plan: &Plan<'_, '_>, origin: Origin) -> Result<String, AllocError> {
    match plan.request.sources.get(origin.source) {
        Some(source) => match assignment_at(source.modules, origin) {
            Some(assignment) => assignment_text(plan.alloc, source.text, assignment),
            None => Ok(String::new(plan.alloc)),
        },
        None => Ok(String::new(plan.alloc)),
    }
}

// The definition with an origin, in the modules of its source.
fn assignment_at(modules: &[asn1_notation::Module], origin: Origin) -> Option<&Assignment> {
    match modules.get(origin.module) {
        Some(module) => module.assignments.get(origin.assignment),
        None => None,
    }
}

/// Adds a constant for a value, or warns that there is none.
pub(crate) fn add_value(
    plan: &mut Plan<'_, '_>,
    definition: &ValueDefinition<'_>,
    names: &mut TakenNames,
) -> Result<(), AllocError> {
    let Some((kind, value)) = constant_value(plan, &definition.value)? else {
        return plan.warn(definition.place, "this value has no constant in Rust");
    };
    let constant = Constant {
        name: constant_name(plan, definition.name, names)?,
        notation: quoted_origin(plan, definition.origin)?,
        definition: kind,
        value,
    };
    plan.constants.push(constant)?;
    Ok(())
}

// A value as code has it, with the type of its constant; `None` if it has none.
fn constant_value(
    plan: &Plan<'_, '_>,
    value: &Value<'_>,
) -> Result<Option<(&'static str, ConstantValue)>, AllocError> {
    match value {
        Value::ObjectIdentifier(arcs) => {
            let value = arcs_value(plan, arcs.as_slice())?;
            Ok(Some(("&[u32]", value)))
        }
        Value::Integer(number) => {
            let text = format!(in plan.alloc; "{number}")?;
            Ok(Some(("i128", ConstantValue::Literal(text))))
        }
        Value::Boolean(flag) => {
            let text = format!(in plan.alloc; "{flag}")?;
            Ok(Some(("bool", ConstantValue::Literal(text))))
        }
        _ => Ok(None),
    }
}

// A name that no other constant has.
fn constant_name(
    plan: &Plan<'_, '_>,
    name: &[u8],
    names: &mut TakenNames,
) -> Result<String, AllocError> {
    let name = plan.words.separated(name)?;
    let upper = upper_case(plan.alloc, name.as_slice())?;
    names.take(upper.as_str())
}

// The text of a definition in the trees, as code in a comment.
fn quoted_origin(plan: &Plan<'_, '_>, origin: Origin) -> Result<String, AllocError> {
    let notation = origin_text(plan, origin)?;
    let notation = notation.as_str();
    format!(in plan.alloc; "`{notation}`")
}

// The arcs of an object identifier, as code has them.
fn arcs_value(plan: &Plan<'_, '_>, arcs: &[u32]) -> Result<ConstantValue, AllocError> {
    let mut elements = Vec::new(plan.alloc);
    for arc in arcs {
        elements.push(format!(in plan.alloc; "{arc}")?)?;
    }
    Ok(ConstantValue::Elements(elements))
}

/// The constants of this kind for the names of an INTEGER or a BIT STRING, which the type of this name has.
pub(crate) fn numbers_of(
    plan: &mut Plan<'_, '_>,
    name: &str,
    kind: &'static str,
    numbers: &[NamedNumber<'_>],
) -> Result<Option<NamedNumbers>, AllocError> {
    let alloc = plan.alloc;
    if numbers.is_empty() {
        return Ok(None);
    }
    let mut names = TakenNames::new(alloc);
    let mut constants = Vec::new(alloc);
    for number in numbers {
        let constant = number_constant(plan, number, kind, &mut names)?;
        constants.push(constant)?;
    }
    let wanted = format!(in alloc; "{name}Names")?;
    Ok(Some(NamedNumbers {
        name: plan.new_name(wanted.as_str())?,
        constants,
    }))
}

// The constant of this kind for a named number or a named bit.
fn number_constant(
    plan: &Plan<'_, '_>,
    number: &NamedNumber<'_>,
    kind: &'static str,
    names: &mut TakenNames,
) -> Result<Constant, AllocError> {
    let alloc = plan.alloc;
    let value = number.number;
    Ok(Constant {
        name: constant_name(plan, number.name, names)?,
        notation: number_text(alloc, number)?,
        definition: kind,
        value: ConstantValue::Literal(format!(in alloc; "{value}")?),
    })
}

// A named number or a named bit, as code in a comment.
fn number_text(alloc: Global, number: &NamedNumber<'_>) -> Result<String, AllocError> {
    let name = text_of(alloc, number.name)?;
    let name = name.as_str();
    let value = number.number;
    format!(in alloc; "`{name}({value})`")
}
