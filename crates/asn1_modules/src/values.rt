//! The names in values.
use crate::collector::Collector;
use asn1_notation::{EndPoint, EndValue, ListItem, Value, ValueKind};
use std::alloc::AllocError;

/// Collects the names in a value.
#[cycle(collect_values)]
pub(crate) fn collect_value(
    collector: &mut Collector<'_>,
    value: &Value,
) -> Result<(), AllocError> {
    match &value.kind {
        ValueKind::Reference(reference) => collector.refer_or_name_item(reference),
        ValueKind::Field(object, _) => collector.refer(object),
        ValueKind::Arc(_, number) => collector.refer_to_number(number),
        ValueKind::Alternative(name, value) => {
            collector.refer_to_open_type(*name)?;
            collect_value(collector, value)
        }
        ValueKind::List(items) => collect_list(collector, items.as_slice()),
        _ => Ok(()),
    }
}

// Collects the names in a list.
#[cycle(collect_values)]
fn collect_list(collector: &mut Collector<'_>, items: &[ListItem]) -> Result<(), AllocError> {
    for item in items {
        collect_side_by_side(collector, item.values.as_slice())?;
    }
    Ok(())
}

// Collects the names in an element, or in a component behind its name. Of more values side by side the type tells what they
// are.
#[cycle(collect_values)]
fn collect_side_by_side(collector: &mut Collector<'_>, values: &[Value]) -> Result<(), AllocError> {
    match values {
        [element] => collect_value(collector, element),
        [_, component] => collect_value(collector, component),
        _ => Ok(()),
    }
}

/// Collects the names at an end of a range.
pub(crate) fn collect_end(collector: &mut Collector<'_>, end: &EndPoint) -> Result<(), AllocError> {
    match &end.value {
        EndValue::Min => Ok(()),
        EndValue::Max => Ok(()),
        EndValue::Value(value) => collect_value(collector, value),
    }
}
