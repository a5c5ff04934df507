//! Arcs of OBJECT IDENTIFIER, and their names (X.680, 32.7; X.660, annex A).
use crate::collector::Collector;
use asn1_notation::{ListItem, Value, ValueKind};
use std::alloc::AllocError;

// The arcs below the root.
const ROOTS: [(&[u8], u32); 5] = [
    (b"itu-t", 0),
    (b"ccitt", 0),
    (b"iso", 1),
    (b"joint-iso-itu-t", 2),
    (b"joint-iso-ccitt", 2),
];

// The arcs below itu-t.
const ITU_ARCS: [(&[u8], u32); 5] = [
    (b"recommendation", 0),
    (b"question", 1),
    (b"administration", 2),
    (b"network-operator", 3),
    (b"identified-organization", 4),
];

// The arcs below iso.
const ISO_ARCS: [(&[u8], u32); 4] = [
    (b"standard", 0),
    (b"registration-authority", 1),
    (b"member-body", 2),
    (b"identified-organization", 3),
];

/// The number of an arc behind these, if its name stands for one.
pub fn standard_arc(arcs: &[u32], name: &[u8]) -> Option<u32> {
    match arcs {
        [] => find_arc(&ROOTS, name),
        [0] => find_arc(&ITU_ARCS, name),
        [1] => find_arc(&ISO_ARCS, name),
        [0, 0] => series_arc(name),
        _ => None,
    }
}

// The number of a series of Recommendations, which is named by its letter: a is 1, and z is 26.
fn series_arc(name: &[u8]) -> Option<u32> {
    match name {
        [letter] if *letter >= b'a' && *letter <= b'z' => Some(u32::from(*letter - b'a') + 1),
        _ => None,
    }
}

// The number of a name.
fn find_arc(arcs: &[(&[u8], u32)], name: &[u8]) -> Option<u32> {
    for (arc, number) in arcs {
        if *arc == name {
            return Some(*number);
        }
    }
    None
}

/// Collects the names in the arcs of an object identifier. Names behind a root arc may be those of arcs that need no number.
pub(crate) fn collect_arcs(
    collector: &mut Collector<'_>,
    items: &[ListItem],
) -> Result<(), AllocError> {
    for item in items {
        let is_standard = begins_at_root(collector, item.values.as_slice());
        for value in &item.values {
            collect_arc(collector, value, is_standard)?;
        }
    }
    Ok(())
}

// Whether the first arc is one whose name needs no number.
fn begins_at_root(collector: &Collector<'_>, values: &[Value]) -> bool {
    match values {
        [first, ..] => match &first.kind {
            ValueKind::Reference(reference) => standard_arc(
                &[],
                collector.octets(reference.name),
            ).is_some(),
            _ => false,
        },
        [] => false,
    }
}

// Collects the name of an arc.
fn collect_arc(
    collector: &mut Collector<'_>,
    value: &Value,
    is_standard: bool,
) -> Result<(), AllocError> {
    match &value.kind {
        ValueKind::Reference(reference) => {
            if is_standard {
                Ok(())
            } else {
                collector.refer(reference)
            }
        }
        ValueKind::Arc(_, number) => collector.refer_to_number(number),
        _ => Ok(()),
    }
}
