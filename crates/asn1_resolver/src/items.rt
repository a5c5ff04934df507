//! Names of the numbers and items of a type.
use crate::governed::{Governed, Scope};
use asn1_notation::{EnumerationItem, NamedNumber, NumberName, Reference, TypeKind};

/// What the name of a value is in its type.
#[derive(Clone, Copy)]
pub(crate) enum Item<'a> {
    /// A named number of an INTEGER.
    Number(NumberName),
    /// An item of an ENUMERATED.
    Name(&'a [u8]),
}

/// The number or the item of a type that has this name.
pub(crate) fn item_of<'r, 'a>(
    base: Governed<'r, 'a>,
    scope: Scope<'a>,
    reference: Reference,
) -> Option<Item<'a>> {
    if reference.module.is_some() {
        return None;
    }
    let name = scope.octets(reference.name);
    match &base.definition.kind {
        TypeKind::Integer(numbers) => match find_number(base.scope, numbers.as_slice(), name) {
            Some(number) => Some(Item::Number(number)),
            None => None,
        },
        TypeKind::Enumerated(items) => find_item(base.scope, items.as_slice(), name),
        _ => None,
    }
}

/// The named number or named bit of this name.
pub(crate) fn find_number(
    scope: Scope<'_>,
    numbers: &[NamedNumber],
    name: &[u8],
) -> Option<NumberName> {
    for number in numbers {
        if scope.octets(number.name) == name {
            return Some(number.number);
        }
    }
    None
}

// The item of this name.
fn find_item<'a>(scope: Scope<'a>, items: &[EnumerationItem], name: &[u8]) -> Option<Item<'a>> {
    for item in items {
        if let EnumerationItem::Item(span, _) = item {
            let octets = scope.octets(*span);
            if octets == name {
                return Some(Item::Name(octets));
            }
        }
    }
    None
}
