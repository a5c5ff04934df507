//! The element in which two spellings of a value differ.

use asn1_der_items::{Element, find_element};

/// The position of the innermost element of these octets that differs from the one at its place in other octets: of the first
/// difference, inside elements that both have under the same tag.
pub(crate) fn differing_element(octets: &[u8], others: &[u8]) -> usize {
    let mut position: usize = 0;
    let mut left = octets;
    let mut right = others;
    for _ in 0..octets.len() {
        let (Ok(own), Ok(other)) = (find_element(left), find_element(right)) else {
            break;
        };
        let length = left.len().saturating_sub(own.rest.len());
        if is_same(own, other) {
            position = position.saturating_add(length);
            left = own.rest;
            right = other.rest;
        } else if hold_elements(own, other) {
            position = position.saturating_add(length.saturating_sub(own.contents.len()));
            left = own.contents;
            right = other.contents;
        } else {
            break;
        }
    }
    position
}

fn is_same(own: Element<'_>, other: Element<'_>) -> bool {
    own.tag == other.tag && own.constructed == other.constructed && own.contents == other.contents
}

fn hold_elements(own: Element<'_>, other: Element<'_>) -> bool {
    own.tag == other.tag && own.constructed && other.constructed
}
