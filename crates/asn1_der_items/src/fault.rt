//! The first fault in bytes that are no elements of DER.
ghost use Rattle.std.specs.Prelude.{IfNone, IfSome};
ghost use Rattle.asn1_der_items.specs.Elements.{element_of};
ghost use Rattle.asn1_der_items.specs.Faults.{AreElementsDownTo, HoldsElements, IsFaultInside, IsFirstFault};

use crate::{Element, find_element};

/// The position of the first byte, from 0, at which an element is due and none begins, if there is one. It looks into elements that hold
/// others down to this depth.
#[cycle(faults)]
pub fn first_fault(bytes: &[u8], depth: usize) -> Option<usize>
    ensures fault { IfSome result (IsFirstFault depth bytes.now) }
    ensures none { IfNone result (AreElementsDownTo depth bytes.now) }
{
    let mut left = bytes;
    while !left.is_empty() {
        let Ok(element) = find_element(left) else {
            return Some(bytes.len() - left.len());
        };
        if let Some(position) = fault_inside(element, depth) {
            let behind = element.contents.len() - position + element.rest.len();
            return Some(bytes.len() - behind);
        }
        left = element.rest;
    }
    None
}

/// The same inside an element, by the position in its contents octets.
#[cycle(faults)]
fn fault_inside(element: Element<'_>, depth: usize) -> Option<usize>
    ensures fault { IfSome result (IsFaultInside depth (element_of element.entry)) }
    ensures none { IfNone result (HoldsElements depth (element_of element.entry)) }
{
    if depth == 0 {
        return None;
    }
    if !element.constructed {
        return None;
    }
    first_fault(element.contents, depth - 1)
}
