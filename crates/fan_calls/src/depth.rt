//! Elements that lie deeper than a call looks.
ghost use Rattle.std.specs.Prelude.{◌≡◌, Decides};
ghost use Rattle.asn1_der_items.specs.Elements.{element_of};
ghost use Rattle.fan_calls.specs.Depths.{HoldsDeeper, NestsDeeper};

use asn1_der_items::{Element, find_element};

/// How many constructed elements may lie around the octets that a call looks at.
pub const DEPTH: usize = 64;

/// Whether elements of DER hold octets that lie inside more constructed elements than this depth. It looks no further than the first
/// octet at which an element is due and none begins.
#[cycle(depths)]
pub fn nests_deeper(bytes: &[u8], depth: usize) -> bool
    ensures { Decides result (NestsDeeper depth bytes.now) }
{
    let mut left = bytes;
    while let Ok(element) = find_element(left) {
        if holds_deeper(element, depth) {
            return true;
        }
        left = element.rest;
    }
    false
}

/// The same of what an element holds.
#[cycle(depths)]
fn holds_deeper(element: Element<'_>, depth: usize) -> bool
    ensures { Decides result (HoldsDeeper depth (element_of element.entry)) }
{
    if !element.constructed || element.contents.is_empty() {
        return false;
    }
    if depth == 0 {
        return true;
    }
    nests_deeper(element.contents, depth - 1)
}
