//! Sets whose elements are not in ascending order.
ghost use Rattle.std.specs.Prelude.{◌≡◌, MatchOption};
ghost use Rattle.asn1_certificate_rules.specs.Sets.{IsInOrder, IsOutOfOrder, octets_of, precedes};
ghost use Rattle.asn1_der_items.specs.Elements.{element_of};

use asn1_der_items::{Element, find_element};

/// The position of the first element that is below the one before it by its encoding, and not above it by its tag.
pub(crate) fn out_of_order(contents: &[u8]) -> Option<usize>
    ensures { MatchOption result (IsInOrder contents.now) (IsOutOfOrder contents.now) }
{
    let mut left = contents;
    while let Ok(first) = find_element(left) {
        let Ok(second) = find_element(first.rest) else {
            return None;
        };
        if precedes(left, first, second) {
            return Some(contents.len() - first.rest.len());
        }
        left = first.rest;
    }
    None
}

/// Whether the second element with which bytes begin is below the first.
fn precedes(bytes: &[u8], first: Element<'_>, second: Element<'_>) -> bool
    ensures { result ≡ precedes bytes.now (element_of first.entry) (element_of second.entry) }
{
    octets_of(first.rest, second)
        .cmp(octets_of(bytes, first))
        .is_lt()
        && !second.tag.const_cmp(&first.tag).is_gt()
}

/// The octets of the element with which bytes begin.
fn octets_of<'a>(bytes: &'a [u8], element: Element<'_>) -> &'a [u8]
    ensures { result.now ≡ octets_of bytes.now (element_of element.entry) }
{
    &bytes[..bytes.len().saturating_sub(element.rest.len())]
}
