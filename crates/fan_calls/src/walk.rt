//! A walk through elements of DER.
ghost use Rattle.asn1_der_items.specs.Elements.{element_of};
ghost use Rattle.fan_calls.specs.Walks.{Finds, FindsInside};

use asn1_der_items::{Element, find_element};

/// The finding of a walk through elements of DER.
#[derive(Clone, Copy, Debug, Drop, PartialEq, Eq)]
pub enum Finding {
    /// The octets are elements, and so is all that is inside them.
    Elements,
    /// They are elements as far as the walk looks, and octets lie deeper.
    Deeper,
    /// At this position, from 0, is the first octet at which an element is due and none begins.
    Fault(usize),
}

/// Whether bytes are elements of DER, one after another, and so is what is inside those that are constructed, down to this depth; and if
/// not, where an element is due and none begins.
#[cycle(walks)]
pub fn walk_through(bytes: &[u8], depth: usize) -> Finding
    ensures { Finds depth bytes.now result }
{
    let mut left = bytes;
    let mut is_deep = false;
    while !left.is_empty() {
        let Ok(element) = find_element(left) else {
            return Finding::Fault(bytes.len() - left.len());
        };
        match walk_inside(element, depth) {
            Finding::Fault(position) => {
                let behind = element.contents.len() - position + element.rest.len();
                return Finding::Fault(bytes.len() - behind);
            }
            Finding::Deeper => is_deep = true,
            Finding::Elements => {}
        }
        left = element.rest;
    }
    if is_deep {
        Finding::Deeper
    } else {
        Finding::Elements
    }
}

/// The same of what is inside an element, by the position in its contents octets.
#[cycle(walks)]
fn walk_inside(element: Element<'_>, depth: usize) -> Finding
    ensures { FindsInside depth (element_of element.entry) result }
{
    if !element.constructed || element.contents.is_empty() {
        return Finding::Elements;
    }
    if depth == 0 {
        return Finding::Deeper;
    }
    walk_through(element.contents, depth - 1)
}
