//! Elements of BER that lie inside others.

use asn1_ber_items::front_element;
use asn1_der_items::{find_element, number_of, read_identifier};
use std::alloc::{AllocError, Global};

/// How many elements are looked into, one inside another.
const DEEPEST: usize = 64;

/// The length octet of the indefinite form (X.690, 8.1.3.6).
const INDEFINITE: u8 = 128;

/// The end of contents of the indefinite form (X.690, 8.1.5).
const END_OF_CONTENTS: [u8; 2] = [0, 0];

/// A position to which numbers of elements lead.
#[derive(Clone, Copy)]
pub(crate) struct Found {
    /// The position of the first octet, from 0.
    pub(crate) position: usize,
    /// Whether the element begins there, or else the innermost one around it.
    pub(crate) is_there: bool,
}

/// The position of an element of BER: the numbers say how many elements are before it in each element that it is inside of, from the
/// outermost on. If there is none it is that of the innermost element around it.
pub(crate) fn find_position(alloc: Global, octets: &[u8], numbers: &[usize]) -> Found {
    let mut position = 0usize;
    let mut left = octets;
    for number in numbers {
        let child = match contents_of(left) {
            Some(contents) => element_behind(alloc, contents, *number),
            None => &[],
        };
        if child.is_empty() {
            return Found {
                position,
                is_there: false,
            };
        }
        position = position.saturating_add(offset_in(left, child));
        left = child;
    }
    Found {
        position,
        is_there: true,
    }
}

/// How many octets of the first element are before the octets that are inside of it.
fn offset_in(octets: &[u8], child: &[u8]) -> usize {
    let header = header_length(octets);
    match contents_of(octets) {
        Some(contents) => header.saturating_add(contents.len().saturating_sub(child.len())),
        None => header,
    }
}

/// The octets from the first one on behind this many elements; none if there are not as many, or one of them cannot be read.
fn element_behind(alloc: Global, elements: &[u8], number: usize) -> &[u8] {
    let mut left = elements;
    for _ in 0..number {
        match behind_element(alloc, left) {
            Some(rest) => left = rest,
            None => return &[],
        }
    }
    if left.starts_with(&END_OF_CONTENTS) {
        &[]
    } else {
        left
    }
}

/// The octets behind the element with which octets begin, if they begin with one.
fn behind_element(alloc: Global, octets: &[u8]) -> Option<&[u8]> {
    if let Ok(element) = find_element(octets) {
        return Some(element.rest);
    }
    match front_element(alloc, octets) {
        Ok(front) => Some(front.rest),
        Err(_) => None,
    }
}

/// How many elements of BER are before the one at a position, in each element that it is inside of, from the outermost on.
/// The numbers end where an element on the way cannot be found.
pub(crate) fn element_numbers(
    alloc: Global,
    octets: &[u8],
    position: usize,
) -> Result<Vec<usize>, AllocError> {
    let mut numbers = Vec::new(alloc);
    let mut left = octets;
    let mut offset = position;
    for _ in 0..DEEPEST {
        let Some(inside) = contents_of(left) else {
            return Ok(numbers);
        };
        let Some(offset_inside) = offset.checked_sub(header_length(left)) else {
            return Ok(numbers);
        };
        let child = child_at(alloc, inside, offset_inside);
        numbers.push(child.number)?;
        left = child.octets;
        offset = child.offset;
    }
    Ok(numbers)
}

/// An element among others.
#[derive(Clone, Copy)]
struct Child<'a> {
    /// How many elements are before it.
    number: usize,
    /// The octets from its first one on.
    octets: &'a [u8],
    /// The position inside it.
    offset: usize,
}

/// The element at a position among elements, or the first one that cannot be found.
fn child_at(alloc: Global, elements: &[u8], position: usize) -> Child<'_> {
    let mut child = Child {
        number: 0,
        octets: elements,
        offset: position,
    };
    for _ in 0..elements.len() {
        let Some(rest) = behind_element(alloc, child.octets) else {
            return child;
        };
        let length = child.octets.len().saturating_sub(rest.len());
        let Some(behind) = child.offset.checked_sub(length) else {
            return child;
        };
        child = Child {
            number: child.number.saturating_add(1),
            octets: rest,
            offset: behind,
        };
    }
    child
}

/// How many octets of the element with which octets begin are before its contents octets.
pub(crate) fn header_length(octets: &[u8]) -> usize {
    match read_identifier(octets) {
        Ok(identified) => {
            let identifier = octets.len().saturating_sub(identified.rest.len());
            identifier.saturating_add(length_octets(identified.rest))
        }
        Err(_) => 0,
    }
}

/// How many length octets there are, with which octets begin.
fn length_octets(octets: &[u8]) -> usize {
    match octets.first() {
        Some(first) if *first > INDEFINITE => usize::from(*first - INDEFINITE).saturating_add(1),
        Some(_) => 1,
        None => 0,
    }
}

/// The octets that are inside a constructed element with which octets begin, with the end of contents of the indefinite form and all
/// behind it.
fn contents_of(octets: &[u8]) -> Option<&[u8]> {
    let identified = read_identifier(octets).ok()?;
    if !identified.constructed {
        return None;
    }
    let inside = octets.get(header_length(octets)..)?;
    match definite_length(identified.rest) {
        Some(length) => Some(inside.get(..length).unwrap_or(inside)),
        None => Some(inside),
    }
}

/// The definite length with which octets begin, if they begin with one.
fn definite_length(octets: &[u8]) -> Option<usize> {
    let [first, rest @ ..] = octets else {
        return None;
    };
    if *first < INDEFINITE {
        return Some(usize::from(*first));
    }
    let own = rest.get(..usize::from(*first - INDEFINITE))?;
    if own.is_empty() {
        return None;
    }
    usize::try_from(number_of(own)?).ok()
}
