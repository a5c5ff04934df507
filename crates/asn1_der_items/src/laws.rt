//! Laws of definitions and derives, which no other contract names.
ghost use Rattle.asn1_der_items.specs.Elements.{ElementsAreFound, FoundElementsAreElements};

/// A law of elements: the bytes of one are found as that element, whatever follows.
pub fn elements_are_found()
    ensures { ElementsAreFound }
{}

/// A law of elements: what is found in octets is an element, with identifier and length of the fewest octets (8.1.2 and 8.1.3).
pub fn found_elements_are_elements()
    ensures { FoundElementsAreElements }
{}
