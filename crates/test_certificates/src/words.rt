//! The words of a line as values.
use percent_encoding::percent_decode;
use std::alloc::Global;

/// The bytes of these hexadecimal digits, with spaces between them.
pub(crate) fn bytes_of(alloc: Global, digits: &str) -> Option<Vec<u8>> {
    let mut bytes = Vec::new(alloc);
    for word in digits.split(' ') {
        let part = hex::decode(alloc, word).ok()?;
        bytes.extend_from_slice(&part).ok()?;
    }
    Some(bytes)
}

/// The text that this is the percent-encoding of.
pub(crate) fn text_of(alloc: Global, word: &str) -> Option<String> {
    let mut bytes = Vec::new(alloc);
    percent_decode(word.as_bytes()).append_to(&mut bytes).ok()?;
    String::from_utf8(bytes).ok()
}

/// The bits of these digits, from the first.
pub(crate) fn bits_of(alloc: Global, digits: &str) -> Option<Vec<bool>> {
    let mut bits = Vec::new(alloc);
    for digit in digits.bytes() {
        bits.push(digit == b'1').ok()?;
    }
    Some(bits)
}

/// The arcs of an object identifier, with points between them.
pub(crate) fn arcs_of(alloc: Global, text: &str) -> Option<Vec<u32>> {
    let mut arcs = Vec::new(alloc);
    for word in text.split('.') {
        arcs.push(word.parse::<u32>().ok()?).ok()?;
    }
    Some(arcs)
}
