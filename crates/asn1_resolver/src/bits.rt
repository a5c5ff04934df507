//! Strings of bits, octets and characters.
use std::alloc::{AllocError, Global};

/// The bits of a bstring.
pub(crate) fn binary_bits(alloc: Global, octets: &[u8]) -> Result<Vec<bool>, AllocError> {
    let mut bits = Vec::new(alloc);
    for octet in octets {
        match octet {
            b'0' => bits.push(false)?,
            b'1' => bits.push(true)?,
            _ => {}
        }
    }
    Ok(bits)
}

/// The bits of an hstring.
pub(crate) fn hex_bits(alloc: Global, octets: &[u8]) -> Result<Vec<bool>, AllocError> {
    let mut bits = Vec::new(alloc);
    for octet in octets {
        if let Some(digit) = hex_digit(*octet) {
            for weight in [8u8, 4, 2, 1] {
                bits.push(digit & weight != 0)?;
            }
        }
    }
    Ok(bits)
}

// The value of a digit of an hstring.
fn hex_digit(octet: u8) -> Option<u8> {
    match octet {
        b'0'..=b'9' => Some(octet - b'0'),
        b'A'..=b'F' => Some(octet - b'A' + 10),
        _ => None,
    }
}

/// The octets of some bits. Bits 0 fill the last octet.
pub(crate) fn octets_of_bits(alloc: Global, bits: &[bool]) -> Result<Vec<u8>, AllocError> {
    let mut octets = Vec::new(alloc);
    for eight in bits.chunks(8) {
        octets.push(octet_of_bits(eight))?;
    }
    Ok(octets)
}

// The octet whose first bits are these.
fn octet_of_bits(bits: &[bool]) -> u8 {
    let mut octet: u8 = 0;
    let mut weight: u8 = 128;
    for bit in bits {
        if *bit {
            octet |= weight;
        }
        weight /= 2;
    }
    octet
}

/// The characters of a cstring: without its quotes, with one quote for two, and without the ends of lines (X.680, 12.14).
pub(crate) fn characters(alloc: Global, octets: &[u8]) -> Result<Vec<u8>, AllocError> {
    let mut text = Vec::new(alloc);
    let mut is_second_quote = false;
    for octet in inside(octets) {
        let is_skipped = *octet == b'"' && is_second_quote || matches!(octet, 10..=13);
        is_second_quote = *octet == b'"' && !is_second_quote;
        if !is_skipped {
            text.push(*octet)?;
        }
    }
    Ok(text)
}

// The octets between the first and the last.
fn inside(octets: &[u8]) -> &[u8] {
    match octets {
        [_, inside @ .., _] => inside,
        _ => &[],
    }
}
