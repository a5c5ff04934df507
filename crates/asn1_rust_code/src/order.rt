//! The order of the names that a file imports, in `rt fmt`.
use std::alloc::{AllocError, Global};

/// A text by which imported names are in the order of `rt fmt`: numbers in them are ordered as numbers, so `Tag10` is behind `Tag9`,
/// and an underscore is in front of digits and letters.
///
/// In front of each row of digits is a character that is the greater, the longer the row is. A space stands for an underscore.
pub fn order_of(alloc: Global, name: &str) -> Result<String, AllocError> {
    let mut order = String::new(alloc);
    let octets = name.as_bytes();
    for (index, octet) in octets.iter().enumerate() {
        if octet.is_ascii_digit() && !is_digit_before(octets, index) {
            order.push(char::from(b'0'.saturating_add(digits_from(octets, index))))?;
        }
        order.push(if *octet == b'_' {
            ' '
        } else {
            char::from(*octet)
        })?;
    }
    Ok(order)
}

// Whether a digit is in front of an octet.
fn is_digit_before(octets: &[u8], index: usize) -> bool {
    match index.checked_sub(1) {
        Some(before) => match octets.get(before) {
            Some(octet) => octet.is_ascii_digit(),
            None => false,
        },
        None => false,
    }
}

// The number of digits from an octet on; nine, if there are more.
fn digits_from(octets: &[u8], index: usize) -> u8 {
    let mut count = 0u8;
    for octet in octets.iter().skip(index) {
        if !octet.is_ascii_digit() || count == 9 {
            return count;
        }
        count = count.saturating_add(1);
    }
    count
}
