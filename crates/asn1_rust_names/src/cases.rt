//! Names in the forms of Rust.
use crate::keywords::is_keyword;
use crate::words::{begins_word, is_in_word};
use std::alloc::{AllocError, Global};

/// The name with a capital at the beginning of each word, as types and variants have it.
///
/// `Self`, which is a word of Rust, becomes `Self_`.
pub fn camel_case(alloc: Global, name: &[u8]) -> Result<String, AllocError> {
    let mut text = String::new(alloc);
    for (index, octet) in name.iter().enumerate() {
        if is_in_word(*octet) {
            text.push(char::from(if begins_word(name, index) {
                octet.to_ascii_uppercase()
            } else {
                octet.to_ascii_lowercase()
            }))?;
        }
    }
    avoid_keyword(&mut text)?;
    Ok(text)
}

/// The name in small letters, with an underscore between words, as fields and modules have it.
///
/// A word of Rust or Rattle, as `type`, gets an underscore at its end.
pub fn snake_case(alloc: Global, name: &[u8]) -> Result<String, AllocError> {
    let mut text = String::new(alloc);
    for (index, octet) in name.iter().enumerate() {
        push_separated(&mut text, name, index, octet.to_ascii_lowercase())?;
    }
    avoid_keyword(&mut text)?;
    Ok(text)
}

/// The name in capitals, with an underscore between words, as constants have it.
pub fn upper_case(alloc: Global, name: &[u8]) -> Result<String, AllocError> {
    let mut text = String::new(alloc);
    for (index, octet) in name.iter().enumerate() {
        push_separated(&mut text, name, index, octet.to_ascii_uppercase())?;
    }
    Ok(text)
}

// Appends an octet of a name, with an underscore in front if it begins a word that is not the first.
fn push_separated(
    text: &mut String,
    name: &[u8],
    index: usize,
    octet: u8,
) -> Result<(), AllocError> {
    if !is_in_word(octet) {
        return Ok(());
    }
    if begins_word(name, index) && !text.is_empty() {
        text.push_str("_")?;
    }
    text.push(char::from(octet))
}

// Puts an underscore behind a word that no item can have as its name.
fn avoid_keyword(text: &mut String) -> Result<(), AllocError> {
    if is_keyword(text.as_str()) {
        text.push_str("_")
    } else {
        Ok(())
    }
}
