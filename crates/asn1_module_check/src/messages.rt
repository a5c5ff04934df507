//! Components that share a tag, in words.
use crate::constructed::{ComponentName, ConstructedKind};
use asn1_tags::{Class, Tag};
use std::alloc::{AllocError, Global};

/// Appends that two parts of a type of this kind can both begin with what follows.
pub(crate) fn append_names(
    text: &mut Vec<u8>,
    kind: ConstructedKind,
    (first, second): (ComponentName<'_>, ComponentName<'_>),
) -> Result<(), AllocError> {
    text.extend_from_slice(parts_word(kind))?;
    text.extend_from_slice(b" '")?;
    text.extend_from_slice(first.name)?;
    text.extend_from_slice(b"' and '")?;
    text.extend_from_slice(second.name)?;
    text.extend_from_slice(b"' can both begin with ")?;
    Ok(())
}

// The word for the parts of a type of this kind.
fn parts_word(kind: ConstructedKind) -> &'static [u8] {
    match kind {
        ConstructedKind::Sequence | ConstructedKind::Set => b"components",
        ConstructedKind::Choice => b"alternatives",
    }
}

/// Appends a tag in brackets, or any.
pub(crate) fn append_tag(
    alloc: Global,
    text: &mut Vec<u8>,
    tag: Option<Tag>,
) -> Result<(), AllocError> {
    let Some(tag) = tag else {
        text.extend_from_slice(b"any tag")?;
        return Ok(());
    };
    text.push(b'[')?;
    text.extend_from_slice(class_word(tag.class))?;
    let number = format!(in alloc; "{}", tag.value)?;
    text.extend_from_slice(number.as_bytes())?;
    text.push(b']')?;
    Ok(())
}

/// Appends what tells two parts apart that share a tag of a type without one.
pub(crate) fn append_advice(text: &mut Vec<u8>, tag: Option<Tag>) -> Result<(), AllocError> {
    if let Some(tag) = tag {
        if tag.class == Class::Universal {
            text.extend_from_slice(b"; give one a tag, or the module AUTOMATIC TAGS")?;
        }
    }
    Ok(())
}

// The word for a class, with a space behind it.
fn class_word(class: Class) -> &'static [u8] {
    match class {
        Class::Universal => b"UNIVERSAL ",
        Class::Application => b"APPLICATION ",
        Class::Context => b"",
        Class::Private => b"PRIVATE ",
    }
}
