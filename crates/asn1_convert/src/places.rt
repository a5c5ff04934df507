//! The place at which a value was not read, and the cause, in words.

use crate::causes::{cause_text, is_plain};
use crate::elements::{Found, find_position};
use crate::failing_place::failing_place;
use crate::form::CodecForm;
use crate::type_faults::{TypeCheck, check_type};
use asn1_dec::{Decode, DecodeError};
use asn1_paths::Place;
use asn1_tags::Tag;
use std::alloc::{AllocError, Global};
use std::fmt::Write;

/// A value that was not read, in words.
#[derive(Drop)]
pub(crate) struct ReadFailure {
    /// The path to the place, and the cause.
    pub(crate) words: String,
    /// The position of the octet, if its element is found.
    pub(crate) position: Option<usize>,
}

/// Why and where octets in this form were not read, for this error: the rule of X.690 that the element there breaks, if it breaks one.
pub(crate) fn read_failure<T: Decode>(
    alloc: Global,
    form: CodecForm,
    octets: &[u8],
    error: DecodeError,
    depth: usize,
) -> Result<ReadFailure, AllocError> {
    let Some(place) = failing_place::<T>(alloc, form, octets, depth) else {
        return failure_without_place(alloc, error);
    };
    let found = find_position(alloc, octets, place.element_numbers.as_slice());
    if let DecodeError::DuplicateField(_) = error {
        return failure_with(alloc, "the component is there twice", &place, found);
    }
    match check_place(alloc, form, octets, &place, found)? {
        TypeCheck::Broken(fault) => {
            let mut words = path_text(alloc, &place)?;
            write!(&mut words, "{}", fault.rule)?;
            Ok(ReadFailure {
                words,
                position: Some(fault.position),
            })
        }
        TypeCheck::Sound if is_number(&place) && is_plain(error) => {
            failure_at(alloc, DecodeError::OutOfRange, &place, found)
        }
        TypeCheck::Sound if is_object_identifier(&place) && is_plain(error) => {
            failure_with(alloc, "an arc of 2^32 or more is not read", &place, found)
        }
        TypeCheck::Sound | TypeCheck::Unknown => failure_at(alloc, error, &place, found),
    }
}

/// Why and where an element of BER, whose own length is definite, was not read that has one inside which is none.
pub(crate) fn malformed_failure<T: Decode>(
    alloc: Global,
    octets: &[u8],
    depth: usize,
) -> Result<ReadFailure, AllocError> {
    let error = DecodeError::Custom("bad item");
    match failing_place::<T>(alloc, CodecForm::Der, octets, depth) {
        Some(place) => {
            let found = find_position(alloc, octets, place.element_numbers.as_slice());
            failure_at(alloc, error, &place, found)
        }
        None => failure_without_place(alloc, error),
    }
}

/// The facts that its type gives of the element at a place, if one is there.
fn check_place(
    alloc: Global,
    form: CodecForm,
    octets: &[u8],
    place: &Place,
    found: Found,
) -> Result<TypeCheck, AllocError> {
    match place.tags {
        Some(tags) if found.is_there => check_type(alloc, form, tags, octets, found.position),
        _ => Ok(TypeCheck::Unknown),
    }
}

/// Whether an INTEGER with limits is due at a place.
fn is_number(place: &Place) -> bool {
    let is_limited = place.limits.least.is_some() || place.limits.greatest.is_some();
    match place.tags {
        Some(tags) => is_limited && tags.universal == Tag::INTEGER,
        None => false,
    }
}

/// Whether an OBJECT IDENTIFIER is due at a place.
fn is_object_identifier(place: &Place) -> bool {
    match place.tags {
        Some(tags) => tags.universal == Tag::OBJECT_IDENTIFIER,
        None => false,
    }
}

/// Why octets were not read at a place, for this error.
fn failure_at(
    alloc: Global,
    error: DecodeError,
    place: &Place,
    found: Found,
) -> Result<ReadFailure, AllocError> {
    let cause = cause_text(alloc, error, Some(place.limits))?;
    failure_with(alloc, cause.as_str(), place, found)
}

/// The same for a cause in words.
fn failure_with(
    alloc: Global,
    cause: &str,
    place: &Place,
    found: Found,
) -> Result<ReadFailure, AllocError> {
    let mut words = path_text(alloc, place)?;
    words.push_str(cause)?;
    Ok(ReadFailure {
        words,
        position: Some(found.position),
    })
}

/// The same where no place is known.
fn failure_without_place(alloc: Global, error: DecodeError) -> Result<ReadFailure, AllocError> {
    Ok(ReadFailure {
        words: cause_text(alloc, error, None)?,
        position: None,
    })
}

/// The path to a place and a colon; nothing for the whole value.
fn path_text(alloc: Global, place: &Place) -> Result<String, AllocError> {
    if place.path.is_empty() {
        Ok(String::new(alloc))
    } else {
        format!(in alloc; "{}: ", place.path)
    }
}
