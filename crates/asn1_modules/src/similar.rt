//! Names that may be like another, by their letters.
use asn1_names::{DefinedName, most_edits};
use std::alloc::{AllocError, Global};

// How many classes of letters there are: a capital and its small letter are of one.
const CLASSES: usize = 32;

/// The definitions whose names `nearest_name` may find, in the order of the list. A name of which more letters are others than may
/// differ is left out: it needs no table of edits.
pub(crate) fn similar_names<'a>(
    alloc: Global,
    defined: &[DefinedName<'a>],
    name: &[u8],
) -> Result<Vec<DefinedName<'a>>, AllocError> {
    let counts = count_letters(name);
    let limit = most_edits(name);
    let mut similar = Vec::new(alloc);
    for definition in defined {
        if other_letters(counts, name.len(), definition.name, limit) <= limit {
            similar.push(*definition)?;
        }
    }
    Ok(similar)
}

// How often the letters of each class are in a name.
fn count_letters(name: &[u8]) -> [usize; CLASSES] {
    let mut counts = [0usize; CLASSES];
    for octet in name {
        if let Some(count) = counts.as_mut_slice().get_mut(class_of(*octet)) {
            *count = count.saturating_add(1);
        }
    }
    counts
}

// The class of a letter.
fn class_of(octet: u8) -> usize {
    usize::from(octet & 31)
}

// How many letters of one of two names the other has not; of the first name these are the counts and the length. A name in which more
// than the limit are others is not looked at further.
fn other_letters(counts: [usize; CLASSES], length: usize, name: &[u8], limit: usize) -> usize {
    let mut left = counts;
    let mut others = 0usize;
    for octet in name {
        match left.as_mut_slice().get_mut(class_of(*octet)) {
            Some(count) if 0 < *count => *count = count.saturating_sub(1),
            _ => others = others.saturating_add(1),
        }
        if limit < others {
            return others;
        }
    }
    let common = name.len().saturating_sub(others);
    others.max(length.saturating_sub(common))
}
