//! The words of a name.

/// Whether an octet is part of a word: a letter or a digit.
pub(crate) fn is_in_word(octet: u8) -> bool {
    octet.is_ascii_alphanumeric()
}

// The octets round an octet of a name. Outside the name they are hyphens.
#[derive(Clone, Copy)]
struct Neighbours {
    before_last: u8,
    last: u8,
    next: u8,
    after_next: u8,
}

// The octet at an index, or a hyphen outside the name.
fn octet_at(name: &[u8], index: usize) -> u8 {
    name.get(index).copied().unwrap_or(b'-')
}

// The octet this far in front of an index, or a hyphen outside the name.
fn octet_before(name: &[u8], index: usize, distance: usize) -> u8 {
    match index.checked_sub(distance) {
        Some(earlier) => octet_at(name, earlier),
        None => b'-',
    }
}

// The octets round the one at an index.
fn octets_round(name: &[u8], index: usize) -> Neighbours {
    Neighbours {
        before_last: octet_before(name, index, 2),
        last: octet_before(name, index, 1),
        next: octet_at(name, index.saturating_add(1)),
        after_next: octet_at(name, index.saturating_add(2)),
    }
}

/// Whether a word begins at the octet with this index.
///
/// A word begins behind a hyphen, and at a capital behind a small letter or a digit. A row of capitals is one word, whose last
/// capital begins the next word if a small letter follows. One small letter before a row of capitals belongs to it, as in `dNSName`;
/// so does an `s` behind it, as in `PDUs`, and a version, as in `IPv4`.
pub(crate) fn begins_word(name: &[u8], index: usize) -> bool {
    let around = octets_round(name, index);
    if !is_in_word(around.last) {
        return true;
    }
    if !octet_at(name, index).is_ascii_uppercase() {
        return false;
    }
    if around.last.is_ascii_uppercase() {
        begins_after_capital(around)
    } else {
        !is_in_acronym(around)
    }
}

// Whether a word begins at a capital behind another.
fn begins_after_capital(around: Neighbours) -> bool {
    let is_plural = around.next == b's' && !around.after_next.is_ascii_lowercase();
    let has_version = around.next == b'v' && around.after_next.is_ascii_digit();
    around.next.is_ascii_lowercase() && !is_plural && !has_version
}

// Whether a capital behind a small letter goes on with a word that the letter begins.
fn is_in_acronym(around: Neighbours) -> bool {
    around.last.is_ascii_lowercase()
        && !is_in_word(around.before_last)
        && !around.next.is_ascii_lowercase()
}
