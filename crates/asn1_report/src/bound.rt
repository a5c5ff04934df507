//! Bounds, as they are written.
ghost use Rattle.std.specs.Prelude.{◌≡◌};
ghost use Rattle.asn1_report.specs.Grammar.{end_of, range_of, bound_of, bounds_of};
ghost use Rattle.asn1_report.specs.Parts.{parts_of};

use crate::number::read_integer;
use crate::parts::{Parts, split_once};
use asn1_ranges::Bounded;

// The end of a range, which may be missing.
fn read_end(text: &[u8]) -> Option<Option<i128>>
    ensures read { result ≡ end_of text.now }
{
    if text.is_empty() {
        Some(None)
    } else {
        read_integer(text).map(Some)
    }
}

// The range whose start has the first text, and whose end comes after a dot of the second.
fn read_range(start: &[u8], after: &[u8]) -> Option<Bounded<i128>>
    ensures read { result ≡ range_of start.now after.now }
{
    match after {
        [b'.', end @ ..] => Some(Bounded::Range {
            start: read_end(start)?,
            end: read_end(end)?,
        }),
        _ => None,
    }
}

// The bound that the text spells: `none`, a number, or two dots with an optional number on each side.
fn read_bound(text: &[u8]) -> Option<Bounded<i128>>
    ensures read { result ≡ bound_of text.now }
{
    if text == b"none".as_slice() {
        return Some(Bounded::None);
    }
    match split_once(text, b'.') {
        Some((start, after)) => read_range(start, after),
        None => read_integer(text).map(Bounded::Single),
    }
}

/// The bounds that the text spells: a bound, `&` and a bound.
pub(crate) fn read_bounds(text: &[u8]) -> Option<(Bounded<i128>, Bounded<i128>)>
    ensures read { result ≡ bounds_of (parts_of text.now) }
{
    match Parts::of(text) {
        Parts::Three(first, sign, second) => {
            if sign == b"&".as_slice() {
                Some((read_bound(first)?, read_bound(second)?))
            } else {
                None
            }
        }
        _ => None,
    }
}
