//! Whether a table of tags fits a list of tags.

ghost use Rattle.std.specs.Prelude.{◌≡◌, ◌↔◌, ◌<◌, IsTrue, length, slice_get, MatchOption, Some};
ghost use Rattle.std.specs.declared.cmp.Ordering.TheVariants.{Less};
ghost use Rattle.asn1_tags.specs.TagTables.{EntryFits, FailsFirstAt, TableFits, entry_cmp};

use crate::tags::Tag;
use std::cmp::Ordering;

/// The index where the table first fails to fit the tags; `None` if it fits.
pub(crate) fn first_mismatch(tags: &[Tag], table: &[(Tag, usize)]) -> Option<usize>
    ensures { MatchOption result (TableFits tags.now table.now) (FailsFirstAt tags.now table.now) }
{
    let shorter = tags.len().min(table.len());
    for index in 0..shorter {
        if !entry_fits(tags, table, index) {
            return Some(index);
        }
    }
    if tags.len() == table.len() {
        None
    } else {
        Some(shorter)
    }
}

// Whether the entry at the index has its tag at its position, and comes after the entry before it.
#[tactic(auto, using(crate::proofs::Fitting::entries))]
fn entry_fits(tags: &[Tag], table: &[(Tag, usize)], index: usize) -> bool
    requires { index < length table.now }
    ensures { IsTrue result ↔ EntryFits tags.now table.now index }
{
    let entry = &table[index];
    has_tag(tags, entry) && (index == 0 || is_before(&table[index - 1], entry))
}

// Whether the position of the entry is in the list, and has the entry's tag.
fn has_tag(tags: &[Tag], entry: &(Tag, usize)) -> bool
    ensures { IsTrue result ↔ (slice_get tags.now entry.now.1 ≡ Some entry.now.0) }
{
    match tags.get(entry.1) {
        Some(tag) => tag.const_eq(&entry.0),
        None => false,
    }
}

// Whether the first entry comes strictly before the second: by tag, and then by position.
fn is_before(first: &(Tag, usize), second: &(Tag, usize)) -> bool
    ensures { IsTrue result ↔ (entry_cmp first.now second.now ≡ Less) }
{
    let order = first.0.const_cmp(&second.0).then(first.1.cmp(&second.1));
    order == Ordering::Less
}
