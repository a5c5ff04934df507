//! The searches for a tag, which count their comparisons.

ghost use Rattle.std.specs.Prelude.{◌≡◌, ◌≢◌, ◌+◌, ◌<◌, ◌≤◌, ◌^◌, [], length};
ghost use Rattle.std.specs.List.Sorted.{IsStrictlySortedBy};
ghost use Rattle.asn1_tags.specs.TagTables.{binary_digits, entry_cmp, first_position};
ghost use Rattle.asn1_tags.specs.Tags.{position_of, tag_cmp};

use crate::tags::Tag;
use std::cmp::Ordering;

// Compares tags, and counts how often it did.
#[derive(Drop)]
struct Meter {
    comparisons: usize,
}

impl Meter {
    // A meter that has compared no tags.
    fn new() -> Meter
        ensures { result.comparisons ≡ 0 }
    {
        Meter { comparisons: 0 }
    }

    // The canonical order of two tags, which is counted as one comparison.
    fn compare(&mut self, first: &Tag, second: &Tag) -> Ordering
        requires { self.old.comparisons + 1 < 2 ^ 64 }
        ensures order { result ≡ tag_cmp first.now second.now }
        ensures counted { self.new.comparisons ≡ self.old.comparisons + 1 }
    {
        self.comparisons += 1;
        first.const_cmp(second)
    }
}

/// The first index of the tag in the list, and the number of comparisons that it took to find it.
pub(crate) fn find_in_list(tags: &[Tag], tag: &Tag) -> (Option<usize>, usize)
    ensures index { result.0 ≡ position_of tag.now tags.now }
    ensures comparisons { result.1 ≤ length tags.now }
    ensures some { 0 < length tags.now → 0 < result.1 }
{
    let mut meter = Meter::new();
    for (index, other) in tags.iter().enumerate() {
        if meter.compare(other, tag).is_eq() {
            return (Some(index), meter.comparisons);
        }
    }
    (None, meter.comparisons)
}

/// The position in the first entry of the tag, and the number of comparisons that it took to find it.
///
/// The entries that are left to be searched are halved by each comparison.
pub(crate) fn find_in_table(table: &[(Tag, usize)], tag: &Tag) -> (Option<usize>, usize)
    requires { IsStrictlySortedBy entry_cmp table.now }
    ensures index { result.0 ≡ first_position tag.now table.now }
    ensures comparisons { result.1 ≤ binary_digits (length table.now) }
    ensures some { 0 < length table.now → 0 < result.1 }
{
    let mut meter = Meter::new();
    let mut found = None;
    let mut start = 0;
    let mut end = table.len();
    while start < end {
        let middle = start + (end - start) / 2;
        let (other, position) = &table[middle];
        match meter.compare(other, tag) {
            Ordering::Less => start = middle + 1,
            Ordering::Equal => {
                found = Some(*position);
                end = middle;
            }
            Ordering::Greater => end = middle,
        }
    }
    (found, meter.comparisons)
}
