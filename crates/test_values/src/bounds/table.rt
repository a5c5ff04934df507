//! Tables that come to constraint sets.
use super::{LETTERS, permits, permitted};
use crate::assertions::assert_that;
use asn1_bounds::{ConstraintTable, Constraints, PermittedAlphabet};
use std::alloc::Global;
use std::process::Abort;

const ANYTHING: ConstraintTable<'static> = ConstraintTable::NONE;

/// The additions to the characters of the set, if there are any.
fn additions<'a>(set: &Constraints<'a>) -> Option<&'a [PermittedAlphabet]> {
    match set.permitted_alphabet() {
        Some(part) => part.extensible,
        None => None,
    }
}

/// Asserts that the table's set is of the letters and these additions, and whether they have a marker.
fn assert_letters(
    rt: &impl Abort,
    alloc: Global,
    table: ConstraintTable,
    more: Option<&[PermittedAlphabet]>,
) {
    let set = table.to_constraints(alloc).expect(rt, "memory");
    assert_that(rt, permits(&set, LETTERS), "the letters");
    assert_that(rt, additions(&set) == more, "the additions");
    assert_that(rt, set.extensible() == more.is_some(), "the marker");
}

#[test]
fn own_characters(rt: HostRuntime) {
    let alloc = rt.alloc();
    assert_letters(&rt, alloc, ANYTHING.with_permitted_alphabet(LETTERS), None);
    let more = [permitted(&rt, alloc, &[100])];
    let extensible = ANYTHING.with_extensible_alphabet(LETTERS, &more);
    assert_letters(&rt, alloc, extensible, Some(&more));
}

#[test]
fn the_set_has_the_marker(rt: HostRuntime) {
    let set = ANYTHING.with_extension_marker().to_constraints(rt.alloc());
    assert_that(&rt, set.expect(&rt, "memory").extensible(), "the marker");
}
