//! Lists of tags, with a table or none.
use super::A0_TWICE;
use crate::assertions::assert_that;
use asn1_tags::{Class, Tag, TagTree, Variants, VariantsError};
use std::alloc::{AllocError, Global};
use std::process::Abort;

/// Asserts that the list was made and has these tags, and that a tag is found at this place in this many comparisons, which tell
/// whether there is a table.
fn assert_made(
    rt: &impl Abort,
    made: Result<Variants, AllocError>,
    tags: &[Tag],
    (tag, index, count): (Tag, usize, usize),
) {
    let variants = made.expect(rt, "memory");
    assert_that(rt, variants.as_slice() == tags, "the tags");
    assert_found(rt, &variants, tag, Some(index), count);
}

const A0: Tag = Tag {
    class: Class::Application,
    value: 0,
};

const C2: Tag = Tag {
    class: Class::Context,
    value: 2,
};

const A0_A0_C2: &[Tag] = &[A0, A0, C2];

#[test]
fn lists_of_tags_are_made(rt: HostRuntime) {
    let alloc = rt.alloc();
    let last = (C2, 2, 3);
    assert_made(&rt, Variants::new(alloc, A0_TWICE), A0_A0_C2, last);
    assert_made(&rt, Variants::from_slice(alloc, A0_TWICE), A0_A0_C2, last);
    assert_made(&rt, Variants::from_static(alloc, A0_TWICE), A0_A0_C2, last);
    assert_found(&rt, &Variants::empty(alloc), U3, None, 0);
}

const C0: Tag = Tag {
    class: Class::Context,
    value: 0,
};

const C0_U3_U3: &[TagTree<'static>] = &[
    TagTree::Leaf(C0),
    TagTree::Leaf(Tag::BIT_STRING),
    TagTree::Leaf(Tag::BIT_STRING),
];

const FITTING: &[(Tag, usize)] = &[(Tag::BIT_STRING, 1), (Tag::BIT_STRING, 2), (C0, 0)];

const U5_C0_U1_U4: &[TagTree<'static>] = &[
    TagTree::Leaf(Tag::NULL),
    TagTree::Leaf(C0),
    TagTree::Leaf(Tag::BOOL),
    TagTree::Leaf(Tag::OCTET_STRING),
];

const OF_FOUR: &[(Tag, usize)] = &[
    (Tag::BOOL, 2),
    (Tag::OCTET_STRING, 3),
    (Tag::NULL, 0),
    (C0, 1),
];

fn copied(rt: &impl Abort, alloc: Global, entries: &[(Tag, usize)]) -> Vec<(Tag, usize)> {
    Vec::from_slice(alloc, entries).expect(rt, "memory")
}

// The tag has that first place, which takes this many comparisons to find.
fn assert_found(
    rt: &impl Abort,
    variants: &Variants,
    tag: Tag,
    index: Option<usize>,
    count: usize,
) {
    let found = variants.find_counted(&tag);
    assert_that(rt, found == (index, count), "find_counted");
}

// The table fails first at the index.
fn assert_mismatch(rt: &impl Abort, alloc: Global, entries: &[(Tag, usize)], index: usize) {
    let table = copied(rt, alloc, entries);
    let made = Variants::with_table(alloc, C0_U3_U3, table);
    let error = Some(VariantsError::TableMismatch(index));
    assert_that(rt, made.err() == error, "the mismatch");
}

const U3: Tag = Tag::BIT_STRING;

// Tables that do not fit the three tags, and where each of them first fails.
const MISMATCHES: &[(&[(Tag, usize)], usize)] = &[
    (&[(U3, 1), (U3, 2)], 2),
    (&[(U3, 1), (U3, 2), (C0, 0), (C0, 0)], 3),
    (&[(U3, 2), (U3, 1), (C0, 0)], 1),
    (&[(U3, 1), (U3, 1), (C0, 0)], 1),
    (&[(U3, 1), (U3, 3), (C0, 0)], 1),
    (&[(U3, 0), (U3, 1), (C0, 2)], 0),
];

#[test]
fn a_table_that_does_not_fit_is_refused(rt: HostRuntime) {
    for (entries, index) in MISMATCHES {
        assert_mismatch(&rt, rt.alloc(), entries, *index);
    }
}

/// The list of the trees' tags, with this table.
fn with_table(
    rt: &impl Abort,
    alloc: Global,
    nodes: &[TagTree<'_>],
    entries: &[(Tag, usize)],
) -> Variants {
    let table = copied(rt, alloc, entries);
    Variants::with_table(alloc, nodes, table).expect(rt, "a table that fits")
}

#[test]
fn a_table_gives_the_first_place(rt: HostRuntime) {
    let variants = with_table(&rt, rt.alloc(), C0_U3_U3, FITTING);
    assert_found(&rt, &variants, Tag::BIT_STRING, Some(1), 2);
    assert_found(&rt, &variants, C0, Some(0), 2);
    assert_found(&rt, &variants, Tag::NULL, None, 2);
    assert_that(&rt, variants.position_of(&U3) == Some(1), "position_of");
    let copy = variants.try_clone(rt.alloc());
    assert_made(&rt, copy, &[C0, U3, U3], (C0, 0, 2));
}

#[test]
fn a_table_of_four_takes_three_comparisons_at_most(rt: HostRuntime) {
    let variants = with_table(&rt, rt.alloc(), U5_C0_U1_U4, OF_FOUR);
    assert_found(&rt, &variants, Tag::OCTET_STRING, Some(3), 3);
    assert_found(&rt, &variants, Tag::NULL, Some(0), 2);
    assert_found(&rt, &variants, C0, Some(1), 2);
    assert_found(&rt, &variants, Tag::BOOL, Some(2), 3);
}

#[test]
fn a_list_without_a_table_is_searched_from_the_left(rt: HostRuntime) {
    let variants = Variants::new(rt.alloc(), C0_U3_U3).expect(&rt, "memory");
    assert_found(&rt, &variants, Tag::BIT_STRING, Some(1), 2);
    assert_found(&rt, &variants, Tag::NULL, None, 3);
    let copy = variants.try_clone(rt.alloc());
    assert_made(&rt, copy, &[C0, U3, U3], (C0, 0, 1));
}
