//! Each call that takes memory, with ample memory, and worked tables.
use asn1_clash::{FlatComponent, FlatTree, TreeSummary, find_sequence_clash, find_set_clash};
use asn1_fields::{Field, FieldPresence, first_sequence_clash, first_set_clash};
use asn1_tags::{Class, Tag, TagTree};
use std::alloc::Global;
use std::process::Abort;

// The tree of a type with that context-specific tag.
macro_rules! leaf {
    ($value:expr) => {
        TagTree::Leaf(Tag {
            class: Class::Context,
            value: $value,
        })
    };
}

const C3_OR_C4: &[TagTree<'static>] = &[leaf!(3), leaf!(4)];

fn field(presence: FieldPresence, tag_tree: TagTree<'static>) -> Field<'static> {
    Field {
        index: 0,
        tag: Tag::EOC,
        tag_tree,
        presence,
        name: "",
    }
}

fn required(value: u32) -> Field<'static> {
    field(FieldPresence::Required, leaf!(value))
}

fn optional(value: u32) -> Field<'static> {
    field(FieldPresence::Optional, leaf!(value))
}

// The clashes that are found in these components.
fn assert_found(
    rt: &impl Abort,
    alloc: Global,
    components: &[FlatComponent],
    sequence: Option<(usize, usize)>,
    set: Option<(usize, usize)>,
) {
    assert!(rt; find_sequence_clash(alloc, components).expect(rt, "memory") == sequence);
    assert!(rt; find_set_clash(alloc, components).expect(rt, "memory") == set);
}

// The clashes of a table, which those that take no memory find too.
fn assert_clashes(
    rt: &impl Abort,
    alloc: Global,
    fields: &[Field<'static>],
    sequence: Option<(usize, usize)>,
    set: Option<(usize, usize)>,
) {
    assert!(rt; first_sequence_clash(fields) == sequence && first_set_clash(fields) == set);
    let components = FlatComponent::of_fields(alloc, fields).expect(rt, "memory");
    assert_found(rt, alloc, &components, sequence, set);
}

#[test]
fn clashes_are_the_least(rt: HostRuntime) {
    let alloc = rt.alloc();
    let apart = [required(0), required(1), required(0)];
    assert_clashes(&rt, alloc, &apart, None, Some((0, 2)));
    let run = [optional(1), optional(2), required(1), required(2)];
    assert_clashes(&rt, alloc, &run, Some((0, 2)), Some((0, 2)));
    let group = field(FieldPresence::Default, TagTree::Choice(C3_OR_C4));
    assert_clashes(
        &rt,
        alloc,
        &[group, required(4)],
        Some((0, 1)),
        Some((0, 1)),
    );
}

fn assert_summary_of(rt: &impl Abort, tags: &mut [Tag], is_unique: bool) {
    let summary = TreeSummary::of(tags);
    assert!(rt;
        summary.is_unique == is_unique
            && summary.leaf_count == 3
            && summary.smallest_tag == Tag::new_context(3)
    );
}

fn assert_summary(
    rt: &impl Abort,
    alloc: Global,
    nodes: &'static [TagTree<'static>],
    is_unique: bool,
) {
    let mut tree = FlatTree::of(alloc, &TagTree::Choice(nodes)).expect(rt, "memory");
    tree.push(Tag::new_context(9)).expect(rt, "memory");
    assert_summary_of(rt, &mut tree.tags, is_unique);
}

#[test]
fn summaries(rt: HostRuntime) {
    assert_summary(&rt, rt.alloc(), C3_OR_C4, true);
}
