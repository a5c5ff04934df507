//! Classes, tags, trees of tags and names of types.
use crate::assertions::{assert_that, assert_written};
use asn1_tags::{Class, Identifier, Tag, TagTree};
use std::process::Abort;

mod variants;

const UNIVERSAL: &[(Tag, u32)] = &[
    (Tag::EOC, 0),
    (Tag::BOOL, 1),
    (Tag::INTEGER, 2),
    (Tag::BIT_STRING, 3),
    (Tag::OCTET_STRING, 4),
    (Tag::NULL, 5),
    (Tag::OBJECT_IDENTIFIER, 6),
    (Tag::OBJECT_DESCRIPTOR, 7),
    (Tag::EXTERNAL, 8),
    (Tag::REAL, 9),
    (Tag::ENUMERATED, 10),
    (Tag::EMBEDDED_PDV, 11),
    (Tag::UTF8_STRING, 12),
    (Tag::RELATIVE_OID, 13),
    (Tag::SEQUENCE, 16),
    (Tag::SET, 17),
    (Tag::NUMERIC_STRING, 18),
    (Tag::PRINTABLE_STRING, 19),
    (Tag::TELETEX_STRING, 20),
    (Tag::VIDEOTEX_STRING, 21),
    (Tag::IA5_STRING, 22),
    (Tag::UTC_TIME, 23),
    (Tag::GENERALIZED_TIME, 24),
    (Tag::GRAPHIC_STRING, 25),
    (Tag::VISIBLE_STRING, 26),
    (Tag::GENERAL_STRING, 27),
    (Tag::UNIVERSAL_STRING, 28),
    (Tag::CHARACTER_STRING, 29),
    (Tag::BMP_STRING, 30),
    (Tag::DATE, 31),
    (Tag::CHOICE, 0),
];

fn assert_universal(rt: &impl Abort, tag: Tag, number: u32) {
    assert!(rt; tag == Tag::new(Class::Universal, number), "at {number}");
}

#[test]
fn universal_tags_have_their_numbers(rt: HostRuntime) {
    for (tag, number) in UNIVERSAL {
        assert_universal(&rt, *tag, *number);
    }
}

#[test]
fn classes_and_tags_have_their_texts(rt: HostRuntime) {
    let alloc = rt.alloc();
    assert_written(&rt, alloc, &Class::Universal, "universal");
    assert_written(&rt, alloc, &Class::Application, "application");
    assert_written(&rt, alloc, &Class::Context, "context");
    assert_written(&rt, alloc, &Class::Private, "private");
    assert_written(&rt, alloc, &Tag::EOC, "Universal 0");
    assert_written(&rt, alloc, &Tag::new_application(30), "Application 30");
    assert_written(&rt, alloc, &Tag::new_context(0), "Context 0");
    let greatest = Tag::new_private(4294967295);
    assert_written(&rt, alloc, &greatest, "Private 4294967295");
}

#[test]
fn classes_have_the_numbers_below_4(rt: HostRuntime) {
    assert_that(&rt, Class::from_u8(3) == Some(Class::Private), "3");
    assert_that(&rt, Class::from_u8(4).is_none(), "4");
}

#[test]
fn a_tag_gets_another_number(rt: HostRuntime) {
    assert_that(&rt, Class::Universal.is_universal(), "universal");
    assert_that(&rt, !Class::Private.is_universal(), "private");
    let tag = Tag::new_private(1).set_value(7);
    assert_that(&rt, tag == Tag::new_private(7), "the tag");
}

macro_rules! tag {
    ($class:ident $value:literal) => {
        Tag {
            class: Class::$class,
            value: $value,
        }
    };
}

// The tree of a type with that tag.
macro_rules! leaf {
    ($class:ident $value:literal) => {
        TagTree::Leaf(tag!($class $value))
    };
}

const JUST_A0: &[TagTree<'static>] = &[leaf!(Application 0)];

const JUST_A1: &[TagTree<'static>] = &[leaf!(Application 1)];

const APPLICATIONS: &[TagTree<'static>] = &[leaf!(Application 0), leaf!(Application 1)];

const CONTEXTS: &[TagTree<'static>] = &[leaf!(Context 0), leaf!(Context 2)];

const A0_TWICE: &[TagTree<'static>] = &[
    TagTree::Choice(JUST_A0),
    leaf!(Application 0),
    leaf!(Context 2),
];

const A1_BELOW: &[TagTree<'static>] = &[leaf!(Universal 1), TagTree::Choice(JUST_A1)];

const C1_AND_NOTHING: &[TagTree<'static>] = &[leaf!(Context 1), TagTree::Choice(&[])];

// The choice of the trees has that smallest tag, and each tag once or not.
fn assert_leaves(rt: &impl Abort, nodes: &[TagTree<'_>], smallest: Tag, is_unique: bool) {
    let tree = TagTree::Choice(nodes);
    assert_that(rt, tree.smallest_tag() == smallest, "the smallest tag");
    assert_that(rt, tree.is_unique() == is_unique, "is_unique");
}

const DISTINCT: &[TagTree<'static>] = &[
    leaf!(Universal 0),
    leaf!(Universal 3),
    TagTree::Choice(APPLICATIONS),
    TagTree::Choice(CONTEXTS),
    leaf!(Private 0),
    leaf!(Private 1),
];

const COUSINS: &[TagTree<'static>] = &[
    leaf!(Universal 0),
    TagTree::Choice(APPLICATIONS),
    TagTree::Choice(A1_BELOW),
];

const C0_OR_U3: &[TagTree<'static>] = &[leaf!(Context 0), leaf!(Universal 3)];

const NOTHING: &[TagTree<'static>] = &[TagTree::Choice(&[])];

#[test]
fn leaves_count_at_any_depth(rt: HostRuntime) {
    assert_leaves(&rt, DISTINCT, Tag::EOC, true);
    assert_leaves(&rt, COUSINS, Tag::EOC, false);
    assert_leaves(&rt, C0_OR_U3, Tag::BIT_STRING, true);
    assert_leaves(&rt, NOTHING, Tag::new_private(4294967295), true);
}

#[test]
fn leaves_are_distinct_at_any_depth(rt: HostRuntime) {
    assert_that(&rt, TagTree::is_unique_set(DISTINCT), "distinct");
    assert_that(&rt, !TagTree::is_unique_set(COUSINS), "cousins");
}

/// Asserts that the leaf with this index has this tag, which no leaf before it has.
fn assert_leaf(rt: &impl Abort, nodes: &[TagTree<'_>], index: usize, tag: Tag) {
    assert_that(
        rt,
        TagTree::leaf_count(nodes).is_some(),
        "the number of leaves",
    );
    if TagTree::leaf_count(nodes).is_some() {
        let position = TagTree::leaf_position(&tag, nodes);
        assert_that(rt, position == Some(index), "leaf_position");
        assert_that(rt, TagTree::leaf_at(nodes, index) == Some(tag), "leaf_at");
    }
}

#[test]
fn leaves_are_found_by_tag_and_by_index(rt: HostRuntime) {
    assert_leaf(&rt, DISTINCT, 0, Tag::EOC);
    assert_leaf(&rt, DISTINCT, 5, Tag::new_context(2));
    assert_leaf(&rt, DISTINCT, 7, Tag::new_private(1));
    assert_leaf(&rt, COUSINS, 2, Tag::new_application(1));
}

const NOTHING_BELOW: &[TagTree<'static>] = &[leaf!(Universal 3), TagTree::Choice(C1_AND_NOTHING)];

const ASCENDING_TREES: &[TagTree<'static>] = &[
    leaf!(Universal 0),
    leaf!(Application 0),
    TagTree::Choice(JUST_A0),
    TagTree::Choice(APPLICATIONS),
    TagTree::Choice(A0_TWICE),
    TagTree::Choice(JUST_A1),
    TagTree::Choice(CONTEXTS),
    TagTree::Choice(C1_AND_NOTHING),
    leaf!(Private 4294967295),
    TagTree::Choice(&[]),
];

#[test]
fn trees_go_by_smallest_tag_then_structure(rt: HostRuntime) {
    for (i, left) in ASCENDING_TREES.iter().enumerate() {
        for (j, right) in ASCENDING_TREES.iter().enumerate() {
            assert_that(&rt, left.cmp(right) == i.cmp(&j), "the order");
        }
    }
}

#[test]
fn a_tree_prints_as_its_tags(rt: HostRuntime) {
    let tree = TagTree::Choice(NOTHING_BELOW);
    let shown = format!(in rt.alloc(); "{tree:?}").expect(&rt, "memory");
    let text = "(Universal 3, (Context 1, ()))";
    assert_that(&rt, shown.as_str() == text, text);
}

const NAMES: &[(Identifier, &str)] = &[
    (Identifier::BOOL, "BOOLEAN"),
    (Identifier::INTEGER, "INTEGER"),
    (Identifier::ENUMERATED, "ENUMERATED"),
    (Identifier::REAL, "REAL"),
    (Identifier::NULL, "NULL"),
    (Identifier::BIT_STRING, "BIT_STRING"),
    (Identifier::OCTET_STRING, "OCTET_STRING"),
    (Identifier::OBJECT_IDENTIFIER, "OBJECT_IDENTIFIER"),
    (Identifier::RELATIVE_OID, "RELATIVE_OID"),
    (Identifier::IRI, "OID_IRI"),
    (Identifier::RELATIVE_IRI, "RELATIVE_OID_IRI"),
    (Identifier::SEQUENCE, "SEQUENCE"),
    (Identifier::SEQUENCE_OF, "SEQUENCE_OF"),
    (Identifier::SET, "SET"),
    (Identifier::SET_OF, "SET_OF"),
    (Identifier::CHOICE, "CHOICE"),
    (Identifier::EXTERNAL, "SEQUENCE"),
    (Identifier::EMBEDDED_PDV, "SEQUENCE"),
    (Identifier::INSTANCE_OF, "SEQUENCE"),
    (Identifier::UNRESTRICTED_CHARACTER_STRING, "SEQUENCE"),
    (Identifier::BMP_STRING, "BMPString"),
    (Identifier::GENERAL_STRING, "GeneralString"),
    (Identifier::GRAPHIC_STRING, "GraphicString"),
    (Identifier::IA5_STRING, "IA5String"),
    (Identifier::NUMERIC_STRING, "NumericString"),
    (Identifier::PRINTABLE_STRING, "PrintableString"),
    (Identifier::TELETEX_STRING, "TeletexString"),
    (Identifier::UTF8_STRING, "UTF8String"),
    (Identifier::VISIBLE_STRING, "VisibleString"),
    (Identifier::DATE, "DATE"),
    (Identifier::DATE_TIME, "DATE_TIME"),
    (Identifier::DURATION, "DURATION"),
    (Identifier::GENERALIZED_TIME, "GeneralizedTime"),
    (Identifier::TIME, "TIME"),
    (Identifier::TIME_OF_DAY, "TIME_OF_DAY"),
    (Identifier::UTC_TIME, "UTCTime"),
];

#[test]
fn names_of_types_have_their_texts(rt: HostRuntime) {
    for (name, text) in NAMES {
        assert_that(&rt, name.0 == Some(*text), text);
    }
    assert_that(&rt, Identifier::EMPTY.0.is_none(), "EMPTY");
}
