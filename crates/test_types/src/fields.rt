//! Field tables.
use asn1_fields::{
    Field, FieldPresence, Fields, first_sequence_clash, first_set_clash, is_canonical,
};
use asn1_tags::{Class, Tag, TagTree};
use std::process::Abort;

// The tree of a type with that tag.
macro_rules! leaf {
    ($class:ident $value:literal) => {
        TagTree::Leaf(Tag {
            class: Class::$class,
            value: $value,
        })
    };
}

// A field of that presence and tree.
macro_rules! field {
    ($presence:ident $tree:expr) => {
        Field {
            index: 0,
            tag: Tag::EOC,
            tag_tree: $tree,
            presence: FieldPresence::$presence,
            name: "",
        }
    };
}

const C3_OR_C4: &[TagTree<'static>] = &[leaf!(Context 3), leaf!(Context 4)];

const U1_OR_U2: &[TagTree<'static>] = &[leaf!(Universal 1), leaf!(Universal 2)];

const U3: Field<'static> = field!(Required leaf!(Universal 3));

const A0: Field<'static> = field!(Required leaf!(Application 0));

const C2: Field<'static> = field!(Required leaf!(Context 2));

// Tables, and whether they are in canonical order.
const ORDERS: &[(&[Field<'static>], bool)] = &[
    (&[U3, A0, C2], true),
    (&[U3, C2, A0], false),
    (&[C2, U3, C2], false),
    (&[C0, OPTIONAL_C0], true),
    (&[OPTIONAL_C0, C0], true),
    (&[], true),
];

fn assert_order(rt: &impl Abort, fields: &[Field<'_>], canonical: bool) {
    assert!(rt; is_canonical(fields) == canonical);
}

#[test]
fn fields_go_by_their_smallest_tags(rt: HostRuntime) {
    for (fields, canonical) in ORDERS {
        assert_order(&rt, fields, *canonical);
    }
}

const TWO: &[Field<'static>; 2] = &[U3, A0];

#[test]
fn tables_are_made_of_arrays_and_slices(rt: HostRuntime) {
    assert!(rt; Fields::from_static(TWO).as_slice() == TWO.as_slice());
    let of_slice = Fields::<2>::from_slice(TWO).unwrap();
    assert!(rt; of_slice.as_slice() == TWO.as_slice());
    assert!(rt; Fields::<2>::from_slice(&[U3]).is_none());
}

// The fields as those of a SEQUENCE: their clash, and whether they are in canonical order.
fn assert_sequence(
    rt: &impl Abort,
    fields: &[Field<'_>],
    clash: Option<(usize, usize)>,
    canonical: bool,
) {
    assert!(rt; first_sequence_clash(fields) == clash);
    assert_order(rt, fields, canonical);
}

const OPTIONAL_C0: Field<'static> = field!(Optional leaf!(Context 0));

const C0: Field<'static> = field!(Required leaf!(Context 0));

const C1: Field<'static> = field!(Required leaf!(Context 1));

const C4: Field<'static> = field!(Required leaf!(Context 4));

const DEFAULT_U1: Field<'static> = field!(Default leaf!(Universal 1));

const OPTIONAL_U2: Field<'static> = field!(Optional leaf!(Universal 2));

const U1: Field<'static> = field!(Required leaf!(Universal 1));

const U2: Field<'static> = field!(Required leaf!(Universal 2));

const GROUP: Field<'static> = field!(Optional TagTree::Choice(C3_OR_C4));

const ANYTHING: Field<'static> = field!(Optional TagTree::Choice(&[]));

const NEEDED: Field<'static> = field!(Required TagTree::Choice(&[]));

// Components of a SEQUENCE, their clash, and whether they are in canonical order. A component that may be absent has to be told
// apart from those after it up to the next that is always there. A choice of nothing has every tag.
const SEQUENCES: &[(&[Field<'static>], Option<(usize, usize)>, bool)] = &[
    (&[OPTIONAL_C0, C0], Some((0, 1)), true),
    (&[OPTIONAL_C0, C1, C0], None, false),
    (&[], None, true),
    (&[DEFAULT_U1, OPTIONAL_U2, U1], Some((0, 2)), false),
    (&[GROUP, C4], Some((0, 1)), true),
    (&[ANYTHING, U2], Some((0, 1)), false),
    (&[NEEDED, U2], None, false),
];

#[test]
fn a_sequence_tells_its_components_apart_where_one_may_be_absent(rt: HostRuntime) {
    for (fields, clash, canonical) in SEQUENCES {
        assert_sequence(&rt, fields, *clash, *canonical);
    }
}

// The fields as those of a SET.
fn assert_set(rt: &impl Abort, fields: &[Field<'_>], clash: Option<(usize, usize)>) {
    assert!(rt; first_set_clash(fields) == clash);
}

const CHOICE: Field<'static> = field!(Required TagTree::Choice(U1_OR_U2));

// Components of a SET, and their clash.
const SETS: &[(&[Field<'static>], Option<(usize, usize)>)] = &[
    (&[U2, CHOICE], Some((0, 1))),
    (&[U3, U2, CHOICE, CHOICE], Some((1, 2))),
    (&[U2, U3], None),
    (&[], None),
    (&[U2, NEEDED], Some((0, 1))),
];

#[test]
fn a_set_tells_all_its_components_apart(rt: HostRuntime) {
    for (fields, clash) in SETS {
        assert_set(&rt, fields, *clash);
    }
}

#[test]
fn a_table_tells_what_may_be_absent(rt: HostRuntime) {
    let fields = Fields::<3>::from_slice(&[OPTIONAL_C0, DEFAULT_U1, U2]).unwrap();
    assert!(rt; fields.is_not_empty() && fields.has_required_field());
    assert!(rt; fields.number_of_optional_and_default_fields() == 2);
    let fields = Fields::<1>::from_slice(&[OPTIONAL_C0]).unwrap();
    assert!(rt; !fields.has_required_field());
}
