//! A table that does not fit its tags.
use asn1_tags::{Class, Tag, TagTree, Variants};
use std::alloc::Global;
use std::io;

const C0: Tag = Tag {
    class: Class::Context,
    value: 0,
};

/// Three tags, of which the last two are the same.
const TAGS: &[TagTree<'static>] = &[
    TagTree::Leaf(C0),
    TagTree::Leaf(Tag::BIT_STRING),
    TagTree::Leaf(Tag::BIT_STRING),
];

/// A table of them whose second entry does not ascend.
const TABLE: &[(Tag, usize)] = &[(Tag::BIT_STRING, 1), (Tag::BIT_STRING, 1), (C0, 0)];

/// Makes the list of the tags with the table, and prints the error.
pub(crate) fn run(rt: &impl Print, alloc: Global) -> io::Result<()> {
    let Ok(table) = Vec::from_slice(alloc, TABLE) else {
        return println!(rt; "no table");
    };
    match Variants::with_table(alloc, TAGS, table) {
        Ok(_) => println!(rt; "fits"),
        Err(error) => println!(rt; "{error}"),
    }
}
