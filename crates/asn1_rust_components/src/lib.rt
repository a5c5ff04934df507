//! The text of Rust types for SEQUENCE and SET types of ASN.1, and the parts that types of each kind share.
//!
//! A file is given as data: a type with the names of its parts, the types of these as code has them, and their tagging
//! ([`TypeFile`]). The calls append the code to a `Draft` of `asn1_rust_code`, in the form of docs/TYPES.md. `asn1_rust_types`
//! makes whole files.
//!
//! | Item | What it is |
//! |---|---|
//! | [`TypeFile`], [`TypeBody`] | a file with a SEQUENCE, a SET, a group of additions, a CHOICE, an ENUMERATED or a string |
//! | [`Constructed`], [`Component`], [`Usage`], [`DefaultValue`] | the components of a type |
//! | [`ChoiceType`], [`Alternative`], [`Tree`] | the alternatives of a CHOICE, and tags with which they begin |
//! | [`Enumeration`], [`Item`] | the items of an ENUMERATED |
//! | [`RestrictedString`], [`Sizes`] | a string with constraints |
//! | [`SpellingLaw`], [`LawCall`] | the law that a type has one spelling, and the calls that it follows from |
//! | [`Alias`], [`NamedNumbers`], [`Marker`], [`Constant`], [`ConstantValue`] | names for types, types that name tags, and constants |
//! | [`append_sequence`], [`append_set`], [`append_group`] | the code of a type of components |
//! | [`append_type`], [`append_table_head`], [`append_table_tail`], [`append_agreement`], [`append_theorems`], [`append_encode`], [`append_decode`] | the parts of each type |
//! | [`append_trees`], [`tree_code`], [`constant_of`], [`append_entry`] | constants of trees, and lists in ghost members |
//! | [`append_struct`], [`append_slots`], [`append_layout`], [`append_full`], [`append_table_of`] and the like | their parts |
//! | [`impl_line`] | the first line of an `impl` |
//! | [`identifier_code`], [`owned`] | the call that names a type, and texts |
//! | [`alias_file`], [`marker_file`], [`constant_file`] | files that are no type |
//!
//! No contract covers the text: the check of the printed crate proves it. Calls fail only if memory runs out.
#![tactic(auto)]

mod aliases;
mod common;
mod constructed;
mod definitions;
mod reader;
mod slots;
mod table;
mod trees;
mod writer;

pub use aliases::{
    Alias, Constant, ConstantValue, Marker, NamedNumbers, alias_file, constant_file, marker_file,
};
pub use common::{
    Table, append_agreement, append_decode, append_encode, append_table_head, append_table_tail,
    append_theorems, append_type, identifier_code, impl_line, owned,
};
pub use constructed::{
    Kind, Subject, append_group, append_meaning_of, append_sequence, append_set, append_struct,
};
pub use definitions::{
    Alternative, ChoiceType, Component, Constructed, DefaultValue, Enumeration, Held, Item,
    LawCall, ListKind, RestrictedString, Sizes, SpellingLaw, Tree, TypeBody, TypeFile, Usage,
};
pub use reader::{append_full, append_plain_arm};
pub use slots::{append_entry, append_layout, append_slots, slot_path};
pub use table::append_table_of;
pub use trees::{append_trees, constant_of, tree_code};
pub use writer::append_field_writer;
