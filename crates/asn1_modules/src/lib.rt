//! Lists the names of parsed modules, and writes messages about names that are wrong.
//!
//! | Item | What it is |
//! |---|---|
//! | [`Source`] | a text with the modules that were read of it; several are one set of modules |
//! | [`collect_names`] | the names that the modules define, import and use, as `asn1_names` checks them |
//! | [`NameMessages`] | the messages of what is wrong with names, with a name that may be meant for the first hundred |
//! | [`standard_arc`] | the number of an arc that has a name of its own |
//! | [`used_name`] | the definition that a reference is to; that of a type of the language which another defines is in a module apart |
//! | [`type_of_open_value`] | the name of the type of a value of an open type |
//! | [`ClassIndex`], [`FoundClass`], [`is_known_class`] | the information object classes, by their names |
//!
//! The contract of [`collect_names`] promises that the names of all definitions of all modules are listed, in the order of the
//! texts (`defined`), and all names behind IMPORTS (`imported`), each by its place (`specs/Places`).
//!
//! No clause covers the list of references, which tests alone show:
//!
//! - It has every reference to a type, to the number of a tag, of an item or of an arc, and every exported name.
//! - It has the name of a value if no type of the set has an item of this name. Only the type of the value tells whether such a
//!   name is that of an item.
//! - It has no name of an object, of an object set or inside a macro, and none in the braces of an argument or a table constraint.
//!   The name of a parameter is no reference.
//! - Names side by side, as the arcs of an object identifier, are in it from a definition of an OBJECT IDENTIFIER, and from no
//!   other value.
//!
//! The calls return for all modules, and fail only if memory runs out.
#![tactic(auto)]

mod arcs;
mod associated;
mod built_in;
mod class_index;
mod classes;
mod collector;
mod definitions;
mod identifiers;
mod messages;
mod modules;
mod references;
mod similar;
mod source;
mod types;
mod values;

pub use arcs::standard_arc;
pub use class_index::{ClassIndex, FoundClass, is_known_class};
pub use messages::NameMessages;
pub use modules::collect_names;
pub use references::{type_of_open_value, used_name};
pub use source::Source;
