//! Files of code in the layout of `rt fmt`.
//!
//! A [`Draft`] is a file as far as it was made. It knows the layout of lists, and the names that the file imports for its code and
//! for its clauses; [`Draft::into_file`] puts these above the rest.
//!
//! | Item | What it is |
//! |---|---|
//! | [`Draft`] | a file as far as it was made |
//! | [`Code`], [`List`], [`ListStyle`], [`is_in_one_line`] | lines of code, and lists in them |
//! | [`append_typed`] | a line with a type |
//! | [`Import`], [`TypeName`] | a name that a file imports, and a type as code names it |
//! | [`TagNumber`], [`Tagging`] | a tag, and how a type is tagged |
//! | [`order_of`] | the order of names |
//!
//! Calls fail only if memory runs out.
#![tactic(auto)]

mod code;
mod draft;
mod imports;
mod names;
mod order;
mod tags;
mod typed;

pub use code::{Code, List, ListStyle, is_in_one_line};
pub use draft::{Draft, append_page, joined};
pub use imports::{Import, Imports};
pub use names::TypeName;
pub use order::order_of;
pub use tags::{TagNumber, Tagging, class_word};
pub use typed::append_typed;
