//! Reads texts in the notation of X.680 to trees of modules, with an error for each definition that is not understood.
//!
//! | Item | What it is |
//! |---|---|
//! | [`parse`], [`Parsed`] | reads a text: its modules (`asn1_notation`) and its errors, in the order of the text |
//! | [`associated_modules`], [`AssociatedModule`], [`AssociatedType`] | the definitions of EXTERNAL and its like, if texts name them |
//! | [`parse_object`], [`ObjectNotation`], [`Setting`] | reads an object by the notation of its class (X.681, 10 and 11) |
//! | [`parse_syntax`], [`parse_default`] | reads the braces behind WITH SYNTAX, and the DEFAULT of a field |
//! | [`parse_object_set`], [`ObjectSet`] | reads the elements of an object set (X.681, 12) |
//! | [`MAX_DEPTH`] | how many types, values or constraints may be inside one another |
//! | [`SyntaxError`], [`Cause`] | a place of the text, and why it was not read |
//! | [`Expected`], [`Owner`] | the item that was expected, and the name before it |
//! | [`Slip`] | a frequent slip, which is told by what to write |
//! | [`Construct`] | a construct of X.680 to X.683 that the reader refuses by name |
//! | [`append_cause`] | appends the message of an error |
//!
//! The notation is that of X.680 without TIME, OID-IRI, RELATIVE-OID-IRI and values of REAL, with ANY and ANY DEFINED BY of 1988; with
//! classes and their fields, INSTANCE OF and values of open types (X.681), table constraints and CONSTRAINED BY (X.682), and parameters
//! of types (X.683). EXTERNAL, EMBEDDED PDV, CHARACTER STRING and INSTANCE OF stand in the tree as references. The type of a value of an
//! open type is a name or a word, as in `NULL : NULL`, and stands as the name of an alternative, by the first word of two. Objects and
//! object sets are read to the brace that closes them, and macros of X.208 to their END. A definition of a value whose governor is in
//! capitals is an object where what is in its braces is no value.
//!
//! An error has what was expected and the item that is there. After an error in a definition the reader goes on with the next
//! one, and leaves the one in error out of the tree; the error has the name of that definition.
//!
//! The calls return for every text, and panic for none. No contract covers the meaning of a text; the stored run of test_notation
//! shows it. A text is limited by memory alone. `specs/Nests` has the words for the depth to which types and constraints are
//! read.
#![tactic(auto)]

mod assignments;
mod associated;
mod braced;
mod classes;
mod components;
mod constraints;
mod cursor;
mod error;
mod grammar;
mod macros;
mod messages;
mod modules;
mod named_types;
mod object_sets;
mod object_syntax;
mod objects;
mod parameters;
mod parsed;
mod plain_constraints;
mod plain_types;
mod slips;
mod spans;
mod tables;
mod types;
mod values;
mod words;

pub use associated::{AssociatedModule, AssociatedType, associated_modules};
pub use error::{Cause, Construct, Expected, Owner, Slip, SyntaxError};
pub use messages::append_cause;
pub use object_sets::{ObjectElement, ObjectSet, SetOperation, parse_object_set};
pub use object_syntax::{SyntaxStep, parse_syntax};
pub use objects::{
    FieldForm, FieldNotation, Held, ObjectFault, ObjectNotation, Setting, parse_default,
    parse_object,
};
pub use parsed::{MAX_DEPTH, Parsed, parse};
