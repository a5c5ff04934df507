//! The notation of X.680 as a tree.
//!
//! The tree says what is written, in the order of the text: references are names, numbers are digits, and items of a
//! SEQUENCE and extension markers stand side by side. Names are [`Span`]s of the text, so a tree owns no octets, and each part
//! tells its place. `asn1_grammar` reads a tree.
//!
//! | Type | What it is | X.680 |
//! |---|---|---|
//! | [`Module`], [`Exports`], [`Import`] | a module | 13 |
//! | [`Assignment`], [`Definition`] | a definition of a type or a value | 16 |
//! | [`Class`], [`ClassField`], [`FieldKind`], [`FieldUsage`] | an information object class | X.681, 9 |
//! | [`Parameter`], [`Argument`] | a parameter of a definition, and an argument | X.683, 8 and 9 |
//! | [`Type`], [`TypeKind`], [`StringKind`], [`ContentsKind`] | a type | 17 |
//! | [`ComponentItem`], [`Component`], [`Usage`] | parts of a SEQUENCE, a SET or a CHOICE | 25, 27, 29 |
//! | [`EnumerationItem`], [`NamedNumber`] | parts of an ENUMERATED, an INTEGER or a BIT STRING | 19, 20, 22 |
//! | [`Tag`], [`TagClass`], [`TagMode`] | a tag | 31 |
//! | [`Constraint`], [`ConstraintKind`], [`EndPoint`], [`Member`], [`AtPath`] | a constraint | 49 to 51 |
//! | [`Value`], [`ValueKind`], [`ListItem`] | a value | 17 |
//! | [`Span`], [`Number`], [`Reference`], [`NumberName`] | names and numbers | 12, 14 |
#![tactic(auto)]

mod classes;
mod constraints;
mod modules;
mod names;
mod types;
mod values;

pub use classes::{Class, ClassField, FieldKind, FieldUsage};
pub use constraints::{AtPath, Constraint, ConstraintKind, EndPoint, EndValue, Member, Presence};
pub use modules::{Assignment, Definition, Exports, Import, Module, Parameter, TagDefault};
pub use names::{Number, NumberName, Reference, Span};
pub use types::{
    Argument, Component, ComponentItem, ContentsKind, EnumerationItem, NamedNumber, StringKind,
    Tag, TagClass, TagMode, Type, TypeKind, Usage,
};
pub use values::{ListItem, Value, ValueKind};
