//! Modules.
use crate::classes::Class;
use crate::names::{Reference, Span};
use crate::types::Type;
use crate::values::Value;

/// A module.
#[derive(Drop)]
pub struct Module {
    /// The name.
    pub name: Span,
    /// The object identifier, if it is written.
    pub identifier: Option<Value>,
    /// How types are tagged.
    pub tagging: TagDefault,
    /// Whether EXTENSIBILITY IMPLIED is written.
    pub is_extensible: bool,
    /// The names that other modules may use.
    pub exports: Exports,
    /// The names of other modules that this one uses.
    pub imports: Vec<Import>,
    /// The definitions.
    pub assignments: Vec<Assignment>,
}

/// How the types of a module are tagged where neither IMPLICIT nor EXPLICIT is written.
#[derive(Clone, Copy, Debug, PartialEq, Eq)]
pub enum TagDefault {
    /// EXPLICIT TAGS, or nothing.
    Explicit,
    /// IMPLICIT TAGS.
    Implicit,
    /// AUTOMATIC TAGS.
    Automatic,
}

/// The names that other modules may use.
#[derive(Drop)]
pub enum Exports {
    /// All: EXPORTS ALL, or no EXPORTS.
    All,
    /// These.
    Names(Vec<Span>),
}

/// Names of another module.
#[derive(Drop)]
pub struct Import {
    /// The names.
    pub names: Vec<Span>,
    /// The module.
    pub module: Span,
    /// The object identifier of the module, if it is written.
    pub identifier: Option<Value>,
}

/// A definition.
#[derive(Drop)]
pub struct Assignment {
    /// The name.
    pub name: Span,
    /// The parameters, if it has any.
    pub parameters: Vec<Parameter>,
    /// What it names.
    pub definition: Definition,
}

/// A parameter (X.683, 8.3).
#[derive(Drop)]
pub struct Parameter {
    /// The type of a value or a set of values, or the class of an object or an object set. A type or a class has none.
    pub governor: Option<Type>,
    /// The name.
    pub name: Span,
}

/// What a name stands for.
#[derive(Drop)]
pub enum Definition {
    /// A type. If it has parameters, they are objects and object sets, which change nothing of it.
    Type(Type),
    /// A value of a type, or an object that is written as a value is.
    Value(Type, Value),
    /// A type that its arguments complete: one of its parameters is a type, a value, a set of values or a class.
    Template(Type),
    /// An information object class.
    Class(Class),
    /// An information object or a set of these: the class, and the braces, which are not read.
    Object(Reference, Span),
    /// A macro of X.208 or what one defines, from behind the name to the end, which is not read.
    Macro(Span),
}
