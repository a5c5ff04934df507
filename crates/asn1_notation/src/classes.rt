//! Information object classes (X.681, 9).
use crate::names::{Reference, Span};
use crate::types::Type;

/// An information object class.
#[derive(Drop)]
pub enum Class {
    /// CLASS, with its fields, and with the braces behind WITH SYNTAX, which are not read.
    Fields(Vec<ClassField>, Option<Span>),
    /// Another class.
    Alias(Reference),
}

/// A field of a class. A name with a capital is that of a type, a set of values or a set of objects.
#[derive(Drop)]
pub struct ClassField {
    /// The name, without its ampersand.
    pub name: Span,
    /// What it holds.
    pub kind: FieldKind,
    /// Whether no two objects of a set have the same.
    pub is_unique: bool,
    /// Whether an object may lack it.
    pub usage: FieldUsage,
}

/// The contents of a field.
#[derive(Drop)]
pub enum FieldKind {
    /// A type.
    Type,
    /// A value or values of this type, or an object or objects of this class.
    Fixed(Type),
    /// A value or values of the type that another field holds. These are the names that lead to it.
    Variable(Vec<Span>),
}

/// Whether an object may lack a field.
#[derive(Clone, Copy, Debug, PartialEq, Eq)]
pub enum FieldUsage {
    /// It has the field.
    Required,
    /// OPTIONAL.
    Optional,
    /// DEFAULT, with what follows it, which is not read.
    Default(Span),
}
