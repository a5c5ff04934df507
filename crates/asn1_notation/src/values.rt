//! Values.
use crate::names::{Number, NumberName, Reference, Span};

/// A value with its place.
#[cycle(values)]
#[derive(Drop)]
pub struct Value {
    /// The offset of the first octet.
    pub start: usize,
    /// The value.
    pub kind: ValueKind,
}

/// A value as it is written.
#[cycle(values)]
#[derive(Drop)]
pub enum ValueKind {
    /// TRUE or FALSE.
    Boolean(bool),
    /// NULL.
    Null,
    /// A whole number.
    Number(Number),
    /// A bstring, with its quotes.
    Binary(Span),
    /// An hstring, with its quotes.
    Hex(Span),
    /// A cstring, with its quotes.
    Text(Span),
    /// A name: of a value, an item of an ENUMERATED, or a named number.
    Reference(Reference),
    /// A field of an information object, `object.&field`, by the names that lead to it.
    Field(Reference, Vec<Span>),
    /// `name(number)`, an arc of an object identifier.
    Arc(Span, NumberName),
    /// An alternative of a CHOICE, `name : value`.
    Alternative(Span, Box<Value>),
    /// `{ .. }`: components with their names, elements, names of bits, or the arcs of an object identifier.
    List(Vec<ListItem>),
}

/// What is between two commas of a list.
///
/// An element or the name of a bit is one value. A component is its name, then its value. The arcs of an object identifier
/// are one item of one or more values, since no commas are between them.
#[cycle(values)]
#[derive(Drop)]
pub struct ListItem {
    /// The values side by side.
    pub values: Vec<Value>,
}
