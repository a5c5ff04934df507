//! Constraints.
use crate::names::Span;
use crate::types::Type;
use crate::values::Value;

/// A constraint with its place.
#[cycle(types)]
#[derive(Drop)]
pub struct Constraint {
    /// The offset of the first octet.
    pub start: usize,
    /// The constraint.
    pub kind: ConstraintKind,
}

/// A constraint, or a part of one, as it is written.
#[cycle(types)]
#[derive(Drop)]
pub enum ConstraintKind {
    /// One value.
    Value(Value),
    /// A range of values.
    Range(EndPoint, EndPoint),
    /// SIZE.
    Size(Box<Constraint>),
    /// FROM, a permitted alphabet.
    From(Box<Constraint>),
    /// The values of a type, with INCLUDES or without.
    Included(Box<Type>),
    /// PATTERN.
    Pattern(Value),
    /// CONTAINING, with the value of ENCODED BY, if it is written.
    Containing(Box<Type>, Option<Value>),
    /// ENCODED BY alone.
    EncodedBy(Value),
    /// CONSTRAINED BY, without the text in its braces.
    ConstrainedBy,
    /// The objects of a set, from brace to brace, with the components that tell which of these.
    Table(Span, Vec<AtPath>),
    /// WITH COMPONENT, a constraint of each element.
    WithComponent(Box<Constraint>),
    /// WITH COMPONENTS. The flag tells that an ellipsis is first, so other components are allowed.
    WithComponents(bool, Vec<Member>),
    /// The values that any of these allows.
    Union(Vec<Constraint>),
    /// The values that each of these allows.
    Intersection(Vec<Constraint>),
    /// The values that the first allows, and the second does not.
    Except(Box<Constraint>, Box<Constraint>),
    /// All values but those that it allows.
    AllExcept(Box<Constraint>),
    /// A constraint with an extension marker, and what is allowed beside its root, if it is written.
    Extensible(Box<Constraint>, Option<Box<Constraint>>),
}

/// The path to a component that tells an object (X.682, 10.7).
#[derive(Drop)]
pub struct AtPath {
    /// How many dots are behind `@`: how far outside the innermost SEQUENCE or SET the path begins, or 0 for the outermost.
    pub dots: usize,
    /// The names of the components.
    pub names: Vec<Span>,
}

/// An end of a range.
#[derive(Drop)]
pub struct EndPoint {
    /// The value.
    pub value: EndValue,
    /// Whether the value itself is left out, by `<`.
    pub is_open: bool,
}

/// The value at an end of a range.
#[derive(Drop)]
pub enum EndValue {
    /// MIN.
    Min,
    /// MAX.
    Max,
    /// A value.
    Value(Value),
}

/// A component in WITH COMPONENTS.
#[cycle(types)]
#[derive(Drop)]
pub struct Member {
    /// The name.
    pub name: Span,
    /// The constraint of the component, if it is written.
    pub constraint: Option<Box<Constraint>>,
    /// PRESENT, ABSENT or OPTIONAL, if it is written.
    pub presence: Option<Presence>,
}

/// Whether a component is there.
#[derive(Clone, Copy, Debug, PartialEq, Eq)]
pub enum Presence {
    /// PRESENT.
    Present,
    /// ABSENT.
    Absent,
    /// OPTIONAL.
    Optional,
}
