//! Types.
use crate::constraints::Constraint;
use crate::names::{Number, NumberName, Reference, Span};
use crate::values::Value;

/// A type with its place and its constraints.
#[cycle(types)]
#[derive(Drop)]
pub struct Type {
    /// The offset of the first octet.
    pub start: usize,
    /// The type.
    pub kind: TypeKind,
    /// The constraints, each in parentheses, in the order of the text.
    pub constraints: Vec<Constraint>,
}

/// A type as it is written.
#[cycle(types)]
#[derive(Drop)]
pub enum TypeKind {
    /// BOOLEAN.
    Boolean,
    /// NULL.
    Null,
    /// INTEGER, with its named numbers.
    Integer(Vec<NamedNumber>),
    /// BIT STRING, with its named bits.
    BitString(Vec<NamedNumber>),
    /// OCTET STRING.
    OctetString,
    /// OBJECT IDENTIFIER.
    ObjectIdentifier,
    /// A string of characters, or a time.
    String(StringKind),
    /// A type whose values are kept as their contents octets.
    Contents(ContentsKind),
    /// ENUMERATED.
    Enumerated(Vec<EnumerationItem>),
    /// SEQUENCE.
    Sequence(Vec<ComponentItem>),
    /// SET.
    Set(Vec<ComponentItem>),
    /// CHOICE.
    Choice(Vec<ComponentItem>),
    /// SEQUENCE OF, with the name of its elements, if it has one.
    SequenceOf(Option<Span>, Box<Type>),
    /// SET OF, with the name of its elements, if it has one.
    SetOf(Option<Span>, Box<Type>),
    /// A type under a tag.
    Tagged(Tag, Box<Type>),
    /// ANY of 1988, with the component that tells the type (ANY DEFINED BY).
    Any(Option<Span>),
    /// The name of a type.
    Reference(Reference),
    /// The type of the alternative of this name in a CHOICE, `name < Type`.
    Selection(Span, Box<Type>),
    /// A field of an information object class, `CLASS.&field`, by the names that lead to it.
    Field(Reference, Vec<Span>),
    /// The name of a type that has parameters, with its arguments.
    Instance(Reference, Vec<Argument>),
}

/// An argument (X.683, 9.5).
#[cycle(types)]
#[derive(Drop)]
pub enum Argument {
    /// A type, or a class, which is written as a reference to a type.
    Type(Type),
    /// A value.
    Value(Value),
    /// A set of values, an object or an object set, from brace to brace, which is not read.
    Braced(Span),
}

/// The kinds of string, and the useful types (X.680, 41 and 45 to 48).
#[derive(Clone, Copy, Debug, PartialEq, Eq)]
pub enum StringKind {
    /// UTF8String.
    Utf8,
    /// NumericString.
    Numeric,
    /// PrintableString.
    Printable,
    /// TeletexString, or T61String.
    Teletex,
    /// VideotexString.
    Videotex,
    /// IA5String.
    Ia5,
    /// GraphicString.
    Graphic,
    /// VisibleString, or ISO646String.
    Visible,
    /// GeneralString.
    General,
    /// UniversalString.
    Universal,
    /// BMPString.
    Bmp,
    /// UTCTime.
    UtcTime,
    /// GeneralizedTime.
    GeneralizedTime,
    /// ObjectDescriptor.
    ObjectDescriptor,
}

/// The types whose values are kept as their contents octets (X.680, 21, 33 and 38.4).
#[derive(Clone, Copy, Debug, PartialEq, Eq)]
pub enum ContentsKind {
    /// REAL.
    Real,
    /// RELATIVE-OID.
    RelativeOid,
    /// DATE.
    Date,
    /// TIME-OF-DAY.
    TimeOfDay,
    /// DATE-TIME.
    DateTime,
    /// DURATION.
    Duration,
}

/// A named number of an INTEGER, or a named bit of a BIT STRING.
#[derive(Clone, Copy, Debug, PartialEq, Eq)]
pub struct NamedNumber {
    /// The name.
    pub name: Span,
    /// The number.
    pub number: NumberName,
}

/// What is between two commas of an ENUMERATED.
#[derive(Clone, Copy, Debug, PartialEq, Eq)]
pub enum EnumerationItem {
    /// An item, with its number if it is written.
    Item(Span, Option<NumberName>),
    /// The extension marker, at this offset.
    Marker(usize),
}

/// What is between two commas of a SEQUENCE, a SET or a CHOICE.
#[cycle(types)]
#[derive(Drop)]
pub enum ComponentItem {
    /// A component, or an alternative.
    Component(Component),
    /// COMPONENTS OF, at this offset.
    ComponentsOf(usize, Box<Type>),
    /// An extension marker, at this offset.
    Marker(usize),
    /// Additions in version brackets, at this offset, with the number of the version, if it is written.
    Group(usize, Option<Number>, Vec<ComponentItem>),
}

/// A component of a SEQUENCE or a SET, or an alternative of a CHOICE.
#[cycle(types)]
#[derive(Drop)]
pub struct Component {
    /// The name.
    pub name: Span,
    /// The type.
    pub definition: Type,
    /// Whether it may be absent.
    pub usage: Usage,
}

/// Whether a component may be absent.
#[derive(Drop)]
pub enum Usage {
    /// It is always there.
    Required,
    /// OPTIONAL.
    Optional,
    /// DEFAULT, with the value.
    Default(Value),
}

/// A tag.
#[derive(Clone, Copy, Debug, PartialEq, Eq)]
pub struct Tag {
    /// The class.
    pub class: TagClass,
    /// The number.
    pub number: NumberName,
    /// IMPLICIT or EXPLICIT, if it is written.
    pub mode: Option<TagMode>,
}

/// The class of a tag.
#[derive(Clone, Copy, Debug, PartialEq, Eq)]
pub enum TagClass {
    /// UNIVERSAL.
    Universal,
    /// APPLICATION.
    Application,
    /// Context-specific, which is not written.
    Context,
    /// PRIVATE.
    Private,
}

/// How a tag is put on.
#[derive(Clone, Copy, Debug, PartialEq, Eq)]
pub enum TagMode {
    /// IMPLICIT.
    Implicit,
    /// EXPLICIT.
    Explicit,
}
