//! Types.
use crate::components::{Alternatives, Components};
use crate::constraints::Constraint;
use asn1_names::Place;
use asn1_notation::{ContentsKind, StringKind, TagClass};

/// A type with its place and its constraints.
#[cycle(types)]
#[derive(Drop)]
pub struct Type<'a> {
    /// Where it begins.
    pub place: Place,
    /// The type.
    pub kind: TypeKind<'a>,
    /// The constraints, in the order of the text.
    pub constraints: Vec<Constraint>,
}

/// A type without its constraints.
#[cycle(types)]
#[derive(Drop)]
pub enum TypeKind<'a> {
    /// BOOLEAN.
    Boolean,
    /// NULL.
    Null,
    /// INTEGER, with its named numbers.
    Integer(Vec<NamedNumber<'a>>),
    /// BIT STRING, with its named bits.
    BitString(Vec<NamedNumber<'a>>),
    /// OCTET STRING.
    OctetString,
    /// OBJECT IDENTIFIER.
    ObjectIdentifier,
    /// A string of characters, or a time.
    String(StringKind),
    /// A type whose values are kept as their contents octets.
    Contents(ContentsKind),
    /// ENUMERATED.
    Enumerated(Enumeration<'a>),
    /// SEQUENCE.
    Sequence(Components<'a>),
    /// SET.
    Set(Components<'a>),
    /// CHOICE.
    Choice(Alternatives<'a>),
    /// SEQUENCE OF.
    SequenceOf(Box<Type<'a>>),
    /// SET OF.
    SetOf(Box<Type<'a>>),
    /// A type under a tag.
    Tagged(Tag, Box<Type<'a>>),
    /// ANY of 1988, which is an open type.
    Any,
    /// The type of this index in the schema.
    Reference(usize),
}

/// A tag.
#[derive(Clone, Copy, Debug, PartialEq, Eq)]
pub struct Tag {
    /// The class.
    pub class: TagClass,
    /// The number.
    pub number: u32,
    /// Whether it stands before the tag of the type, or else takes its place.
    pub is_explicit: bool,
}

/// The items of an ENUMERATED.
#[derive(Drop)]
pub struct Enumeration<'a> {
    /// The items before the extension marker.
    pub root: Vec<EnumerationItem<'a>>,
    /// Whether there is an extension marker.
    pub is_extensible: bool,
    /// The items behind the extension marker.
    pub additions: Vec<EnumerationItem<'a>>,
}

/// An item of an ENUMERATED.
#[derive(Clone, Copy, Debug)]
pub struct EnumerationItem<'a> {
    /// The name.
    pub name: &'a [u8],
    /// The place of the name.
    pub place: Place,
    /// The number.
    pub number: i64,
}

/// A named number of an INTEGER, or a named bit of a BIT STRING.
#[derive(Clone, Copy, Debug)]
pub struct NamedNumber<'a> {
    /// The name.
    pub name: &'a [u8],
    /// The place of the name.
    pub place: Place,
    /// The number.
    pub number: i128,
}
