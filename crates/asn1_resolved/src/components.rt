//! Components and alternatives.
use crate::types::Type;
use crate::values::Value;
use asn1_names::Place;

/// The components of a SEQUENCE or a SET.
#[cycle(types)]
#[derive(Drop)]
pub struct Components<'a> {
    /// The components of the root.
    pub root: Vec<Component<'a>>,
    /// Whether there is an extension marker.
    pub is_extensible: bool,
    /// The additions.
    pub additions: Vec<Addition<'a>>,
}

/// A component of a SEQUENCE or a SET.
#[cycle(types)]
#[derive(Drop)]
pub struct Component<'a> {
    /// The name.
    pub name: &'a [u8],
    /// The place of the name.
    pub place: Place,
    /// The type.
    pub definition: Type<'a>,
    /// Whether it may be absent.
    pub usage: Usage<'a>,
}

/// Whether a component may be absent.
#[derive(Drop)]
pub enum Usage<'a> {
    /// It is always there.
    Required,
    /// OPTIONAL.
    Optional,
    /// DEFAULT, with the value.
    Default(Value<'a>),
}

/// An addition to a SEQUENCE or a SET.
#[cycle(types)]
#[derive(Drop)]
pub enum Addition<'a> {
    /// A component.
    Component(Component<'a>),
    /// The components in version brackets.
    Group(Vec<Component<'a>>),
}

/// The alternatives of a CHOICE. Those in version brackets stand beside the others.
#[cycle(types)]
#[derive(Drop)]
pub struct Alternatives<'a> {
    /// The alternatives of the root.
    pub root: Vec<Alternative<'a>>,
    /// Whether there is an extension marker.
    pub is_extensible: bool,
    /// The additions.
    pub additions: Vec<Alternative<'a>>,
}

/// An alternative of a CHOICE.
#[cycle(types)]
#[derive(Drop)]
pub struct Alternative<'a> {
    /// The name.
    pub name: &'a [u8],
    /// The place of the name.
    pub place: Place,
    /// The type.
    pub definition: Type<'a>,
}
