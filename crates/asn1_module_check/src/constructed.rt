//! Types of components with the first tags of each.
use asn1_clash::FlatComponent;
use asn1_names::Place;

/// The kinds of types of components.
#[derive(Clone, Copy, Debug, PartialEq, Eq)]
pub enum ConstructedKind {
    /// A SEQUENCE, or version brackets in one.
    Sequence,
    /// A SET.
    Set,
    /// A CHOICE.
    Choice,
}

/// A type of components, or those in version brackets.
#[derive(Drop)]
pub struct Constructed<'a> {
    /// The kind.
    pub kind: ConstructedKind,
    /// Where it begins.
    pub place: Place,
    /// The names of the components.
    pub names: Vec<ComponentName<'a>>,
    /// The components, in the order of their names: whether each may be absent, and its first tags.
    pub components: Vec<FlatComponent>,
}

/// The name of a component, or of the first one in version brackets.
#[derive(Clone, Copy, Debug)]
pub struct ComponentName<'a> {
    /// The name.
    pub name: &'a [u8],
    /// The place of the name.
    pub place: Place,
}
