//! Constraints.
use asn1_names::Place;

/// A constraint with its place.
#[derive(Drop)]
pub struct Constraint {
    /// Where it begins.
    pub place: Place,
    /// The constraint, or its root.
    pub kind: ConstraintKind,
    /// Whether there is an extension marker.
    pub is_extensible: bool,
}

/// A constraint that a type can carry, or another.
#[derive(Drop)]
pub enum ConstraintKind {
    /// The values of an INTEGER are in the range.
    Value(Range),
    /// The size is in the range.
    Size(Range),
    /// Each character is in one of these ranges.
    Alphabet(Vec<CharacterRange>),
    /// A constraint that no type can carry.
    Other,
}

/// A range of whole numbers. An end that is absent is MIN or MAX of a type that has none.
#[derive(Clone, Copy, Debug, PartialEq, Eq)]
pub struct Range {
    /// The least number.
    pub lower: Option<i128>,
    /// The greatest number.
    pub upper: Option<i128>,
}

/// A range of characters.
#[derive(Clone, Copy, Debug, PartialEq, Eq)]
pub struct CharacterRange {
    /// The code point of the first character.
    pub first: u32,
    /// The code point of the last.
    pub last: u32,
}
