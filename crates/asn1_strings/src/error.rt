//! The errors of this crate's constructors.
use thiserror::Error;

/// A unit that the alphabet of a string lacks, by its index.
#[derive(Debug, Clone, Copy, PartialEq, Eq, Error)]
#[error("unit {0} is not allowed")]
pub struct AlphabetError(pub usize);

/// Why no string was made of a text.
#[derive(Debug, Clone, Copy, Drop, PartialEq, Eq, Error)]
pub enum StringError {
    /// A character that strings of the kind do not hold.
    #[error("{0}")]
    NotAllowed(AlphabetError),
    /// There was no memory for the units.
    #[error("no memory")]
    Memory,
}

/// Why a text between two dots is no arc of an object identifier.
#[derive(Debug, Clone, Copy, Drop, PartialEq, Eq, Error)]
pub enum ArcError {
    /// There is no character.
    #[error("no digits")]
    Empty,
    /// A character is no decimal digit.
    #[error("a character that is no digit")]
    NotADigit,
    /// A zero is in front of other digits.
    #[error("a leading zero")]
    LeadingZero,
    /// The number is above the greatest arc, which is that of `u32`.
    #[error("above 4294967295")]
    TooGreat,
}

/// Why no object identifier was made of a text.
#[derive(Debug, Clone, Copy, Drop, PartialEq, Eq, Error)]
pub enum ObjectIdentifierError {
    /// The arc with this index, counted from 0, is none.
    #[error("arc {0}: {1}")]
    Arc(usize, ArcError),
    /// There was no memory for the arcs.
    #[error("no memory")]
    Memory,
}
