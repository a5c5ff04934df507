//! Why a text has no tokens.
use thiserror::Error;

/// Why no item begins at an octet.
#[derive(Clone, Copy, Debug, Drop, PartialEq, Eq, Error)]
pub enum Refusal {
    /// No item begins with the character.
    #[error("a character with which nothing begins")]
    UnknownCharacter,
    /// A number begins with a zero that is not its only digit.
    #[error("a number with a leading zero")]
    LeadingZero,
    /// A comment that `/*` begins has no end.
    #[error("a comment without an end")]
    UnclosedComment,
    /// No quotation mark ends a string.
    #[error("a string without an end")]
    UnclosedString,
    /// No second apostrophe follows.
    #[error("an apostrophe without a second one")]
    UnclosedDigits,
    /// What is between two apostrophes, and the letter behind them, are no bstring and no hstring.
    #[error("neither a string of bits ('01'B) nor one of hexadecimal digits ('0A'H)")]
    NoDigits,
}

/// Why a text has no tokens.
#[derive(Clone, Copy, Debug, Drop, PartialEq, Eq, Error)]
pub enum TokenError {
    /// No item begins at the octet with this offset.
    #[error("{0}")]
    Refused(Refusal, usize),
    /// There was no memory for the tokens.
    #[error("no memory")]
    Memory,
}
