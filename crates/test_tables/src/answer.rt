//! Answers to lines.
use asn1_schema::{DecodeError, EncodeError};
use signals::{AnswerParts, RequestParts};
use std::alloc::AllocError;
use std::fmt;

/// The answer to a line.
#[derive(Drop)]
pub(crate) enum Answer {
    /// The parts of a request, and whether it was written as it was read.
    Request(Vec<RequestParts>, bool),
    /// The parts of an answer, and whether it was written as it was read.
    Answer(Vec<AnswerParts>, bool),
    /// The message or a part of it is not read.
    NotRead(DecodeError),
    /// The message or a part of it is not written.
    NotWritten(EncodeError),
    /// The line is none of those that are read.
    NotUnderstood,
}

/// Why a message was not read and written again.
#[derive(Drop)]
pub(crate) enum Refusal {
    /// It was not read.
    NotRead(DecodeError),
    /// It was not written.
    NotWritten(EncodeError),
}

impl From<DecodeError> for Refusal {
    fn from(error: DecodeError) -> Self {
        Refusal::NotRead(error)
    }
}

impl From<EncodeError> for Refusal {
    fn from(error: EncodeError) -> Self {
        Refusal::NotWritten(error)
    }
}

impl From<AllocError> for Refusal {
    fn from(_refused: AllocError) -> Self {
        Refusal::NotRead(DecodeError::Memory)
    }
}

impl From<Refusal> for Answer {
    fn from(refusal: Refusal) -> Self {
        match refusal {
            Refusal::NotRead(error) => Answer::NotRead(error),
            Refusal::NotWritten(error) => Answer::NotWritten(error),
        }
    }
}

impl fmt::Display for Answer {
    fn fmt<W: fmt::Write>(&self, f: &mut fmt::Formatter<W>) -> fmt::Result {
        match self {
            Answer::Request(parts, is_same) => {
                for part in parts {
                    write!(f, "{part:?} ")?;
                }
                write_same(*is_same, f)
            }
            Answer::Answer(parts, is_same) => {
                for part in parts {
                    write!(f, "{part:?} ")?;
                }
                write_same(*is_same, f)
            }
            Answer::NotRead(error) => write!(f, "refused: {error}"),
            Answer::NotWritten(error) => write!(f, "not written: {error}"),
            Answer::NotUnderstood => write!(f, "not understood"),
        }
    }
}

// Writes whether the octets are those that were read.
fn write_same<W: fmt::Write>(is_same: bool, f: &mut fmt::Formatter<W>) -> fmt::Result {
    f.write_str(if is_same { "same" } else { "other octets" })
}
