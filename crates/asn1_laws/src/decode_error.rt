//! Why a value was not read.
ghost use Rattle.std.specs.Prelude.{◌≡◌, false, true};
ghost use Rattle.asn1_laws.specs.DecodeErrors.{field_error, lacks_name, number, reason};
ghost use Rattle.asn1_laws.specs.declared.decode_error.DecodeError.TheVariants.{Memory};

use crate::needed::Needed;
use asn1_tags::Tag;
use std::alloc::{AllocError, Global};
use thiserror::Error;

/// Why a value was not read.
///
/// After an error of a decoder's call the decoder has failed: each later call of it answers [`DecodeError::Failed`]. A type
/// may have errors of its own, after which the decoder has not failed; the call that reads what is around makes it failed.
#[derive(Clone, Copy, Debug, Drop, PartialEq, Eq, Error)]
pub enum DecodeError {
    /// The codec does not understand the input, by a message of its own.
    #[error("{0}")]
    Custom(&'static str),
    /// The input ends too early.
    #[error("more input is needed")]
    Incomplete(Needed),
    /// A length is greater than the codec accepts.
    #[error("length {length} is too great")]
    ExceedsMaxLength {
        /// The length.
        length: u128,
    },
    /// A component is missing that is always there, by its name.
    #[error("missing field {0}")]
    MissingField(&'static str),
    /// No alternative of a CHOICE has the tag, by the name of the CHOICE.
    #[error("no valid alternative of {0}")]
    NoValidChoice(&'static str),
    /// A component was not read, for an error that does not name one ([`DecodeError::in_field`]).
    #[error("field {name}: error {cause}")]
    FieldError {
        /// The component's name.
        name: &'static str,
        /// The number of the error inside.
        cause: u8,
    },
    /// A component is there twice, by its name.
    #[error("field {0} stands twice")]
    DuplicateField(&'static str),
    /// A SET has no component of this tag.
    #[error("unknown field {index}, {tag}")]
    UnknownField {
        /// The index among the records of the SET.
        index: usize,
        /// The tag.
        tag: Tag,
    },
    /// A SEQUENCE OF has another number of elements than the array that they are for.
    #[error("expected {expected} items, found {actual}")]
    IncorrectItemNumber {
        /// How many the array has.
        expected: usize,
        /// How many there are.
        actual: usize,
    },
    /// There was no memory.
    #[error("no memory")]
    Memory,
    /// The records are nested deeper than the depth left of the decoder.
    #[error("nested too deep")]
    Depth,
    /// An earlier call of the decoder failed.
    #[error("the decoder has failed")]
    Failed,
    /// A number is outside the limits of its type.
    #[error("value out of range")]
    OutOfRange,
}

impl DecodeError {
    /// The number of the error: the index of its case in the definition, from 1.
    pub fn number(self) -> u8
        ensures { result ≡ number (reason self) }
    {
        match self {
            DecodeError::Custom(_) => 1,
            DecodeError::Incomplete(_) => 2,
            DecodeError::ExceedsMaxLength { .. } => 3,
            DecodeError::MissingField(_) => 4,
            DecodeError::NoValidChoice(_) => 5,
            DecodeError::FieldError { .. } => 6,
            DecodeError::DuplicateField(_) => 7,
            DecodeError::UnknownField { .. } => 8,
            DecodeError::IncorrectItemNumber { .. } => 9,
            DecodeError::Memory => 10,
            DecodeError::Depth => 11,
            DecodeError::Failed => 12,
            DecodeError::OutOfRange => 13,
        }
    }

    /// The error of a type as that of a component of this name: [`DecodeError::FieldError`], with the name and the error's number.
    /// An error that already names a component stays as it is, and so does one that is about more than the component: that more
    /// input is needed, that memory ran out, that no depth is left, or that the decoder has failed before.
    pub fn in_field(self, name: &'static str) -> DecodeError
        ensures named { lacks_name (reason self) ≡ true →
            reason result ≡ field_error name.now (number (reason self)) }
        ensures same { lacks_name (reason self) ≡ false → result ≡ self }
    {
        let cause = self.number();
        match self {
            DecodeError::Custom(_)
            | DecodeError::ExceedsMaxLength { .. }
            | DecodeError::NoValidChoice(_)
            | DecodeError::UnknownField { .. }
            | DecodeError::IncorrectItemNumber { .. }
            | DecodeError::OutOfRange => DecodeError::FieldError { name, cause },
            DecodeError::Incomplete(_)
            | DecodeError::MissingField(_)
            | DecodeError::FieldError { .. }
            | DecodeError::DuplicateField(_)
            | DecodeError::Memory
            | DecodeError::Depth
            | DecodeError::Failed => self,
        }
    }

    /// The cause in words, behind the name of the component if the error names one, as `component minor: outside its limits`.
    /// Fails only if memory runs out. No contract covers the words.
    pub fn cause_text(self, alloc: Global) -> Result<String, AllocError> {
        match self {
            DecodeError::FieldError { name, cause } => {
                format!(in alloc; "component {name}: {}", inner_cause(cause))
            }
            DecodeError::MissingField(name) => format!(in alloc; "component {name}: missing"),
            DecodeError::DuplicateField(name) => format!(in alloc; "component {name}: there twice"),
            DecodeError::OutOfRange => String::from_str(alloc, OUTSIDE),
            error => format!(in alloc; "{error}"),
        }
    }
}

/// The words for a value outside the limits of its type.
const OUTSIDE: &str = "outside its limits";

/// The words for the error of this number inside a component.
fn inner_cause(number: u8) -> &'static str {
    if number == DecodeError::OutOfRange.number() {
        OUTSIDE
    } else if number == DecodeError::NoValidChoice("").number() {
        "no alternative of its type"
    } else {
        "no value of its type"
    }
}

impl From<AllocError> for DecodeError {
    ghost from_gives = { λ _ e. e ≡ Memory };

    fn from(_refused: AllocError) -> DecodeError {
        DecodeError::Memory
    }
}
