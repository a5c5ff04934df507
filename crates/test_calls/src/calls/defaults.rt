//! Components with a default.
use crate::call_rules::{
    CallRules, Calls, FIRST, NAME, NumberedCalls, answers, answers_none, answers_some,
    calls_come_back, done, is_this, numbered_calls_come_back,
};
use crate::failure::Failure;
use asn1_bounds::Constraints;
use asn1_dec::{DecodeError, Decoder};
use asn1_enc::{EncodeError, Encoder};
use asn1_tags::Tag;
use std::alloc::{AllocError, Global};

/// The default of the components.
fn eight(alloc: Global) -> Result<String, AllocError> {
    String::from_str(alloc, "8")
}

/// A text and a number that are the default of their component, or are not.
///
/// The calls with an even number are those of a component. Those between write and read a NULL, by which a codec without
/// presence marks sees that the component before it is absent.
#[derive(Drop)]
struct DefaultCalls {
    text: String,
    number: u8,
    is_default: bool,
}

impl NumberedCalls for DefaultCalls {
    fn count(&self) -> usize {
        13
    }

    fn write_call<E: Encoder>(&self, encoder: &mut E, number: usize) -> Result<(), EncodeError> {
        let constraints = &Constraints::NONE;
        let text = &self.text;
        match number {
            0 => encoder.encode_default(text, eight, NAME),
            2 => encoder.encode_default_with_constraints(constraints, text, eight, NAME),
            4 => encoder.encode_default_with_tag(FIRST, text, eight, NAME),
            6 => encoder.encode_default_with_tag_and_constraints(
                FIRST,
                constraints,
                text,
                eight,
                NAME,
            ),
            8 => encoder.encode_default_with_explicit_prefix(FIRST, text, eight, NAME),
            10 => encoder.encode_or_default(&self.number, NAME),
            12 => encoder.encode_with_tag_or_default(FIRST, &self.number, NAME),
            _ => encoder.encode_null(Tag::NULL, NAME),
        }
    }

    /// A component without a call of a decoder for its default is read as one that may be absent.
    fn read_call<D: Decoder>(&self, decoder: &mut D, number: usize) -> Result<(), Failure> {
        let constraints = &Constraints::NONE;
        let text = &self.text;
        match number {
            0 => answers(decoder.decode_default(eight), text),
            2 => answers(
                decoder.decode_default_with_constraints(eight, constraints),
                text,
            ),
            4 => answers(decoder.decode_default_with_tag(FIRST, eight), text),
            6 => answers(
                decoder.decode_default_with_tag_and_constraints(FIRST, eight, constraints),
                text,
            ),
            8 => self.answers_unless_default(
                decoder.decode_optional_with_explicit_prefix(FIRST),
                text,
            ),
            10 => self.answers_unless_default(decoder.decode_optional(), &self.number),
            12 => {
                self.answers_unless_default(decoder.decode_optional_with_tag(FIRST), &self.number)
            }
            _ => done(decoder.decode_null(Tag::NULL)),
        }
    }
}

impl DefaultCalls {
    /// Whether a call answers this value, or none where it is the default.
    fn answers_unless_default<T: PartialEq + Drop>(
        &self,
        answer: Result<Option<T>, DecodeError>,
        expected: &T,
    ) -> Result<(), Failure> {
        if self.is_default {
            answers_none(answer)
        } else {
            answers_some(answer, expected)
        }
    }
}

/// Whether a component with a default is what was written, where it is the default and where it is not, by each call.
///
/// # Errors
/// Why it was not.
pub fn defaults_come_back<R: CallRules>(rules: &R, alloc: Global) -> Result<(), Failure> {
    default_comes_back(rules, alloc).and(no_default_comes_back(rules, alloc))
}

fn default_comes_back<R: CallRules>(rules: &R, alloc: Global) -> Result<(), Failure> {
    let text = eight(alloc)?;
    numbered_calls_come_back(
        rules,
        DefaultCalls {
            text,
            number: 0,
            is_default: true,
        },
    )
}

fn no_default_comes_back<R: CallRules>(rules: &R, alloc: Global) -> Result<(), Failure> {
    let text = String::from_str(alloc, "9")?;
    numbered_calls_come_back(
        rules,
        DefaultCalls {
            text,
            number: 9,
            is_default: false,
        },
    )
}

fn no_memory(_alloc: Global) -> Result<u8, AllocError> {
    Err(AllocError)
}

/// How the reading calls end where a default without memory is an error.
const AS_EXPECTED: DecodeError = DecodeError::Custom("as expected");

/// A default for which there is no memory.
#[derive(Drop)]
struct NoDefault;

impl Calls for NoDefault {
    fn write<E: Encoder>(&self, encoder: &mut E) -> Result<(), EncodeError> {
        encoder.encode_none::<u8>(NAME)
    }

    fn read<D: Decoder>(&self, decoder: &mut D) -> Result<(), Failure> {
        let first = decoder.decode_default(no_memory).err();
        let later = decoder.decode_default(no_memory).err();
        if first == Some(DecodeError::Memory) && later == Some(DecodeError::Failed) {
            Err(Failure::of_reading(AS_EXPECTED))
        } else {
            Err(Failure::Another)
        }
    }
}

/// Whether a default for which there is no memory is an error of memory, and makes the decoder failed.
///
/// # Errors
/// Why it was not.
pub fn a_default_without_memory_is_an_error<R: CallRules>(rules: &R) -> Result<(), Failure> {
    match calls_come_back(rules, NoDefault) {
        Err(Failure::NotRead(error)) => is_this(error, AS_EXPECTED),
        Err(failure) => Err(failure),
        Ok(()) => Err(Failure::Another),
    }
}
