//! The answers of calls if the type inside refuses its value.
use crate::call_rules::{CallRules, Calls, FIRST, NAME, calls_come_back, is_this};
use crate::failure::Failure;
use asn1_bounds::Constraints;
use asn1_dec::{DecodeError, Decoder};
use asn1_enc::{EncodeError, Encoder};
use asn1_values::ConstrainedInteger;

type OneToTen = ConstrainedInteger<1, 10>;

/// The call around a number.
#[derive(Clone, Copy, Drop)]
enum Around {
    ExplicitTag,
    ExplicitTagWithConstraints,
    Component,
    ComponentAfterATag,
    Addition,
    AdditionAfterATag,
}

/// Eleven, which is read as a number from one to ten.
#[derive(Drop)]
struct Eleven(Around);

impl Calls for Eleven {
    fn write<E: Encoder>(&self, encoder: &mut E) -> Result<(), EncodeError> {
        let eleven = &11u8;
        match self.0 {
            Around::ExplicitTag | Around::ExplicitTagWithConstraints => {
                encoder.encode_explicit_prefix(FIRST, eleven, NAME)
            }
            Around::Component => encoder.encode_some_with_tag(FIRST, eleven, NAME),
            Around::ComponentAfterATag => {
                encoder.encode_some_with_explicit_prefix(FIRST, eleven, NAME)
            }
            Around::Addition => {
                encoder.encode_extension_addition_with_tag(FIRST, Some(eleven), NAME)
            }
            Around::AdditionAfterATag => {
                encoder.encode_extension_addition_with_explicit_prefix(FIRST, Some(eleven), NAME)
            }
        }
    }

    fn read<D: Decoder>(&self, decoder: &mut D) -> Result<(), Failure> {
        let limits = &Constraints::NONE;
        match self.0 {
            Around::ExplicitTag => number(decoder.decode_explicit_prefix(FIRST)),
            Around::ExplicitTagWithConstraints => {
                number(decoder.decode_explicit_prefix_with_constraints(FIRST, limits))
            }
            Around::Component => component(decoder.decode_optional_with_tag(FIRST)),
            Around::ComponentAfterATag => {
                component(decoder.decode_optional_with_explicit_prefix(FIRST))
            }
            Around::Addition => component(decoder.decode_extension_addition_with_tag(FIRST)),
            Around::AdditionAfterATag => component(
                decoder.decode_extension_addition_with_explicit_tag_and_constraints(FIRST, limits),
            ),
        }
    }
}

fn number(answer: Result<OneToTen, DecodeError>) -> Result<(), Failure> {
    match answer {
        Ok(_) => Ok(()),
        Err(error) => Err(Failure::of_reading(error)),
    }
}

fn component(answer: Result<Option<OneToTen>, DecodeError>) -> Result<(), Failure> {
    match answer {
        Ok(_) => Ok(()),
        Err(error) => Err(Failure::of_reading(error)),
    }
}

fn is_outside<R: CallRules>(rules: &R, around: Around) -> Result<(), Failure> {
    match calls_come_back(rules, Eleven(around)) {
        Ok(()) => Err(Failure::Another),
        Err(Failure::NotRead(error)) => is_this(error, DecodeError::OutOfRange),
        Err(failure) => Err(failure),
    }
}

/// Whether the error of a number outside its limits is answered as it is by each call that reads the number inside something
/// else, by a codec that writes an INTEGER the same under all limits.
///
/// # Errors
/// How else a call ended.
pub fn own_errors_are_answered_as_they_are<R: CallRules>(rules: &R) -> Result<(), Failure> {
    is_outside(rules, Around::ExplicitTag)
        .and(is_outside(rules, Around::ExplicitTagWithConstraints))
        .and(is_outside(rules, Around::Component))
        .and(is_outside(rules, Around::ComponentAfterATag))
        .and(is_outside(rules, Around::Addition))
        .and(is_outside(rules, Around::AdditionAfterATag))
}
