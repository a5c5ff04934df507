//! Additions after an extension marker, which may be absent.
use crate::call_rules::{
    CallRules, FIRST, NAME, NumberedCalls, answers, answers_none, answers_some,
    numbered_calls_come_back,
};
use crate::failure::Failure;
use asn1_bounds::Constraints;
use asn1_dec::Decoder;
use asn1_enc::{EncodeError, Encoder};
use asn1_tags::Tag;
use std::alloc::{AllocError, Global};

/// Writes an addition, by a call of its own: the second and the sixth are absent.
fn write_addition<E: Encoder>(encoder: &mut E, number: usize) -> Result<(), EncodeError> {
    let constraints = &Constraints::NONE;
    let value = match number {
        1 | 5 => None,
        _ => Some(&9u8),
    };
    match number {
        0 | 1 | 6 => encoder.encode_extension_addition(Tag::INTEGER, constraints, value, NAME),
        2 => encoder.encode_extension_addition(FIRST, constraints, value, NAME),
        4 => encoder.encode_extension_addition_with_explicit_prefix(FIRST, value, NAME),
        _ => encoder.encode_extension_addition_with_tag(FIRST, value, NAME),
    }
}

/// Additions without a default.
#[derive(Drop)]
struct AdditionCalls;

impl NumberedCalls for AdditionCalls {
    fn count(&self) -> usize {
        7
    }

    fn write_call<E: Encoder>(&self, encoder: &mut E, number: usize) -> Result<(), EncodeError> {
        write_addition(encoder, number)
    }

    fn read_call<D: Decoder>(&self, decoder: &mut D, number: usize) -> Result<(), Failure> {
        let constraints = &Constraints::NONE;
        match number {
            0 => answers_some(decoder.decode_extension_addition(), &9u8),
            1 => answers_none(decoder.decode_extension_addition_with_constraints::<u8>(
                constraints,
            )),
            2 => answers_some(decoder.decode_extension_addition_with_tag(FIRST), &9u8),
            3 => answers_some(
                decoder.decode_extension_addition_with_tag_and_constraints(FIRST, constraints),
                &9u8,
            ),
            4 => answers_some(
                decoder.decode_extension_addition_with_explicit_tag_and_constraints(
                    FIRST,
                    constraints,
                ),
                &9u8,
            ),
            5 => answers_none(decoder.decode_extension_addition_with_tag::<u8>(FIRST)),
            _ => answers_some(
                decoder.decode_extension_addition_with_constraints(constraints),
                &9u8,
            ),
        }
    }
}

/// Whether an addition is there or absent as it was written, by each call.
///
/// # Errors
/// Why it was not.
pub fn additions_come_back<R: CallRules>(rules: &R) -> Result<(), Failure> {
    numbered_calls_come_back(rules, AdditionCalls)
}

fn eight(_alloc: Global) -> Result<u8, AllocError> {
    Ok(8)
}

/// The first four additions and the last, with a default, which the second has.
#[derive(Drop)]
struct AdditionsWithDefaults;

impl NumberedCalls for AdditionsWithDefaults {
    fn count(&self) -> usize {
        5
    }

    fn write_call<E: Encoder>(&self, encoder: &mut E, number: usize) -> Result<(), EncodeError> {
        write_addition(encoder, if number == 4 { 6 } else { number })
    }

    fn read_call<D: Decoder>(&self, decoder: &mut D, number: usize) -> Result<(), Failure> {
        let constraints = &Constraints::NONE;
        match number {
            0 => answers(decoder.decode_extension_addition_with_default(eight), &9u8),
            1 => answers(
                decoder.decode_extension_addition_with_default_and_constraints(eight, constraints),
                &8u8,
            ),
            2 => answers(
                decoder.decode_extension_addition_with_default_and_tag(FIRST, eight),
                &9u8,
            ),
            3 => answers(
                decoder.decode_extension_addition_with_default_and_tag_and_constraints(
                    FIRST,
                    eight,
                    constraints,
                ),
                &9u8,
            ),
            _ => answers(
                decoder.decode_extension_addition_with_default_and_constraints(eight, constraints),
                &9u8,
            ),
        }
    }
}

/// Whether an addition with a default is what was written, or its default, by each call.
///
/// # Errors
/// Why it was not.
pub fn additions_with_defaults_come_back<R: CallRules>(rules: &R) -> Result<(), Failure> {
    numbered_calls_come_back(rules, AdditionsWithDefaults)
}
