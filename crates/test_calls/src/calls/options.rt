//! Components of the root that may be absent.
use crate::call_rules::{
    CallRules, FIRST, NAME, NumberedCalls, answers_none, answers_some, numbered_calls_come_back,
};
use crate::failure::Failure;
use asn1_bounds::Constraints;
use asn1_dec::{Decode, Decoder};
use asn1_enc::{Encode, EncodeError, Encoder};
use std::alloc::Global;

/// Components of the root that may be absent.
#[derive(Drop)]
struct OptionCalls<T>(T);

impl<T: Encode + Decode> NumberedCalls for OptionCalls<T> {
    fn count(&self) -> usize {
        7
    }

    fn write_call<E: Encoder>(&self, encoder: &mut E, number: usize) -> Result<(), EncodeError> {
        let constraints = &Constraints::NONE;
        let value = &self.0;
        match number {
            0 => encoder.encode_some(value, NAME),
            1 => encoder.encode_none::<T>(NAME),
            2 => encoder.encode_some_with_tag(FIRST, value, NAME),
            3 => encoder.encode_some_with_tag_and_constraints(FIRST, constraints, value, NAME),
            4 => encoder.encode_some_with_explicit_prefix(FIRST, value, NAME),
            5 => encoder.encode_some(value, NAME),
            _ => encoder.encode_none_with_tag(FIRST, NAME),
        }
    }

    fn read_call<D: Decoder>(&self, decoder: &mut D, number: usize) -> Result<(), Failure> {
        let constraints = &Constraints::NONE;
        let value = &self.0;
        match number {
            0 => answers_some(decoder.decode_optional(), value),
            1 => answers_none(decoder.decode_optional_with_constraints::<T>(constraints)),
            2 => answers_some(decoder.decode_optional_with_tag(FIRST), value),
            3 => answers_some(
                decoder.decode_optional_with_tag_and_constraints(FIRST, constraints),
                value,
            ),
            4 => answers_some(decoder.decode_optional_with_explicit_prefix(FIRST), value),
            5 => answers_some(decoder.decode_optional_with_constraints(constraints), value),
            _ => answers_none(decoder.decode_optional_with_tag::<T>(FIRST)),
        }
    }
}

/// Whether a component of the root is there or absent as it was written, by each call.
///
/// # Errors
/// Why it was not.
pub fn options_come_back<R: CallRules>(rules: &R, alloc: Global) -> Result<(), Failure> {
    numbered_calls_come_back(rules, OptionCalls(String::from_str(alloc, "9")?))
}
