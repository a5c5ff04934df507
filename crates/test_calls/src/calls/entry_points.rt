//! The same value by each entry point of its type.
use crate::call_rules::{CallRules, FIRST, NAME, NumberedCalls, answers, numbered_calls_come_back};
use crate::failure::Failure;
use asn1_bounds::Constraints;
use asn1_dec::{Decode, Decoder};
use asn1_enc::{Encode, EncodeError, Encoder};

/// A value, by six entry points.
#[derive(Drop)]
struct EntryPoints<T>(T);

impl<T: Encode + Decode> NumberedCalls for EntryPoints<T> {
    fn count(&self) -> usize {
        6
    }

    fn write_call<E: Encoder>(&self, encoder: &mut E, number: usize) -> Result<(), EncodeError> {
        let constraints = &Constraints::NONE;
        let value = &self.0;
        match number {
            0 => value.encode_with_tag(encoder, FIRST),
            1 => value.encode_with_identifier(encoder, NAME),
            2 => value.encode_with_tag_and_identifier(encoder, FIRST, NAME),
            3 => value.encode_with_constraints(encoder, constraints),
            4 => value.encode_with_constraints_and_identifier(encoder, constraints, NAME),
            _ => value.encode_with_tag_and_constraints(encoder, FIRST, constraints, NAME),
        }
    }

    fn read_call<D: Decoder>(&self, decoder: &mut D, number: usize) -> Result<(), Failure> {
        let constraints = &Constraints::NONE;
        let value = &self.0;
        match number {
            0 | 2 => answers(T::decode_with_tag(decoder, FIRST), value),
            1 => answers(T::decode(decoder), value),
            3 | 4 => answers(T::decode_with_constraints(decoder, constraints), value),
            _ => answers(
                T::decode_with_tag_and_constraints(decoder, FIRST, constraints),
                value,
            ),
        }
    }
}

/// Whether a value is written and read by each entry point of its type.
///
/// # Errors
/// Why it was not.
pub fn comes_back_by_entry_points<R: CallRules, T: Encode + Decode>(
    rules: &R,
    value: T,
) -> Result<(), Failure> {
    numbered_calls_come_back(rules, EntryPoints(value))
}
