//! A value after an explicit tag.
use crate::call_rules::{CallRules, FIRST, NAME, NumberedCalls, answers, numbered_calls_come_back};
use crate::failure::Failure;
use asn1_bounds::Constraints;
use asn1_dec::{Decode, Decoder};
use asn1_enc::{Encode, EncodeError, Encoder};
use std::alloc::Global;

/// A value that is written twice, and read by two calls.
#[derive(Drop)]
struct ExplicitTags<T>(T);

impl<T: Encode + Decode> NumberedCalls for ExplicitTags<T> {
    fn count(&self) -> usize {
        2
    }

    fn write_call<E: Encoder>(&self, encoder: &mut E, _number: usize) -> Result<(), EncodeError> {
        encoder.encode_explicit_prefix(FIRST, &self.0, NAME)
    }

    fn read_call<D: Decoder>(&self, decoder: &mut D, number: usize) -> Result<(), Failure> {
        let constraints = &Constraints::NONE;
        match number {
            0 => answers(decoder.decode_explicit_prefix(FIRST), &self.0),
            _ => answers(
                decoder.decode_explicit_prefix_with_constraints(FIRST, constraints),
                &self.0,
            ),
        }
    }
}

/// Whether a text is written and read after an explicit tag, by each call.
///
/// # Errors
/// Why it was not.
pub fn explicit_tags_come_back<R: CallRules>(rules: &R, alloc: Global) -> Result<(), Failure> {
    numbered_calls_come_back(rules, ExplicitTags(String::from_str(alloc, "9")?))
}
