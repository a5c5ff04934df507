//! A CHOICE under a tag.
use crate::call_rules::{CallRules, Calls, FIRST, NAME, answers, calls_come_back};
use crate::failure::Failure;
use asn1_dec::{Decode, Decoder};
use asn1_enc::{Encode, EncodeError, Encoder};
use asn1_samples::Shape;
use asn1_tags::Tag;

/// A ring under a tag and a name.
#[derive(Drop)]
struct Ring(Tag);

impl Calls for Ring {
    fn write<E: Encoder>(&self, encoder: &mut E) -> Result<(), EncodeError> {
        Shape::Ring(3).encode_with_tag_and_identifier(encoder, self.0, NAME)
    }

    fn read<D: Decoder>(&self, decoder: &mut D) -> Result<(), Failure> {
        answers(Shape::decode_with_tag(decoder, self.0), &Shape::Ring(3))
    }
}

/// Whether a CHOICE comes back under the CHOICE marker tag, and after another.
///
/// # Errors
/// The reason why it did not.
pub fn choices_come_back_under_a_tag<R: CallRules>(rules: &R) -> Result<(), Failure> {
    calls_come_back(rules, Ring(Tag::CHOICE)).and(calls_come_back(rules, Ring(FIRST)))
}
