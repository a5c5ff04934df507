//! Writing of lists and sets of elements (X.680, 26 and 28).
use crate::encode::Encode;
use crate::encoder::Encoder;
use asn1_bounds::Constraints;
use asn1_laws::EncodeError;
use asn1_tags::{Identifier, Tag};
use asn1_types::{Array, SetOf};

impl<T: Encode> Encode for Vec<T> {
    #[inline(always)]
    fn encode_with_tag_and_constraints<E: Encoder>(
        &self,
        encoder: &mut E,
        tag: Tag,
        constraints: &Constraints<'_>,
        name: Identifier,
    ) -> Result<(), EncodeError> {
        encoder.encode_sequence_of(tag, self, constraints, name.or(Identifier::SEQUENCE_OF))
    }
}

impl<T: Encode, const N: usize> Encode for [T; N] {
    #[inline(always)]
    fn encode_with_tag_and_constraints<E: Encoder>(
        &self,
        encoder: &mut E,
        tag: Tag,
        constraints: &Constraints<'_>,
        name: Identifier,
    ) -> Result<(), EncodeError> {
        encoder.encode_sequence_of(tag, self, constraints, name.or(Identifier::SEQUENCE_OF))
    }
}

impl<T: Encode, const N: usize> Encode for Array<T, N> {
    #[inline(always)]
    fn encode_with_tag_and_constraints<E: Encoder>(
        &self,
        encoder: &mut E,
        tag: Tag,
        constraints: &Constraints<'_>,
        name: Identifier,
    ) -> Result<(), EncodeError> {
        self.elements
            .encode_with_tag_and_constraints(encoder, tag, constraints, name)
    }
}

impl<T: Encode> Encode for SetOf<T> {
    #[inline(always)]
    fn encode_with_tag_and_constraints<E: Encoder>(
        &self,
        encoder: &mut E,
        tag: Tag,
        constraints: &Constraints<'_>,
        name: Identifier,
    ) -> Result<(), EncodeError> {
        encoder.encode_set_of(tag, self, constraints, name.or(Identifier::SET_OF))
    }
}
