//! Reading of lists of elements (X.680, 26 and 28).
use crate::decode::Decode;
use crate::decoder::Decoder;
use asn1_bounds::Constraints;
use asn1_laws::DecodeError;
use asn1_tags::Tag;
use asn1_types::SetOf;

impl<T: Decode> Decode for Vec<T> {
    #[inline(always)]
    fn decode_with_tag_and_constraints<D: Decoder>(
        decoder: &mut D,
        tag: Tag,
        constraints: &Constraints<'_>,
    ) -> Result<Vec<T>, DecodeError> {
        decoder.decode_sequence_of(tag, constraints)
    }
}

impl<T: Decode> Decode for SetOf<T> {
    #[inline(always)]
    fn decode_with_tag_and_constraints<D: Decoder>(
        decoder: &mut D,
        tag: Tag,
        constraints: &Constraints<'_>,
    ) -> Result<SetOf<T>, DecodeError> {
        decoder.decode_set_of(tag, constraints)
    }
}
