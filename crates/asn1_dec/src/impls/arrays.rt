//! Reading of arrays (X.680, 26).
ghost use Rattle.asn1_laws.specs.Refusals.{HasOtherLength};

use crate::decode::Decode;
use crate::decoder::Decoder;
use asn1_bounds::Constraints;
use asn1_laws::DecodeError;
use asn1_model::AsnType;
use asn1_tags::Tag;
use asn1_types::Array;

impl<T: Decode, const N: usize> Decode for Array<T, N> {
    // A list of another number of valid elements.
    ghost refusals = { HasOtherLength T.meaning N };

    /// Reads a value under a tag and constraints. A list of another number of elements is read, and the error is
    /// [`DecodeError::IncorrectItemNumber`].
    #[inline(always)]
    fn decode_with_tag_and_constraints<D: Decoder>(
        decoder: &mut D,
        tag: Tag,
        constraints: &Constraints<'_>,
    ) -> Result<Array<T, N>, DecodeError> {
        let elements = decoder.decode_sequence_of::<T>(tag, constraints)?;
        match Array::try_from(elements) {
            Ok(array) => Ok(array),
            Err(elements) => Err(DecodeError::IncorrectItemNumber {
                expected: N,
                actual: elements.len(),
            }),
        }
    }
}

impl<const N: usize> Decode for [u8; N] {
    // A list of another number of octets.
    ghost refusals = { HasOtherLength ⟦<u8 as AsnType>⟧.meaning N };

    /// Reads a value under a tag and constraints. A list of another number of elements is read, and the error is
    /// [`DecodeError::IncorrectItemNumber`].
    #[inline(always)]
    fn decode_with_tag_and_constraints<D: Decoder>(
        decoder: &mut D,
        tag: Tag,
        constraints: &Constraints<'_>,
    ) -> Result<[u8; N], DecodeError> {
        let elements = decoder.decode_sequence_of::<u8>(tag, constraints)?;
        match <[u8; N]>::try_from(elements) {
            Ok(array) => Ok(array),
            Err(elements) => Err(DecodeError::IncorrectItemNumber {
                expected: N,
                actual: elements.len(),
            }),
        }
    }
}
