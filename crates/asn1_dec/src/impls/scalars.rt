//! Reading of NULL, BOOLEAN and INTEGER (X.680, 18, 19 and 24).
ghost use Rattle.asn1_laws.specs.Refusals.{IsOutside};

use crate::decode::Decode;
use crate::decoder::Decoder;
use asn1_bounds::Constraints;
use asn1_laws::DecodeError;
use asn1_tags::Tag;
use asn1_values::{Integer, LimitedInteger, Limits};

impl Decode for () {
    #[inline(always)]
    fn decode_with_tag_and_constraints<D: Decoder>(
        decoder: &mut D,
        tag: Tag,
        _constraints: &Constraints<'_>,
    ) -> Result<(), DecodeError> {
        decoder.decode_null(tag)
    }
}

impl Decode for bool {
    #[inline(always)]
    fn decode_with_tag_and_constraints<D: Decoder>(
        decoder: &mut D,
        tag: Tag,
        _constraints: &Constraints<'_>,
    ) -> Result<bool, DecodeError> {
        decoder.decode_bool(tag)
    }
}

impl Decode for u8 {
    #[inline(always)]
    fn decode_with_tag_and_constraints<D: Decoder>(
        decoder: &mut D,
        tag: Tag,
        constraints: &Constraints<'_>,
    ) -> Result<u8, DecodeError> {
        decoder.decode_integer(tag, constraints)
    }
}

impl Decode for u16 {
    #[inline(always)]
    fn decode_with_tag_and_constraints<D: Decoder>(
        decoder: &mut D,
        tag: Tag,
        constraints: &Constraints<'_>,
    ) -> Result<u16, DecodeError> {
        decoder.decode_integer(tag, constraints)
    }
}

impl Decode for u32 {
    #[inline(always)]
    fn decode_with_tag_and_constraints<D: Decoder>(
        decoder: &mut D,
        tag: Tag,
        constraints: &Constraints<'_>,
    ) -> Result<u32, DecodeError> {
        decoder.decode_integer(tag, constraints)
    }
}

impl Decode for u64 {
    #[inline(always)]
    fn decode_with_tag_and_constraints<D: Decoder>(
        decoder: &mut D,
        tag: Tag,
        constraints: &Constraints<'_>,
    ) -> Result<u64, DecodeError> {
        decoder.decode_integer(tag, constraints)
    }
}

impl Decode for usize {
    #[inline(always)]
    fn decode_with_tag_and_constraints<D: Decoder>(
        decoder: &mut D,
        tag: Tag,
        constraints: &Constraints<'_>,
    ) -> Result<usize, DecodeError> {
        decoder.decode_integer(tag, constraints)
    }
}

impl Decode for i8 {
    #[inline(always)]
    fn decode_with_tag_and_constraints<D: Decoder>(
        decoder: &mut D,
        tag: Tag,
        constraints: &Constraints<'_>,
    ) -> Result<i8, DecodeError> {
        decoder.decode_integer(tag, constraints)
    }
}

impl Decode for i16 {
    #[inline(always)]
    fn decode_with_tag_and_constraints<D: Decoder>(
        decoder: &mut D,
        tag: Tag,
        constraints: &Constraints<'_>,
    ) -> Result<i16, DecodeError> {
        decoder.decode_integer(tag, constraints)
    }
}

impl Decode for i32 {
    #[inline(always)]
    fn decode_with_tag_and_constraints<D: Decoder>(
        decoder: &mut D,
        tag: Tag,
        constraints: &Constraints<'_>,
    ) -> Result<i32, DecodeError> {
        decoder.decode_integer(tag, constraints)
    }
}

impl Decode for i64 {
    #[inline(always)]
    fn decode_with_tag_and_constraints<D: Decoder>(
        decoder: &mut D,
        tag: Tag,
        constraints: &Constraints<'_>,
    ) -> Result<i64, DecodeError> {
        decoder.decode_integer(tag, constraints)
    }
}

impl Decode for isize {
    #[inline(always)]
    fn decode_with_tag_and_constraints<D: Decoder>(
        decoder: &mut D,
        tag: Tag,
        constraints: &Constraints<'_>,
    ) -> Result<isize, DecodeError> {
        decoder.decode_integer(tag, constraints)
    }
}

impl Decode for i128 {
    #[inline(always)]
    fn decode_with_tag_and_constraints<D: Decoder>(
        decoder: &mut D,
        tag: Tag,
        constraints: &Constraints<'_>,
    ) -> Result<i128, DecodeError> {
        decoder.decode_integer(tag, constraints)
    }
}

impl Decode for Integer {
    #[inline(always)]
    fn decode_with_tag_and_constraints<D: Decoder>(
        decoder: &mut D,
        tag: Tag,
        constraints: &Constraints<'_>,
    ) -> Result<Integer, DecodeError> {
        decoder.decode_integer(tag, constraints)
    }
}

impl<L: Limits> Decode for LimitedInteger<L> {
    // A number outside the limits.
    ghost refusals = { λ accepts. IsOutside L.start L.end };

    /// Reads a value under a tag and constraints. A number that is outside the limits is read, and the error is
    /// [`DecodeError::OutOfRange`].
    #[inline(always)]
    fn decode_with_tag_and_constraints<D: Decoder>(
        decoder: &mut D,
        tag: Tag,
        constraints: &Constraints<'_>,
    ) -> Result<LimitedInteger<L>, DecodeError> {
        let number = decoder.decode_integer::<Integer>(tag, constraints)?;
        LimitedInteger::new(number).ok_or(DecodeError::OutOfRange)
    }
}
