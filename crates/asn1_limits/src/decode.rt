//! Reading of values within limits: as the values are read, and then tested.
ghost use Rattle.asn1_limits.specs.LimitedTypes.{IsPassedIfWithin, refusals_outside};

use crate::restriction::Restriction;
use crate::within::Within;
use asn1_bounds::Constraints;
use asn1_dec::{Decode, DecodeError, Decoder};
use asn1_tags::Tag;

impl<T: Decode, L: Restriction<T>> Decode for Within<T, L> {
    // The refusals of the type, and its values outside the limits.
    ghost refusals = { refusals_outside T.meaning L.IsWithin T.refusals };

    /// Reads a value under a tag and constraints. One that is outside the limits is read, and the error is
    /// [`DecodeError::OutOfRange`].
    #[inline(always)]
    fn decode_with_tag_and_constraints<D: Decoder>(
        decoder: &mut D,
        tag: Tag,
        constraints: &Constraints<'_>,
    ) -> Result<Within<T, L>, DecodeError> {
        pass_if_within(T::decode_with_tag_and_constraints(decoder, tag, constraints))
    }
}

// The answer, if it is an error or a value within the limits.
#[inline(always)]
fn pass_if_within<T: PartialEq + Drop, L: Restriction<T>>(
    answer: Result<T, DecodeError>,
) -> Result<Within<T, L>, DecodeError>
    ensures { IsPassedIfWithin L.IsWithin answer result }
{
    Within::new(answer?).ok_or(DecodeError::OutOfRange)
}
