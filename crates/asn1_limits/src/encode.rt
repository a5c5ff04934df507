//! Writing of values within limits: as the values, since none can be outside.
use crate::restriction::Restriction;
use crate::within::Within;
use asn1_bounds::Constraints;
use asn1_enc::{Encode, EncodeError, Encoder};
use asn1_tags::{Identifier, Tag};

impl<T: Encode + PartialEq, L: Restriction<T>> Encode for Within<T, L> {
    #[inline(always)]
    fn encode_with_tag_and_constraints<E: Encoder>(
        &self,
        encoder: &mut E,
        tag: Tag,
        constraints: &Constraints<'_>,
        name: Identifier,
    ) -> Result<(), EncodeError> {
        T::encode_with_tag_and_constraints(self.get(), encoder, tag, constraints, name)
    }
}
