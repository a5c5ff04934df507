//! Writing of types under other tags, and of open types (X.680, 31; X.681, 14).
use crate::encode::Encode;
use crate::encoder::Encoder;
use asn1_bounds::Constraints;
use asn1_laws::EncodeError;
use asn1_model::AsnType;
use asn1_tags::{Identifier, Tag};
use asn1_types::{Any, Explicit, Implicit};

impl<T: AsnType, V: Encode> Encode for Implicit<T, V> {
    #[inline(always)]
    fn encode_with_tag_and_constraints<E: Encoder>(
        &self,
        encoder: &mut E,
        tag: Tag,
        constraints: &Constraints<'_>,
        name: Identifier,
    ) -> Result<(), EncodeError> {
        self.value
            .encode_with_tag_and_constraints(encoder, tag, constraints, name)
    }
}

impl<T: AsnType, V: Encode> Encode for Explicit<T, V> {
    #[inline(always)]
    fn encode_with_tag_and_constraints<E: Encoder>(
        &self,
        encoder: &mut E,
        tag: Tag,
        _constraints: &Constraints<'_>,
        name: Identifier,
    ) -> Result<(), EncodeError> {
        encoder.encode_explicit_prefix(tag, &self.value, name)
    }
}

impl Encode for Any {
    #[inline(always)]
    fn encode_with_tag_and_constraints<E: Encoder>(
        &self,
        encoder: &mut E,
        tag: Tag,
        _constraints: &Constraints<'_>,
        name: Identifier,
    ) -> Result<(), EncodeError> {
        encoder.encode_any(tag, self, name)
    }
}
