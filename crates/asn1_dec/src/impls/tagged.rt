//! Reading of types under other tags, and of open types (X.680, 31; X.681, 14).
use crate::decode::Decode;
use crate::decoder::Decoder;
use asn1_bounds::Constraints;
use asn1_laws::DecodeError;
use asn1_model::AsnType;
use asn1_tags::Tag;
use asn1_types::{Any, Explicit, Implicit};

impl<T: AsnType, V: Decode> Decode for Implicit<T, V> {
    // The refusals of its content.
    ghost refusals = { V.refusals };

    #[inline(always)]
    fn decode_with_tag_and_constraints<D: Decoder>(
        decoder: &mut D,
        tag: Tag,
        constraints: &Constraints<'_>,
    ) -> Result<Implicit<T, V>, DecodeError> {
        let value = V::decode_with_tag_and_constraints(decoder, tag, constraints)?;
        Ok(Implicit::new(value))
    }
}

impl<T: AsnType, V: Decode> Decode for Explicit<T, V> {
    #[inline(always)]
    fn decode_with_tag_and_constraints<D: Decoder>(
        decoder: &mut D,
        tag: Tag,
        _constraints: &Constraints<'_>,
    ) -> Result<Explicit<T, V>, DecodeError> {
        let value = decoder.decode_explicit_prefix(tag)?;
        Ok(Explicit::new(value))
    }
}

impl Decode for Any {
    #[inline(always)]
    fn decode_with_tag_and_constraints<D: Decoder>(
        decoder: &mut D,
        tag: Tag,
        _constraints: &Constraints<'_>,
    ) -> Result<Any, DecodeError> {
        decoder.decode_any(tag)
    }
}
