//! Reading of INSTANCE OF (X.681, annex C).
use crate::decode::{Decode, DecodeFields};
use crate::decoder::Decoder;
use asn1_bounds::Constraints;
use asn1_laws::DecodeError;
use asn1_tags::{Class, Tag};
use asn1_types::InstanceOf;
use asn1_values::ObjectIdentifier;

const VALUE: Tag = Tag {
    class: Class::Context,
    value: 0,
};

impl<T: Decode> DecodeFields for InstanceOf<T> {
    #[inline(always)]
    fn decode_fields<D: Decoder>(decoder: &mut D) -> Result<InstanceOf<T>, DecodeError> {
        let type_id = ObjectIdentifier::decode(decoder)?;
        let value = decoder.decode_explicit_prefix(VALUE)?;
        Ok(InstanceOf { type_id, value })
    }
}

impl<T: Decode> Decode for InstanceOf<T> {
    #[inline(always)]
    fn decode_with_tag_and_constraints<D: Decoder>(
        decoder: &mut D,
        tag: Tag,
        _constraints: &Constraints<'_>,
    ) -> Result<InstanceOf<T>, DecodeError> {
        decoder.decode_sequence(tag)
    }
}
