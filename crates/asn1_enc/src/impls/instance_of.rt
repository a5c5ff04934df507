//! Writing of INSTANCE OF (X.681, annex C).
use crate::encode::{Encode, EncodeFields};
use crate::encoder::Encoder;
use asn1_bounds::Constraints;
use asn1_laws::EncodeError;
use asn1_tags::{Class, Identifier, Tag};
use asn1_types::InstanceOf;

const VALUE: Tag = Tag {
    class: Class::Context,
    value: 0,
};

impl<T: Encode> Encode for InstanceOf<T> {
    #[inline(always)]
    fn encode_with_tag_and_constraints<E: Encoder>(
        &self,
        encoder: &mut E,
        tag: Tag,
        _constraints: &Constraints<'_>,
        name: Identifier,
    ) -> Result<(), EncodeError> {
        encoder.encode_sequence(tag, self, name)
    }
}

impl<T: Encode> EncodeFields for InstanceOf<T> {
    #[inline(always)]
    fn encode_field<E: Encoder>(&self, index: usize, encoder: &mut E) -> Result<(), EncodeError> {
        match index {
            0 => self.type_id.encode(encoder),
            1 => encoder.encode_explicit_prefix(VALUE, &self.value, Identifier::INSTANCE_OF),
            _ => Ok(()),
        }
    }
}
