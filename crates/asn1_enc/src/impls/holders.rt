//! Writing of what holds a value and means the same, of options, and of what has no content.
use crate::encode::Encode;
use crate::encoder::Encoder;
use asn1_bounds::Constraints;
use asn1_laws::EncodeError;
use asn1_model::AsnType;
use asn1_tags::{Identifier, Tag};
use std::borrow::Cow;
use std::marker::PhantomData;

impl<T: Encode> Encode for Option<T> {
    #[inline(always)]
    fn encode_with_tag_and_constraints<E: Encoder>(
        &self,
        encoder: &mut E,
        tag: Tag,
        constraints: &Constraints<'_>,
        name: Identifier,
    ) -> Result<(), EncodeError> {
        match self {
            None => encoder.encode_none_with_tag(tag, name),
            Some(value) => encoder.encode_some_with_tag_and_constraints(
                tag,
                constraints,
                value,
                name,
            ),
        }
    }
}

impl<T: Encode> Encode for &T {
    #[inline(always)]
    fn encode_with_tag_and_constraints<E: Encoder>(
        &self,
        encoder: &mut E,
        tag: Tag,
        constraints: &Constraints<'_>,
        name: Identifier,
    ) -> Result<(), EncodeError> {
        T::encode_with_tag_and_constraints(*self, encoder, tag, constraints, name)
    }
}

impl<T: Encode> Encode for Box<T> {
    #[inline(always)]
    fn encode_with_tag_and_constraints<E: Encoder>(
        &self,
        encoder: &mut E,
        tag: Tag,
        constraints: &Constraints<'_>,
        name: Identifier,
    ) -> Result<(), EncodeError> {
        let name = name.or(T::identifier());
        T::encode_with_tag_and_constraints(&**self, encoder, tag, constraints, name)
    }
}

impl<T: Encode> Encode for Cow<'_, T> {
    #[inline(always)]
    fn encode_with_tag_and_constraints<E: Encoder>(
        &self,
        encoder: &mut E,
        tag: Tag,
        constraints: &Constraints<'_>,
        name: Identifier,
    ) -> Result<(), EncodeError> {
        let name = name.or(T::identifier());
        match self {
            Cow::Borrowed(target) => target.encode_with_tag_and_constraints(
                encoder,
                tag,
                constraints,
                name,
            ),
            Cow::Owned(value) => value.encode_with_tag_and_constraints(
                encoder,
                tag,
                constraints,
                name,
            ),
        }
    }
}

impl<T: AsnType> Encode for PhantomData<T> {
    #[inline(always)]
    fn encode_with_tag_and_constraints<E: Encoder>(
        &self,
        _encoder: &mut E,
        _tag: Tag,
        _constraints: &Constraints<'_>,
        _name: Identifier,
    ) -> Result<(), EncodeError> {
        Ok(())
    }
}
