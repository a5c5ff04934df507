//! Reading of what holds a value and means the same, and of what has no content.
ghost use Rattle.asn1_laws.specs.Reading.{AfterReading, ReadsValue, Refuses};
ghost use Rattle.asn1_laws.specs.ReadingExactly.{HasReadValue};
ghost use Rattle.asn1_laws.specs.Refusals.{no_refusals};
ghost use Rattle.asn1_model.specs.ConstraintSets.{constraint_set};
ghost use Rattle.asn1_model.specs.Kinds.{empty_type};
ghost use Rattle.std.specs.Prelude.{◌≡◌, IfOk, IsOk};

use crate::boxes::read_boxed;
use crate::decode::Decode;
use crate::decoder::Decoder;
use asn1_bounds::Constraints;
use asn1_laws::DecodeError;
use asn1_model::AsnType;
use asn1_tags::Tag;
use std::borrow::Cow;
use std::marker::PhantomData;

impl<T: Decode> Decode for Box<T> {
    // The refusals of its content.
    ghost refusals = { T.refusals };

    #[inline(always)]
    fn decode_with_tag_and_constraints<D: Decoder>(
        decoder: &mut D,
        tag: Tag,
        constraints: &Constraints<'_>,
    ) -> Result<Box<T>, DecodeError> {
        read_boxed(decoder, |decoder| {
            T::decode_with_tag_and_constraints(decoder, tag, constraints)
        })
    }
}

impl<T: Decode> Decode for Cow<'_, T> {
    // The refusals of its content.
    ghost refusals = { T.refusals };

    #[inline(always)]
    fn decode_with_tag_and_constraints<D: Decoder>(
        decoder: &mut D,
        tag: Tag,
        constraints: &Constraints<'_>,
    ) -> Result<Self, DecodeError> {
        let value = T::decode_with_tag_and_constraints(decoder, tag, constraints)?;
        Ok(Cow::Owned(value))
    }
}

impl<T: AsnType> Decode for PhantomData<T> {
    /// Reads nothing, and does not fail.
    #[inline(always)]
    fn decode_with_tag_and_constraints<D: Decoder>(
        decoder: &mut D,
        tag: Tag,
        constraints: &Constraints<'_>,
    ) -> Result<PhantomData<T>, DecodeError>
        ensures read { ReadsValue D.reader empty_type ⟦<PhantomData<T> as PartialEq>⟧.eq tag
            (constraint_set constraints.now) decoder.old decoder.new result }
        ensures after_reading { AfterReading D.reader empty_type tag
            (constraint_set constraints.now) decoder.old decoder.new result }
        ensures refuses { Refuses D.reader no_refusals tag (constraint_set constraints.now)
            decoder.old decoder.new result }
        ensures only { IfOk result (HasReadValue D.reader decoder.old decoder.new empty_type tag
            (constraint_set constraints.now)) }
        ensures nothing { IsOk result × (decoder.new ≡ decoder.old) }
    {
        Ok(PhantomData)
    }
}
