//! The call that opens a CHOICE.
ghost use Rattle.asn1_components.specs.Alternatives.{table_of};
ghost use Rattle.asn1_laws.specs.Reading.{AfterReading, ReadsValue};
ghost use Rattle.asn1_laws.specs.ReadingExactly.{HasOpenedChoice};
ghost use Rattle.asn1_model.specs.ConstraintSets.{ConstraintSet, constraint_set};
ghost use Rattle.asn1_model.specs.Tags.{CHOICE};
ghost use Rattle.asn1_nesting.specs.OpenChoices.{HasOpenedChoiceAfterTag, HasOpenedChoiceAt, IsOpen, IsOpenAfter, IsOpenUntagged};
ghost use Rattle.asn1_tags.specs.Tags.{tag_eq};
ghost use Rattle.std.specs.Prelude.{◌≡◌, ◌<◌, Err, IfErr, IfOk, OnErr, OnOk, false, true};
ghost use Rattle.asn1_laws.specs.declared.decode_error.DecodeError.TheVariants.{Failed};

use asn1_bounds::Constraints;
use asn1_components::ChoiceType;
use asn1_dec::Decoder;
use asn1_laws::DecodeError;
use asn1_model::AsnType;
use asn1_slots::index_of_tag;
use asn1_tags::Tag;

/// The error that no alternative of the type has the tag.
#[cold]
#[inline(never)]
fn no_alternative<T: AsnType>() -> DecodeError {
    match T::identifier().0 {
        Some(name) => DecodeError::NoValidChoice(name),
        None => DecodeError::NoValidChoice(""),
    }
}

/// Opens a CHOICE without a tag, and answers the index of its alternative.
fn open_untagged<T: ChoiceType + Eq, D: Decoder>(
    decoder: &mut D,
    constraints: &Constraints<'_>,
) -> Result<usize, DecodeError>
    ensures opened { IfOk result (λ index. IsOpenUntagged D.reader T.alternatives
        (constraint_set constraints.now) decoder.old decoder.new index) }
    ensures only { OnOk result (HasOpenedChoice D.reader decoder.old decoder.new
        (constraint_set constraints.now) (table_of T.alternatives)) }
    ensures not_read { IfErr result (λ e. ReadsValue D.reader T.meaning T.eq CHOICE
        (constraint_set constraints.now) decoder.old decoder.new (Err e)) }
    ensures has_failed { OnErr result (D.reader.failed decoder.new ≡ true) }
    ensures failed_before { D.reader.failed decoder.old ≡ true → result ≡ Err Failed }
{
    let tag = decoder.open_choice::<T>(constraints)?;
    match index_of_tag::<T>(tag) {
        Some(index) => Ok(index),
        None => Err(decoder.refuse(no_alternative::<T>())),
    }
}

/// Opens a CHOICE after a tag, under its own constraints, and answers the index of its alternative.
fn open_after_tag<T: ChoiceType + Eq, D: Decoder>(
    decoder: &mut D,
    tag: Tag,
) -> Result<usize, DecodeError>
    ensures opened { IfOk result (λ index. IsOpenAfter D.reader T.alternatives T.meaning.constraints
        tag decoder.old decoder.new index) }
    ensures only { OnOk result (HasOpenedChoiceAfterTag D.reader decoder.old decoder.new
        (table_of T.alternatives) T.meaning.constraints tag) }
    ensures not_read { tag_eq tag CHOICE ≡ false → (c : ConstraintSet) → IfErr result (λ e. ReadsValue D.reader T.meaning T.eq tag c
        decoder.old decoder.new (Err e)) }
    ensures has_failed { OnErr result (D.reader.failed decoder.new ≡ true) }
    ensures failed_before { D.reader.failed decoder.old ≡ true → result ≡ Err Failed }
{
    decoder.open_explicit_prefix(tag)?;
    let Ok(constraints) = T::constraints(decoder.global()) else {
        return Err(decoder.refuse(DecodeError::Memory));
    };
    open_untagged::<T, D>(decoder, &constraints)
}

/// Opens a CHOICE that holds itself, under a tag and constraints, and answers the index of the alternative that is next. The type
/// reads that, and then calls [`crate::close_choice`].
pub fn open_choice_at<T: ChoiceType + Eq, D: Decoder>(
    decoder: &mut D,
    tag: Tag,
    constraints: &Constraints<'_>,
) -> Result<usize, DecodeError>
    ensures opened { IfOk result (λ index. IsOpen D.reader T.alternatives T.meaning.constraints tag
        (constraint_set constraints.now) decoder.old decoder.new index) }
    ensures only { OnOk result (HasOpenedChoiceAt D.reader decoder.old decoder.new
        (table_of T.alternatives) T.meaning.constraints tag (constraint_set constraints.now)) }
    ensures deeper { OnOk result (D.reader.depth_left decoder.new < D.reader.depth_left
        decoder.old) }
    ensures not_read { IfErr result (λ e. ReadsValue D.reader T.meaning T.eq tag
        (constraint_set constraints.now) decoder.old decoder.new (Err e)) }
    ensures after_reading { IfErr result (λ e. AfterReading D.reader T.meaning tag
        (constraint_set constraints.now) decoder.old decoder.new (Err e)) }
{
    if tag.is_choice() {
        open_untagged::<T, D>(decoder, constraints)
    } else {
        open_after_tag::<T, D>(decoder, tag)
    }
}
