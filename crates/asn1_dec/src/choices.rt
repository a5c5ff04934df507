//! A CHOICE under whatever tag.
ghost use Rattle.asn1_laws.specs.Reading.{KeepsDepth, NeedsDepth, ReadsValue};
ghost use Rattle.asn1_laws.specs.ReadingExactly.{HasReadChoiceAfterTag, HasReadValue};
ghost use Rattle.asn1_laws.specs.TaggedChoices.{ReadsAfterTag};
ghost use Rattle.asn1_model.specs.ConstraintSets.{constraint_set};
ghost use Rattle.std.specs.Prelude.{IfOk};

use crate::decode::DecodeChoice;
use crate::decoder::Decoder;
use asn1_bounds::Constraints;
use asn1_components::ChoiceType;
use asn1_laws::DecodeError;
use asn1_tags::Tag;

/// A CHOICE after an explicit tag, under its own constraints.
#[inline(always)]
fn read_after_tag<T: DecodeChoice, D: Decoder>(decoder: &mut D, tag: Tag) -> Result<T, DecodeError>
    ensures read { ReadsAfterTag D.reader tag T.meaning.constraints T.meaning.name T.alternatives
        T.pick T.eq decoder.old decoder.new result }
    ensures only { IfOk result (HasReadChoiceAfterTag D.reader decoder.old decoder.new tag
        T.meaning.constraints T.alternatives T.pick) }
    ensures depth_first { NeedsDepth D.reader decoder.old result }
    ensures keeps_depth { KeepsDepth D.reader decoder.old decoder.new result }
{
    decoder.open_explicit_prefix(tag)?;
    let Ok(constraints) = T::constraints(decoder.global()) else {
        return Err(decoder.refuse(DecodeError::Memory));
    };
    let value = decoder.decode_choice(&constraints)?;
    decoder.close()?;
    Ok(value)
}

/// A CHOICE under a tag: untagged under the CHOICE marker tag; under any other, after that tag, with its own constraints inside
/// (X.680, 31.2.7).
#[inline(always)]
pub(crate) fn read_choice<T: DecodeChoice + ChoiceType, D: Decoder>(
    decoder: &mut D,
    tag: Tag,
    constraints: &Constraints<'_>,
) -> Result<T, DecodeError>
    ensures read { ReadsValue D.reader T.meaning T.eq tag (constraint_set constraints.now)
        decoder.old decoder.new result }
    ensures only { IfOk result (HasReadValue D.reader decoder.old decoder.new T.meaning tag
        (constraint_set constraints.now)) }
    ensures depth_first { NeedsDepth D.reader decoder.old result }
    ensures keeps_depth { KeepsDepth D.reader decoder.old decoder.new result }
{
    if tag.is_choice() {
        return decoder.decode_choice(constraints);
    }
    read_after_tag(decoder, tag)
}
