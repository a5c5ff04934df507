//! A SET OF.
ghost use Rattle.asn1_laws.specs.Reading.{KeepsDepth, NeedsDepth};
ghost use Rattle.asn1_laws.specs.ReadingExactly.{HasReadList};
ghost use Rattle.asn1_laws.specs.ReadingTypes.{ReadsElements};
ghost use Rattle.asn1_model.specs.ConstraintSets.{constraint_set};
ghost use Rattle.asn1_model.specs.Records.{set_of};
ghost use Rattle.std.specs.Prelude.{IfOk};

use crate::decode::Decode;
use crate::decoder::Decoder;
use crate::elements::read_elements;
use asn1_bounds::Constraints;
use asn1_laws::DecodeError;
use asn1_tags::Tag;
use asn1_types::SetOf;

/// A SET OF, by its elements, in whatever order they come.
#[inline(always)]
pub(crate) fn read_set_of<T: Decode, D: Decoder>(
    decoder: &mut D,
    tag: Tag,
    constraints: &Constraints<'_>,
) -> Result<SetOf<T>, DecodeError>
    ensures read { ReadsElements D.reader (set_of tag (constraint_set constraints.now)) T.meaning
        ⟦<SetOf<T> as PartialEq>⟧.eq decoder.old decoder.new result }
    ensures only { IfOk result (HasReadList D.reader decoder.old decoder.new
        (set_of tag (constraint_set constraints.now)) T.meaning) }
    ensures depth_first { NeedsDepth D.reader decoder.old result }
    ensures keeps_depth { KeepsDepth D.reader decoder.old decoder.new result }
{
    let bound = decoder.open_set_of(tag, constraints)?;
    let elements = read_elements(decoder, bound)?;
    decoder.close()?;
    Ok(SetOf::from_vec(elements))
}
