//! A component that may be absent, on either side of an extension marker.
ghost use Rattle.asn1_laws.specs.GivenTypes.{constraints_or_own, given, given_after_tag};
ghost use Rattle.asn1_laws.specs.Reading.{KeepsDepth, OpensNothing, TellsPresence};
ghost use Rattle.asn1_laws.specs.ReadingExactly.{HasReadMark, HasReadOptional, HasReadValue};
ghost use Rattle.asn1_laws.specs.ReadingTypes.{Reads, ReadsOptional};
ghost use Rattle.asn1_laws.specs.Sides.{side_of};
ghost use Rattle.asn1_model.specs.Records.{absent, present};
ghost use Rattle.asn1_model.specs.Tags.{tree_tags};
ghost use Rattle.asn1_tags.specs.Trees.{shape};
ghost use Rattle.std.specs.Option.{option_eq};
ghost use Rattle.std.specs.Prelude.{◌≡◌, IfOk, IsSomeAnd, OnErr, OnOk, Some, true, unwrap_or};

use crate::decode::Decode;
use crate::decoder::Decoder;
use crate::explicit_tags::read_after_explicit_tag;
use crate::values::read_value;
use asn1_bounds::Constraints;
use asn1_laws::{DecodeError, Side};
use asn1_tags::{Tag, TagTree};

/// Whether the component is there that is written under this tag, and begins with a tag of the tree.
#[inline(always)]
fn is_there<D: Decoder>(
    decoder: &mut D,
    side: Side,
    tag: Tag,
    tree: TagTree<'static>,
) -> Result<bool, DecodeError>
    ensures read { TellsPresence D.reader decoder.old decoder.new (present (side_of side) tag)
        (absent (side_of side) tag) (tree_tags (shape tree.entry)) result }
    ensures only { IfOk result (HasReadMark D.reader decoder.old decoder.new
        (present (side_of side) tag) (absent (side_of side) tag)) }
    ensures opens_nothing { OpensNothing D.reader decoder.old decoder.new result }
{
    match side {
        Side::Root => decoder.presence(tag, tree),
        Side::Additions => decoder.addition_presence(tag, tree),
    }
}

/// A value that is there, under a tag, and constraints, or the type's own where none are given. The decoder has failed if it is
/// not read.
#[inline(always)]
fn read_present<T: Decode, D: Decoder>(
    decoder: &mut D,
    tag: Tag,
    constraints: Option<&Constraints<'_>>,
) -> Result<Option<T>, DecodeError>
    ensures read { Reads D.reader
        (given tag (constraints_or_own constraints.entry T.meaning) T.meaning)
        (λ w v. option_eq T.eq w (Some v)) decoder.old decoder.new result }
    ensures only { IfOk result (λ w. IsSomeAnd w (HasReadValue D.reader decoder.old decoder.new
        T.meaning tag (constraints_or_own constraints.entry T.meaning))) }
    ensures same_depth { OnOk result
        (D.reader.depth_left decoder.new ≡ D.reader.depth_left decoder.old) }
    ensures failed_as_before { OnOk result
        (D.reader.failed decoder.new ≡ D.reader.failed decoder.old) }
    ensures has_failed { OnErr result (D.reader.failed decoder.new ≡ true) }
{
    match read_value(decoder, tag, constraints) {
        Ok(value) => Ok(Some(value)),
        Err(error) => Err(decoder.refuse(error)),
    }
}

/// A component that may be absent, under a tag and constraints, or the type's own where they are not given.
#[inline(always)]
pub(crate) fn read_optional<T: Decode, D: Decoder>(
    decoder: &mut D,
    side: Side,
    tag: Option<Tag>,
    constraints: Option<&Constraints<'_>>,
) -> Result<Option<T>, DecodeError>
    ensures read { ReadsOptional D.reader (side_of side) (given (unwrap_or tag T.meaning.tag)
        (constraints_or_own constraints.entry T.meaning) T.meaning) T.eq decoder.old decoder.new
        result }
    ensures only { IfOk result (HasReadOptional D.reader decoder.old decoder.new (side_of side)
        (given (unwrap_or tag T.meaning.tag) (constraints_or_own constraints.entry T.meaning)
        T.meaning)) }
    ensures keeps_depth { KeepsDepth D.reader decoder.old decoder.new result }
{
    let table = T::table();
    let tag = tag.unwrap_or(table.tag);
    if !is_there(decoder, side, tag, table.tree.under(tag))? {
        return Ok(None);
    }
    read_present(decoder, tag, constraints)
}

/// A component that may be absent, after an explicit tag, under constraints, or the type's own where none are given.
#[inline(always)]
pub(crate) fn read_optional_after_tag<T: Decode, D: Decoder>(
    decoder: &mut D,
    side: Side,
    tag: Tag,
    constraints: Option<&Constraints<'_>>,
) -> Result<Option<T>, DecodeError>
    ensures read { ReadsOptional D.reader (side_of side) (given_after_tag tag
        (constraints_or_own constraints.entry T.meaning) T.meaning) T.eq decoder.old decoder.new
        result }
    ensures only { IfOk result (HasReadOptional D.reader decoder.old decoder.new (side_of side)
        (given_after_tag tag (constraints_or_own constraints.entry T.meaning) T.meaning)) }
    ensures keeps_depth { KeepsDepth D.reader decoder.old decoder.new result }
{
    if !is_there(decoder, side, tag, TagTree::Leaf(tag))? {
        return Ok(None);
    }
    let value = read_after_explicit_tag(decoder, tag, constraints)?;
    Ok(Some(value))
}
