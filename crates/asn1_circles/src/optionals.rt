//! A component that may be absent, on either side of an extension marker, by the reader of a type in it.
ghost use Rattle.asn1_circles.specs.Readers.{IsReaderOf, MayReadTo};
ghost use Rattle.asn1_laws.specs.GivenTypes.{given, given_after_tag};
ghost use Rattle.asn1_laws.specs.ReadingExactly.{HasReadMark, HasReadOptional, HasReadValue};
ghost use Rattle.asn1_laws.specs.ReadingTypes.{Reads, ReadsOptional};
ghost use Rattle.asn1_laws.specs.Sides.{side_of};
ghost use Rattle.asn1_laws.specs.Reading.{OpensNothing, TellsPresence};
ghost use Rattle.asn1_model.specs.Records.{absent, present};
ghost use Rattle.asn1_model.specs.Tags.{tree_tags};
ghost use Rattle.asn1_slots.specs.Filling.{ReadsOptionalComponent};
ghost use Rattle.asn1_slots.specs.Taggings.{under};
ghost use Rattle.asn1_tags.specs.Trees.{shape};
ghost use Rattle.std.specs.Option.{option_eq};
ghost use Rattle.std.specs.Prelude.{◌≡◌, IfOk, IsSomeAnd, OnOk, Some, true, unwrap_or};

use crate::errors::ReadError;
use crate::readings::Reading;
use crate::tagged::read_after_explicit_tag_with;
use asn1_dec::Decoder;
use asn1_laws::{DecodeError, Side};
use asn1_model::AsnType;
use asn1_slots::Tagging;
use asn1_tags::{Tag, TagTree};

/// Whether the component is there that is written under this tag, and begins with a tag of the tree.
#[inline(always)]
fn is_there<D: Decoder>(
    decoder: &mut D,
    side: Side,
    tag: Tag,
    tree: TagTree<'static>,
) -> Result<bool, DecodeError>
    ensures read { TellsPresence D.reader decoder.old decoder.new (present (side_of side) tag)
        (absent (side_of side) tag) (tree_tags (shape tree.entry)) result }
    ensures only { IfOk result (HasReadMark D.reader decoder.old decoder.new
        (present (side_of side) tag) (absent (side_of side) tag)) }
    ensures opens_nothing { OpensNothing D.reader decoder.old decoder.new result }
{
    match side {
        Side::Root => decoder.presence(tag, tree),
        Side::Additions => decoder.addition_presence(tag, tree),
    }
}

/// A value that is there, under a tag. The decoder has failed if it is not read.
#[inline(always)]
fn read_present_with<
    T: AsnType + Eq + Drop,
    W: AsnType + Eq + Drop,
    M: Reading<T, W>,
    E: ReadError,
    D: Decoder,
    F: Fn(&mut D, Tag) -> Result<T, E>,
>(decoder: &mut D, tag: Tag, read: &F) -> Result<Option<W>, DecodeError>
    requires callable { MayReadTo D.reader (D.reader.depth_left decoder.old) (F.pre read.now) }
    requires reads { IsReaderOf D.reader T.meaning T.eq E.says (F.post read.now) }
    ensures read { Reads D.reader (given tag W.meaning.constraints W.meaning)
        (λ w v. option_eq W.eq w (Some v)) decoder.old decoder.new result }
    ensures only { IfOk result (λ w. IsSomeAnd w (HasReadValue D.reader decoder.old decoder.new
        W.meaning tag W.meaning.constraints)) }
    ensures same_depth { OnOk result
        (D.reader.depth_left decoder.new ≡ D.reader.depth_left decoder.old) }
{
    match M::read_value::<E, D, F>(decoder, tag, read) {
        Ok(value) => Ok(Some(value)),
        Err(error) => Err(decoder.refuse(error)),
    }
}

/// A component that may be absent, under a tag.
#[inline(always)]
fn read_optional_under<
    T: AsnType + Eq + Drop,
    W: AsnType + Eq + Drop,
    M: Reading<T, W>,
    E: ReadError,
    D: Decoder,
    F: Fn(&mut D, Tag) -> Result<T, E>,
>(decoder: &mut D, side: Side, tag: Option<Tag>, read: &F) -> Result<Option<W>, DecodeError>
    requires callable { MayReadTo D.reader (D.reader.depth_left decoder.old) (F.pre read.now) }
    requires reads { IsReaderOf D.reader T.meaning T.eq E.says (F.post read.now) }
    ensures read { ReadsOptional D.reader (side_of side) (given (unwrap_or tag W.meaning.tag)
        W.meaning.constraints W.meaning) W.eq decoder.old decoder.new result }
    ensures only { IfOk result (HasReadOptional D.reader decoder.old decoder.new (side_of side)
        (given (unwrap_or tag W.meaning.tag) W.meaning.constraints W.meaning)) }
    ensures same_depth { OnOk result
        (D.reader.depth_left decoder.new ≡ D.reader.depth_left decoder.old) }
{
    let table = W::table();
    let tag = tag.unwrap_or(table.tag);
    if !is_there(decoder, side, tag, table.tree.under(tag))? {
        return Ok(None);
    }
    read_present_with::<T, W, M, E, D, F>(decoder, tag, read)
}

/// A component that may be absent, after an explicit tag.
#[inline(always)]
fn read_optional_after_tag_with<
    T: AsnType + Eq + Drop,
    W: AsnType + Eq + Drop,
    M: Reading<T, W>,
    E: ReadError,
    D: Decoder,
    F: Fn(&mut D, Tag) -> Result<T, E>,
>(decoder: &mut D, side: Side, tag: Tag, read: &F) -> Result<Option<W>, DecodeError>
    requires callable { MayReadTo D.reader (D.reader.depth_left decoder.old) (F.pre read.now) }
    requires reads { IsReaderOf D.reader T.meaning T.eq E.says (F.post read.now) }
    ensures read { ReadsOptional D.reader (side_of side) (given_after_tag tag
        W.meaning.constraints W.meaning) W.eq decoder.old decoder.new result }
    ensures only { IfOk result (HasReadOptional D.reader decoder.old decoder.new (side_of side)
        (given_after_tag tag W.meaning.constraints W.meaning)) }
    ensures same_depth { OnOk result
        (D.reader.depth_left decoder.new ≡ D.reader.depth_left decoder.old) }
{
    if !is_there(decoder, side, tag, TagTree::Leaf(tag))? {
        return Ok(None);
    }
    let value = read_after_explicit_tag_with::<T, W, M, E, D, F>(decoder, tag, read)?;
    Ok(Some(value))
}

/// A component that may be absent.
#[inline(always)]
pub(crate) fn read_optional_with<
    T: AsnType + Eq + Drop,
    W: AsnType + Eq + Drop,
    M: Reading<T, W>,
    E: ReadError,
    D: Decoder,
    F: Fn(&mut D, Tag) -> Result<T, E>,
>(decoder: &mut D, side: Side, tagging: Tagging, read: &F) -> Result<Option<W>, DecodeError>
    requires callable { MayReadTo D.reader (D.reader.depth_left decoder.old) (F.pre read.now) }
    requires reads { IsReaderOf D.reader T.meaning T.eq E.says (F.post read.now) }
    ensures read { ReadsOptionalComponent D.reader (side_of side) (under tagging W.meaning)
        (λ v w. option_eq W.eq w v ≡ true) decoder.old decoder.new result }
    ensures only { IfOk result (HasReadOptional D.reader decoder.old decoder.new (side_of side)
        (λ _. under tagging W.meaning)) }
    ensures same_depth { OnOk result (D.reader.depth_left decoder.new ≡
        D.reader.depth_left decoder.old) }
{
    match tagging {
        Tagging::Untagged => read_optional_under::<T, W, M, E, D, F>(decoder, side, None, read),
        Tagging::Tagged(tag) => read_optional_under::<T, W, M, E, D, F>(
            decoder,
            side,
            Some(tag),
            read,
        ),
        Tagging::Explicit(tag) => read_optional_after_tag_with::<T, W, M, E, D, F>(
            decoder, side, tag, read,
        ),
    }
}
