//! A SET, by its components.
ghost use Rattle.asn1_components.specs.Components.{is_set};
ghost use Rattle.asn1_laws.specs.Reading.{KeepsDepth, NeedsDepth, ReadsValue};
ghost use Rattle.asn1_laws.specs.ReadingExactly.{HasReadComponents, HasReadParts, HasReadValue};
ghost use Rattle.asn1_laws.specs.ReadingTypes.{ReadsComponents, ReadsPartsLeft};
ghost use Rattle.asn1_model.specs.ConstraintSets.{ConstraintSet};
ghost use Rattle.std.specs.Prelude.{◌≡◌, IfOk, OnErr, OnOk, true};

use crate::decode_set::DecodeSet;
use crate::decoder::Decoder;
use crate::fields::component_with_tag;
use asn1_components::ConstructedType;
use asn1_laws::DecodeError;
use asn1_tags::Tag;

/// The components that are left in a SET, of which there are at most this many records.
#[inline(always)]
fn read_parts<S: DecodeSet, D: Decoder>(
    decoder: &mut D,
    bound: usize,
) -> Result<Vec<S::Part>, DecodeError>
    ensures read { ReadsPartsLeft D.reader bound S.components S.index_of S.is_part_of
        (λ parts. parts.items) decoder.old decoder.new result }
    ensures only { IfOk result (λ parts. HasReadParts D.reader decoder.old decoder.new
        S.IsReadAsPart parts.items) }
    ensures same_depth { OnOk result (D.reader.depth_left decoder.new ≡
        D.reader.depth_left decoder.old) }
    ensures has_failed { OnErr result (D.reader.failed decoder.new ≡ true) }
{
    let mut parts = Vec::new(decoder.global());
    for count in 0..bound {
        let tag = match decoder.next_component::<S>()? {
            Some(tag) => tag,
            None => return Ok(parts),
        };
        let index = match component_with_tag::<S>(tag) {
            Some(index) => index,
            None => return Err(decoder.refuse(DecodeError::UnknownField { index: count, tag })),
        };
        let part = match S::decode_field(decoder, index, tag) {
            Ok(part) => part,
            Err(error) => return Err(decoder.refuse(error)),
        };
        match parts.push(part) {
            Ok(()) => {}
            Err(_) => return Err(decoder.refuse(DecodeError::Memory)),
        }
    }
    let _ = decoder.next_component::<S>()?;
    Ok(parts)
}

/// A SET under a tag.
#[inline(always)]
fn read_components<S: DecodeSet, D: Decoder>(decoder: &mut D, tag: Tag) -> Result<S, DecodeError>
    ensures read { ReadsComponents D.reader is_set tag S.components S.eq
        decoder.old decoder.new result }
    ensures only { IfOk result (HasReadComponents D.reader decoder.old decoder.new is_set tag
        S.components) }
    ensures depth_first { NeedsDepth D.reader decoder.old result }
    ensures keeps_depth { KeepsDepth D.reader decoder.old decoder.new result }
{
    let bound = decoder.open_set::<S>(tag)?;
    let parts = read_parts::<S, D>(decoder, bound)?;
    // Bytes are left if a component of no bytes came again and again.
    decoder.close()?;
    match S::from_fields(decoder.global(), parts) {
        Ok(value) => Ok(value),
        Err(error) => Err(decoder.refuse(error)),
    }
}

/// A SET, by its components, in whatever order they come. It reads a value of a SET type, under whatever
/// constraints. A record whose tag no component has is refused with [`DecodeError::UnknownField`], by its index.
#[inline(always)]
pub(crate) fn read_set<S: DecodeSet + ConstructedType, D: Decoder>(
    decoder: &mut D,
    tag: Tag,
) -> Result<S, DecodeError>
    ensures components { ReadsComponents D.reader is_set tag S.components S.eq
        decoder.old decoder.new result }
    ensures only { IfOk result (HasReadComponents D.reader decoder.old decoder.new is_set tag
        S.components) }
    ensures as_meant { S.components.kind ≡ is_set → (c : ConstraintSet) →
        ReadsValue D.reader S.meaning S.eq tag c decoder.old decoder.new result }
    ensures only_meant { S.components.kind ≡ is_set → (c : ConstraintSet) →
        IfOk result (HasReadValue D.reader decoder.old decoder.new S.meaning tag c) }
    ensures depth_first { NeedsDepth D.reader decoder.old result }
    ensures keeps_depth { KeepsDepth D.reader decoder.old decoder.new result }
{
    read_components(decoder, tag)
}
