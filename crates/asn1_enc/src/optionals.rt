//! A component that may be absent, on either side of an extension marker.
ghost use Rattle.asn1_laws.specs.GivenTypes.{after_tag, constraints_or_own, given};
ghost use Rattle.asn1_laws.specs.Sides.{side_of};
ghost use Rattle.asn1_laws.specs.Writing.{Writes};
ghost use Rattle.asn1_laws.specs.WritingTypes.{WritesOptional};
ghost use Rattle.asn1_model.specs.Composites.{mark_records};
ghost use Rattle.asn1_model.specs.Records.{in_root, present};
ghost use Rattle.asn1_tags.specs.Names.{name_of};
ghost use Rattle.std.specs.Prelude.{⊤, Some};

use crate::encode::Encode;
use crate::encoder::Encoder;
use asn1_bounds::Constraints;
use asn1_laws::{EncodeError, Side};
use asn1_model::AsnType;
use asn1_tags::{Identifier, Tag};

/// The mark of a component that is there.
#[inline(always)]
fn mark_present<E: Encoder>(encoder: &mut E, side: Side, tag: Tag) -> Result<(), EncodeError>
    ensures { Writes E.writer encoder.old (mark_records (present (side_of side) tag)) ⊤ encoder.new
        result }
{
    match side {
        Side::Root => encoder.mark_present(tag),
        Side::Additions => encoder.mark_addition_present(tag),
    }
}

/// A component that is there, under a tag, a name and constraints, or the type's own where none are given.
#[inline(always)]
pub(crate) fn write_present<T: Encode, E: Encoder>(
    encoder: &mut E,
    side: Side,
    tag: Tag,
    constraints: Option<&Constraints<'_>>,
    value: &T,
    name: Identifier,
) -> Result<(), EncodeError>
    ensures { WritesOptional E.writer (side_of side)
        (given tag (constraints_or_own constraints.entry T.meaning) T.meaning (name_of name))
        (Some value.now) encoder.old encoder.new result }
{
    mark_present(encoder, side, tag)?;
    match constraints {
        None => value.encode_with_tag_and_identifier(encoder, tag, name),
        Some(constraints) => value.encode_with_tag_and_constraints(encoder, tag, constraints, name),
    }
}

/// A component that is there, after an explicit tag.
#[inline(always)]
pub(crate) fn write_present_after_tag<T: Encode, E: Encoder>(
    encoder: &mut E,
    side: Side,
    tag: Tag,
    value: &T,
    name: Identifier,
) -> Result<(), EncodeError>
    ensures { WritesOptional E.writer (side_of side) (after_tag tag T.meaning (name_of name))
        (Some value.now) encoder.old encoder.new result }
{
    mark_present(encoder, side, tag)?;
    encoder.encode_explicit_prefix(tag, value, name)
}

/// Writes a component that may be absent, after an explicit tag, under the name of its type:
/// [`Encoder::encode_optional_with_explicit_prefix`] for a field that is an option.
#[inline(always)]
pub fn encode_explicit_optional<T: Encode, E: Encoder>(
    encoder: &mut E,
    tag: Tag,
    value: &Option<T>,
) -> Result<(), EncodeError>
    ensures { WritesOptional E.writer in_root (after_tag tag T.meaning T.meaning.name) value.now
        encoder.old encoder.new result }
{
    encoder.encode_optional_with_explicit_prefix(tag, value.as_ref(), T::identifier())
}
