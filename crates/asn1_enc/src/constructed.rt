//! A SEQUENCE or a SET, by its components.
ghost use Rattle.asn1_components.specs.Components.{head_of_kind, rows};
ghost use Rattle.asn1_laws.specs.GivenTypes.{given};
ghost use Rattle.asn1_laws.specs.Writing.{NeedsDepth, WritesHead};
ghost use Rattle.asn1_laws.specs.WritingTypes.{WritesComponents, WritesValue};
ghost use Rattle.asn1_enc.specs.SequencesAndSets.{kind_of};
ghost use Rattle.asn1_model.specs.ConstraintSets.{unconstrained};
ghost use Rattle.asn1_tags.specs.Names.{name_of};
ghost use Rattle.std.specs.Prelude.{◌≡◌};

use crate::encode::EncodeFields;
use crate::encoder::Encoder;
use asn1_components::{ConstructedType, FieldTable};
use asn1_laws::EncodeError;
use asn1_tags::{Identifier, Tag};

/// Whether a type of components is a SEQUENCE (X.680, 25) or a SET (27).
#[derive(Clone, Copy)]
pub(crate) enum Kind {
    Sequence,
    Set,
}

/// Opens a SEQUENCE or a SET, whose components are those of the table of `C`.
#[inline(always)]
fn open<C: FieldTable, E: Encoder>(
    encoder: &mut E,
    kind: Kind,
    tag: Tag,
    name: Identifier,
) -> Result<(), EncodeError>
    ensures { WritesHead E.writer encoder.old
        (head_of_kind (kind_of kind) tag (rows C.components) (name_of name)) encoder.new result }
{
    match kind {
        Kind::Sequence => encoder.open_sequence::<C>(tag, name),
        Kind::Set => encoder.open_set::<C>(tag, name),
    }
}

/// The components in the order of their definition, in the scope of their kind.
#[inline(always)]
fn write_components<C: EncodeFields, E: Encoder>(
    encoder: &mut E,
    kind: Kind,
    tag: Tag,
    value: &C,
    name: Identifier,
) -> Result<(), EncodeError>
    ensures writes { WritesComponents E.writer (kind_of kind) tag (name_of name) C.components
        value.now encoder.old encoder.new result }
    ensures depth_first { NeedsDepth E.writer encoder.old result }
{
    open::<C, E>(encoder, kind, tag, name)?;
    value.encode_fields(encoder)?;
    encoder.close()
}

/// The same. It writes the records of a type of this kind, which are the same under all constraints.
#[inline(always)]
pub(crate) fn write_constructed<C: EncodeFields + ConstructedType, E: Encoder>(
    encoder: &mut E,
    kind: Kind,
    tag: Tag,
    value: &C,
    name: Identifier,
) -> Result<(), EncodeError>
    ensures components { WritesComponents E.writer (kind_of kind) tag (name_of name) C.components
        value.now encoder.old encoder.new result }
    ensures as_meant { C.components.kind ≡ kind_of kind → WritesValue E.writer
        (given tag unconstrained C.meaning (name_of name)) value.now encoder.old encoder.new
        result }
    ensures depth_first { NeedsDepth E.writer encoder.old result }
{
    write_components(encoder, kind, tag, value, name)
}
