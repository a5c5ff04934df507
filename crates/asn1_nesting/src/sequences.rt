//! The calls that open and close a SEQUENCE.
ghost use Rattle.asn1_components.specs.Components.{is_sequence, rows};
ghost use Rattle.asn1_laws.specs.OpenSequences.{IsOpenSequence};
ghost use Rattle.asn1_laws.specs.Reading.{AfterReading, ReadsValue};
ghost use Rattle.asn1_laws.specs.ReadingExactly.{HasOpenedNamed, HasReadFields, HasReadValue};
ghost use Rattle.asn1_laws.specs.ReadingTypes.{ReadsFields};
ghost use Rattle.asn1_model.specs.ConstraintSets.{ConstraintSet};
ghost use Rattle.asn1_model.specs.Records.{sequence};
ghost use Rattle.std.specs.Prelude.{◌≡◌, ◌<◌, Err, IfErr, IfOk, OnOk};

use asn1_components::ConstructedType;
use asn1_dec::{Decoder, finish_sequence};
use asn1_laws::DecodeError;
use asn1_tags::Tag;

/// Opens a SEQUENCE under a tag. The type reads its components, and then calls [`crate::close_sequence`].
pub fn open_sequence_at<S: ConstructedType + Eq, D: Decoder>(
    decoder: &mut D,
    tag: Tag,
) -> Result<(), DecodeError>
    requires kind { S.components.kind ≡ is_sequence }
    ensures opened { OnOk result (IsOpenSequence D.reader S.components tag decoder.old
        decoder.new) }
    ensures only { OnOk result (HasOpenedNamed D.reader decoder.old decoder.new
        (sequence tag (rows S.components))) }
    ensures deeper { OnOk result (D.reader.depth_left decoder.new < D.reader.depth_left
        decoder.old) }
    ensures not_read { (c : ConstraintSet) → IfErr result (λ e. ReadsValue D.reader S.meaning S.eq
        tag c decoder.old decoder.new (Err e)) }
    ensures after_reading { (c : ConstraintSet) → IfErr result (λ e. AfterReading D.reader S.meaning
        tag c decoder.old decoder.new (Err e)) }
{
    decoder.open_sequence::<S>(tag)
}

/// Closes a SEQUENCE, which [`crate::open_sequence_at`] opened under the tag, and of which the type has read the components.
pub fn close_sequence<S: ConstructedType + Eq + Drop, D: Decoder>(
    decoder: &mut D,
    tag: Tag,
    components: Result<S, DecodeError>,
) -> Result<S, DecodeError>
    requires kind { S.components.kind ≡ is_sequence }
    ensures read { (c : ConstraintSet) (old opened : D) → IsOpenSequence D.reader S.components tag
        old opened → ReadsFields D.reader S.components S.eq opened decoder.old components →
        ReadsValue D.reader S.meaning S.eq tag c old decoder.new result }
    ensures only { (c : ConstraintSet) (old opened : D) →
        HasOpenedNamed D.reader old opened (sequence tag (rows S.components)) →
        IfOk components (HasReadFields D.reader opened decoder.old S.components) →
        IfOk result (HasReadValue D.reader old decoder.new S.meaning tag c) }
    ensures after_reading { (c : ConstraintSet) (old opened : D) → IsOpenSequence D.reader
        S.components tag old opened → OnOk components (D.reader.depth_left decoder.old ≡
        D.reader.depth_left opened) → AfterReading D.reader S.meaning tag c old decoder.new result }
{
    finish_sequence(decoder, tag, components)
}
