//! The calls that open and close a SEQUENCE OF.
ghost use Rattle.asn1_laws.specs.OpenSequences.{IsOpenSequenceOf};
ghost use Rattle.asn1_laws.specs.ReadingExactly.{HasOpenedNamed, HasReadElements, HasReadList};
ghost use Rattle.asn1_laws.specs.ReadingTypes.{ReadsElements, ReadsElementsLeft};
ghost use Rattle.asn1_model.specs.ConstraintSets.{ConstraintSet, constraint_set};
ghost use Rattle.asn1_model.specs.Records.{sequence_of};
ghost use Rattle.asn1_tags.specs.declared.tags.Tag.{Tag};
ghost use Rattle.std.specs.Cmp.Lexicographic.{pointwise};
ghost use Rattle.std.specs.Global.{Vec};
ghost use Rattle.std.specs.Prelude.{◌≡◌, ◌<◌, ℕ, Err, IfErr, IfOk, OnOk};

use asn1_bounds::Constraints;
use asn1_dec::Decoder;
use asn1_laws::DecodeError;
use asn1_model::AsnType;
use asn1_tags::Tag;

/// Opens a SEQUENCE OF under a tag and constraints, and answers a bound on the number of its elements. The type reads these, and
/// then calls [`crate::close_sequence_of`].
pub fn open_sequence_of_at<T: AsnType + Eq, D: Decoder>(
    decoder: &mut D,
    tag: Tag,
    constraints: &Constraints<'_>,
) -> Result<usize, DecodeError>
    ensures opened { IfOk result (λ bound. IsOpenSequenceOf D.reader tag (constraint_set
        constraints.now) decoder.old decoder.new bound) }
    ensures only { OnOk result (HasOpenedNamed D.reader decoder.old decoder.new (sequence_of tag
        (constraint_set constraints.now))) }
    ensures deeper { OnOk result (D.reader.depth_left decoder.new < D.reader.depth_left
        decoder.old) }
    ensures not_read { IfErr result (λ e. ReadsElements D.reader {W = Vec T} (sequence_of tag
        (constraint_set constraints.now)) T.meaning (λ w. pointwise T.eq w.items) decoder.old
        decoder.new (Err e)) }
{
    decoder.open_sequence_of(tag, constraints)
}

/// Closes a SEQUENCE OF, which [`crate::open_sequence_of_at`] opened, and of which the type has read the elements.
pub fn close_sequence_of<T: AsnType + Eq + Drop, D: Decoder>(
    decoder: &mut D,
    elements: Result<Vec<T>, DecodeError>,
) -> Result<Vec<T>, DecodeError>
    ensures read { (t : Tag) (c : ConstraintSet) (old opened : D) (bound : ℕ) → IsOpenSequenceOf
        D.reader t c old opened bound → ReadsElementsLeft D.reader bound T.meaning
        (λ w. pointwise T.eq w.items) opened decoder.old elements → ReadsElements D.reader
        (sequence_of t c) T.meaning (λ w. pointwise T.eq w.items) old decoder.new result }
    ensures only { (t : Tag) (c : ConstraintSet) (old opened : D) →
        HasOpenedNamed D.reader old opened (sequence_of t c) →
        IfOk elements (λ w. HasReadElements D.reader opened decoder.old T.meaning w.items) →
        IfOk result (λ w. HasReadList D.reader old decoder.new (sequence_of t c) T.meaning
        w.items) }
    ensures same_depth { (t : Tag) (c : ConstraintSet) (old opened : D) (bound : ℕ) →
        IsOpenSequenceOf D.reader t c old opened bound → OnOk elements (D.reader.depth_left
        decoder.old ≡ D.reader.depth_left opened) → OnOk result (D.reader.depth_left decoder.new ≡
        D.reader.depth_left old) }
{
    let elements = match elements {
        Ok(elements) => elements,
        Err(error) => return Err(error),
    };
    decoder.close()?;
    Ok(elements)
}
