//! Reading of components that may be absent (X.680, 25.1).
ghost use Rattle.asn1_laws.specs.Reading.{KeepsDepth, AfterReading, ReadsValue, Refuses};
ghost use Rattle.asn1_laws.specs.ReadingExactly.{HasReadValue};
ghost use Rattle.asn1_laws.specs.Refusals.{no_refusals};
ghost use Rattle.asn1_model.specs.ConstraintSets.{constraint_set};
ghost use Rattle.asn1_model.specs.Kinds.{option_type};
ghost use Rattle.std.specs.Prelude.{IfOk};

use crate::decode::Decode;
use crate::decoder::Decoder;
use asn1_bounds::Constraints;
use asn1_laws::DecodeError;
use asn1_tags::Tag;

impl<T: Decode> Decode for Option<T> {
    /// Reads a value under a tag and constraints. An error makes the decoder failed, and one that has failed answers
    /// [`DecodeError::Failed`], although an option is not one record.
    #[inline(always)]
    fn decode_with_tag_and_constraints<D: Decoder>(
        decoder: &mut D,
        tag: Tag,
        constraints: &Constraints<'_>,
    ) -> Result<Option<T>, DecodeError>
        ensures read { ReadsValue D.reader (option_type T.meaning) ⟦<Option<T> as PartialEq>⟧.eq tag
            (constraint_set constraints.now) decoder.old decoder.new result }
        ensures after_reading { AfterReading D.reader (option_type T.meaning) tag
            (constraint_set constraints.now) decoder.old decoder.new result }
        ensures refuses { Refuses D.reader no_refusals tag (constraint_set constraints.now)
            decoder.old decoder.new result }
        ensures only { IfOk result (HasReadValue D.reader decoder.old decoder.new
            (option_type T.meaning) tag (constraint_set constraints.now)) }
        ensures keeps_depth { KeepsDepth D.reader decoder.old decoder.new result }
    {
        decoder.decode_optional_with_tag_and_constraints(tag, constraints)
    }
}
