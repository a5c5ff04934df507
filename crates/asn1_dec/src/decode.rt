//! Types that are read.
ghost use Rattle.asn1_components.specs.Alternatives.{Each, all_of};
ghost use Rattle.asn1_components.specs.ChosenTags.{LacksTag};
ghost use Rattle.asn1_laws.specs.DecodeErrors.{no_memory, no_valid_choice, reason};
ghost use Rattle.asn1_laws.specs.Reading.{AfterReading, AfterReadingWithOwnConstraints, ReadsValue, Refuses};
ghost use Rattle.asn1_laws.specs.ReadingExactly.{HasReadAlternative, HasReadFields, HasReadValue};
ghost use Rattle.asn1_laws.specs.ReadingTypes.{ReadsAlternative, ReadsFields};
ghost use Rattle.asn1_laws.specs.Refusals.{Refusals, no_refusals};
ghost use Rattle.asn1_model.specs.ConstraintSets.{constraint_set};
ghost use Rattle.std.specs.Prelude.{◌≡◌, ◌≢◌, IfOk, OnOk, [], unwrap_or};
ghost use Rattle.std.specs.Result.{IsErrAnd};

use crate::decoder::Decoder;
use asn1_bounds::Constraints;
use asn1_components::{Choice, FieldTable};
use asn1_laws::DecodeError;
use asn1_model::AsnType;
use asn1_tags::Tag;

/// A type whose values are read.
///
/// Before the records of a valid value of a well-tagged type, under what the entry point is given, a tag and constraints, and
/// any name, the answer is an equal value, and what follows remains to be read. It fails there only if memory runs out,
/// or where the records are nested deeper than the depth left. An entry point takes the type's own tag or constraints if it is not given
/// one. The records after a value that may be absent, as an `Option`, begin with none of the type's tags.
///
/// After a success what was read is read as the answer (`only`), and nothing else was: the value's own records, or others that say
/// the same to a reader, as the type's meaning has it (`IsReadAs`).
///
/// A success keeps the depth left, and does not make the decoder failed. An error either does, or is the type's own,
/// which is neither [`DecodeError::Depth`] nor [`DecodeError::Failed`]: then the decoder has not failed, the depth left is as it
/// was, and the decoder, if it was before the records of a valid value, is after them, as where a box had no memory.
/// The decoder is as it was if memory ran out for the type's own constraints, of which only a permitted alphabet allocates.
///
/// A type may refuse records that it has read, by an error of its own (`refusals`): `LimitedInteger` a number outside its limits,
/// `Array` a list of another length. Before such records an entry point answers that error, and the decoder, which has not
/// failed, is after them; or it fails as it may before the records of a value. Most types refuse nothing.
///
/// A failed decoder answers [`DecodeError::Failed`] if each value of the type is a record.
pub trait Decode: AsnType + Eq + Sized + Drop {
    // The records that the type refuses, under a tag and constraints, each with its error. The codec's test decides which byte
    // strings are one value of an open type.
    ghost refusals: { Refusals } = { no_refusals };

    /// Reads a value under a tag and constraints.
    fn decode_with_tag_and_constraints<D: Decoder>(
        decoder: &mut D,
        tag: Tag,
        constraints: &Constraints<'_>,
    ) -> Result<Self, DecodeError>
        ensures read { ReadsValue D.reader Self.meaning Self.eq tag (constraint_set constraints.now)
            decoder.old decoder.new result }
        ensures after_reading { AfterReading D.reader Self.meaning tag
            (constraint_set constraints.now) decoder.old decoder.new result }
        ensures refuses { Refuses D.reader refusals tag (constraint_set constraints.now) decoder.old
            decoder.new result }
        ensures only { IfOk result (HasReadValue D.reader decoder.old decoder.new Self.meaning tag
            (constraint_set constraints.now)) };

    /// Reads a value under the type's own tag and constraints. The error is [`DecodeError::Memory`] if memory runs
    /// out for these.
    #[inline(always)]
    final fn decode<D: Decoder>(decoder: &mut D) -> Result<Self, DecodeError>
        ensures read { ReadsValue D.reader Self.meaning Self.eq Self.meaning.tag
            Self.meaning.constraints decoder.old decoder.new result }
        ensures after_reading { AfterReadingWithOwnConstraints D.reader Self.meaning
            Self.meaning.tag decoder.old decoder.new result }
        ensures refuses { Refuses D.reader refusals Self.meaning.tag Self.meaning.constraints
            decoder.old decoder.new result }
        ensures only { IfOk result (HasReadValue D.reader decoder.old decoder.new Self.meaning
            Self.meaning.tag Self.meaning.constraints) }
    {
        let table = Self::table();
        let constraints = table.constraints.to_constraints(decoder.global())?;
        Self::decode_with_tag_and_constraints(decoder, table.tag, &constraints)
    }

    /// Reads a value under a tag.
    #[inline(always)]
    final fn decode_with_tag<D: Decoder>(decoder: &mut D, tag: Tag) -> Result<Self, DecodeError>
        ensures read { ReadsValue D.reader Self.meaning Self.eq tag Self.meaning.constraints
            decoder.old decoder.new result }
        ensures after_reading { AfterReadingWithOwnConstraints D.reader Self.meaning tag decoder.old
            decoder.new result }
        ensures refuses { Refuses D.reader refusals tag Self.meaning.constraints decoder.old
            decoder.new result }
        ensures only { IfOk result (HasReadValue D.reader decoder.old decoder.new Self.meaning tag
            Self.meaning.constraints) }
    {
        let constraints = Self::constraints(decoder.global())?;
        Self::decode_with_tag_and_constraints(decoder, tag, &constraints)
    }

    /// Reads a value under constraints.
    #[inline(always)]
    final fn decode_with_constraints<D: Decoder>(
        decoder: &mut D,
        constraints: &Constraints<'_>,
    ) -> Result<Self, DecodeError>
        ensures read { ReadsValue D.reader Self.meaning Self.eq Self.meaning.tag
            (constraint_set constraints.now) decoder.old decoder.new result }
        ensures after_reading { AfterReading D.reader Self.meaning Self.meaning.tag
            (constraint_set constraints.now) decoder.old decoder.new result }
        ensures refuses { Refuses D.reader refusals Self.meaning.tag
            (constraint_set constraints.now) decoder.old decoder.new result }
        ensures only { IfOk result (HasReadValue D.reader decoder.old decoder.new Self.meaning
            Self.meaning.tag (constraint_set constraints.now)) }
    {
        Self::decode_with_tag_and_constraints(decoder, Self::tag(), constraints)
    }
}

/// A type whose components are read in the order of their definition: a SEQUENCE or a group of additions.
pub trait DecodeFields: FieldTable + Eq + Sized + Drop {
    /// Reads all components. The records after them begin with no tag of those after the last required one. After an error
    /// nothing is promised about the decoder, until the caller makes it failed ([`Decoder::refuse`]).
    fn decode_fields<D: Decoder>(decoder: &mut D) -> Result<Self, DecodeError>
        ensures read { ReadsFields D.reader Self.components Self.eq decoder.old decoder.new result }
        ensures only { IfOk result (HasReadFields D.reader decoder.old decoder.new
            Self.components) }
        ensures same_depth { OnOk result (D.reader.depth_left decoder.new ≡
            D.reader.depth_left decoder.old) };
}

/// A CHOICE whose alternatives are read.
pub trait DecodeChoice: AsnType + Choice + Eq + Sized + Drop {
    /// Reads the alternative that can begin with the tag. If there is none, the error is [`DecodeError::NoValidChoice`] with
    /// the name of the type, unless memory runs out, as where the alternative is looked for in a table that is made for it.
    /// After an error nothing is promised about the decoder, until the caller makes it failed ([`Decoder::refuse`]).
    fn from_tag<D: Decoder>(decoder: &mut D, tag: Tag) -> Result<Self, DecodeError>
        ensures read { ReadsAlternative D.reader tag Self.alternatives Self.pick Self.eq
            decoder.old decoder.new result }
        ensures only { IfOk result (HasReadAlternative D.reader decoder.old decoder.new
            Self.alternatives Self.pick) }
        ensures unknown { Each (LacksTag tag) (all_of Self.alternatives) →
            IsErrAnd result (λ e. reason e ≢ no_memory →
            reason e ≡ no_valid_choice (unwrap_or Self.meaning.name [])) }
        ensures same_depth { OnOk result (D.reader.depth_left decoder.new ≡
            D.reader.depth_left decoder.old) };
}
