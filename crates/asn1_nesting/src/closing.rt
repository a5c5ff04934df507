//! The call that closes a CHOICE.
ghost use Rattle.asn1_components.specs.Alternatives.{table_of};
ghost use Rattle.asn1_laws.specs.Reading.{AfterReading, KeepsDepth, ReadsValue};
ghost use Rattle.asn1_laws.specs.ReadingExactly.{HasOpenedChoice, HasReadChoice, HasReadChoiceAfterTag, HasReadValue};
ghost use Rattle.asn1_model.specs.ConstraintSets.{ConstraintSet};
ghost use Rattle.asn1_model.specs.Tags.{CHOICE};
ghost use Rattle.asn1_nesting.specs.OpenChoices.{HasOpenedChoiceAfterTag, HasOpenedChoiceAt, IsOpen, IsOpenAfter, IsOpenUntagged};
ghost use Rattle.asn1_tags.specs.Tags.{tag_eq};
ghost use Rattle.asn1_slots.specs.Cases.{ReadsCaseAt};
ghost use Rattle.asn1_tags.specs.declared.tags.Tag.{Tag};
ghost use Rattle.std.specs.Prelude.{◌≡◌, ℕ, IfOk, OnOk, false};

use crate::holds_itself::HoldsItself;
use asn1_dec::Decoder;
use asn1_laws::DecodeError;
use asn1_tags::Tag;

/// Closes a CHOICE without a tag, of which the alternative was read.
fn close_untagged<T: HoldsItself, D: Decoder>(
    decoder: &mut D,
    alternative: Result<T, DecodeError>,
) -> Result<T, DecodeError>
    ensures read { (c : ConstraintSet) (old opened : D) (index : ℕ) → IsOpenUntagged D.reader
        T.alternatives c old opened index → ReadsCaseAt D.reader T.cases T.case_of index opened
        decoder.old alternative → ReadsValue D.reader T.meaning T.eq CHOICE c old decoder.new
        result }
    ensures only { (c : ConstraintSet) (old opened : D) (index : ℕ) → HasOpenedChoice D.reader old
        opened c (table_of T.alternatives) → ReadsCaseAt D.reader T.cases T.case_of index opened
        decoder.old alternative → IfOk result (HasReadChoice D.reader old decoder.new c
        T.alternatives T.pick) }
    ensures keeps_depth { (c : ConstraintSet) (old opened : D) (index : ℕ) → IsOpenUntagged
        D.reader T.alternatives c old opened index → OnOk alternative (D.reader.depth_left
        decoder.old ≡ D.reader.depth_left opened) → KeepsDepth D.reader old decoder.new result }
{
    let value = match alternative {
        Ok(value) => value,
        Err(error) => return Err(decoder.refuse(error)),
    };
    decoder.close()?;
    Ok(value)
}

/// Closes a CHOICE after a tag.
fn close_after_tag<T: HoldsItself, D: Decoder>(
    decoder: &mut D,
    alternative: Result<T, DecodeError>,
) -> Result<T, DecodeError>
    ensures read { (t : Tag) (c : ConstraintSet) (old opened : D) (index : ℕ) → tag_eq t CHOICE ≡ false → IsOpenAfter D.reader
        T.alternatives T.meaning.constraints t old opened index → ReadsCaseAt D.reader T.cases T.case_of index opened
        decoder.old alternative → ReadsValue D.reader T.meaning T.eq t c old decoder.new
        result }
    ensures only { (t : Tag) (old opened : D) (index : ℕ) → HasOpenedChoiceAfterTag D.reader old opened
        (table_of T.alternatives) T.meaning.constraints t → ReadsCaseAt D.reader T.cases T.case_of
        index opened decoder.old alternative → IfOk result (HasReadChoiceAfterTag D.reader old
        decoder.new t T.meaning.constraints T.alternatives T.pick) }
    ensures keeps_depth { (t : Tag) (old opened : D) (index : ℕ) → IsOpenAfter
        D.reader T.alternatives T.meaning.constraints t old opened index → OnOk alternative (D.reader.depth_left
        decoder.old ≡ D.reader.depth_left opened) → KeepsDepth D.reader old decoder.new result }
{
    let value = close_untagged(decoder, alternative)?;
    decoder.close()?;
    Ok(value)
}

/// Closes a CHOICE that holds itself, which [`crate::open_choice_at`] opened under the tag, and of which the type has read the
/// alternative.
pub fn close_choice<T: HoldsItself, D: Decoder>(
    decoder: &mut D,
    tag: Tag,
    alternative: Result<T, DecodeError>,
) -> Result<T, DecodeError>
    ensures read { (c : ConstraintSet) (old opened : D) (index : ℕ) → IsOpen D.reader
        T.alternatives T.meaning.constraints tag c old opened index → ReadsCaseAt D.reader T.cases
        T.case_of index opened decoder.old alternative → ReadsValue D.reader T.meaning T.eq tag c
        old decoder.new result }
    ensures only { (c : ConstraintSet) (old opened : D) (index : ℕ) → HasOpenedChoiceAt D.reader
        old opened (table_of T.alternatives) T.meaning.constraints tag c → ReadsCaseAt D.reader
        T.cases T.case_of index opened decoder.old alternative → IfOk result (HasReadValue D.reader
        old decoder.new T.meaning tag c) }
    ensures after_reading { (c : ConstraintSet) (old opened : D) (index : ℕ) → IsOpen D.reader
        T.alternatives T.meaning.constraints tag c old opened index → OnOk alternative
        (D.reader.depth_left decoder.old ≡ D.reader.depth_left opened) → AfterReading D.reader
        T.meaning tag c old decoder.new result }
{
    if tag.is_choice() {
        close_untagged(decoder, alternative)
    } else {
        close_after_tag(decoder, alternative)
    }
}
