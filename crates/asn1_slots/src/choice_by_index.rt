//! CHOICE types that are read by index.
ghost use Rattle.asn1_components.specs.Alternatives.{Each, OneOf, all_of, trees_of};
ghost use Rattle.asn1_components.specs.ChosenTags.{LacksTag};
ghost use Rattle.asn1_laws.specs.DecodeErrors.{no_memory, no_valid_choice, reason};
ghost use Rattle.asn1_laws.specs.ReadingExactly.{HasReadAlternative};
ghost use Rattle.asn1_laws.specs.ReadingTypes.{ReadsAlternative};
ghost use Rattle.asn1_components.specs.Following.{When};
ghost use Rattle.asn1_slots.specs.Cases.{Case, IsMade, ReadsCaseAt, alternatives_of, are_of_cases, choice_of_cases};
ghost use Rattle.asn1_slots.specs.TagIndices.{IsIndexOf};
ghost use Rattle.asn1_tags.specs.declared.tags.Tag.{Tag};
ghost use Rattle.std.specs.Prelude.{◌≡◌, ◌≢◌, [], IfOk, List, OnOk, unwrap_or};
ghost use Rattle.std.specs.Result.{IsErrAnd};

use crate::tag_indices::{index_in_table, index_of_tag};
use asn1_components::ChoiceType;
use asn1_dec::Decoder;
use asn1_laws::DecodeError;
use asn1_model::AsnType;
use asn1_tags::Tag;

/// A CHOICE whose alternatives are read each by its index in the definition.
pub trait DecodeChoiceByIndex: Eq + Sized + Drop {
    // The cases, in the order of the definition: the alternatives, and how a value is made of each.
    ghost cases: { List (Case Self) };

    // The case of a value.
    ghost case_of: { Self → OneOf (alternatives_of cases) };

    /// Reads the alternative at an index, and makes the value of it. After the last alternative there is none, and it answers
    /// an error.
    fn decode_alternative<D: Decoder>(index: usize, decoder: &mut D) -> Result<Self, DecodeError>
        ensures read { ReadsCaseAt D.reader cases case_of index decoder.old decoder.new result }
        ensures same_depth { OnOk result (D.reader.depth_left decoder.new ≡
            D.reader.depth_left decoder.old) };

    // The law: a value is what is made of its case.
    ghost made: { (v : Self) → IsMade Self.PartialEq.eq cases (case_of v) v };
}

/// Reads the alternative at the index of a tag, if there is one.
#[inline(always)]
fn read_at<T: DecodeChoiceByIndex + ChoiceType, D: Decoder>(
    decoder: &mut D,
    index: Option<usize>,
) -> Result<T, DecodeError>
    ensures read { (t : Tag) → IsIndexOf t (trees_of (alternatives_of T.cases)) index →
        ReadsAlternative D.reader t (choice_of_cases T.cases) T.case_of T.eq decoder.old decoder.new
        result }
    ensures only { IfOk result (HasReadAlternative D.reader decoder.old decoder.new
        (choice_of_cases T.cases) T.case_of) }
    ensures unknown { (t : Tag) → IsIndexOf t (trees_of (all_of T.alternatives)) index →
        Each (LacksTag t) (all_of T.alternatives) →
        IsErrAnd result (λ e. reason e ≡ no_valid_choice (unwrap_or T.meaning.name [])) }
    ensures same_depth { OnOk result (D.reader.depth_left decoder.new ≡
        D.reader.depth_left decoder.old) }
{
    match index {
        Some(index) => T::decode_alternative(index, decoder),
        None => Err(no_alternative::<T>()),
    }
}

/// The error that no alternative of the type has the tag.
#[cold]
#[inline(never)]
fn no_alternative<T: AsnType>() -> DecodeError
    ensures { reason result ≡ no_valid_choice (unwrap_or T.meaning.name []) }
{
    match T::identifier().0 {
        Some(name) => DecodeError::NoValidChoice(name),
        None => DecodeError::NoValidChoice(""),
    }
}

/// Reads the alternative that can begin with the tag, where the alternatives are those of the cases: what
/// [`asn1_dec::DecodeChoice::from_tag`] of the type calls. It takes no memory beside what the alternative takes.
#[inline(always)]
pub fn from_tag_by_index<T: DecodeChoiceByIndex + ChoiceType, D: Decoder>(
    decoder: &mut D,
    tag: Tag,
) -> Result<T, DecodeError>
    ensures read { When (are_of_cases T.alternatives T.cases) (ReadsAlternative D.reader tag
        (choice_of_cases T.cases) T.case_of T.eq decoder.old decoder.new result) }
    ensures only { IfOk result (HasReadAlternative D.reader decoder.old decoder.new
        (choice_of_cases T.cases) T.case_of) }
    ensures unknown { Each (LacksTag tag) (all_of T.alternatives) →
        IsErrAnd result (λ e. reason e ≢ no_memory →
        reason e ≡ no_valid_choice (unwrap_or T.meaning.name [])) }
    ensures takes_no_memory { Each (LacksTag tag) (all_of T.alternatives) →
        IsErrAnd result (λ e. reason e ≡ no_valid_choice (unwrap_or T.meaning.name [])) }
    ensures same_depth { OnOk result (D.reader.depth_left decoder.new ≡
        D.reader.depth_left decoder.old) }
{
    read_at(decoder, index_of_tag::<T>(tag))
}

/// The same, where the alternative is looked for in a table of all leaves of the alternatives, as
/// [`asn1_tags::Variants::with_table`] takes it: at most as many tags are compared as the number of leaves has binary digits. A
/// table that does not fit is not used. The error is [`DecodeError::Memory`] if memory runs out for the table.
pub fn from_tag_by_table<T: DecodeChoiceByIndex + ChoiceType, D: Decoder>(
    decoder: &mut D,
    tag: Tag,
    table: &[(Tag, usize)],
) -> Result<T, DecodeError>
    ensures read { When (are_of_cases T.alternatives T.cases) (ReadsAlternative D.reader tag
        (choice_of_cases T.cases) T.case_of T.eq decoder.old decoder.new result) }
    ensures only { IfOk result (HasReadAlternative D.reader decoder.old decoder.new
        (choice_of_cases T.cases) T.case_of) }
    ensures unknown { Each (LacksTag tag) (all_of T.alternatives) →
        IsErrAnd result (λ e. reason e ≢ no_memory →
        reason e ≡ no_valid_choice (unwrap_or T.meaning.name [])) }
    ensures same_depth { OnOk result (D.reader.depth_left decoder.new ≡
        D.reader.depth_left decoder.old) }
{
    match index_in_table::<T>(decoder.global(), table, tag) {
        Ok(index) => read_at(decoder, index),
        Err(_) => Err(DecodeError::Memory),
    }
}
