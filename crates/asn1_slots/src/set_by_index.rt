//! SET types that are read by index.
ghost use Rattle.asn1_laws.specs.Reading.{AfterReading, KeepsDepth, NeedsDepth, ReadsValue};
ghost use Rattle.asn1_laws.specs.ReadingExactly.{HasReadComponents, HasReadValue, WasRead};
ghost use Rattle.asn1_laws.specs.ReadingTypes.{ReadsComponents};
ghost use Rattle.asn1_laws.specs.declared.decode_error.DecodeError.TheVariants.{Depth, Memory};
ghost use Rattle.asn1_components.specs.Components.{is_set};
ghost use Rattle.asn1_model.specs.ConstraintSets.{constraint_set};
ghost use Rattle.asn1_slots.specs.Slots.{AreEmpty, AreFilled, AreOf, HaveCome, HoldBefore, IsLayoutOf, MakesValueOfSlots, OthersAreKept, ReadsOnceAt, ReadsSlotsLeft, RefusesMissing, Slot, can_be_in_set, first_missing, missing_at};
ghost use Rattle.std.specs.Option.{option_map};
ghost use Rattle.std.specs.Prelude.{◌≡◌, IfOk, List, OnErr, OnOk, length, true};

use crate::calls::Decoded;
use asn1_bounds::Constraints;
use asn1_components::{ConstructedType, FieldTable};
use asn1_dec::{Decoder, component_with_tag};
use asn1_laws::DecodeError;
use asn1_tags::Tag;
use std::alloc::{AllocError, Global};

/// A SET whose components are read in whatever order they come, each by its index in the definition, into slots.
pub trait DecodeSetByIndex: Eq + Sized + Drop {
    /// The slots: an option for each component. A tuple has up to twelve; a longer list is a tuple of tuples.
    type Slots: Default + Drop;

    // The components, each with its slot, in the order of the definition.
    ghost layout: { List (Slot Self.Slots Self) };

    /// The value of filled slots, as [`crate::DecodeByIndex::full`] makes it.
    fn full(alloc: Global, slots: Self::Slots) -> Result<Self, AllocError>
        requires are_filled { AreFilled layout slots }
        ensures made { (v : Self) → HoldBefore layout (length layout) slots v →
            IfOk result (λ w. Self.eq w v ≡ true) }
        ensures only { IfOk result (AreOf layout slots) };

    /// The name of the component at an index, if it is required and its slot is empty.
    fn missing_at(index: usize, slots: &Self::Slots) -> Option<&'static str>
        ensures missing { option_map (λ name. name.now) result ≡
            missing_at layout index slots.now };

    /// Reads the component at an index of the definition into its slot, and leaves the other slots: of a group of additions the
    /// component that can begin with the tag. If it was read before, the error is [`DecodeError::DuplicateField`] with its name.
    fn decode_field<D: Decoder>(
        index: usize,
        tag: Tag,
        slots: &mut Self::Slots,
        decoder: &mut D,
    ) -> Decoded
        ensures read { ReadsOnceAt D.reader layout index tag decoder.old decoder.new slots.old
            slots.new result }
        ensures kept { OthersAreKept layout index slots.old slots.new }
        ensures same_depth { OnOk result (D.reader.depth_left decoder.new ≡
            D.reader.depth_left decoder.old) };
}

/// The name of the first required component whose slot is empty.
#[inline(always)]
pub(crate) fn first_missing<S: DecodeSetByIndex + FieldTable>(
    slots: &S::Slots,
) -> Option<&'static str>
    requires laid_out { IsLayoutOf S.components S.layout }
    ensures first { option_map (λ name. name.now) result ≡ first_missing S.layout slots.now }
{
    for index in 0..S::field_count() {
        match S::missing_at(index, slots) {
            Some(name) => return Some(name),
            None => {}
        }
    }
    None
}

/// The value of these slots. The error is [`DecodeError::MissingField`] with the name of the first missing component, if a
/// required one is missing; or memory ran out for a default.
#[inline(always)]
fn value_of_slots<S: DecodeSetByIndex + FieldTable>(
    alloc: Global,
    slots: S::Slots,
) -> Result<S, DecodeError>
    requires laid_out { IsLayoutOf S.components S.layout }
    ensures made { MakesValueOfSlots S.layout S.eq slots result }
    ensures only { IfOk result (AreOf S.layout slots) }
    ensures missing { RefusesMissing S.layout slots result }
{
    match first_missing::<S>(&slots) {
        Some(name) => Err(DecodeError::MissingField(name)),
        None => match S::full(alloc, slots) {
            Ok(value) => Ok(value),
            Err(AllocError) => Err(DecodeError::Memory),
        },
    }
}

/// The slots of the components that are left in a SET, of which there are at most this many records.
#[inline(always)]
fn read_slots<S: DecodeSetByIndex + FieldTable, D: Decoder>(
    decoder: &mut D,
    bound: usize,
) -> Result<S::Slots, DecodeError>
    requires laid_out { IsLayoutOf S.components S.layout }
    requires can_be_read { can_be_in_set S.layout ≡ true }
    requires empty_at_first { (s : S.Slots) → S.Slots.Default.is_default s → AreEmpty S.layout s }
    ensures read { ReadsSlotsLeft D.reader bound S.components S.layout decoder.old decoder.new
        result }
    ensures only { IfOk result (λ slots. WasRead D.reader decoder.old decoder.new
        (HaveCome S.layout slots)) }
    ensures same_depth { OnOk result (D.reader.depth_left decoder.new ≡
        D.reader.depth_left decoder.old) }
    ensures has_failed { OnErr result (D.reader.failed decoder.new ≡ true) }
{
    let mut slots = S::Slots::default();
    for count in 0..bound {
        let tag = match decoder.next_component::<S>()? {
            Some(tag) => tag,
            None => return Ok(slots),
        };
        let index = match component_with_tag::<S>(tag) {
            Some(index) => index,
            None => return Err(decoder.refuse(DecodeError::UnknownField { index: count, tag })),
        };
        match S::decode_field(index, tag, &mut slots, decoder) {
            Ok(()) => {}
            Err(error) => return Err(refuse_component::<S, D>(decoder, count, bound, error)),
        }
    }
    let _ = decoder.next_component::<S>()?;
    Ok(slots)
}

/// Reads the components that are left in a SET from a component that came before, and closes the SET. Their values are dropped.
fn read_rest<S: DecodeSetByIndex + FieldTable, D: Decoder>(
    decoder: &mut D,
    first: usize,
    bound: usize,
) -> Result<(), DecodeError> {
    for count in first..bound {
        let tag = match decoder.next_component::<S>()? {
            Some(tag) => tag,
            None => return decoder.close(),
        };
        let index = match component_with_tag::<S>(tag) {
            Some(index) => index,
            None => return Err(DecodeError::UnknownField { index: count, tag }),
        };
        let mut slots = S::Slots::default();
        S::decode_field(index, tag, &mut slots, decoder)?;
    }
    decoder.close()
}

/// The error of a component that was not read. If the component came before, the rest of the SET is read first, and an error of the
/// rest is the answer. So a component of no bytes that comes again and again is refused for the bytes that are left.
#[cold]
#[inline(never)]
fn refuse_component<S: DecodeSetByIndex + FieldTable, D: Decoder>(
    decoder: &mut D,
    count: usize,
    bound: usize,
    error: DecodeError,
) -> DecodeError
    ensures memory { error ≡ Memory → result ≡ Memory }
    ensures depth { error ≡ Depth → result ≡ Depth }
    ensures has_failed { D.reader.failed decoder.new ≡ true }
{
    match error {
        DecodeError::DuplicateField(_) => match read_rest::<S, D>(decoder, count, bound) {
            Ok(()) | Err(DecodeError::Failed) => decoder.refuse(error),
            Err(other) => decoder.refuse(other),
        },
        _ => decoder.refuse(error),
    }
}

/// A SET under a tag.
#[inline(always)]
fn read_components<S: DecodeSetByIndex + FieldTable, D: Decoder>(
    decoder: &mut D,
    tag: Tag,
) -> Result<S, DecodeError>
    requires laid_out { IsLayoutOf S.components S.layout }
    requires can_be_read { can_be_in_set S.layout ≡ true }
    requires empty_at_first { (s : S.Slots) → S.Slots.Default.is_default s → AreEmpty S.layout s }
    ensures read { ReadsComponents D.reader is_set tag S.components S.eq decoder.old decoder.new
        result }
    ensures only { IfOk result (HasReadComponents D.reader decoder.old decoder.new is_set tag
        S.components) }
    ensures depth_first { NeedsDepth D.reader decoder.old result }
    ensures keeps_depth { KeepsDepth D.reader decoder.old decoder.new result }
{
    let bound = decoder.open_set::<S>(tag)?;
    let slots = read_slots::<S, D>(decoder, bound)?;
    let value = match value_of_slots::<S>(decoder.global(), slots) {
        Ok(value) => value,
        Err(error) => return Err(decoder.refuse(error)),
    };
    decoder.close()?;
    Ok(value)
}

/// Reads a SET, by its components, in whatever order they come. It requires that the layout is that of the type's components,
/// which are of a SET and can be read in one, and that the slots are empty at first. It reads the components under the tag
/// (`components`), and keeps the contract of [`asn1_dec::Decode`] under whatever constraints (`read`, `after_reading`). The error is [`DecodeError::Depth`] if no depth is left, before anything but `Failed` (`depth_first`). An
/// error makes the decoder failed, a failed decoder answers [`DecodeError::Failed`], and a success keeps the depth left
/// (`keeps_depth`).
///
/// The contracts of the calls below promise the names: a component that comes twice is refused by its name (`twice` of `FillsOnce`,
/// which is `read` of [`crate::decode_unique`]), an error of a component has a name (`named` of [`crate::decode_unique`]), and the
/// first missing component is named (`missing` of [`DecodeSetByIndex::missing_at`], for each index). A record whose tag no component
/// has is refused with [`DecodeError::UnknownField`] and its index among the records; no contract covers this.
#[inline(always)]
pub fn decode_set_by_index<S: DecodeSetByIndex + ConstructedType, D: Decoder>(
    decoder: &mut D,
    tag: Tag,
    constraints: &Constraints<'_>,
) -> Result<S, DecodeError>
    requires laid_out { IsLayoutOf S.components S.layout }
    requires kind { S.components.kind ≡ is_set }
    requires can_be_read { can_be_in_set S.layout ≡ true }
    requires empty_at_first { (s : S.Slots) → S.Slots.Default.is_default s → AreEmpty S.layout s }
    ensures components { ReadsComponents D.reader is_set tag S.components S.eq decoder.old
        decoder.new result }
    ensures only_components { IfOk result (HasReadComponents D.reader decoder.old decoder.new
        is_set tag S.components) }
    ensures read { ReadsValue D.reader S.meaning S.eq tag (constraint_set constraints.now)
        decoder.old decoder.new result }
    ensures only { IfOk result (HasReadValue D.reader decoder.old decoder.new S.meaning tag
        (constraint_set constraints.now)) }
    ensures after_reading { AfterReading D.reader S.meaning tag (constraint_set constraints.now)
        decoder.old decoder.new result }
    ensures depth_first { NeedsDepth D.reader decoder.old result }
    ensures keeps_depth { KeepsDepth D.reader decoder.old decoder.new result }
{
    read_components(decoder, tag)
}
