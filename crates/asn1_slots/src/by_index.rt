//! SEQUENCE types and groups that are read by index.
ghost use Rattle.asn1_laws.specs.DecodeErrors.{lacks_name, reason};
ghost use Rattle.asn1_laws.specs.Reading.{AfterReading, KeepsDepth, NeedsDepth, ReadsValue};
ghost use Rattle.asn1_laws.specs.ReadingExactly.{HasReadComponents, HasReadFields, HasReadValue, WasRead};
ghost use Rattle.asn1_laws.specs.ReadingTypes.{ReadsComponents, ReadsFields};
ghost use Rattle.asn1_laws.specs.declared.decode_error.DecodeError.TheVariants.{Memory};
ghost use Rattle.asn1_components.specs.Components.{is_sequence, table};
ghost use Rattle.asn1_model.specs.ConstraintSets.{constraint_set};
ghost use Rattle.asn1_slots.specs.ReadSlots.{ReadsSlots};
ghost use Rattle.asn1_slots.specs.Slots.{AreFilled, AreKeptBefore, AreOf, AreReadBefore, HoldBefore, IsLayoutOf, MakesValueOfSlots, ReadsAt, Slot};
ghost use Rattle.std.specs.Prelude.{◌≡◌, ◌<◌, IfErr, IfOk, List, OnOk, false, length, true};

use crate::calls::Decoded;
use crate::errors::in_component;
use asn1_bounds::Constraints;
use asn1_components::{ConstructedType, FieldTable};
use asn1_dec::{Decoder, finish_sequence};
use asn1_laws::DecodeError;
use asn1_tags::Tag;
use std::alloc::{AllocError, Global};

/// A type whose components are read one by one, each by its index in the definition, into slots: a SEQUENCE or a group of
/// additions.
pub trait DecodeByIndex: Eq + Sized + Drop {
    /// The slots: an option for each component. A tuple has up to twelve; a longer list is a tuple of tuples.
    type Slots: Default + Drop;

    // The components, each with its slot, in the order of the definition.
    ghost layout: { List (Slot Self.Slots Self) };

    /// The value of these slots, of which those of required components are full. It is equal to each value that they hold, and has what
    /// they hold. The error means that memory ran out for a default.
    fn full(alloc: Global, slots: Self::Slots) -> Result<Self, AllocError>
        requires are_filled { AreFilled layout slots }
        ensures made { (v : Self) → HoldBefore layout (length layout) slots v →
            IfOk result (λ w. Self.eq w v ≡ true) }
        ensures only { IfOk result (AreOf layout slots) };

    /// Reads the component at an index into its slot, and leaves the slots before it. A success fills the slot of a required
    /// component. At the indices after the last component it does nothing.
    fn decode_field<D: Decoder>(index: usize, slots: &mut Self::Slots, decoder: &mut D) -> Decoded
        ensures read { ReadsAt D.reader layout index decoder.old decoder.new slots.new result }
        ensures kept { AreKeptBefore layout index slots.old slots.new }
        ensures same_depth { OnOk result (D.reader.depth_left decoder.new ≡
            D.reader.depth_left decoder.old) };
}

/// A component that was not read.
#[derive(Drop)]
pub struct NotRead {
    /// The index of the component in the definition.
    pub index: usize,
    /// Its error, without its name.
    pub error: DecodeError,
}

/// The slots of all components, which are read one after another.
#[inline(always)]
fn read_slots<C: DecodeByIndex + FieldTable, D: Decoder>(
    decoder: &mut D,
) -> Result<C::Slots, NotRead>
    requires laid_out { IsLayoutOf C.components C.layout }
    ensures read { ReadsSlots D.reader C.components C.layout decoder.old decoder.new result }
    ensures only { IfOk result (λ slots. WasRead D.reader decoder.old decoder.new
        (AreReadBefore C.layout (length C.layout) slots)) }
    ensures filled { IfOk result (λ slots. AreFilled C.layout slots) }
    ensures same_depth { OnOk result (D.reader.depth_left decoder.new ≡
        D.reader.depth_left decoder.old) }
    ensures in_table { IfErr result (λ failure. failure.index < length (table C.components)) }
{
    let mut slots = C::Slots::default();
    for index in 0..C::field_count() {
        match C::decode_field(index, &mut slots, decoder) {
            Ok(()) => {}
            Err(error) => return Err(NotRead { index, error }),
        }
    }
    Ok(slots)
}

/// The value of filled slots.
#[inline(always)]
fn value_of_slots<C: DecodeByIndex>(alloc: Global, slots: C::Slots) -> Result<C, DecodeError>
    requires are_filled { AreFilled C.layout slots }
    ensures made { MakesValueOfSlots C.layout C.eq slots result }
    ensures only { IfOk result (AreOf C.layout slots) }
    ensures memory { IfErr result (λ error. error ≡ Memory) }
{
    match C::full(alloc, slots) {
        Ok(value) => Ok(value),
        Err(AllocError) => Err(DecodeError::Memory),
    }
}

/// Reads all components, with errors as they are: what [`asn1_dec::DecodeFields::decode_fields`] of a SEQUENCE or a group of
/// additions calls. It requires that the layout is that of the type's components. A success leaves the depth as it was (`same_depth`). An error of a
/// component is answered as its call answers it, without a name; that it is the same is tested.
#[inline(always)]
pub fn decode_fields_by_index<C: DecodeByIndex + FieldTable, D: Decoder>(
    decoder: &mut D,
) -> Result<C, DecodeError>
    requires laid_out { IsLayoutOf C.components C.layout }
    ensures read { ReadsFields D.reader C.components C.eq decoder.old decoder.new result }
    ensures only { IfOk result (HasReadFields D.reader decoder.old decoder.new C.components) }
    ensures same_depth { OnOk result (D.reader.depth_left decoder.new ≡
        D.reader.depth_left decoder.old) }
{
    match read_slots::<C, D>(decoder) {
        Ok(slots) => value_of_slots(decoder.global(), slots),
        Err(failure) => Err(failure.error),
    }
}

/// Reads all components as [`decode_fields_by_index`] does, but an error of a component is answered with its name
/// ([`DecodeError::in_field`]), so no error lacks one (`named`).
#[inline(always)]
pub fn decode_fields_naming_errors<C: DecodeByIndex + FieldTable, D: Decoder>(
    decoder: &mut D,
) -> Result<C, DecodeError>
    requires laid_out { IsLayoutOf C.components C.layout }
    ensures read { ReadsFields D.reader C.components C.eq decoder.old decoder.new result }
    ensures only { IfOk result (HasReadFields D.reader decoder.old decoder.new C.components) }
    ensures same_depth { OnOk result (D.reader.depth_left decoder.new ≡
        D.reader.depth_left decoder.old) }
    ensures named { IfErr result (λ error. lacks_name (reason error) ≡ false) }
{
    match read_slots::<C, D>(decoder) {
        Ok(slots) => value_of_slots(decoder.global(), slots),
        Err(failure) => Err(in_component::<C>(failure.index, failure.error)),
    }
}

/// A SEQUENCE under a tag.
#[inline(always)]
fn read_sequence<S: DecodeByIndex + FieldTable, D: Decoder>(
    decoder: &mut D,
    tag: Tag,
) -> Result<S, DecodeError>
    requires laid_out { IsLayoutOf S.components S.layout }
    ensures read { ReadsComponents D.reader is_sequence tag S.components S.eq decoder.old
        decoder.new result }
    ensures only { IfOk result (HasReadComponents D.reader decoder.old decoder.new is_sequence tag
        S.components) }
    ensures depth_first { NeedsDepth D.reader decoder.old result }
    ensures keeps_depth { KeepsDepth D.reader decoder.old decoder.new result }
{
    decoder.open_sequence::<S>(tag)?;
    let components = decode_fields_naming_errors(decoder);
    finish_sequence(decoder, tag, components)
}

/// Reads a SEQUENCE, by its components, one after another, and answers an error of a component with its name. It requires that the
/// layout is that of the type's components, and that these are of a SEQUENCE. It reads the components under the tag
/// (`components`), and keeps the contract of [`asn1_dec::Decode`] under whatever constraints (`read`, `after_reading`). The error is [`DecodeError::Depth`] if no depth is left, before anything but `Failed` (`depth_first`). An error
/// makes the decoder failed, a failed decoder answers [`DecodeError::Failed`], and a success keeps the depth left (`keeps_depth`).
/// A type whose errors stay as they are implements `decode_fields` of [`asn1_dec::DecodeFields`] by [`decode_fields_by_index`],
/// and is read by [`Decoder::decode_sequence`].
///
/// The contract of [`decode_fields_naming_errors`] promises the names (`named`). No required component can be missing after
/// all were read: the call that reads one fills its slot or fails (`is_full` of `Fills`).
#[inline(always)]
pub fn decode_sequence_naming_errors<S: DecodeByIndex + ConstructedType, D: Decoder>(
    decoder: &mut D,
    tag: Tag,
    constraints: &Constraints<'_>,
) -> Result<S, DecodeError>
    requires laid_out { IsLayoutOf S.components S.layout }
    requires kind { S.components.kind ≡ is_sequence }
    ensures components { ReadsComponents D.reader is_sequence tag S.components S.eq decoder.old
        decoder.new result }
    ensures read { ReadsValue D.reader S.meaning S.eq tag (constraint_set constraints.now)
        decoder.old decoder.new result }
    ensures only { IfOk result (HasReadValue D.reader decoder.old decoder.new S.meaning tag
        (constraint_set constraints.now)) }
    ensures after_reading { AfterReading D.reader S.meaning tag (constraint_set constraints.now)
        decoder.old decoder.new result }
    ensures depth_first { NeedsDepth D.reader decoder.old result }
    ensures keeps_depth { KeepsDepth D.reader decoder.old decoder.new result }
{
    read_sequence(decoder, tag)
}
