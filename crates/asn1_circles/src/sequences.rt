//! SEQUENCE types that are read by index, by the reader of a type in them.
ghost use Rattle.asn1_circles.specs.Readers.{IsReaderOf, MayReadBelow, MayReadTo, ReadsAs};
ghost use Rattle.asn1_laws.specs.Reading.{AfterReading, ReadsValue};
ghost use Rattle.asn1_laws.specs.ReadingExactly.{HasReadFields, HasReadValue, WasRead};
ghost use Rattle.asn1_model.specs.ConstraintSets.{constraint_set};
ghost use Rattle.asn1_components.specs.Components.{is_sequence, table};
ghost use Rattle.asn1_laws.specs.DecodeErrors.{lacks_name, reason};
ghost use Rattle.asn1_slots.specs.ReadSlots.{ReadsSlots};
ghost use Rattle.asn1_laws.specs.ReadingTypes.{ReadsFields};
ghost use Rattle.asn1_laws.specs.declared.decode_error.DecodeError.TheVariants.{Memory};
ghost use Rattle.asn1_slots.specs.Slots.{AreFilled, AreKeptBefore, AreOf, AreReadBefore, HoldBefore, IsLayoutOf, MakesValueOfSlots, ReadsAt, Slot};
ghost use Rattle.std.specs.Prelude.{◌≡◌, ◌<◌, IfErr, IfOk, List, OnOk, false, length, true};

use crate::errors::ReadError;
use asn1_bounds::Constraints;
use asn1_components::{ConstructedType, FieldTable};
use asn1_dec::Decoder;
use asn1_laws::DecodeError;
use asn1_model::AsnType;
use asn1_nesting::{close_sequence, open_sequence_at};
use asn1_slots::{Decoded, NotRead, in_component};
use asn1_tags::Tag;
use std::alloc::{AllocError, Global};

/// A type whose components are read one by one, each by its index, by a reader of the type `T` in them.
pub trait DecodeByIndexWith<T: AsnType + Eq + Drop>: Eq + Sized + Drop {
    /// The slots.
    type Slots: Default + Drop;

    // The components, each with its slot, in the order of the definition.
    ghost layout: { List (Slot Self.Slots Self) };

    /// The value of these slots, of which those of required components are full. It is equal to each value that they hold, and has what
    /// they hold. The error means that memory ran out for a default.
    fn full(alloc: Global, slots: Self::Slots) -> Result<Self, AllocError>
        requires are_filled { AreFilled layout slots }
        ensures made { (v : Self) → HoldBefore layout (length layout) slots v →
            IfOk result (λ w. Self.eq w v ≡ true) }
        ensures only { IfOk result (AreOf layout slots) };

    /// Reads the component at an index into its slot, and leaves the slots before it.
    fn decode_field_with<E: ReadError, D: Decoder, F: Fn(&mut D, Tag) -> Result<T, E>>(
        index: usize,
        slots: &mut Self::Slots,
        decoder: &mut D,
        read: &F,
    ) -> Decoded
        requires callable { MayReadTo D.reader (D.reader.depth_left decoder.old) (F.pre read.now) }
        requires reads { IsReaderOf D.reader T.meaning T.eq E.says (F.post read.now) }
        ensures read { ReadsAt D.reader layout index decoder.old decoder.new slots.new result }
        ensures kept { AreKeptBefore layout index slots.old slots.new }
        ensures same_depth { OnOk result (D.reader.depth_left decoder.new ≡
            D.reader.depth_left decoder.old) };
}

/// The slots of all components, which are read one after another.
#[inline(always)]
fn read_slots_with<
    T: AsnType + Eq + Drop,
    C: DecodeByIndexWith<T> + FieldTable,
    E: ReadError,
    D: Decoder,
    F: Fn(&mut D, Tag) -> Result<T, E>,
>(decoder: &mut D, read: &F) -> Result<C::Slots, NotRead>
    requires laid_out { IsLayoutOf C.components C.layout }
    requires callable { MayReadTo D.reader (D.reader.depth_left decoder.old) (F.pre read.now) }
    requires reads { IsReaderOf D.reader T.meaning T.eq E.says (F.post read.now) }
    ensures read { ReadsSlots D.reader C.components C.layout decoder.old decoder.new result }
    ensures only { IfOk result (λ slots. WasRead D.reader decoder.old decoder.new
        (AreReadBefore C.layout (length C.layout) slots)) }
    ensures filled { IfOk result (λ slots. AreFilled C.layout slots) }
    ensures same_depth { OnOk result (D.reader.depth_left decoder.new ≡
        D.reader.depth_left decoder.old) }
    ensures in_table { IfErr result (λ failure. failure.index < length (table C.components)) }
{
    let mut slots = C::Slots::default();
    for index in 0..C::field_count() {
        match C::decode_field_with::<E, D, F>(index, &mut slots, decoder, read) {
            Ok(()) => {}
            Err(error) => return Err(NotRead { index, error }),
        }
    }
    Ok(slots)
}

/// The value of filled slots.
#[inline(always)]
fn value_of_slots_with<T: AsnType + Eq + Drop, C: DecodeByIndexWith<T>>(
    alloc: Global,
    slots: C::Slots,
) -> Result<C, DecodeError>
    requires are_filled { AreFilled C.layout slots }
    ensures made { MakesValueOfSlots C.layout C.eq slots result }
    ensures only { IfOk result (AreOf C.layout slots) }
    ensures memory { IfErr result (λ error. error ≡ Memory) }
{
    match C::full(alloc, slots) {
        Ok(value) => Ok(value),
        Err(AllocError) => Err(DecodeError::Memory),
    }
}

/// Reads all components; an error of a component is answered with its name (`named`).
#[inline(always)]
pub(crate) fn decode_fields_with<
    T: AsnType + Eq + Drop,
    C: DecodeByIndexWith<T> + FieldTable,
    E: ReadError,
    D: Decoder,
    F: Fn(&mut D, Tag) -> Result<T, E>,
>(decoder: &mut D, read: &F) -> Result<C, DecodeError>
    requires laid_out { IsLayoutOf C.components C.layout }
    requires callable { MayReadTo D.reader (D.reader.depth_left decoder.old) (F.pre read.now) }
    requires reads { IsReaderOf D.reader T.meaning T.eq E.says (F.post read.now) }
    ensures read { ReadsFields D.reader C.components C.eq decoder.old decoder.new result }
    ensures only { IfOk result (HasReadFields D.reader decoder.old decoder.new C.components) }
    ensures same_depth { OnOk result (D.reader.depth_left decoder.new ≡
        D.reader.depth_left decoder.old) }
    ensures named { IfErr result (λ error. lacks_name (reason error) ≡ false) }
{
    match read_slots_with::<T, C, E, D, F>(decoder, read) {
        Ok(slots) => value_of_slots_with::<T, C>(decoder.global(), slots),
        Err(failure) => Err(in_component::<C>(failure.index, failure.error)),
    }
}

/// Reads a SEQUENCE under a tag, by a reader of a type in it. The reader is called where less depth is left.
#[inline(always)]
pub fn decode_sequence_with<
    T: AsnType + Eq + Drop,
    S: DecodeByIndexWith<T> + ConstructedType,
    E: ReadError,
    D: Decoder,
    F: Fn(&mut D, Tag) -> Result<T, E>,
>(decoder: &mut D, tag: Tag, constraints: &Constraints<'_>, read: &F) -> Result<S, DecodeError>
    requires laid_out { IsLayoutOf S.components S.layout }
    requires kind { S.components.kind ≡ is_sequence }
    requires callable { MayReadBelow D.reader (D.reader.depth_left decoder.old) (F.pre read.now) }
    requires reads { IsReaderOf D.reader T.meaning T.eq E.says (F.post read.now) }
    ensures as_component { ReadsAs D.reader S.meaning S.eq tag S.meaning.constraints decoder.old
        decoder.new result }
    ensures read { ReadsValue D.reader S.meaning S.eq tag (constraint_set constraints.now)
        decoder.old decoder.new result }
    ensures only { IfOk result (HasReadValue D.reader decoder.old decoder.new S.meaning tag
        (constraint_set constraints.now)) }
    ensures after_reading { AfterReading D.reader S.meaning tag (constraint_set constraints.now)
        decoder.old decoder.new result }
{
    match open_sequence_at::<S, D>(decoder, tag) {
        Ok(()) => {}
        Err(error) => return Err(error),
    }
    let value = decode_fields_with::<T, S, E, D, F>(decoder, read);
    close_sequence(decoder, tag, value)
}
