//! SET types that are read.
ghost use Rattle.asn1_components.specs.ComponentLists.{AreReadInAnyOrder, EachIsWellTagged};
ghost use Rattle.asn1_components.specs.Components.{all_components};
ghost use Rattle.asn1_laws.specs.DecodeErrors.{duplicate_field, reason};
ghost use Rattle.asn1_laws.specs.declared.decode_error.DecodeError.TheVariants.{UnknownField};
ghost use Rattle.asn1_laws.specs.ReadingExactly.{WasRead};
ghost use Rattle.asn1_laws.specs.SetParts.{EachFits, EachIsOneRecord, MakesValue, ReadsPart};
ghost use Rattle.asn1_model.specs.Readings.{AreElementsRead};
ghost use Rattle.asn1_model.specs.Records.{Record};
ghost use Rattle.std.specs.Prelude.{◌≡◌, ◌≤◌, Err, IfErr, IfOk, IsSome, List, None, OnErr, OnOk, Some, length, ℕ};

use crate::decoder::Decoder;
use asn1_components::FieldTable;
use asn1_laws::DecodeError;
use asn1_tags::Tag;
use std::alloc::Global;

/// A SET whose components are read, in whatever order they come: each by itself, and then all are put together.
///
/// A part is a component that was read. The type says which component it is, by its index in the definition, when it is
/// that of a value, and which records are read as it. A component that is absent has no part. None of the components is a group: a group is as many records as its
/// components, which may be anywhere among the others.
pub trait DecodeSet: FieldTable + Eq + Sized + Drop {
    /// A component that was read.
    type Part: Drop;

    // The index of the component that a part is.
    ghost index_of: { Self.Part → ℕ };

    // The part is this component of the value, or one that is equal.
    ghost is_part_of: { Self → Self.Part → Type 0 };

    // The records that are read as a part.
    ghost IsReadAsPart: { Self.Part → List Record → Type 0 };

    /// Reads the component of an index, whose record begins with the tag. A presence mark before it was passed over. The
    /// error is [`DecodeError::UnknownField`] if there is no such component.
    fn decode_field<D: Decoder>(
        decoder: &mut D,
        index: usize,
        tag: Tag,
    ) -> Result<Self::Part, DecodeError>
        ensures read { ReadsPart (all_components Self.components) index_of is_part_of D.reader index
            decoder.old decoder.new result }
        ensures only { IfOk result (λ part. WasRead D.reader decoder.old decoder.new
            (IsReadAsPart part)) }
        ensures unknown { length (all_components Self.components) ≤ index →
            result ≡ Err (UnknownField index tag) }
        ensures same_depth { OnOk result (D.reader.depth_left decoder.new ≡
            D.reader.depth_left decoder.old) };

    /// The value of these parts, in whatever order they are. Of all parts of a value it makes an equal one, and fails only if
    /// memory runs out. The records of which the parts were read are read as the components of the value. It makes one only where no component is among the parts twice, and each that is always there is among them.
    /// Otherwise types answer [`DecodeError::DuplicateField`] for the first part whose component came before, or else
    /// [`DecodeError::MissingField`] for the first component that is missing.
    fn from_fields(alloc: Global, parts: Vec<Self::Part>) -> Result<Self, DecodeError>
        ensures made { MakesValue (all_components Self.components) index_of is_part_of Self.eq
            parts.items result }
        ensures only { IfOk result (λ v. (rs : List Record) →
            AreElementsRead IsReadAsPart parts.items rs →
            AreReadInAnyOrder (all_components Self.components) v rs) }
        ensures fitting { OnOk result (EachFits (all_components Self.components) index_of 0
            parts.items) };

    // The law: no component is a group.
    ghost one_record_each: { (v : Self) → EachIsWellTagged (all_components Self.components) →
        EachIsOneRecord (all_components Self.components) v };
}

/// Keeps a component that was read. If it was read before, the error is [`DecodeError::DuplicateField`] with the name, and the
/// slot is as it was.
#[inline(always)]
pub fn keep_once<T: Drop>(
    slot: &mut Option<T>,
    value: T,
    name: &'static str,
) -> Result<(), DecodeError>
    ensures kept { OnOk result ((slot.old ≡ None) × (slot.new ≡ Some value)) }
    ensures twice { IfErr result (λ error. IsSome slot.old ×
        (reason error ≡ duplicate_field name.now)) }
    ensures unchanged { OnErr result (slot.new ≡ slot.old) }
{
    if slot.is_some() {
        return Err(DecodeError::DuplicateField(name));
    }
    *slot = Some(value);
    Ok(())
}
