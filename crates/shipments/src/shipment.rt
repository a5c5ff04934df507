//! `Shipment ::= SEQUENCE { sender PrintableString (SIZE (1..64)), lines SEQUENCE SIZE (1..MAX) OF UTF8String, .. }`
ghost use Rattle.std.specs.Prelude.{[], ◌∷◌, ℕ, Bool, List, codes};
ghost use Rattle.asn1_schema.specs.Words.{IsWellTagged, constructed_agrees, constructed_type, context, optional_slot, required_slot, sequence_of_slots, tagged, untagged};
ghost use Rattle.asn1_model.specs.DistinctSets.{SetsAreDistinct};
ghost use Rattle.asn1_model.specs.WrittenAlike.{AreWrittenAlike};

use crate::limits::{ChecksumSize, Hexadecimal};
use asn1_limits::{Letters, Sizes, SizesFrom, WithMarker, Within};
use asn1_schema::{
    AsnType, Between, Constraints, ConstructedType, Decode, DecodeByIndex, DecodeError, Decoded,
    Decoder, Encode, EncodeError, EncodeFields, Encoder, Field, FieldTable, Ia5String, Identifier,
    Integer, OctetString, PrintableString, Tag, Tagging, TypeTable, Utf8String,
    decode_sequence_naming_errors, optional, required,
};
use asn1_spelling::{equal_lists_are_written_alike, sets_in_lists_are_distinct};
use asn1_tags::tag;
use std::alloc::{AllocError, Global};

/// `Shipment` of the module `Shipments`.
#[derive(PartialEq, Eq, Debug, Drop)]
pub struct Shipment {
    /// `sender PrintableString (SIZE (1..64))`
    pub sender: Within<PrintableString, Sizes<1, 64>>,
    /// `lines SEQUENCE SIZE (1..MAX) OF UTF8String`
    pub lines: Within<Vec<Utf8String>, SizesFrom<1>>,
    /// `checksum [0] OCTET STRING (SIZE (16 | 20..32)) OPTIONAL`
    pub checksum: Option<Within<OctetString, ChecksumSize>>,
    /// `priority [1] INTEGER (1..10 | 20, ..., 30)`
    pub priority: Within<Integer, WithMarker<Between<1, 20>>>,
    /// `code [2] IA5String (FROM ("0".."9" | "A".."F"))`
    pub code: Within<Ia5String, Letters<Hexadecimal>>,
}

impl DecodeByIndex for Shipment {
    type Slots = (
        Option<Within<PrintableString, Sizes<1, 64>>>,
        Option<Within<Vec<Utf8String>, SizesFrom<1>>>,
        Option<Within<OctetString, ChecksumSize>>,
        Option<Within<Integer, WithMarker<Between<1, 20>>>>,
        Option<Within<Ia5String, Letters<Hexadecimal>>>,
    );

    ghost layout = { required_slot (codes "sender") (λ v. v.sender) (λ s. s.0) (untagged ⟦<Within<PrintableString, Sizes<1, 64>> as AsnType>⟧.meaning) ⟦<Within<PrintableString, Sizes<1, 64>> as PartialEq>⟧.eq ∷
        required_slot (codes "lines") (λ v. v.lines) (λ s. s.1) (untagged ⟦<Within<Vec<Utf8String>, SizesFrom<1>> as AsnType>⟧.meaning) ⟦<Within<Vec<Utf8String>, SizesFrom<1>> as PartialEq>⟧.eq ∷
        optional_slot (codes "checksum") (λ v. v.checksum) (λ s. s.2) (tagged (context 0) ⟦<Within<OctetString, ChecksumSize> as AsnType>⟧.meaning) ⟦<Within<OctetString, ChecksumSize> as PartialEq>⟧.eq ∷
        required_slot (codes "priority") (λ v. v.priority) (λ s. s.3) (tagged (context 1) ⟦<Within<Integer, WithMarker<Between<1, 20>>> as AsnType>⟧.meaning) ⟦<Within<Integer, WithMarker<Between<1, 20>>> as PartialEq>⟧.eq ∷
        required_slot (codes "code") (λ v. v.code) (λ s. s.4) (tagged (context 2) ⟦<Within<Ia5String, Letters<Hexadecimal>> as AsnType>⟧.meaning) ⟦<Within<Ia5String, Letters<Hexadecimal>> as PartialEq>⟧.eq ∷ [] };

    fn full(_alloc: Global, slots: Self::Slots) -> Result<Self, AllocError> {
        Ok(Self {
            sender: slots.0.unwrap(),
            lines: slots.1.unwrap(),
            checksum: slots.2,
            priority: slots.3.unwrap(),
            code: slots.4.unwrap(),
        })
    }

    fn decode_field<D: Decoder>(index: usize, slots: &mut Self::Slots, decoder: &mut D) -> Decoded {
        match index {
            0 => required(&mut slots.0, decoder, Tagging::Untagged),
            1 => required(&mut slots.1, decoder, Tagging::Untagged),
            2 => optional(&mut slots.2, decoder, Tagging::Tagged(tag!(context 0))),
            3 => required(&mut slots.3, decoder, Tagging::Tagged(tag!(context 1))),
            4 => required(&mut slots.4, decoder, Tagging::Tagged(tag!(context 2))),
            _ => Ok(()),
        }
    }
}

impl FieldTable for Shipment {
    ghost components = { sequence_of_slots ⟦<Shipment as DecodeByIndex>⟧.layout };

    fn field_count() -> usize {
        5
    }

    fn field_at(index: usize) -> Option<Field<'static>> {
        match index {
            0 => Some(Field::new_required_type::<Within<PrintableString, Sizes<1, 64>>>(
                0, "sender",
            )),
            1 => Some(Field::new_required_type::<Within<Vec<Utf8String>, SizesFrom<1>>>(
                1, "lines",
            )),
            2 => Some(Field::new_optional_type_with_tag::<Within<OctetString, ChecksumSize>>(
                2,
                tag!(context 0),
                "checksum",
            )),
            3 => Some(Field::new_required_type_with_tag::<
                Within<Integer, WithMarker<Between<1, 20>>>,
            >(3, tag!(context 1), "priority")),
            4 => Some(Field::new_required_type_with_tag::<Within<Ia5String, Letters<Hexadecimal>>>(
                4,
                tag!(context 2),
                "code",
            )),
            _ => None,
        }
    }

    fn extension_index() -> Option<usize> {
        None
    }
}

impl AsnType for Shipment {
    ghost meaning = { constructed_type (codes "Shipment") ⟦<Shipment as FieldTable>⟧.components };

    fn table() -> TypeTable {
        TypeTable::new(Tag::SEQUENCE, Identifier(Some("Shipment")))
    }

    fn is_present(&self) -> bool {
        true
    }
}

impl ConstructedType for Shipment {
    ghost agrees = { constructed_agrees };
}

/// A `Shipment` can be inside other types.
pub fn shipment_is_well_tagged()
    ensures { IsWellTagged ⟦<Shipment as AsnType>⟧.meaning }
{}

/// Each `Shipment` is valid.
pub fn shipment_is_valid(shipment: &Shipment)
    ensures { (accepts : List ℕ → Bool) →
        ⟦<Shipment as AsnType>⟧.meaning.IsValid accepts shipment.now }
{}

/// Equal values are written alike, and in each value the components of a SET have distinct tags. With `shipment_is_well_tagged`
/// it follows that the DER of a value is its only spelling (`well_tagged_types_have_one_spelling` of `asn1_der`).
pub fn shipment_has_one_spelling()
    ensures alike { AreWrittenAlike ⟦<Shipment as AsnType>⟧.meaning
        ⟦<Shipment as PartialEq>⟧.eq }
    ensures distinct { SetsAreDistinct ⟦<Shipment as AsnType>⟧.meaning }
{
    equal_lists_are_written_alike::<Utf8String>();
    sets_in_lists_are_distinct::<Utf8String>();
}

impl Encode for Shipment {
    fn encode_with_tag_and_constraints<E: Encoder>(
        &self,
        encoder: &mut E,
        tag: Tag,
        _constraints: &Constraints<'_>,
        name: Identifier,
    ) -> Result<(), EncodeError> {
        encoder.encode_sequence(tag, self, name)
    }
}

impl EncodeFields for Shipment {
    fn encode_field<E: Encoder>(&self, index: usize, encoder: &mut E) -> Result<(), EncodeError> {
        match index {
            0 => self.sender.encode(encoder),
            1 => self.lines.encode(encoder),
            2 => self.checksum.encode_with_tag(encoder, tag!(context 0)),
            3 => self.priority.encode_with_tag(encoder, tag!(context 1)),
            4 => self.code.encode_with_tag(encoder, tag!(context 2)),
            _ => Ok(()),
        }
    }
}

impl Decode for Shipment {
    fn decode_with_tag_and_constraints<D: Decoder>(
        decoder: &mut D,
        tag: Tag,
        constraints: &Constraints<'_>,
    ) -> Result<Self, DecodeError> {
        decode_sequence_naming_errors(decoder, tag, constraints)
    }
}
