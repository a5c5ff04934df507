//! `Extension` of the module `PKIX1Explicit88`.
//!
//! ```text
//! Extension ::= SEQUENCE {
//!     extnID OBJECT IDENTIFIER,
//!     critical BOOLEAN DEFAULT FALSE,
//!     extnValue OCTET STRING
//! }
//! ```
ghost use Rattle.std.specs.Prelude.{[], codes, false, ◌∷◌};
ghost use Rattle.asn1_schema.specs.Words.{IsWellTagged, constructed_agrees, constructed_type, default_slot, required_slot, sequence_of_slots, untagged};
ghost use Rattle.asn1_model.specs.DistinctSets.{SetsAreDistinct};
ghost use Rattle.asn1_model.specs.WrittenAlike.{AreWrittenAlike};

use asn1_schema::{
    AsnType, Constraints, ConstructedType, Decode, DecodeByIndex, DecodeError, Decoded, Decoder,
    Encode, EncodeError, EncodeFields, Encoder, Field, FieldTable, Identifier, ObjectIdentifier,
    OctetString, Tag, Tagging, TypeTable, decode_sequence_naming_errors, optional, or_default,
    required,
};
use std::alloc::{AllocError, Global};

/// `Extension` of the module `PKIX1Explicit88`.
#[derive(PartialEq, Eq, Debug, Drop)]
pub struct Extension {
    /// `extnID OBJECT IDENTIFIER`
    pub extn_id: ObjectIdentifier,
    /// `critical BOOLEAN DEFAULT FALSE`
    pub critical: bool,
    /// `extnValue OCTET STRING`
    pub extn_value: OctetString,
}

impl DecodeByIndex for Extension {
    type Slots = (Option<ObjectIdentifier>, Option<bool>, Option<OctetString>);

    ghost layout = { required_slot (codes "extnID") (λ v. v.extn_id) (λ s. s.0) (untagged ⟦<ObjectIdentifier as AsnType>⟧.meaning) ⟦<ObjectIdentifier as PartialEq>⟧.eq ∷
        default_slot (codes "critical") (λ v. v.critical) false (λ s. s.1) (untagged ⟦<bool as AsnType>⟧.meaning) ⟦<bool as PartialEq>⟧.eq ∷
        required_slot (codes "extnValue") (λ v. v.extn_value) (λ s. s.2) (untagged ⟦<OctetString as AsnType>⟧.meaning) ⟦<OctetString as PartialEq>⟧.eq ∷ [] };

    fn full(_alloc: Global, slots: Self::Slots) -> Result<Self, AllocError> {
        Ok(Self {
            extn_id: slots.0.unwrap(),
            critical: or_default(slots.1, false),
            extn_value: slots.2.unwrap(),
        })
    }

    fn decode_field<D: Decoder>(index: usize, slots: &mut Self::Slots, decoder: &mut D) -> Decoded {
        match index {
            0 => required(&mut slots.0, decoder, Tagging::Untagged),
            1 => optional(&mut slots.1, decoder, Tagging::Untagged),
            2 => required(&mut slots.2, decoder, Tagging::Untagged),
            _ => Ok(()),
        }
    }
}

impl FieldTable for Extension {
    ghost components = { sequence_of_slots ⟦<Extension as DecodeByIndex>⟧.layout };

    fn field_count() -> usize {
        3
    }

    fn field_at(index: usize) -> Option<Field<'static>> {
        match index {
            0 => Some(Field::new_required_type::<ObjectIdentifier>(0, "extnID")),
            1 => Some(Field::new_default_type::<bool>(1, "critical")),
            2 => Some(Field::new_required_type::<OctetString>(2, "extnValue")),
            _ => None,
        }
    }

    fn extension_index() -> Option<usize> {
        None
    }
}

impl AsnType for Extension {
    ghost meaning = { constructed_type (codes "Extension") ⟦<Extension as FieldTable>⟧.components };

    fn table() -> TypeTable {
        TypeTable::new(Tag::SEQUENCE, Identifier(Some("Extension")))
    }

    fn is_present(&self) -> bool {
        true
    }
}

impl ConstructedType for Extension {
    ghost agrees = { constructed_agrees };
}

/// An `Extension` can be inside other types.
pub fn extension_is_well_tagged()
    ensures { IsWellTagged ⟦<Extension as AsnType>⟧.meaning }
{}

/// Equal values are written alike, and in each value the components of a SET have distinct tags. With `extension_is_well_tagged`
/// it follows that the DER of a value is its only spelling (`well_tagged_types_have_one_spelling` of `asn1_der`).
pub fn extension_has_one_spelling()
    ensures alike { AreWrittenAlike ⟦<Extension as AsnType>⟧.meaning
        ⟦<Extension as PartialEq>⟧.eq }
    ensures distinct { SetsAreDistinct ⟦<Extension as AsnType>⟧.meaning }
{}

impl Encode for Extension {
    fn encode_with_tag_and_constraints<E: Encoder>(
        &self,
        encoder: &mut E,
        tag: Tag,
        _constraints: &Constraints<'_>,
        name: Identifier,
    ) -> Result<(), EncodeError> {
        encoder.encode_sequence(tag, self, name)
    }
}

impl EncodeFields for Extension {
    fn encode_field<E: Encoder>(&self, index: usize, encoder: &mut E) -> Result<(), EncodeError> {
        match index {
            0 => self.extn_id.encode(encoder),
            1 => encoder.encode_default(&self.critical, |_| Ok(false), bool::identifier()),
            2 => self.extn_value.encode(encoder),
            _ => Ok(()),
        }
    }
}

impl Decode for Extension {
    fn decode_with_tag_and_constraints<D: Decoder>(
        decoder: &mut D,
        tag: Tag,
        constraints: &Constraints<'_>,
    ) -> Result<Self, DecodeError> {
        decode_sequence_naming_errors(decoder, tag, constraints)
    }
}
