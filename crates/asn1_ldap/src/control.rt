//! `Control` of the module `Lightweight-Directory-Access-Protocol-V3`.
//!
//! ```text
//! Control ::= SEQUENCE {
//!     controlType LDAPOID,
//!     criticality BOOLEAN DEFAULT FALSE,
//!     controlValue OCTET STRING OPTIONAL
//! }
//! ```
ghost use Rattle.std.specs.Prelude.{[], codes, false, ◌∷◌};
ghost use Rattle.asn1_schema.specs.Words.{IsWellTagged, constructed_agrees, constructed_type, default_slot, extensible_sequence_after, optional_slot, required_slot, untagged};
ghost use Rattle.asn1_model.specs.DistinctSets.{SetsAreDistinct};
ghost use Rattle.asn1_model.specs.WrittenAlike.{AreWrittenAlike};

use crate::aliases::Ldapoid;
use asn1_schema::{
    AsnType, Constraints, ConstructedType, Decode, DecodeByIndex, DecodeError, Decoded, Decoder,
    Encode, EncodeError, EncodeFields, Encoder, Field, FieldTable, Identifier, OctetString, Tag,
    Tagging, TypeTable, decode_sequence_naming_errors, optional, or_default, required,
};
use std::alloc::{AllocError, Global};

/// `Control` of the module `Lightweight-Directory-Access-Protocol-V3`.
#[derive(PartialEq, Eq, Debug, Drop)]
pub struct Control {
    /// `controlType LDAPOID`
    pub control_type: Ldapoid,
    /// `criticality BOOLEAN DEFAULT FALSE`
    pub criticality: bool,
    /// `controlValue OCTET STRING OPTIONAL`
    pub control_value: Option<OctetString>,
}

impl DecodeByIndex for Control {
    type Slots = (Option<Ldapoid>, Option<bool>, Option<OctetString>);

    ghost layout = { required_slot (codes "controlType") (λ v. v.control_type) (λ s. s.0) (untagged ⟦<Ldapoid as AsnType>⟧.meaning) ⟦<Ldapoid as PartialEq>⟧.eq ∷
        default_slot (codes "criticality") (λ v. v.criticality) false (λ s. s.1) (untagged ⟦<bool as AsnType>⟧.meaning) ⟦<bool as PartialEq>⟧.eq ∷
        optional_slot (codes "controlValue") (λ v. v.control_value) (λ s. s.2) (untagged ⟦<OctetString as AsnType>⟧.meaning) ⟦<OctetString as PartialEq>⟧.eq ∷ [] };

    fn full(_alloc: Global, slots: Self::Slots) -> Result<Self, AllocError> {
        Ok(Self {
            control_type: slots.0.unwrap(),
            criticality: or_default(slots.1, false),
            control_value: slots.2,
        })
    }

    fn decode_field<D: Decoder>(index: usize, slots: &mut Self::Slots, decoder: &mut D) -> Decoded {
        match index {
            0 => required(&mut slots.0, decoder, Tagging::Untagged),
            1 => optional(&mut slots.1, decoder, Tagging::Untagged),
            2 => optional(&mut slots.2, decoder, Tagging::Untagged),
            _ => Ok(()),
        }
    }
}

impl FieldTable for Control {
    ghost components = { extensible_sequence_after 3 ⟦<Control as DecodeByIndex>⟧.layout };

    fn field_count() -> usize {
        3
    }

    fn field_at(index: usize) -> Option<Field<'static>> {
        match index {
            0 => Some(Field::new_required_type::<Ldapoid>(0, "controlType")),
            1 => Some(Field::new_default_type::<bool>(1, "criticality")),
            2 => Some(Field::new_optional_type::<OctetString>(2, "controlValue")),
            _ => None,
        }
    }

    fn extension_index() -> Option<usize> {
        Some(3)
    }
}

impl AsnType for Control {
    ghost meaning = { constructed_type (codes "Control") ⟦<Control as FieldTable>⟧.components };

    fn table() -> TypeTable {
        TypeTable::new(Tag::SEQUENCE, Identifier(Some("Control")))
    }

    fn is_present(&self) -> bool {
        true
    }
}

impl ConstructedType for Control {
    ghost agrees = { constructed_agrees };
}

/// A `Control` can be inside other types.
pub fn control_is_well_tagged()
    ensures { IsWellTagged ⟦<Control as AsnType>⟧.meaning }
{}

/// Equal values are written alike, and in each value the components of a SET have distinct tags. With `control_is_well_tagged`
/// it follows that the DER of a value is its only spelling (`well_tagged_types_have_one_spelling` of `asn1_der`).
pub fn control_has_one_spelling()
    ensures alike { AreWrittenAlike ⟦<Control as AsnType>⟧.meaning
        ⟦<Control as PartialEq>⟧.eq }
    ensures distinct { SetsAreDistinct ⟦<Control as AsnType>⟧.meaning }
{}

impl Encode for Control {
    fn encode_with_tag_and_constraints<E: Encoder>(
        &self,
        encoder: &mut E,
        tag: Tag,
        _constraints: &Constraints<'_>,
        name: Identifier,
    ) -> Result<(), EncodeError> {
        encoder.encode_sequence(tag, self, name)
    }
}

impl EncodeFields for Control {
    fn encode_field<E: Encoder>(&self, index: usize, encoder: &mut E) -> Result<(), EncodeError> {
        match index {
            0 => self.control_type.encode(encoder),
            1 => encoder.encode_default(&self.criticality, |_| Ok(false), bool::identifier()),
            2 => self.control_value.encode(encoder),
            _ => Ok(()),
        }
    }
}

impl Decode for Control {
    fn decode_with_tag_and_constraints<D: Decoder>(
        decoder: &mut D,
        tag: Tag,
        constraints: &Constraints<'_>,
    ) -> Result<Self, DecodeError> {
        decode_sequence_naming_errors(decoder, tag, constraints)
    }
}
