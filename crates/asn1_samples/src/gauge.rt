//! `Gauge ::= SET { level INTEGER, limit [0] INTEGER OPTIONAL, unit [1] UTF8String }`
ghost use Rattle.std.specs.Prelude.{[], ◌∷◌, None, Some, codes};
ghost use Rattle.asn1_slots.specs.Slots.{optional_slot, required_slot, set_of_slots};
ghost use Rattle.asn1_slots.specs.Taggings.{under_constraints};
ghost use Rattle.asn1_types.specs.Words.{context, tagged, constructed_type, constructed_agrees, IsWellTagged, unconstrained};

use asn1_dec::{Decode, DecodeError, Decoder};
use asn1_enc::{Encode, EncodeError, EncodeFields, Encoder};
use asn1_slots::{
    DecodeSetByIndex, Decoded, Tagging, decode_set_by_index, decode_unique,
    decode_unique_with_constraints, missing,
};
use asn1_tags::tag;
use asn1_types::{
    AsnType, Constraints, ConstructedType, Field, FieldTable, Identifier, Tag, TypeTable,
};
use asn1_values::Utf8String;
use std::alloc::{AllocError, Global};

/// The reading of a gauge: a SET with two components under constraints of their own. The definition has no limits for the
/// numbers, and a value keeps those of a `u16`.
#[derive(PartialEq, Eq, Debug, Drop)]
pub struct Gauge {
    /// `level INTEGER`
    pub level: u16,
    /// `limit [0] INTEGER OPTIONAL`
    pub limit: Option<u16>,
    /// `unit [1] UTF8String`
    pub unit: Utf8String,
}

const LIMIT: Tag = tag!(context 0);

const UNIT: Tag = tag!(context 1);

impl DecodeSetByIndex for Gauge {
    type Slots = (Option<u16>, Option<u16>, Option<Utf8String>);

    ghost layout = { required_slot (codes "level") (λ g. g.level) (λ s. s.0) (under_constraints None unconstrained ⟦<u16 as AsnType>⟧.meaning) ⟦<u16 as PartialEq>⟧.eq ∷
        optional_slot (codes "limit") (λ g. g.limit) (λ s. s.1) (under_constraints (Some (context 0)) unconstrained ⟦<u16 as AsnType>⟧.meaning) ⟦<u16 as PartialEq>⟧.eq ∷
        required_slot (codes "unit") (λ g. g.unit) (λ s. s.2) (tagged (context 1) ⟦<Utf8String as AsnType>⟧.meaning) ⟦<Utf8String as PartialEq>⟧.eq ∷ [] };

    fn full(_alloc: Global, slots: Self::Slots) -> Result<Gauge, AllocError> {
        Ok(Gauge {
            level: slots.0.unwrap(),
            limit: slots.1,
            unit: slots.2.unwrap(),
        })
    }

    fn missing_at(index: usize, slots: &Self::Slots) -> Option<&'static str> {
        match index {
            0 => missing(&slots.0, "level"),
            2 => missing(&slots.2, "unit"),
            _ => None,
        }
    }

    fn decode_field<D: Decoder>(
        index: usize,
        _tag: Tag,
        slots: &mut Self::Slots,
        decoder: &mut D,
    ) -> Decoded {
        let any = &Constraints::NONE;
        match index {
            0 => decode_unique_with_constraints(&mut slots.0, decoder, None, any, "level"),
            1 => decode_unique_with_constraints(&mut slots.1, decoder, Some(LIMIT), any, "limit"),
            2 => decode_unique(&mut slots.2, decoder, Tagging::Tagged(UNIT), "unit"),
            _ => Ok(()),
        }
    }
}

impl FieldTable for Gauge {
    ghost components = { set_of_slots ⟦<Gauge as DecodeSetByIndex>⟧.layout };

    fn field_count() -> usize {
        3
    }

    fn field_at(index: usize) -> Option<Field<'static>> {
        match index {
            0 => Some(Field::new_required_type::<u16>(0, "level")),
            1 => Some(Field::new_optional_type_with_tag::<u16>(1, LIMIT, "limit")),
            2 => Some(Field::new_required_type_with_tag::<Utf8String>(2, UNIT, "unit")),
            _ => None,
        }
    }

    fn extension_index() -> Option<usize> {
        None
    }
}

impl AsnType for Gauge {
    ghost meaning = { constructed_type (codes "Gauge") ⟦<Gauge as FieldTable>⟧.components };

    fn table() -> TypeTable {
        TypeTable::new(Tag::SET, Identifier(Some("Gauge")))
    }

    fn is_present(&self) -> bool {
        true
    }
}

impl ConstructedType for Gauge {
    ghost agrees = { constructed_agrees };
}

/// A `Gauge` is well tagged: no two of its components share a tag.
pub fn gauge_is_well_tagged()
    ensures { IsWellTagged ⟦<Gauge as AsnType>⟧.meaning }
{}

impl Encode for Gauge {
    fn encode_with_tag_and_constraints<E: Encoder>(
        &self,
        encoder: &mut E,
        tag: Tag,
        _constraints: &Constraints<'_>,
        name: Identifier,
    ) -> Result<(), EncodeError> {
        encoder.encode_set(tag, self, name)
    }
}

impl EncodeFields for Gauge {
    fn encode_field<E: Encoder>(&self, index: usize, encoder: &mut E) -> Result<(), EncodeError> {
        let any = &Constraints::NONE;
        match index {
            0 => self.level.encode_with_constraints(encoder, any),
            1 => self
                .limit
                .encode_with_tag_and_constraints(encoder, LIMIT, any, u16::identifier()),
            2 => self.unit.encode_with_tag(encoder, UNIT),
            _ => Ok(()),
        }
    }
}

impl Decode for Gauge {
    fn decode_with_tag_and_constraints<D: Decoder>(
        decoder: &mut D,
        tag: Tag,
        constraints: &Constraints<'_>,
    ) -> Result<Gauge, DecodeError> {
        decode_set_by_index(decoder, tag, constraints)
    }
}
