//! `Tray` of the module `Trays`.
//!
//! ```text
//! Tray ::= SET {
//!     cup [1] UTF8String,
//!     ...,
//!     [[ spoon [0] BOOLEAN, sugar [2] INTEGER (0..255) OPTIONAL ]],
//!     milk [3] UTF8String OPTIONAL,
//!     [[ cake [4] UTF8String OPTIONAL ]]
//! }
//! ```
ghost use Rattle.std.specs.Prelude.{[], codes, ◌∷◌};
ghost use Rattle.asn1_schema.specs.Words.{IsWellTagged, addition_slot, constructed_agrees, constructed_type, context, extensible_set_after, group_in_set, required_slot, tagged};

use crate::tray_additions::{TRAY_ADDITIONS, TrayAdditions};
use crate::tray_additions2::{TRAY_ADDITIONS2, TrayAdditions2};
use asn1_schema::{
    AsnType, Constraints, ConstructedType, Decode, DecodeError, DecodeSetByIndex, Decoded, Decoder,
    Encode, EncodeError, EncodeFields, Encoder, Field, FieldTable, Identifier, Tag, Tagging,
    TypeTable, Utf8String, component_of_group, decode_set_by_index, decode_unique, group_of_slots,
    missing, missing_in_group,
};
use asn1_tags::tag;
use std::alloc::{AllocError, Global};

/// `Tray` of the module `Trays`.
#[derive(PartialEq, Eq, Debug, Drop)]
pub struct Tray {
    /// `cup [1] UTF8String`
    pub cup: Utf8String,
    /// A group of additions to `Tray`.
    pub additions: Option<TrayAdditions>,
    /// `milk [3] UTF8String OPTIONAL`
    pub milk: Option<Utf8String>,
    /// A group of additions to `Tray`.
    pub additions2: Option<TrayAdditions2>,
}

impl DecodeSetByIndex for Tray {
    type Slots = (
        Option<Utf8String>,
        Option<<TrayAdditions as DecodeSetByIndex>::Slots>,
        Option<Utf8String>,
        Option<<TrayAdditions2 as DecodeSetByIndex>::Slots>,
    );

    ghost layout = { required_slot (codes "cup") (λ v. v.cup) (λ s. s.0) (tagged (context 1) ⟦<Utf8String as AsnType>⟧.meaning) ⟦<Utf8String as PartialEq>⟧.eq ∷
        group_in_set (codes "additions") (λ v. v.additions) ⟦<TrayAdditions as DecodeSetByIndex>⟧.layout (λ s. s.1) ⟦<TrayAdditions as PartialEq>⟧.eq ∷
        addition_slot (codes "milk") (λ v. v.milk) (λ s. s.2) (tagged (context 3) ⟦<Utf8String as AsnType>⟧.meaning) ⟦<Utf8String as PartialEq>⟧.eq ∷
        group_in_set (codes "additions2") (λ v. v.additions2) ⟦<TrayAdditions2 as DecodeSetByIndex>⟧.layout (λ s. s.3) ⟦<TrayAdditions2 as PartialEq>⟧.eq ∷ [] };

    fn full(alloc: Global, slots: Self::Slots) -> Result<Self, AllocError> {
        Ok(Self {
            cup: slots.0.unwrap(),
            additions: group_of_slots(alloc, slots.1)?,
            milk: slots.2,
            additions2: group_of_slots(alloc, slots.3)?,
        })
    }

    fn missing_at(index: usize, slots: &Self::Slots) -> Option<&'static str> {
        match index {
            0 => missing(&slots.0, "cup"),
            1 => missing_in_group::<TrayAdditions>(&slots.1, "additions"),
            3 => missing_in_group::<TrayAdditions2>(&slots.3, "additions2"),
            _ => None,
        }
    }

    fn decode_field<D: Decoder>(
        index: usize,
        tag: Tag,
        slots: &mut Self::Slots,
        decoder: &mut D,
    ) -> Decoded {
        match index {
            0 => decode_unique(
                &mut slots.0,
                decoder,
                Tagging::Tagged(tag!(context 1)),
                "cup",
            ),
            1 => component_of_group::<TrayAdditions, D>(&mut slots.1, tag, decoder),
            2 => decode_unique(
                &mut slots.2,
                decoder,
                Tagging::Tagged(tag!(context 3)),
                "milk",
            ),
            3 => component_of_group::<TrayAdditions2, D>(&mut slots.3, tag, decoder),
            _ => Ok(()),
        }
    }
}

impl FieldTable for Tray {
    ghost components = { extensible_set_after 1 ⟦<Tray as DecodeSetByIndex>⟧.layout };

    fn field_count() -> usize {
        4
    }

    fn field_at(index: usize) -> Option<Field<'static>> {
        match index {
            0 => Some(Field::new_required_type_with_tag::<Utf8String>(0, tag!(context 1), "cup")),
            1 => Some(Field::new_group(1, TRAY_ADDITIONS, "additions")),
            2 => Some(Field::new_optional_type_with_tag::<Utf8String>(2, tag!(context 3), "milk")),
            3 => Some(Field::new_group(3, TRAY_ADDITIONS2, "additions2")),
            _ => None,
        }
    }

    fn extension_index() -> Option<usize> {
        Some(1)
    }
}

impl AsnType for Tray {
    ghost meaning = { constructed_type (codes "Tray") ⟦<Tray as FieldTable>⟧.components };

    fn table() -> TypeTable {
        TypeTable::new(Tag::SET, Identifier(Some("Tray")))
    }

    fn is_present(&self) -> bool {
        true
    }
}

impl ConstructedType for Tray {
    ghost agrees = { constructed_agrees };
}

/// A `Tray` can be inside other types.
pub fn tray_is_well_tagged()
    ensures { IsWellTagged ⟦<Tray as AsnType>⟧.meaning }
{}

impl Encode for Tray {
    fn encode_with_tag_and_constraints<E: Encoder>(
        &self,
        encoder: &mut E,
        tag: Tag,
        _constraints: &Constraints<'_>,
        name: Identifier,
    ) -> Result<(), EncodeError> {
        encoder.encode_set(tag, self, name)
    }
}

impl EncodeFields for Tray {
    fn encode_field<E: Encoder>(&self, index: usize, encoder: &mut E) -> Result<(), EncodeError> {
        match index {
            0 => self.cup.encode_with_tag(encoder, tag!(context 1)),
            1 => encoder.encode_extension_addition_group(
                self.additions.as_ref(),
                Identifier::EMPTY,
            ),
            2 => encoder.encode_extension_addition_with_tag(
                tag!(context 3),
                self.milk.as_ref(),
                Utf8String::identifier(),
            ),
            3 => encoder.encode_extension_addition_group(
                self.additions2.as_ref(),
                Identifier::EMPTY,
            ),
            _ => Ok(()),
        }
    }
}

impl Decode for Tray {
    fn decode_with_tag_and_constraints<D: Decoder>(
        decoder: &mut D,
        tag: Tag,
        constraints: &Constraints<'_>,
    ) -> Result<Self, DecodeError> {
        decode_set_by_index(decoder, tag, constraints)
    }
}
