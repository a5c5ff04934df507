//! A SEQUENCE of twelve strings.
//!
//! ```text
//! Address ::= SEQUENCE {
//!     name UTF8String,
//!     company UTF8String,
//!     department UTF8String,
//!     building UTF8String,
//!     street UTF8String,
//!     number UTF8String,
//!     floor UTF8String,
//!     postcode UTF8String,
//!     city UTF8String,
//!     district UTF8String,
//!     region UTF8String,
//!     country UTF8String
//! }
//! ```
ghost use Rattle.std.specs.Prelude.{[], codes, ◌∷◌};
ghost use Rattle.asn1_schema.specs.Words.{IsWellTagged, constructed_agrees, constructed_type, required_slot, sequence_of_slots, untagged};

use asn1_schema::{
    AsnType, Constraints, ConstructedType, Decode, DecodeByIndex, DecodeError, Decoded, Decoder,
    Encode, EncodeError, EncodeFields, Encoder, Field, FieldTable, Identifier, Tag, Tagging,
    TypeTable, Utf8String, decode_sequence_naming_errors, required,
};
use std::alloc::{AllocError, Global};

/// A postal address.
#[derive(PartialEq, Eq, Debug, Drop)]
pub struct Address {
    /// `name UTF8String`
    pub name: Utf8String,
    /// `company UTF8String`
    pub company: Utf8String,
    /// `department UTF8String`
    pub department: Utf8String,
    /// `building UTF8String`
    pub building: Utf8String,
    /// `street UTF8String`
    pub street: Utf8String,
    /// `number UTF8String`
    pub number: Utf8String,
    /// `floor UTF8String`
    pub floor: Utf8String,
    /// `postcode UTF8String`
    pub postcode: Utf8String,
    /// `city UTF8String`
    pub city: Utf8String,
    /// `district UTF8String`
    pub district: Utf8String,
    /// `region UTF8String`
    pub region: Utf8String,
    /// `country UTF8String`
    pub country: Utf8String,
}

impl DecodeByIndex for Address {
    type Slots = (
        Option<Utf8String>,
        Option<Utf8String>,
        Option<Utf8String>,
        Option<Utf8String>,
        Option<Utf8String>,
        Option<Utf8String>,
        Option<Utf8String>,
        Option<Utf8String>,
        Option<Utf8String>,
        Option<Utf8String>,
        Option<Utf8String>,
        Option<Utf8String>,
    );

    ghost layout = { required_slot (codes "name") (λ v. v.name) (λ s. s.0) (untagged ⟦<Utf8String as AsnType>⟧.meaning) ⟦<Utf8String as PartialEq>⟧.eq ∷
        required_slot (codes "company") (λ v. v.company) (λ s. s.1) (untagged ⟦<Utf8String as AsnType>⟧.meaning) ⟦<Utf8String as PartialEq>⟧.eq ∷
        required_slot (codes "department") (λ v. v.department) (λ s. s.2) (untagged ⟦<Utf8String as AsnType>⟧.meaning) ⟦<Utf8String as PartialEq>⟧.eq ∷
        required_slot (codes "building") (λ v. v.building) (λ s. s.3) (untagged ⟦<Utf8String as AsnType>⟧.meaning) ⟦<Utf8String as PartialEq>⟧.eq ∷
        required_slot (codes "street") (λ v. v.street) (λ s. s.4) (untagged ⟦<Utf8String as AsnType>⟧.meaning) ⟦<Utf8String as PartialEq>⟧.eq ∷
        required_slot (codes "number") (λ v. v.number) (λ s. s.5) (untagged ⟦<Utf8String as AsnType>⟧.meaning) ⟦<Utf8String as PartialEq>⟧.eq ∷
        required_slot (codes "floor") (λ v. v.floor) (λ s. s.6) (untagged ⟦<Utf8String as AsnType>⟧.meaning) ⟦<Utf8String as PartialEq>⟧.eq ∷
        required_slot (codes "postcode") (λ v. v.postcode) (λ s. s.7) (untagged ⟦<Utf8String as AsnType>⟧.meaning) ⟦<Utf8String as PartialEq>⟧.eq ∷
        required_slot (codes "city") (λ v. v.city) (λ s. s.8) (untagged ⟦<Utf8String as AsnType>⟧.meaning) ⟦<Utf8String as PartialEq>⟧.eq ∷
        required_slot (codes "district") (λ v. v.district) (λ s. s.9) (untagged ⟦<Utf8String as AsnType>⟧.meaning) ⟦<Utf8String as PartialEq>⟧.eq ∷
        required_slot (codes "region") (λ v. v.region) (λ s. s.10) (untagged ⟦<Utf8String as AsnType>⟧.meaning) ⟦<Utf8String as PartialEq>⟧.eq ∷
        required_slot (codes "country") (λ v. v.country) (λ s. s.11) (untagged ⟦<Utf8String as AsnType>⟧.meaning) ⟦<Utf8String as PartialEq>⟧.eq ∷ [] };

    fn full(_alloc: Global, slots: Self::Slots) -> Result<Address, AllocError> {
        Ok(Address {
            name: slots.0.unwrap(),
            company: slots.1.unwrap(),
            department: slots.2.unwrap(),
            building: slots.3.unwrap(),
            street: slots.4.unwrap(),
            number: slots.5.unwrap(),
            floor: slots.6.unwrap(),
            postcode: slots.7.unwrap(),
            city: slots.8.unwrap(),
            district: slots.9.unwrap(),
            region: slots.10.unwrap(),
            country: slots.11.unwrap(),
        })
    }

    fn decode_field<D: Decoder>(index: usize, slots: &mut Self::Slots, decoder: &mut D) -> Decoded {
        match index {
            0 => required(&mut slots.0, decoder, Tagging::Untagged),
            1 => required(&mut slots.1, decoder, Tagging::Untagged),
            2 => required(&mut slots.2, decoder, Tagging::Untagged),
            3 => required(&mut slots.3, decoder, Tagging::Untagged),
            4 => required(&mut slots.4, decoder, Tagging::Untagged),
            5 => required(&mut slots.5, decoder, Tagging::Untagged),
            6 => required(&mut slots.6, decoder, Tagging::Untagged),
            7 => required(&mut slots.7, decoder, Tagging::Untagged),
            8 => required(&mut slots.8, decoder, Tagging::Untagged),
            9 => required(&mut slots.9, decoder, Tagging::Untagged),
            10 => required(&mut slots.10, decoder, Tagging::Untagged),
            11 => required(&mut slots.11, decoder, Tagging::Untagged),
            _ => Ok(()),
        }
    }
}

impl FieldTable for Address {
    ghost components = { sequence_of_slots ⟦<Address as DecodeByIndex>⟧.layout };

    fn field_count() -> usize {
        12
    }

    fn field_at(index: usize) -> Option<Field<'static>> {
        match index {
            0 => Some(Field::new_required_type::<Utf8String>(0, "name")),
            1 => Some(Field::new_required_type::<Utf8String>(1, "company")),
            2 => Some(Field::new_required_type::<Utf8String>(2, "department")),
            3 => Some(Field::new_required_type::<Utf8String>(3, "building")),
            4 => Some(Field::new_required_type::<Utf8String>(4, "street")),
            5 => Some(Field::new_required_type::<Utf8String>(5, "number")),
            6 => Some(Field::new_required_type::<Utf8String>(6, "floor")),
            7 => Some(Field::new_required_type::<Utf8String>(7, "postcode")),
            8 => Some(Field::new_required_type::<Utf8String>(8, "city")),
            9 => Some(Field::new_required_type::<Utf8String>(9, "district")),
            10 => Some(Field::new_required_type::<Utf8String>(10, "region")),
            11 => Some(Field::new_required_type::<Utf8String>(11, "country")),
            _ => None,
        }
    }

    fn extension_index() -> Option<usize> {
        None
    }
}

impl AsnType for Address {
    ghost meaning = { constructed_type (codes "Address") ⟦<Address as FieldTable>⟧.components };

    fn table() -> TypeTable {
        TypeTable::new(Tag::SEQUENCE, Identifier(Some("Address")))
    }

    fn is_present(&self) -> bool {
        true
    }
}

impl ConstructedType for Address {
    ghost agrees = { constructed_agrees };
}

/// Each component of an `Address` is required, so the next may have the same tag.
pub fn address_is_well_tagged()
    ensures { IsWellTagged ⟦<Address as AsnType>⟧.meaning }
{}

impl Encode for Address {
    fn encode_with_tag_and_constraints<E: Encoder>(
        &self,
        encoder: &mut E,
        tag: Tag,
        _constraints: &Constraints<'_>,
        name: Identifier,
    ) -> Result<(), EncodeError> {
        encoder.encode_sequence(tag, self, name)
    }
}

impl EncodeFields for Address {
    fn encode_field<E: Encoder>(&self, index: usize, encoder: &mut E) -> Result<(), EncodeError> {
        match index {
            0 => self.name.encode(encoder),
            1 => self.company.encode(encoder),
            2 => self.department.encode(encoder),
            3 => self.building.encode(encoder),
            4 => self.street.encode(encoder),
            5 => self.number.encode(encoder),
            6 => self.floor.encode(encoder),
            7 => self.postcode.encode(encoder),
            8 => self.city.encode(encoder),
            9 => self.district.encode(encoder),
            10 => self.region.encode(encoder),
            11 => self.country.encode(encoder),
            _ => Ok(()),
        }
    }
}

impl Decode for Address {
    fn decode_with_tag_and_constraints<D: Decoder>(
        decoder: &mut D,
        tag: Tag,
        constraints: &Constraints<'_>,
    ) -> Result<Address, DecodeError> {
        decode_sequence_naming_errors(decoder, tag, constraints)
    }
}
