//! A SEQUENCE with an option, a default, and a group of additions after an extension marker.
//!
//! ```text
//! Profile ::= SEQUENCE {
//!     nick  [0] UTF8String OPTIONAL,
//!     level [1] INTEGER (0..255),
//!     color [2] Color DEFAULT red,
//!     ...,
//!     [[ phone [3] NumericString OPTIONAL, mail [4] IA5String OPTIONAL ]]
//! }
//! ```
ghost use Rattle.std.specs.Prelude.{[], ◌∷◌, codes};
ghost use Rattle.asn1_slots.specs.Slots.{default_slot, extensible_sequence_after, group_slot, optional_slot, required_slot};
ghost use Rattle.asn1_types.specs.Words.{context, tagged, constructed_type, constructed_agrees, IsWellTagged};
ghost use Rattle.asn1_samples.specs.declared.color.Color.TheVariants.{Red};

use crate::color::Color;
use crate::contact::{CONTACT, Contact};
use asn1_dec::{Decode, DecodeError, DecodeFields, Decoder};
use asn1_enc::{Encode, EncodeError, EncodeFields, Encoder};
use asn1_slots::{
    DecodeByIndex, Decoded, Tagging, decode_fields_by_index, group, optional, or_default, required,
};
use asn1_tags::tag;
use asn1_types::{
    AsnType, Constraints, ConstructedType, Field, FieldTable, Identifier, Tag, TypeTable,
};
use asn1_values::{Ia5String, Utf8String};
use std::alloc::{AllocError, Global};

/// The profile of a user.
#[derive(PartialEq, Eq, Debug, Drop)]
pub struct Profile {
    /// `nick [0] UTF8String OPTIONAL`
    pub nick: Option<Utf8String>,
    /// `level [1] INTEGER (0..255)`
    pub level: u8,
    /// `color [2] Color DEFAULT red`
    pub color: Color,
    /// The group of additions.
    pub contact: Option<Contact>,
}

impl DecodeByIndex for Profile {
    type Slots = (
        Option<Utf8String>,
        Option<u8>,
        Option<Color>,
        Option<Contact>,
    );

    ghost layout = { optional_slot (codes "nick") (λ p. p.nick) (λ s. s.0) (tagged (context 0) ⟦<Utf8String as AsnType>⟧.meaning) ⟦<Utf8String as PartialEq>⟧.eq ∷
        required_slot (codes "level") (λ p. p.level) (λ s. s.1) (tagged (context 1) ⟦<u8 as AsnType>⟧.meaning) ⟦<u8 as PartialEq>⟧.eq ∷
        default_slot (codes "color") (λ p. p.color) Red (λ s. s.2) (tagged (context 2) ⟦<Color as AsnType>⟧.meaning) ⟦<Color as PartialEq>⟧.eq ∷
        group_slot (codes "contact") (λ p. p.contact) (λ s. s.3) ⟦<Contact as FieldTable>⟧.components ⟦<Contact as PartialEq>⟧.eq ∷ [] };

    fn full(_alloc: Global, slots: Self::Slots) -> Result<Profile, AllocError> {
        Ok(Profile {
            nick: slots.0,
            level: slots.1.unwrap(),
            color: or_default(slots.2, Color::Red),
            contact: slots.3,
        })
    }

    fn decode_field<D: Decoder>(index: usize, slots: &mut Self::Slots, decoder: &mut D) -> Decoded {
        match index {
            0 => optional(&mut slots.0, decoder, Tagging::Tagged(tag!(context 0))),
            1 => required(&mut slots.1, decoder, Tagging::Tagged(tag!(context 1))),
            2 => optional(&mut slots.2, decoder, Tagging::Tagged(tag!(context 2))),
            3 => group(&mut slots.3, decoder),
            _ => Ok(()),
        }
    }
}

impl FieldTable for Profile {
    ghost components = { extensible_sequence_after 3 ⟦<Profile as DecodeByIndex>⟧.layout };

    fn field_count() -> usize {
        4
    }

    fn field_at(index: usize) -> Option<Field<'static>> {
        match index {
            0 => Some(Field::new_optional_type_with_tag::<Utf8String>(0, tag!(context 0), "nick")),
            1 => Some(Field::new_required_type_with_tag::<u8>(1, tag!(context 1), "level")),
            2 => Some(Field::new_default_type_with_tag::<Color>(2, tag!(context 2), "color")),
            3 => Some(Field::new_group(3, CONTACT, "contact")),
            _ => None,
        }
    }

    fn extension_index() -> Option<usize> {
        Some(3)
    }
}

impl AsnType for Profile {
    ghost meaning = { constructed_type (codes "Profile") ⟦<Profile as FieldTable>⟧.components };

    fn table() -> TypeTable {
        TypeTable::new(Tag::SEQUENCE, Identifier(Some("Profile")))
    }

    fn is_present(&self) -> bool {
        true
    }
}

impl ConstructedType for Profile {
    ghost agrees = { constructed_agrees };
}

/// A `Profile` is well tagged: its tags are distinct, with those of the group.
pub fn profile_is_well_tagged()
    ensures { IsWellTagged ⟦<Profile as AsnType>⟧.meaning }
{}

impl Encode for Profile {
    fn encode_with_tag_and_constraints<E: Encoder>(
        &self,
        encoder: &mut E,
        tag: Tag,
        _constraints: &Constraints<'_>,
        name: Identifier,
    ) -> Result<(), EncodeError> {
        encoder.encode_sequence(tag, self, name)
    }
}

impl EncodeFields for Profile {
    fn encode_field<E: Encoder>(&self, index: usize, encoder: &mut E) -> Result<(), EncodeError> {
        match index {
            0 => self.nick.encode_with_tag(encoder, tag!(context 0)),
            1 => self.level.encode_with_tag(encoder, tag!(context 1)),
            2 => encoder.encode_default_with_tag(
                tag!(context 2),
                &self.color,
                |_| Ok(Color::Red),
                Color::identifier(),
            ),
            3 => encoder.encode_extension_addition_group(self.contact.as_ref(), Identifier::EMPTY),
            _ => Ok(()),
        }
    }
}

impl Decode for Profile {
    fn decode_with_tag_and_constraints<D: Decoder>(
        decoder: &mut D,
        tag: Tag,
        _constraints: &Constraints<'_>,
    ) -> Result<Profile, DecodeError> {
        decoder.decode_sequence(tag)
    }
}

impl DecodeFields for Profile {
    fn decode_fields<D: Decoder>(decoder: &mut D) -> Result<Profile, DecodeError> {
        decode_fields_by_index(decoder)
    }
}
