//! A SEQUENCE in which an addition comes after a group of additions.
//!
//! ```text
//! Visit ::= SEQUENCE {
//!     day [0] INTEGER (0..65535),
//!     ...,
//!     [[ phone [3] NumericString OPTIONAL, mail [4] IA5String OPTIONAL ]],
//!     note [5] UTF8String OPTIONAL
//! }
//! ```
ghost use Rattle.std.specs.Prelude.{[], ◌∷◌, codes};
ghost use Rattle.asn1_slots.specs.Slots.{addition_slot, extensible_sequence_after, group_slot, required_slot};
ghost use Rattle.asn1_types.specs.Words.{context, tagged, constructed_type, constructed_agrees, IsWellTagged};

use crate::contact::{CONTACT, Contact};
use asn1_dec::{Decode, DecodeError, Decoder};
use asn1_enc::{Encode, EncodeError, EncodeFields, Encoder};
use asn1_slots::{
    DecodeByIndex, Decoded, Tagging, addition, decode_sequence_naming_errors, group, required,
};
use asn1_tags::tag;
use asn1_types::{
    AsnType, Constraints, ConstructedType, Field, FieldTable, Identifier, Tag, TypeTable,
};
use asn1_values::{NumericString, Utf8String};
use std::alloc::{AllocError, Global};

/// When someone came, and what is known of it.
#[derive(PartialEq, Eq, Debug, Drop)]
pub struct Visit {
    /// `day [0] INTEGER (0..65535)`
    pub day: u16,
    /// The group of additions.
    pub contact: Option<Contact>,
    /// `note [5] UTF8String OPTIONAL`
    pub note: Option<Utf8String>,
}

impl DecodeByIndex for Visit {
    type Slots = (Option<u16>, Option<Contact>, Option<Utf8String>);

    ghost layout = { required_slot (codes "day") (λ v. v.day) (λ s. s.0) (tagged (context 0) ⟦<u16 as AsnType>⟧.meaning) ⟦<u16 as PartialEq>⟧.eq ∷
        group_slot (codes "contact") (λ v. v.contact) (λ s. s.1) ⟦<Contact as FieldTable>⟧.components ⟦<Contact as PartialEq>⟧.eq ∷
        addition_slot (codes "note") (λ v. v.note) (λ s. s.2) (tagged (context 5) ⟦<Utf8String as AsnType>⟧.meaning) ⟦<Utf8String as PartialEq>⟧.eq ∷ [] };

    fn full(_alloc: Global, slots: Self::Slots) -> Result<Visit, AllocError> {
        Ok(Visit {
            day: slots.0.unwrap(),
            contact: slots.1,
            note: slots.2,
        })
    }

    fn decode_field<D: Decoder>(index: usize, slots: &mut Self::Slots, decoder: &mut D) -> Decoded {
        match index {
            0 => required(&mut slots.0, decoder, Tagging::Tagged(tag!(context 0))),
            1 => group(&mut slots.1, decoder),
            2 => addition(&mut slots.2, decoder, Tagging::Tagged(tag!(context 5))),
            _ => Ok(()),
        }
    }
}

impl FieldTable for Visit {
    ghost components = { extensible_sequence_after 1 ⟦<Visit as DecodeByIndex>⟧.layout };

    fn field_count() -> usize {
        3
    }

    fn field_at(index: usize) -> Option<Field<'static>> {
        match index {
            0 => Some(Field::new_required_type_with_tag::<u16>(0, tag!(context 0), "day")),
            1 => Some(Field::new_group(1, CONTACT, "contact")),
            2 => Some(Field::new_optional_type_with_tag::<Utf8String>(2, tag!(context 5), "note")),
            _ => None,
        }
    }

    fn extension_index() -> Option<usize> {
        Some(1)
    }
}

impl AsnType for Visit {
    ghost meaning = { constructed_type (codes "Visit") ⟦<Visit as FieldTable>⟧.components };

    fn table() -> TypeTable {
        TypeTable::new(Tag::SEQUENCE, Identifier(Some("Visit")))
    }

    fn is_present(&self) -> bool {
        true
    }
}

impl ConstructedType for Visit {
    ghost agrees = { constructed_agrees };
}

/// A `Visit` is well tagged: the tag of what comes after the group is none of the group's.
pub fn visit_is_well_tagged()
    ensures { IsWellTagged ⟦<Visit as AsnType>⟧.meaning }
{}

impl Encode for Visit {
    fn encode_with_tag_and_constraints<E: Encoder>(
        &self,
        encoder: &mut E,
        tag: Tag,
        _constraints: &Constraints<'_>,
        name: Identifier,
    ) -> Result<(), EncodeError> {
        encoder.encode_sequence(tag, self, name)
    }
}

impl EncodeFields for Visit {
    fn encode_field<E: Encoder>(&self, index: usize, encoder: &mut E) -> Result<(), EncodeError> {
        match index {
            0 => self.day.encode_with_tag(encoder, tag!(context 0)),
            1 => encoder.encode_extension_addition_group(self.contact.as_ref(), Identifier::EMPTY),
            2 => encoder.encode_extension_addition_with_tag(
                tag!(context 5),
                self.note.as_ref(),
                Utf8String::identifier(),
            ),
            _ => Ok(()),
        }
    }
}

impl Decode for Visit {
    fn decode_with_tag_and_constraints<D: Decoder>(
        decoder: &mut D,
        tag: Tag,
        constraints: &Constraints<'_>,
    ) -> Result<Visit, DecodeError> {
        decode_sequence_naming_errors(decoder, tag, constraints)
    }
}
