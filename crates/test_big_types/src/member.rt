//! A SEQUENCE with three groups of additions.
//!
//! ```text
//! Member ::= SEQUENCE {
//!     id INTEGER,
//!     name [0] UTF8String,
//!     ...,
//!     [[ phone [1] NumericString OPTIONAL, mail [2] IA5String OPTIONAL ]],
//!     [[ street [3] UTF8String OPTIONAL, city [4] UTF8String OPTIONAL, country [5] PrintableString OPTIONAL ]],
//!     [[ level [6] INTEGER (0..255), photo [7] OCTET STRING OPTIONAL ]],
//!     remark [8] UTF8String OPTIONAL
//! }
//! ```
ghost use Rattle.std.specs.Prelude.{[], codes, ◌∷◌};
ghost use Rattle.asn1_schema.specs.Words.{IsWellTagged, addition_slot, constructed_agrees, constructed_type, context, extensible_sequence_after, group_slot, required_slot, tagged, untagged};

use crate::home::{HOME, Home};
use crate::reach::{REACH, Reach};
use crate::standing::{STANDING, Standing};
use asn1_schema::{
    AsnType, Constraints, ConstructedType, Decode, DecodeByIndex, DecodeError, Decoded, Decoder,
    Encode, EncodeError, EncodeFields, Encoder, Field, FieldTable, Identifier, Integer, Tag,
    Tagging, TypeTable, Utf8String, addition, decode_sequence_naming_errors, group, required,
};
use asn1_tags::tag;
use std::alloc::{AllocError, Global};

/// A member of a society.
#[derive(PartialEq, Eq, Debug, Drop)]
pub struct Member {
    /// `id INTEGER`
    pub id: Integer,
    /// `name [0] UTF8String`
    pub name: Utf8String,
    /// The first group of additions.
    pub reach: Option<Reach>,
    /// The second group.
    pub home: Option<Home>,
    /// The third group.
    pub standing: Option<Standing>,
    /// `remark [8] UTF8String OPTIONAL`
    pub remark: Option<Utf8String>,
}

impl DecodeByIndex for Member {
    type Slots = (
        Option<Integer>,
        Option<Utf8String>,
        Option<Reach>,
        Option<Home>,
        Option<Standing>,
        Option<Utf8String>,
    );

    ghost layout = { required_slot (codes "id") (λ v. v.id) (λ s. s.0) (untagged ⟦<Integer as AsnType>⟧.meaning) ⟦<Integer as PartialEq>⟧.eq ∷
        required_slot (codes "name") (λ v. v.name) (λ s. s.1) (tagged (context 0) ⟦<Utf8String as AsnType>⟧.meaning) ⟦<Utf8String as PartialEq>⟧.eq ∷
        group_slot (codes "reach") (λ v. v.reach) (λ s. s.2) ⟦<Reach as FieldTable>⟧.components ⟦<Reach as PartialEq>⟧.eq ∷
        group_slot (codes "home") (λ v. v.home) (λ s. s.3) ⟦<Home as FieldTable>⟧.components ⟦<Home as PartialEq>⟧.eq ∷
        group_slot (codes "standing") (λ v. v.standing) (λ s. s.4) ⟦<Standing as FieldTable>⟧.components ⟦<Standing as PartialEq>⟧.eq ∷
        addition_slot (codes "remark") (λ v. v.remark) (λ s. s.5) (tagged (context 8) ⟦<Utf8String as AsnType>⟧.meaning) ⟦<Utf8String as PartialEq>⟧.eq ∷ [] };

    fn full(_alloc: Global, slots: Self::Slots) -> Result<Member, AllocError> {
        Ok(Member {
            id: slots.0.unwrap(),
            name: slots.1.unwrap(),
            reach: slots.2,
            home: slots.3,
            standing: slots.4,
            remark: slots.5,
        })
    }

    fn decode_field<D: Decoder>(index: usize, slots: &mut Self::Slots, decoder: &mut D) -> Decoded {
        match index {
            0 => required(&mut slots.0, decoder, Tagging::Untagged),
            1 => required(&mut slots.1, decoder, Tagging::Tagged(tag!(context 0))),
            2 => group(&mut slots.2, decoder),
            3 => group(&mut slots.3, decoder),
            4 => group(&mut slots.4, decoder),
            5 => addition(&mut slots.5, decoder, Tagging::Tagged(tag!(context 8))),
            _ => Ok(()),
        }
    }
}

impl FieldTable for Member {
    ghost components = { extensible_sequence_after 2 ⟦<Member as DecodeByIndex>⟧.layout };

    fn field_count() -> usize {
        6
    }

    fn field_at(index: usize) -> Option<Field<'static>> {
        match index {
            0 => Some(Field::new_required_type::<Integer>(0, "id")),
            1 => Some(Field::new_required_type_with_tag::<Utf8String>(1, tag!(context 0), "name")),
            2 => Some(Field::new_group(2, REACH, "reach")),
            3 => Some(Field::new_group(3, HOME, "home")),
            4 => Some(Field::new_group(4, STANDING, "standing")),
            5 => Some(Field::new_optional_type_with_tag::<Utf8String>(
                5,
                tag!(context 8),
                "remark",
            )),
            _ => None,
        }
    }

    fn extension_index() -> Option<usize> {
        Some(2)
    }
}

impl AsnType for Member {
    ghost meaning = { constructed_type (codes "Member") ⟦<Member as FieldTable>⟧.components };

    fn table() -> TypeTable {
        TypeTable::new(Tag::SEQUENCE, Identifier(Some("Member")))
    }

    fn is_present(&self) -> bool {
        true
    }
}

impl ConstructedType for Member {
    ghost agrees = { constructed_agrees };
}

/// The tags of a `Member` are distinct, with those of its groups.
pub fn member_is_well_tagged()
    ensures { IsWellTagged ⟦<Member as AsnType>⟧.meaning }
{}

impl Encode for Member {
    fn encode_with_tag_and_constraints<E: Encoder>(
        &self,
        encoder: &mut E,
        tag: Tag,
        _constraints: &Constraints<'_>,
        name: Identifier,
    ) -> Result<(), EncodeError> {
        encoder.encode_sequence(tag, self, name)
    }
}

impl EncodeFields for Member {
    fn encode_field<E: Encoder>(&self, index: usize, encoder: &mut E) -> Result<(), EncodeError> {
        match index {
            0 => self.id.encode(encoder),
            1 => self.name.encode_with_tag(encoder, tag!(context 0)),
            2 => encoder.encode_extension_addition_group(self.reach.as_ref(), Identifier::EMPTY),
            3 => encoder.encode_extension_addition_group(self.home.as_ref(), Identifier::EMPTY),
            4 => encoder.encode_extension_addition_group(self.standing.as_ref(), Identifier::EMPTY),
            5 => encoder.encode_extension_addition_with_tag(
                tag!(context 8),
                self.remark.as_ref(),
                Utf8String::identifier(),
            ),
            _ => Ok(()),
        }
    }
}

impl Decode for Member {
    fn decode_with_tag_and_constraints<D: Decoder>(
        decoder: &mut D,
        tag: Tag,
        constraints: &Constraints<'_>,
    ) -> Result<Member, DecodeError> {
        decode_sequence_naming_errors(decoder, tag, constraints)
    }
}
