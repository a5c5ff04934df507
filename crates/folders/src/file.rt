//! `File` of the module `File-Tree`.
//!
//! ```text
//! File ::= SEQUENCE {
//!     name UTF8String,
//!     size INTEGER (0..18446744073709551615),
//!     contents OCTET STRING OPTIONAL
//! }
//! ```
ghost use Rattle.std.specs.Prelude.{[], codes, ◌∷◌};
ghost use Rattle.asn1_schema.specs.Words.{IsWellTagged, constructed_agrees, constructed_type, context, optional_slot, required_slot, sequence_of_slots, tagged};
ghost use Rattle.asn1_model.specs.DistinctSets.{SetsAreDistinct};
ghost use Rattle.asn1_model.specs.WrittenAlike.{AreWrittenAlike};

use asn1_schema::{
    AsnType, Constraints, ConstructedType, Decode, DecodeByIndex, DecodeError, Decoded, Decoder,
    Encode, EncodeError, EncodeFields, Encoder, Field, FieldTable, Identifier, OctetString, Tag,
    Tagging, TypeTable, Utf8String, decode_sequence_naming_errors, optional, required,
};
use asn1_tags::tag;
use std::alloc::{AllocError, Global};

/// `File` of the module `File-Tree`.
#[derive(PartialEq, Eq, Debug, Drop)]
pub struct File {
    /// `name UTF8String`
    pub name: Utf8String,
    /// `size INTEGER (0..18446744073709551615)`
    pub size: u64,
    /// `contents OCTET STRING OPTIONAL`
    pub contents: Option<OctetString>,
}

impl DecodeByIndex for File {
    type Slots = (Option<Utf8String>, Option<u64>, Option<OctetString>);

    ghost layout = { required_slot (codes "name") (λ v. v.name) (λ s. s.0) (tagged (context 0) ⟦<Utf8String as AsnType>⟧.meaning) ⟦<Utf8String as PartialEq>⟧.eq ∷
        required_slot (codes "size") (λ v. v.size) (λ s. s.1) (tagged (context 1) ⟦<u64 as AsnType>⟧.meaning) ⟦<u64 as PartialEq>⟧.eq ∷
        optional_slot (codes "contents") (λ v. v.contents) (λ s. s.2) (tagged (context 2) ⟦<OctetString as AsnType>⟧.meaning) ⟦<OctetString as PartialEq>⟧.eq ∷ [] };

    fn full(_alloc: Global, slots: Self::Slots) -> Result<Self, AllocError> {
        Ok(Self {
            name: slots.0.unwrap(),
            size: slots.1.unwrap(),
            contents: slots.2,
        })
    }

    fn decode_field<D: Decoder>(index: usize, slots: &mut Self::Slots, decoder: &mut D) -> Decoded {
        match index {
            0 => required(&mut slots.0, decoder, Tagging::Tagged(tag!(context 0))),
            1 => required(&mut slots.1, decoder, Tagging::Tagged(tag!(context 1))),
            2 => optional(&mut slots.2, decoder, Tagging::Tagged(tag!(context 2))),
            _ => Ok(()),
        }
    }
}

impl FieldTable for File {
    ghost components = { sequence_of_slots ⟦<File as DecodeByIndex>⟧.layout };

    fn field_count() -> usize {
        3
    }

    fn field_at(index: usize) -> Option<Field<'static>> {
        match index {
            0 => Some(Field::new_required_type_with_tag::<Utf8String>(0, tag!(context 0), "name")),
            1 => Some(Field::new_required_type_with_tag::<u64>(1, tag!(context 1), "size")),
            2 => Some(Field::new_optional_type_with_tag::<OctetString>(
                2,
                tag!(context 2),
                "contents",
            )),
            _ => None,
        }
    }

    fn extension_index() -> Option<usize> {
        None
    }
}

impl AsnType for File {
    ghost meaning = { constructed_type (codes "File") ⟦<File as FieldTable>⟧.components };

    fn table() -> TypeTable {
        TypeTable::new(Tag::SEQUENCE, Identifier(Some("File")))
    }

    fn is_present(&self) -> bool {
        true
    }
}

impl ConstructedType for File {
    ghost agrees = { constructed_agrees };
}

/// A `File` can be inside other types.
pub fn file_is_well_tagged()
    ensures { IsWellTagged ⟦<File as AsnType>⟧.meaning }
{}

/// Equal values are written alike, and in each value the components of a SET have distinct tags. With `file_is_well_tagged`
/// it follows that the DER of a value is its only spelling (`well_tagged_types_have_one_spelling` of `asn1_der`).
pub fn file_has_one_spelling()
    ensures alike { AreWrittenAlike ⟦<File as AsnType>⟧.meaning
        ⟦<File as PartialEq>⟧.eq }
    ensures distinct { SetsAreDistinct ⟦<File as AsnType>⟧.meaning }
{}

impl Encode for File {
    fn encode_with_tag_and_constraints<E: Encoder>(
        &self,
        encoder: &mut E,
        tag: Tag,
        _constraints: &Constraints<'_>,
        name: Identifier,
    ) -> Result<(), EncodeError> {
        encoder.encode_sequence(tag, self, name)
    }
}

impl EncodeFields for File {
    fn encode_field<E: Encoder>(&self, index: usize, encoder: &mut E) -> Result<(), EncodeError> {
        match index {
            0 => self.name.encode_with_tag(encoder, tag!(context 0)),
            1 => self.size.encode_with_tag(encoder, tag!(context 1)),
            2 => self.contents.encode_with_tag(encoder, tag!(context 2)),
            _ => Ok(()),
        }
    }
}

impl Decode for File {
    fn decode_with_tag_and_constraints<D: Decoder>(
        decoder: &mut D,
        tag: Tag,
        constraints: &Constraints<'_>,
    ) -> Result<Self, DecodeError> {
        decode_sequence_naming_errors(decoder, tag, constraints)
    }
}
