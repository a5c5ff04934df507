//! `Folder` of the module `File-Tree`.
//!
//! ```text
//! Folder ::= SEQUENCE {
//!     name UTF8String,
//!     mode INTEGER (0..65535) DEFAULT 493,
//!     changed GeneralizedTime OPTIONAL,
//!     files SET OF File,
//!     folders SEQUENCE OF Folder,
//!     parent Link OPTIONAL,
//!     ...,
//!     labels SEQUENCE OF Label OPTIONAL
//! }
//! ```
ghost use Rattle.std.specs.Prelude.{[], codes, ◌∷◌};
ghost use Rattle.asn1_schema.specs.Words.{addition_slot, constructed_agrees, context, default_slot, optional_slot, required_slot, tagged};
ghost use Rattle.folders.specs.FolderLists.{folder_of_components, folder_of_meaning};

use crate::file::File;
use crate::label::Label;
use crate::link::LinkOf;
use asn1_circles::{
    DecodeByIndexWith, Itself, ListOf, ReadError, Whole, optional_with, required_with,
};
use asn1_schema::{
    AsnType, Constraints, ConstructedType, DecodeError, Decoded, Decoder, Encode, EncodeError,
    EncodeFields, Encoder, Field, FieldTable, GeneralizedTime, Identifier, SetOf, Tag, Tagging,
    TypeTable, Utf8String, addition, optional, or_default, required,
};
use asn1_tags::tag;
use std::alloc::{AllocError, Global};

/// `Folder` of the module `File-Tree`.
#[derive(PartialEq, Eq, Debug, Drop)]
pub struct FolderOf<T> {
    /// `name UTF8String`
    pub name: Utf8String,
    /// `mode INTEGER (0..65535) DEFAULT 493`
    pub mode: u16,
    /// `changed GeneralizedTime OPTIONAL`
    pub changed: Option<GeneralizedTime>,
    /// `files SET OF File`
    pub files: SetOf<File>,
    /// `folders SEQUENCE OF Folder`
    pub folders: Vec<T>,
    /// `parent Link OPTIONAL`
    pub parent: Option<LinkOf<T>>,
    /// `labels SEQUENCE OF Label OPTIONAL`
    pub labels: Option<Vec<Label>>,
}

impl<T: AsnType> FieldTable for FolderOf<T> {
    ghost components = { folder_of_components T.meaning };

    fn field_count() -> usize {
        7
    }

    fn field_at(index: usize) -> Option<Field<'static>> {
        match index {
            0 => Some(Field::new_required_type_with_tag::<Utf8String>(0, tag!(context 0), "name")),
            1 => Some(Field::new_default_type_with_tag::<u16>(1, tag!(context 1), "mode")),
            2 => Some(Field::new_optional_type_with_tag::<GeneralizedTime>(
                2,
                tag!(context 2),
                "changed",
            )),
            3 => Some(Field::new_required_type_with_tag::<SetOf<File>>(
                3,
                tag!(context 3),
                "files",
            )),
            4 => Some(Field::new_required_type_with_tag::<Vec<T>>(4, tag!(context 4), "folders")),
            5 => Some(Field::new_optional_type_with_tag::<LinkOf<T>>(5, tag!(context 5), "parent")),
            6 => Some(Field::new_optional_type_with_tag::<Vec<Label>>(
                6,
                tag!(context 6),
                "labels",
            )),
            _ => None,
        }
    }

    fn extension_index() -> Option<usize> {
        Some(6)
    }
}

impl<T: AsnType> AsnType for FolderOf<T> {
    ghost meaning = { folder_of_meaning T.meaning };

    fn table() -> TypeTable {
        TypeTable::new(Tag::SEQUENCE, Identifier(Some("Folder")))
    }

    fn is_present(&self) -> bool {
        true
    }
}

impl<T: AsnType> ConstructedType for FolderOf<T> {
    ghost agrees = { constructed_agrees };
}

impl<T: Encode> Encode for FolderOf<T> {
    fn encode_with_tag_and_constraints<E: Encoder>(
        &self,
        encoder: &mut E,
        tag: Tag,
        _constraints: &Constraints<'_>,
        name: Identifier,
    ) -> Result<(), EncodeError> {
        encoder.encode_sequence(tag, self, name)
    }
}

impl<T: Encode> EncodeFields for FolderOf<T> {
    fn encode_field<E: Encoder>(&self, index: usize, encoder: &mut E) -> Result<(), EncodeError> {
        match index {
            0 => self.name.encode_with_tag(encoder, tag!(context 0)),
            1 => encoder.encode_default_with_tag(
                tag!(context 1),
                &self.mode,
                |_| Ok(493),
                u16::identifier(),
            ),
            2 => self.changed.encode_with_tag(encoder, tag!(context 2)),
            3 => self.files.encode_with_tag(encoder, tag!(context 3)),
            4 => self.folders.encode_with_tag(encoder, tag!(context 4)),
            5 => self.parent.encode_with_tag(encoder, tag!(context 5)),
            6 => encoder.encode_extension_addition_with_tag(
                tag!(context 6),
                self.labels.as_ref(),
                <Vec<Label>>::identifier(),
            ),
            _ => Ok(()),
        }
    }
}

impl<T: AsnType + Eq + Drop> DecodeByIndexWith<T> for FolderOf<T> {
    type Slots = (
        Option<Utf8String>,
        Option<u16>,
        Option<GeneralizedTime>,
        Option<SetOf<File>>,
        Option<Vec<T>>,
        Option<LinkOf<T>>,
        Option<Vec<Label>>,
    );

    ghost layout = { required_slot (codes "name") (λ v. v.name) (λ s. s.0) (tagged (context 0) ⟦<Utf8String as AsnType>⟧.meaning) ⟦<Utf8String as PartialEq>⟧.eq ∷
        default_slot (codes "mode") (λ v. v.mode) 493 (λ s. s.1) (tagged (context 1) ⟦<u16 as AsnType>⟧.meaning) ⟦<u16 as PartialEq>⟧.eq ∷
        optional_slot (codes "changed") (λ v. v.changed) (λ s. s.2) (tagged (context 2) ⟦<GeneralizedTime as AsnType>⟧.meaning) ⟦<GeneralizedTime as PartialEq>⟧.eq ∷
        required_slot (codes "files") (λ v. v.files) (λ s. s.3) (tagged (context 3) ⟦<SetOf<File> as AsnType>⟧.meaning) ⟦<SetOf<File> as PartialEq>⟧.eq ∷
        required_slot (codes "folders") (λ v. v.folders) (λ s. s.4) (tagged (context 4) ⟦<Vec<T> as AsnType>⟧.meaning) ⟦<Vec<T> as PartialEq>⟧.eq ∷
        optional_slot (codes "parent") (λ v. v.parent) (λ s. s.5) (tagged (context 5) ⟦<LinkOf<T> as AsnType>⟧.meaning) ⟦<LinkOf<T> as PartialEq>⟧.eq ∷
        addition_slot (codes "labels") (λ v. v.labels) (λ s. s.6) (tagged (context 6) ⟦<Vec<Label> as AsnType>⟧.meaning) ⟦<Vec<Label> as PartialEq>⟧.eq ∷ [] };

    fn full(_alloc: Global, slots: Self::Slots) -> Result<Self, AllocError> {
        Ok(Self {
            name: slots.0.unwrap(),
            mode: or_default(slots.1, 493),
            changed: slots.2,
            files: slots.3.unwrap(),
            folders: slots.4.unwrap(),
            parent: slots.5,
            labels: slots.6,
        })
    }

    fn decode_field_with<E: ReadError, D: Decoder, F: Fn(&mut D, Tag) -> Result<T, E>>(
        index: usize,
        slots: &mut Self::Slots,
        decoder: &mut D,
        read: &F,
    ) -> Decoded {
        match index {
            0 => required(&mut slots.0, decoder, Tagging::Tagged(tag!(context 0))),
            1 => optional(&mut slots.1, decoder, Tagging::Tagged(tag!(context 1))),
            2 => optional(&mut slots.2, decoder, Tagging::Tagged(tag!(context 2))),
            3 => required(&mut slots.3, decoder, Tagging::Tagged(tag!(context 3))),
            4 => required_with::<T, Vec<T>, ListOf<Itself>, E, D, F>(
                &mut slots.4,
                decoder,
                Tagging::Tagged(tag!(context 4)),
                read,
            ),
            5 => optional_with::<T, LinkOf<T>, Whole, E, D, F>(
                &mut slots.5,
                decoder,
                Tagging::Tagged(tag!(context 5)),
                read,
            ),
            6 => addition(&mut slots.6, decoder, Tagging::Tagged(tag!(context 6))),
            _ => Ok(()),
        }
    }
}
