//! `Link ::= SEQUENCE { target Folder, text UTF8String OPTIONAL }`
ghost use Rattle.std.specs.Prelude.{[], codes, ◌∷◌};
ghost use Rattle.asn1_schema.specs.Words.{constructed_agrees, context, optional_slot, required_slot, tagged};
ghost use Rattle.folders.specs.FolderLists.{link_components, link_meaning};

use asn1_circles::{
    DecodeByIndexWith, DecodeWith, Itself, ReadError, decode_sequence_with, required_with,
};
use asn1_schema::{
    AsnType, Constraints, ConstructedType, Decode, DecodeError, Decoded, Decoder, Encode,
    EncodeError, EncodeFields, Encoder, Field, FieldTable, Identifier, Tag, Tagging, TypeTable,
    Utf8String, optional,
};
use asn1_tags::tag;
use std::alloc::{AllocError, Global};

/// `Link` of the module `File-Tree`.
#[derive(PartialEq, Eq, Debug, Drop)]
pub struct LinkOf<T> {
    /// `target Folder`
    pub target: T,
    /// `text UTF8String OPTIONAL`
    pub text: Option<Utf8String>,
}

impl<T: AsnType> FieldTable for LinkOf<T> {
    ghost components = { link_components T.meaning };

    fn field_count() -> usize {
        2
    }

    fn field_at(index: usize) -> Option<Field<'static>> {
        match index {
            0 => Some(Field::new_required_type_with_tag::<T>(0, tag!(context 0), "target")),
            1 => Some(Field::new_optional_type_with_tag::<Utf8String>(1, tag!(context 1), "text")),
            _ => None,
        }
    }

    fn extension_index() -> Option<usize> {
        None
    }
}

impl<T: AsnType> AsnType for LinkOf<T> {
    ghost meaning = { link_meaning T.meaning };

    fn table() -> TypeTable {
        TypeTable::new(Tag::SEQUENCE, Identifier(Some("Link")))
    }

    fn is_present(&self) -> bool {
        true
    }
}

impl<T: AsnType> ConstructedType for LinkOf<T> {
    ghost agrees = { constructed_agrees };
}

impl<T: Encode> Encode for LinkOf<T> {
    fn encode_with_tag_and_constraints<E: Encoder>(
        &self,
        encoder: &mut E,
        tag: Tag,
        _constraints: &Constraints<'_>,
        name: Identifier,
    ) -> Result<(), EncodeError> {
        encoder.encode_sequence(tag, self, name)
    }
}

impl<T: Encode> EncodeFields for LinkOf<T> {
    fn encode_field<E: Encoder>(&self, index: usize, encoder: &mut E) -> Result<(), EncodeError> {
        match index {
            0 => self.target.encode_with_tag(encoder, tag!(context 0)),
            1 => self.text.encode_with_tag(encoder, tag!(context 1)),
            _ => Ok(()),
        }
    }
}

impl<T: AsnType + Eq + Drop> DecodeByIndexWith<T> for LinkOf<T> {
    type Slots = (Option<T>, Option<Utf8String>);

    ghost layout = { required_slot (codes "target") (λ v. v.target) (λ s. s.0) (tagged (context 0) ⟦<T as AsnType>⟧.meaning) ⟦<T as PartialEq>⟧.eq ∷
        optional_slot (codes "text") (λ v. v.text) (λ s. s.1) (tagged (context 1) ⟦<Utf8String as AsnType>⟧.meaning) ⟦<Utf8String as PartialEq>⟧.eq ∷ [] };

    fn full(_alloc: Global, slots: Self::Slots) -> Result<Self, AllocError> {
        Ok(Self {
            target: slots.0.unwrap(),
            text: slots.1,
        })
    }

    fn decode_field_with<E: ReadError, D: Decoder, F: Fn(&mut D, Tag) -> Result<T, E>>(
        index: usize,
        slots: &mut Self::Slots,
        decoder: &mut D,
        read: &F,
    ) -> Decoded {
        match index {
            0 => required_with::<T, T, Itself, E, D, F>(
                &mut slots.0,
                decoder,
                Tagging::Tagged(tag!(context 0)),
                read,
            ),
            1 => optional(&mut slots.1, decoder, Tagging::Tagged(tag!(context 1))),
            _ => Ok(()),
        }
    }
}

impl<T: AsnType + Eq + Drop> DecodeWith<T> for LinkOf<T> {
    fn decode_with<E: ReadError, D: Decoder, F: Fn(&mut D, Tag) -> Result<T, E>>(
        decoder: &mut D,
        tag: Tag,
        read: &F,
    ) -> Result<Self, DecodeError> {
        decode_sequence_with::<T, LinkOf<T>, E, D, F>(decoder, tag, &Constraints::NONE, read)
    }
}

impl<T: Decode> Decode for LinkOf<T> {
    fn decode_with_tag_and_constraints<D: Decoder>(
        decoder: &mut D,
        tag: Tag,
        constraints: &Constraints<'_>,
    ) -> Result<Self, DecodeError> {
        let read = |inside: &mut D, at: Tag| -> Result<T, DecodeError> {
            T::decode_with_tag(inside, at)
        };
        decode_sequence_with::<T, LinkOf<T>, DecodeError, D, _>(decoder, tag, constraints, &read)
    }
}
