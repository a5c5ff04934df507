//! `Category ::= SEQUENCE { name UTF8String, children SEQUENCE OF Category }`
ghost use Rattle.std.specs.Prelude.{[], codes, ◌∷◌};
ghost use Rattle.asn1_schema.specs.Words.{constructed_agrees, context, required_slot, tagged};
ghost use Rattle.expressions.specs.CategoryLists.{category_of_components, category_of_meaning};

use asn1_circles::{DecodeByIndexWith, Itself, ListOf, ReadError, required_with};
use asn1_schema::{
    AsnType, Constraints, ConstructedType, DecodeError, Decoded, Decoder, Encode, EncodeError,
    EncodeFields, Encoder, Field, FieldTable, Identifier, Tag, Tagging, TypeTable, Utf8String,
    required,
};
use asn1_tags::tag;
use std::alloc::{AllocError, Global};

/// `Category` of the module `Expressions`.
#[derive(PartialEq, Eq, Debug, Drop)]
pub struct CategoryOf<T> {
    /// `name UTF8String`
    pub name: Utf8String,
    /// `children SEQUENCE OF Category`
    pub children: Vec<T>,
}

impl<T: AsnType> FieldTable for CategoryOf<T> {
    ghost components = { category_of_components T.meaning };

    fn field_count() -> usize {
        2
    }

    fn field_at(index: usize) -> Option<Field<'static>> {
        match index {
            0 => Some(Field::new_required_type_with_tag::<Utf8String>(0, tag!(context 0), "name")),
            1 => Some(Field::new_required_type_with_tag::<Vec<T>>(1, tag!(context 1), "children")),
            _ => None,
        }
    }

    fn extension_index() -> Option<usize> {
        None
    }
}

impl<T: AsnType> AsnType for CategoryOf<T> {
    ghost meaning = { category_of_meaning T.meaning };

    fn table() -> TypeTable {
        TypeTable::new(Tag::SEQUENCE, Identifier(Some("Category")))
    }

    fn is_present(&self) -> bool {
        true
    }
}

impl<T: AsnType> ConstructedType for CategoryOf<T> {
    ghost agrees = { constructed_agrees };
}

impl<T: Encode> Encode for CategoryOf<T> {
    fn encode_with_tag_and_constraints<E: Encoder>(
        &self,
        encoder: &mut E,
        tag: Tag,
        _constraints: &Constraints<'_>,
        name: Identifier,
    ) -> Result<(), EncodeError> {
        encoder.encode_sequence(tag, self, name)
    }
}

impl<T: Encode> EncodeFields for CategoryOf<T> {
    fn encode_field<E: Encoder>(&self, index: usize, encoder: &mut E) -> Result<(), EncodeError> {
        match index {
            0 => self.name.encode_with_tag(encoder, tag!(context 0)),
            1 => self.children.encode_with_tag(encoder, tag!(context 1)),
            _ => Ok(()),
        }
    }
}

impl<T: AsnType + Eq + Drop> DecodeByIndexWith<T> for CategoryOf<T> {
    type Slots = (Option<Utf8String>, Option<Vec<T>>);

    ghost layout = { required_slot (codes "name") (λ v. v.name) (λ s. s.0) (tagged (context 0) ⟦<Utf8String as AsnType>⟧.meaning) ⟦<Utf8String as PartialEq>⟧.eq ∷
        required_slot (codes "children") (λ v. v.children) (λ s. s.1) (tagged (context 1) ⟦<Vec<T> as AsnType>⟧.meaning) ⟦<Vec<T> as PartialEq>⟧.eq ∷ [] };

    fn full(_alloc: Global, slots: Self::Slots) -> Result<Self, AllocError> {
        Ok(Self {
            name: slots.0.unwrap(),
            children: slots.1.unwrap(),
        })
    }

    fn decode_field_with<E: ReadError, D: Decoder, F: Fn(&mut D, Tag) -> Result<T, E>>(
        index: usize,
        slots: &mut Self::Slots,
        decoder: &mut D,
        read: &F,
    ) -> Decoded {
        match index {
            0 => required(&mut slots.0, decoder, Tagging::Tagged(tag!(context 0))),
            1 => required_with::<T, Vec<T>, ListOf<Itself>, E, D, F>(
                &mut slots.1,
                decoder,
                Tagging::Tagged(tag!(context 1)),
                read,
            ),
            _ => Ok(()),
        }
    }
}
