//! `Call` of the module `Expressions`.
//!
//! ```text
//! Call ::= SEQUENCE {
//!     name UTF8String,
//!     args SEQUENCE OF Expr,
//!     then Expr OPTIONAL,
//!     is-pure BOOLEAN DEFAULT FALSE,
//!     ...,
//!     rest SET OF Terms OPTIONAL
//! }
//! ```
ghost use Rattle.std.specs.Prelude.{[], codes, false, ◌∷◌};
ghost use Rattle.asn1_schema.specs.Words.{addition_slot, constructed_agrees, context, default_slot, explicitly_tagged, optional_slot, required_slot, tagged};
ghost use Rattle.expressions.specs.ExprLists.{call_components, call_meaning};

use asn1_circles::{
    DecodeByIndexWith, DecodeWith, Itself, ListOf, ReadError, SetOfEach, addition_with,
    decode_sequence_with, optional_with, required_with,
};
use asn1_schema::{
    AsnType, Constraints, ConstructedType, Decode, DecodeError, Decoded, Decoder, Encode,
    EncodeError, EncodeFields, Encoder, Field, FieldTable, Identifier, SetOf, Tag, Tagging,
    TypeTable, Utf8String, encode_explicit_optional, optional, or_default, required,
};
use asn1_tags::tag;
use std::alloc::{AllocError, Global};

/// `Call` of the module `Expressions`.
#[derive(PartialEq, Eq, Debug, Drop)]
pub struct CallOf<T> {
    /// `name UTF8String`
    pub name: Utf8String,
    /// `args SEQUENCE OF Expr`
    pub args: Vec<T>,
    /// `then Expr OPTIONAL`
    pub then: Option<T>,
    /// `is-pure BOOLEAN DEFAULT FALSE`
    pub is_pure: bool,
    /// `rest SET OF Terms OPTIONAL`
    pub rest: Option<SetOf<Vec<T>>>,
}

impl<T: AsnType> FieldTable for CallOf<T> {
    ghost components = { call_components T.meaning };

    fn field_count() -> usize {
        5
    }

    fn field_at(index: usize) -> Option<Field<'static>> {
        match index {
            0 => Some(Field::new_required_type_with_tag::<Utf8String>(0, tag!(context 0), "name")),
            1 => Some(Field::new_required_type_with_tag::<Vec<T>>(1, tag!(context 1), "args")),
            2 => Some(Field::new_optional_explicit(2, tag!(context 2), "then")),
            3 => Some(Field::new_default_type_with_tag::<bool>(3, tag!(context 3), "is-pure")),
            4 => Some(Field::new_optional_type_with_tag::<SetOf<Vec<T>>>(
                4,
                tag!(context 4),
                "rest",
            )),
            _ => None,
        }
    }

    fn extension_index() -> Option<usize> {
        Some(4)
    }
}

impl<T: AsnType> AsnType for CallOf<T> {
    ghost meaning = { call_meaning T.meaning };

    fn table() -> TypeTable {
        TypeTable::new(Tag::SEQUENCE, Identifier(Some("Call")))
    }

    fn is_present(&self) -> bool {
        true
    }
}

impl<T: AsnType> ConstructedType for CallOf<T> {
    ghost agrees = { constructed_agrees };
}

impl<T: Encode> Encode for CallOf<T> {
    fn encode_with_tag_and_constraints<E: Encoder>(
        &self,
        encoder: &mut E,
        tag: Tag,
        _constraints: &Constraints<'_>,
        name: Identifier,
    ) -> Result<(), EncodeError> {
        encoder.encode_sequence(tag, self, name)
    }
}

impl<T: Encode> EncodeFields for CallOf<T> {
    fn encode_field<E: Encoder>(&self, index: usize, encoder: &mut E) -> Result<(), EncodeError> {
        match index {
            0 => self.name.encode_with_tag(encoder, tag!(context 0)),
            1 => self.args.encode_with_tag(encoder, tag!(context 1)),
            2 => encode_explicit_optional(encoder, tag!(context 2), &self.then),
            3 => encoder.encode_default_with_tag(
                tag!(context 3),
                &self.is_pure,
                |_| Ok(false),
                bool::identifier(),
            ),
            4 => encoder.encode_extension_addition_with_tag(
                tag!(context 4),
                self.rest.as_ref(),
                <SetOf<Vec<T>>>::identifier(),
            ),
            _ => Ok(()),
        }
    }
}

impl<T: AsnType + Eq + Drop> DecodeByIndexWith<T> for CallOf<T> {
    type Slots = (
        Option<Utf8String>,
        Option<Vec<T>>,
        Option<T>,
        Option<bool>,
        Option<SetOf<Vec<T>>>,
    );

    ghost layout = { required_slot (codes "name") (λ v. v.name) (λ s. s.0) (tagged (context 0) ⟦<Utf8String as AsnType>⟧.meaning) ⟦<Utf8String as PartialEq>⟧.eq ∷
        required_slot (codes "args") (λ v. v.args) (λ s. s.1) (tagged (context 1) ⟦<Vec<T> as AsnType>⟧.meaning) ⟦<Vec<T> as PartialEq>⟧.eq ∷
        optional_slot (codes "then") (λ v. v.then) (λ s. s.2) (explicitly_tagged (context 2) ⟦<T as AsnType>⟧.meaning) ⟦<T as PartialEq>⟧.eq ∷
        default_slot (codes "is-pure") (λ v. v.is_pure) false (λ s. s.3) (tagged (context 3) ⟦<bool as AsnType>⟧.meaning) ⟦<bool as PartialEq>⟧.eq ∷
        addition_slot (codes "rest") (λ v. v.rest) (λ s. s.4) (tagged (context 4) ⟦<SetOf<Vec<T>> as AsnType>⟧.meaning) ⟦<SetOf<Vec<T>> as PartialEq>⟧.eq ∷ [] };

    fn full(_alloc: Global, slots: Self::Slots) -> Result<Self, AllocError> {
        Ok(Self {
            name: slots.0.unwrap(),
            args: slots.1.unwrap(),
            then: slots.2,
            is_pure: or_default(slots.3, false),
            rest: slots.4,
        })
    }

    fn decode_field_with<E: ReadError, D: Decoder, F: Fn(&mut D, Tag) -> Result<T, E>>(
        index: usize,
        slots: &mut Self::Slots,
        decoder: &mut D,
        read: &F,
    ) -> Decoded {
        match index {
            0 => required(&mut slots.0, decoder, Tagging::Tagged(tag!(context 0))),
            1 => required_with::<T, Vec<T>, ListOf<Itself>, E, D, F>(
                &mut slots.1,
                decoder,
                Tagging::Tagged(tag!(context 1)),
                read,
            ),
            2 => optional_with::<T, T, Itself, E, D, F>(
                &mut slots.2,
                decoder,
                Tagging::Explicit(tag!(context 2)),
                read,
            ),
            3 => optional(&mut slots.3, decoder, Tagging::Tagged(tag!(context 3))),
            4 => addition_with::<T, SetOf<Vec<T>>, SetOfEach<ListOf<Itself>>, E, D, F>(
                &mut slots.4,
                decoder,
                Tagging::Tagged(tag!(context 4)),
                read,
            ),
            _ => Ok(()),
        }
    }
}

impl<T: AsnType + Eq + Drop> DecodeWith<T> for CallOf<T> {
    fn decode_with<E: ReadError, D: Decoder, F: Fn(&mut D, Tag) -> Result<T, E>>(
        decoder: &mut D,
        tag: Tag,
        read: &F,
    ) -> Result<Self, DecodeError> {
        decode_sequence_with::<T, CallOf<T>, E, D, F>(decoder, tag, &Constraints::NONE, read)
    }
}

impl<T: Decode> Decode for CallOf<T> {
    fn decode_with_tag_and_constraints<D: Decoder>(
        decoder: &mut D,
        tag: Tag,
        constraints: &Constraints<'_>,
    ) -> Result<Self, DecodeError> {
        let read = |inside: &mut D, at: Tag| -> Result<T, DecodeError> {
            T::decode_with_tag(inside, at)
        };
        decode_sequence_with::<T, CallOf<T>, DecodeError, D, _>(decoder, tag, constraints, &read)
    }
}
