//! `Seal ::= SET { year INTEGER OPTIONAL, place UTF8String, methods SET OF OBJECT IDENTIFIER }`
ghost use Rattle.std.specs.Prelude.{[], codes, ◌∷◌};
ghost use Rattle.asn1_schema.specs.Words.{IsWellTagged, constructed_agrees, constructed_type, optional_slot, required_slot, set_of_slots, untagged};

use asn1_schema::{
    AsnType, Constraints, ConstructedType, Decode, DecodeError, DecodeSetByIndex, Decoded, Decoder,
    Field, FieldTable, Identifier, Integer, ObjectIdentifier, SetOf, Tag, Tagging, TypeTable,
    Utf8String, decode_set_by_index, decode_unique, missing,
};
use std::alloc::{AllocError, Global};

/// `SET OF OBJECT IDENTIFIER`
pub type Methods = SetOf<ObjectIdentifier>;

/// A seal: a SET with a SET OF inside.
#[derive(PartialEq, Eq, Debug, Drop)]
pub struct Seal {
    /// `year INTEGER OPTIONAL`
    pub year: Option<Integer>,
    /// `place UTF8String`
    pub place: Utf8String,
    /// `methods SET OF OBJECT IDENTIFIER`
    pub methods: Methods,
}

impl DecodeSetByIndex for Seal {
    type Slots = (Option<Integer>, Option<Utf8String>, Option<Methods>);

    ghost layout = { optional_slot (codes "year") (λ s. s.year) (λ s. s.0) (untagged ⟦<Integer as AsnType>⟧.meaning) ⟦<Integer as PartialEq>⟧.eq ∷
        required_slot (codes "place") (λ s. s.place) (λ s. s.1) (untagged ⟦<Utf8String as AsnType>⟧.meaning) ⟦<Utf8String as PartialEq>⟧.eq ∷
        required_slot (codes "methods") (λ s. s.methods) (λ s. s.2) (untagged ⟦<Methods as AsnType>⟧.meaning) ⟦<Methods as PartialEq>⟧.eq ∷ [] };

    fn full(_alloc: Global, slots: Self::Slots) -> Result<Seal, AllocError> {
        Ok(Seal {
            year: slots.0,
            place: slots.1.unwrap(),
            methods: slots.2.unwrap(),
        })
    }

    fn missing_at(index: usize, slots: &Self::Slots) -> Option<&'static str> {
        match index {
            1 => missing(&slots.1, "place"),
            2 => missing(&slots.2, "methods"),
            _ => None,
        }
    }

    fn decode_field<D: Decoder>(
        index: usize,
        _tag: Tag,
        slots: &mut Self::Slots,
        decoder: &mut D,
    ) -> Decoded {
        match index {
            0 => decode_unique(&mut slots.0, decoder, Tagging::Untagged, "year"),
            1 => decode_unique(&mut slots.1, decoder, Tagging::Untagged, "place"),
            2 => decode_unique(&mut slots.2, decoder, Tagging::Untagged, "methods"),
            _ => Ok(()),
        }
    }
}

impl FieldTable for Seal {
    ghost components = { set_of_slots ⟦<Seal as DecodeSetByIndex>⟧.layout };

    fn field_count() -> usize {
        3
    }

    fn field_at(index: usize) -> Option<Field<'static>> {
        match index {
            0 => Some(Field::new_optional_type::<Integer>(0, "year")),
            1 => Some(Field::new_required_type::<Utf8String>(1, "place")),
            2 => Some(Field::new_required_type::<Methods>(2, "methods")),
            _ => None,
        }
    }

    fn extension_index() -> Option<usize> {
        None
    }
}

impl AsnType for Seal {
    ghost meaning = { constructed_type (codes "Seal") ⟦<Seal as FieldTable>⟧.components };

    fn table() -> TypeTable {
        TypeTable::new(Tag::SET, Identifier(Some("Seal")))
    }

    fn is_present(&self) -> bool {
        true
    }
}

impl ConstructedType for Seal {
    ghost agrees = { constructed_agrees };
}

/// A `Seal` can be inside other types.
pub fn seal_is_well_tagged()
    ensures { IsWellTagged ⟦<Seal as AsnType>⟧.meaning }
{}

impl Decode for Seal {
    fn decode_with_tag_and_constraints<D: Decoder>(
        decoder: &mut D,
        tag: Tag,
        constraints: &Constraints<'_>,
    ) -> Result<Seal, DecodeError> {
        decode_set_by_index(decoder, tag, constraints)
    }
}
