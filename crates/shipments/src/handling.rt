//! `Handling ::= SET { copies [0] INTEGER (1..10) DEFAULT 2, flags [1] BIT STRING { fragile(0), urgent(1) } (SIZE (8)) }`
ghost use Rattle.std.specs.Prelude.{[], ◌∷◌, ◌≡◌, ℕ, Bool, List, codes, pos};
ghost use Rattle.asn1_schema.specs.Words.{IsWellTagged, constructed_agrees, constructed_type, context, default_slot, required_slot, set_of_slots, tagged};

use asn1_limits::{Sizes, Within};
use asn1_schema::{
    AsnType, Between, Constraints, ConstructedType, Decode, DecodeError, DecodeSetByIndex, Decoded,
    Decoder, Encode, EncodeError, EncodeFields, Encoder, Field, FieldTable, Identifier, Integer,
    NamedBitString, Tag, Tagging, TypeTable, decode_set_by_index, decode_unique, missing,
    or_default,
};
use asn1_tags::tag;
use std::alloc::{AllocError, Global};

/// `Handling` of the module `Shipments`.
#[derive(PartialEq, Eq, Debug, Drop)]
pub struct Handling {
    /// `copies [0] INTEGER (1..10) DEFAULT 2`
    pub copies: Within<Integer, Between<1, 10>>,
    /// `flags [1] BIT STRING { fragile(0), urgent(1) } (SIZE (8))`
    pub flags: Within<NamedBitString, Sizes<8, 8>>,
}

/// The default of `copies`, a constant that no test guards.
pub fn usual_copies() -> Within<Integer, Between<1, 10>>
    ensures { result ≡ pos 2 }
{
    Within::of_admitted(Integer::from_i128(2))
}

impl DecodeSetByIndex for Handling {
    type Slots = (
        Option<Within<Integer, Between<1, 10>>>,
        Option<Within<NamedBitString, Sizes<8, 8>>>,
    );

    ghost layout = { default_slot (codes "copies") (λ v. v.copies) (pos 2) (λ s. s.0) (tagged (context 0) ⟦<Within<Integer, Between<1, 10>> as AsnType>⟧.meaning) ⟦<Within<Integer, Between<1, 10>> as PartialEq>⟧.eq ∷
        required_slot (codes "flags") (λ v. v.flags) (λ s. s.1) (tagged (context 1) ⟦<Within<NamedBitString, Sizes<8, 8>> as AsnType>⟧.meaning) ⟦<Within<NamedBitString, Sizes<8, 8>> as PartialEq>⟧.eq ∷ [] };

    fn full(_alloc: Global, slots: Self::Slots) -> Result<Self, AllocError> {
        Ok(Self {
            copies: or_default(slots.0, usual_copies()),
            flags: slots.1.unwrap(),
        })
    }

    fn missing_at(index: usize, slots: &Self::Slots) -> Option<&'static str> {
        match index {
            1 => missing(&slots.1, "flags"),
            _ => None,
        }
    }

    fn decode_field<D: Decoder>(
        index: usize,
        _tag: Tag,
        slots: &mut Self::Slots,
        decoder: &mut D,
    ) -> Decoded {
        match index {
            0 => decode_unique(
                &mut slots.0,
                decoder,
                Tagging::Tagged(tag!(context 0)),
                "copies",
            ),
            1 => decode_unique(
                &mut slots.1,
                decoder,
                Tagging::Tagged(tag!(context 1)),
                "flags",
            ),
            _ => Ok(()),
        }
    }
}

impl FieldTable for Handling {
    ghost components = { set_of_slots ⟦<Handling as DecodeSetByIndex>⟧.layout };

    fn field_count() -> usize {
        2
    }

    fn field_at(index: usize) -> Option<Field<'static>> {
        match index {
            0 => Some(Field::new_default_type_with_tag::<Within<Integer, Between<1, 10>>>(
                0,
                tag!(context 0),
                "copies",
            )),
            1 => Some(Field::new_required_type_with_tag::<Within<NamedBitString, Sizes<8, 8>>>(
                1,
                tag!(context 1),
                "flags",
            )),
            _ => None,
        }
    }

    fn extension_index() -> Option<usize> {
        None
    }
}

impl AsnType for Handling {
    ghost meaning = { constructed_type (codes "Handling") ⟦<Handling as FieldTable>⟧.components };

    fn table() -> TypeTable {
        TypeTable::new(Tag::SET, Identifier(Some("Handling")))
    }

    fn is_present(&self) -> bool {
        true
    }
}

impl ConstructedType for Handling {
    ghost agrees = { constructed_agrees };
}

/// A `Handling` can be inside other types.
pub fn handling_is_well_tagged()
    ensures { IsWellTagged ⟦<Handling as AsnType>⟧.meaning }
{}

/// Each `Handling` is valid.
pub fn handling_is_valid(handling: &Handling)
    ensures { (accepts : List ℕ → Bool) →
        ⟦<Handling as AsnType>⟧.meaning.IsValid accepts handling.now }
{}

impl Encode for Handling {
    fn encode_with_tag_and_constraints<E: Encoder>(
        &self,
        encoder: &mut E,
        tag: Tag,
        _constraints: &Constraints<'_>,
        name: Identifier,
    ) -> Result<(), EncodeError> {
        encoder.encode_set(tag, self, name)
    }
}

impl EncodeFields for Handling {
    fn encode_field<E: Encoder>(&self, index: usize, encoder: &mut E) -> Result<(), EncodeError> {
        match index {
            0 => encoder.encode_default_with_tag(
                tag!(context 0),
                &self.copies,
                |_| Ok(usual_copies()),
                Within::<Integer, Between<1, 10>>::identifier(),
            ),
            1 => self.flags.encode_with_tag(encoder, tag!(context 1)),
            _ => Ok(()),
        }
    }
}

impl Decode for Handling {
    fn decode_with_tag_and_constraints<D: Decoder>(
        decoder: &mut D,
        tag: Tag,
        constraints: &Constraints<'_>,
    ) -> Result<Self, DecodeError> {
        decode_set_by_index(decoder, tag, constraints)
    }
}
