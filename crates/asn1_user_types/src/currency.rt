//! `Currency ::= ENUMERATED { euro(0), yen(1) }`
ghost use Rattle.std.specs.Prelude.{codes, refl};
ghost use Rattle.asn1_schema.specs.Words.{IsWellTagged, by_test, closed_enumeration, enumeration_agrees, enumeration_type, items_of};
ghost use Rattle.asn1_user_types.specs.declared.currency.Currency.TheVariants.{Euro, Yen};

use asn1_schema::{
    AsnType, Constraints, Decode, DecodeError, Decoder, Encode, EncodeError, Encoder, Enumerated,
    EnumeratedItems, EnumerationItem, Identifier, Tag, TypeTable,
};

/// In what a price is paid.
#[derive(Clone, Copy, PartialEq, Eq, Debug)]
pub enum Currency {
    /// `euro(0)`
    Euro,
    /// `yen(1)`
    Yen,
}

const ITEMS: &[EnumerationItem<Currency>] = &[
    (Currency::Euro, 0, "euro"),
    (Currency::Yen, 1, "yen"),
];

impl EnumeratedItems for Currency {
    ghost use Rattle.asn1_user_types.specs.declared.currency.TheConstants.{ITEMS};

    ghost enumeration = { closed_enumeration (items_of ITEMS.now) };

    fn items() -> &'static [EnumerationItem<Currency>] {
        ITEMS
    }

    fn added_items() -> Option<&'static [EnumerationItem<Currency>]> {
        None
    }
}

impl AsnType for Currency {
    ghost meaning = { enumeration_type (codes "Currency") ⟦<Currency as EnumeratedItems>⟧.enumeration ⟦<Currency as PartialEq>⟧.eq };

    fn table() -> TypeTable {
        TypeTable::new(Tag::ENUMERATED, Identifier(Some("Currency")))
    }

    fn is_present(&self) -> bool {
        true
    }
}

impl Enumerated for Currency {
    ghost complete = { elim [ Euro ↦ refl | Yen ↦ refl ] };

    ghost lawful = { by_test refl };

    ghost agrees = { enumeration_agrees };
}

/// A `Currency` is well tagged.
pub fn currency_is_well_tagged()
    ensures { IsWellTagged ⟦<Currency as AsnType>⟧.meaning }
{}

impl Encode for Currency {
    fn encode_with_tag_and_constraints<E: Encoder>(
        &self,
        encoder: &mut E,
        tag: Tag,
        _constraints: &Constraints<'_>,
        name: Identifier,
    ) -> Result<(), EncodeError> {
        encoder.encode_enumerated(tag, self, name)
    }
}

impl Decode for Currency {
    fn decode_with_tag_and_constraints<D: Decoder>(
        decoder: &mut D,
        tag: Tag,
        _constraints: &Constraints<'_>,
    ) -> Result<Currency, DecodeError> {
        decoder.decode_enumerated(tag)
    }
}
