//! `Handling ::= ENUMERATED { refuse, pass, report }`
ghost use Rattle.std.specs.Prelude.{codes, refl};
ghost use Rattle.asn1_schema.specs.Words.{IsWellTagged, by_test, closed_enumeration, enumeration_agrees, enumeration_type, items_of};
ghost use Rattle.signals.specs.declared.handling.Handling.TheVariants.{Refuse, Pass, Report};
ghost use Rattle.asn1_model.specs.DistinctSets.{SetsAreDistinct};
ghost use Rattle.asn1_model.specs.WrittenAlike.{AreWrittenAlike};

use asn1_schema::{
    AsnType, Constraints, Decode, DecodeError, Decoder, Encode, EncodeError, Encoder, Enumerated,
    EnumeratedItems, EnumerationItem, Identifier, Tag, TypeTable,
};

/// `Handling` of the module `Signals`.
#[derive(Clone, Copy, PartialEq, Eq, Debug)]
pub enum Handling {
    /// `refuse(0)`
    Refuse,
    /// `pass(1)`
    Pass,
    /// `report(2)`
    Report,
}

const ITEMS: &[EnumerationItem<Handling>] = &[
    (Handling::Refuse, 0, "refuse"),
    (Handling::Pass, 1, "pass"),
    (Handling::Report, 2, "report"),
];

impl EnumeratedItems for Handling {
    ghost use Rattle.signals.specs.declared.handling.TheConstants.{ITEMS};

    ghost enumeration = { closed_enumeration (items_of ITEMS.now) };

    fn items() -> &'static [EnumerationItem<Self>] {
        ITEMS
    }

    fn added_items() -> Option<&'static [EnumerationItem<Self>]> {
        None
    }
}

impl AsnType for Handling {
    ghost meaning = { enumeration_type (codes "Handling") ⟦<Handling as EnumeratedItems>⟧.enumeration ⟦<Handling as PartialEq>⟧.eq };

    fn table() -> TypeTable {
        TypeTable::new(Tag::ENUMERATED, Identifier(Some("Handling")))
    }

    fn is_present(&self) -> bool {
        true
    }
}

impl Enumerated for Handling {
    ghost complete = { elim [ Refuse ↦ refl | Pass ↦ refl | Report ↦ refl ] };

    ghost lawful = { by_test refl };

    ghost agrees = { enumeration_agrees };
}

/// A `Handling` can be inside other types.
pub fn handling_is_well_tagged()
    ensures { IsWellTagged ⟦<Handling as AsnType>⟧.meaning }
{}

/// Equal values are written alike, and in each value the components of a SET have distinct tags. With `handling_is_well_tagged`
/// it follows that the DER of a value is its only spelling (`well_tagged_types_have_one_spelling` of `asn1_der`).
pub fn handling_has_one_spelling()
    ensures alike { AreWrittenAlike ⟦<Handling as AsnType>⟧.meaning
        ⟦<Handling as PartialEq>⟧.eq }
    ensures distinct { SetsAreDistinct ⟦<Handling as AsnType>⟧.meaning }
{}

impl Encode for Handling {
    fn encode_with_tag_and_constraints<E: Encoder>(
        &self,
        encoder: &mut E,
        tag: Tag,
        _constraints: &Constraints<'_>,
        name: Identifier,
    ) -> Result<(), EncodeError> {
        encoder.encode_enumerated(tag, self, name)
    }
}

impl Decode for Handling {
    fn decode_with_tag_and_constraints<D: Decoder>(
        decoder: &mut D,
        tag: Tag,
        _constraints: &Constraints<'_>,
    ) -> Result<Self, DecodeError> {
        decoder.decode_enumerated(tag)
    }
}
