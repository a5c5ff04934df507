//! `Cause ::= ENUMERATED { other, overload, ... }`
ghost use Rattle.std.specs.Prelude.{codes, refl};
ghost use Rattle.asn1_schema.specs.Words.{IsWellTagged, by_test, enumeration_agrees, enumeration_type, extensible_enumeration, items_of};
ghost use Rattle.signals.specs.declared.cause.Cause.TheVariants.{Other, Overload};
ghost use Rattle.asn1_model.specs.DistinctSets.{SetsAreDistinct};
ghost use Rattle.asn1_model.specs.WrittenAlike.{AreWrittenAlike};

use asn1_schema::{
    AsnType, Constraints, Decode, DecodeError, Decoder, Encode, EncodeError, Encoder, Enumerated,
    EnumeratedItems, EnumerationItem, Identifier, Tag, TypeTable,
};

/// `Cause` of the module `Signals`.
#[derive(Clone, Copy, PartialEq, Eq, Debug)]
pub enum Cause {
    /// `other(0)`
    Other,
    /// `overload(1)`
    Overload,
}

const ROOT: &[EnumerationItem<Cause>] = &[
    (Cause::Other, 0, "other"),
    (Cause::Overload, 1, "overload"),
];

const ADDITIONS: &[EnumerationItem<Cause>] = &[];

impl EnumeratedItems for Cause {
    ghost use Rattle.signals.specs.declared.cause.TheConstants.{ADDITIONS, ROOT};

    ghost enumeration = { extensible_enumeration (items_of ROOT.now) (items_of ADDITIONS.now) };

    fn items() -> &'static [EnumerationItem<Self>] {
        ROOT
    }

    fn added_items() -> Option<&'static [EnumerationItem<Self>]> {
        Some(ADDITIONS)
    }
}

impl AsnType for Cause {
    ghost meaning = { enumeration_type (codes "Cause") ⟦<Cause as EnumeratedItems>⟧.enumeration ⟦<Cause as PartialEq>⟧.eq };

    fn table() -> TypeTable {
        TypeTable::new(Tag::ENUMERATED, Identifier(Some("Cause")))
    }

    fn is_present(&self) -> bool {
        true
    }
}

impl Enumerated for Cause {
    ghost complete = { elim [ Other ↦ refl | Overload ↦ refl ] };

    ghost lawful = { by_test refl };

    ghost agrees = { enumeration_agrees };
}

/// A `Cause` can be inside other types.
pub fn cause_is_well_tagged()
    ensures { IsWellTagged ⟦<Cause as AsnType>⟧.meaning }
{}

/// Equal values are written alike, and in each value the components of a SET have distinct tags. With `cause_is_well_tagged`
/// it follows that the DER of a value is its only spelling (`well_tagged_types_have_one_spelling` of `asn1_der`).
pub fn cause_has_one_spelling()
    ensures alike { AreWrittenAlike ⟦<Cause as AsnType>⟧.meaning
        ⟦<Cause as PartialEq>⟧.eq }
    ensures distinct { SetsAreDistinct ⟦<Cause as AsnType>⟧.meaning }
{}

impl Encode for Cause {
    fn encode_with_tag_and_constraints<E: Encoder>(
        &self,
        encoder: &mut E,
        tag: Tag,
        _constraints: &Constraints<'_>,
        name: Identifier,
    ) -> Result<(), EncodeError> {
        encoder.encode_enumerated(tag, self, name)
    }
}

impl Decode for Cause {
    fn decode_with_tag_and_constraints<D: Decoder>(
        decoder: &mut D,
        tag: Tag,
        _constraints: &Constraints<'_>,
    ) -> Result<Self, DecodeError> {
        decoder.decode_enumerated(tag)
    }
}
