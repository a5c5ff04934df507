//! The type of `derefAliases` in `SearchRequest`.
//!
//! ```text
//! derefAliases ENUMERATED {
//!     neverDerefAliases(0),
//!     derefInSearching(1),
//!     derefFindingBaseObj(2),
//!     derefAlways(3)
//! }
//! ```
ghost use Rattle.std.specs.Prelude.{codes, refl};
ghost use Rattle.asn1_schema.specs.Words.{IsWellTagged, by_test, enumeration_agrees, enumeration_type, extensible_enumeration, items_of};
ghost use Rattle.asn1_ldap.specs.declared.search_request_deref_aliases.SearchRequestDerefAliases.TheVariants.{NeverDerefAliases, DerefInSearching, DerefFindingBaseObj, DerefAlways};
ghost use Rattle.asn1_model.specs.DistinctSets.{SetsAreDistinct};
ghost use Rattle.asn1_model.specs.WrittenAlike.{AreWrittenAlike};

use asn1_schema::{
    AsnType, Constraints, Decode, DecodeError, Decoder, Encode, EncodeError, Encoder, Enumerated,
    EnumeratedItems, EnumerationItem, Identifier, Tag, TypeTable,
};

/// The type of `derefAliases` in `SearchRequest`.
#[derive(Clone, Copy, PartialEq, Eq, Debug)]
pub enum SearchRequestDerefAliases {
    /// `neverDerefAliases(0)`
    NeverDerefAliases,
    /// `derefInSearching(1)`
    DerefInSearching,
    /// `derefFindingBaseObj(2)`
    DerefFindingBaseObj,
    /// `derefAlways(3)`
    DerefAlways,
}

const ROOT: &[EnumerationItem<SearchRequestDerefAliases>] = &[
    (
        SearchRequestDerefAliases::NeverDerefAliases,
        0,
        "neverDerefAliases",
    ),
    (
        SearchRequestDerefAliases::DerefInSearching,
        1,
        "derefInSearching",
    ),
    (
        SearchRequestDerefAliases::DerefFindingBaseObj,
        2,
        "derefFindingBaseObj",
    ),
    (SearchRequestDerefAliases::DerefAlways, 3, "derefAlways"),
];

const ADDITIONS: &[EnumerationItem<SearchRequestDerefAliases>] = &[];

impl EnumeratedItems for SearchRequestDerefAliases {
    ghost use Rattle.asn1_ldap.specs.declared.search_request_deref_aliases.TheConstants.{ADDITIONS, ROOT};

    ghost enumeration = { extensible_enumeration (items_of ROOT.now) (items_of ADDITIONS.now) };

    fn items() -> &'static [EnumerationItem<Self>] {
        ROOT
    }

    fn added_items() -> Option<&'static [EnumerationItem<Self>]> {
        Some(ADDITIONS)
    }
}

impl AsnType for SearchRequestDerefAliases {
    ghost meaning = { enumeration_type (codes "derefAliases") ⟦<SearchRequestDerefAliases as EnumeratedItems>⟧.enumeration ⟦<SearchRequestDerefAliases as PartialEq>⟧.eq };

    fn table() -> TypeTable {
        TypeTable::new(Tag::ENUMERATED, Identifier(Some("derefAliases")))
    }

    fn is_present(&self) -> bool {
        true
    }
}

impl Enumerated for SearchRequestDerefAliases {
    ghost complete = { elim [ NeverDerefAliases ↦ refl | DerefInSearching ↦ refl | DerefFindingBaseObj ↦ refl | DerefAlways ↦ refl ] };

    ghost lawful = { by_test refl };

    ghost agrees = { enumeration_agrees };
}

/// A `SearchRequestDerefAliases` can be inside other types.
#[tactic(auto, using(asn1_schema::proofs::Trees::tree_shapes, crate::proofs::FilterTags::knot_can))]
pub fn search_request_deref_aliases_is_well_tagged()
    ensures { IsWellTagged ⟦<SearchRequestDerefAliases as AsnType>⟧.meaning }
{}

/// Equal values are written alike, and in each value the components of a SET have distinct tags. With `search_request_deref_aliases_is_well_tagged`
/// it follows that the DER of a value is its only spelling (`well_tagged_types_have_one_spelling` of `asn1_der`).
pub fn search_request_deref_aliases_has_one_spelling()
    ensures alike { AreWrittenAlike ⟦<SearchRequestDerefAliases as AsnType>⟧.meaning
        ⟦<SearchRequestDerefAliases as PartialEq>⟧.eq }
    ensures distinct { SetsAreDistinct ⟦<SearchRequestDerefAliases as AsnType>⟧.meaning }
{}

impl Encode for SearchRequestDerefAliases {
    fn encode_with_tag_and_constraints<E: Encoder>(
        &self,
        encoder: &mut E,
        tag: Tag,
        _constraints: &Constraints<'_>,
        name: Identifier,
    ) -> Result<(), EncodeError> {
        encoder.encode_enumerated(tag, self, name)
    }
}

impl Decode for SearchRequestDerefAliases {
    fn decode_with_tag_and_constraints<D: Decoder>(
        decoder: &mut D,
        tag: Tag,
        _constraints: &Constraints<'_>,
    ) -> Result<Self, DecodeError> {
        decoder.decode_enumerated(tag)
    }
}
