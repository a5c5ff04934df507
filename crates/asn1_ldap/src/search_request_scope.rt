//! `scope ENUMERATED { baseObject(0), singleLevel(1), wholeSubtree(2), ..., subordinateSubtree(3) }`
ghost use Rattle.std.specs.Prelude.{codes, refl};
ghost use Rattle.asn1_schema.specs.Words.{IsWellTagged, by_test, enumeration_agrees, enumeration_type, extensible_enumeration, items_of};
ghost use Rattle.asn1_ldap.specs.declared.search_request_scope.SearchRequestScope.TheVariants.{BaseObject, SingleLevel, WholeSubtree, SubordinateSubtree};
ghost use Rattle.asn1_model.specs.DistinctSets.{SetsAreDistinct};
ghost use Rattle.asn1_model.specs.WrittenAlike.{AreWrittenAlike};

use asn1_schema::{
    AsnType, Constraints, Decode, DecodeError, Decoder, Encode, EncodeError, Encoder, Enumerated,
    EnumeratedItems, EnumerationItem, Identifier, Tag, TypeTable,
};

/// The type of `scope` in `SearchRequest`.
#[derive(Clone, Copy, PartialEq, Eq, Debug)]
pub enum SearchRequestScope {
    /// `baseObject(0)`
    BaseObject,
    /// `singleLevel(1)`
    SingleLevel,
    /// `wholeSubtree(2)`
    WholeSubtree,
    /// `subordinateSubtree(3)`
    SubordinateSubtree,
}

const ROOT: &[EnumerationItem<SearchRequestScope>] = &[
    (SearchRequestScope::BaseObject, 0, "baseObject"),
    (SearchRequestScope::SingleLevel, 1, "singleLevel"),
    (SearchRequestScope::WholeSubtree, 2, "wholeSubtree"),
];

const ADDITIONS: &[EnumerationItem<SearchRequestScope>] = &[(
    SearchRequestScope::SubordinateSubtree,
    3,
    "subordinateSubtree",
)];

impl EnumeratedItems for SearchRequestScope {
    ghost use Rattle.asn1_ldap.specs.declared.search_request_scope.TheConstants.{ADDITIONS, ROOT};

    ghost enumeration = { extensible_enumeration (items_of ROOT.now) (items_of ADDITIONS.now) };

    fn items() -> &'static [EnumerationItem<Self>] {
        ROOT
    }

    fn added_items() -> Option<&'static [EnumerationItem<Self>]> {
        Some(ADDITIONS)
    }
}

impl AsnType for SearchRequestScope {
    ghost meaning = { enumeration_type (codes "scope") ⟦<SearchRequestScope as EnumeratedItems>⟧.enumeration ⟦<SearchRequestScope as PartialEq>⟧.eq };

    fn table() -> TypeTable {
        TypeTable::new(Tag::ENUMERATED, Identifier(Some("scope")))
    }

    fn is_present(&self) -> bool {
        true
    }
}

impl Enumerated for SearchRequestScope {
    ghost complete = { elim [ BaseObject ↦ refl | SingleLevel ↦ refl | WholeSubtree ↦ refl | SubordinateSubtree ↦ refl ] };

    ghost lawful = { by_test refl };

    ghost agrees = { enumeration_agrees };
}

/// A `SearchRequestScope` can be inside other types.
#[tactic(auto, using(asn1_schema::proofs::Trees::tree_shapes, crate::proofs::FilterTags::knot_can))]
pub fn search_request_scope_is_well_tagged()
    ensures { IsWellTagged ⟦<SearchRequestScope as AsnType>⟧.meaning }
{}

/// Equal values are written alike, and in each value the components of a SET have distinct tags. With `search_request_scope_is_well_tagged`
/// it follows that the DER of a value is its only spelling (`well_tagged_types_have_one_spelling` of `asn1_der`).
pub fn search_request_scope_has_one_spelling()
    ensures alike { AreWrittenAlike ⟦<SearchRequestScope as AsnType>⟧.meaning
        ⟦<SearchRequestScope as PartialEq>⟧.eq }
    ensures distinct { SetsAreDistinct ⟦<SearchRequestScope as AsnType>⟧.meaning }
{}

impl Encode for SearchRequestScope {
    fn encode_with_tag_and_constraints<E: Encoder>(
        &self,
        encoder: &mut E,
        tag: Tag,
        _constraints: &Constraints<'_>,
        name: Identifier,
    ) -> Result<(), EncodeError> {
        encoder.encode_enumerated(tag, self, name)
    }
}

impl Decode for SearchRequestScope {
    fn decode_with_tag_and_constraints<D: Decoder>(
        decoder: &mut D,
        tag: Tag,
        _constraints: &Constraints<'_>,
    ) -> Result<Self, DecodeError> {
        decoder.decode_enumerated(tag)
    }
}
