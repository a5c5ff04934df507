//! `SearchRequest` of the module `Lightweight-Directory-Access-Protocol-V3`.
//!
//! ```text
//! SearchRequest ::= [APPLICATION 3] SEQUENCE {
//!     baseObject LDAPDN,
//!     scope ENUMERATED { baseObject(0), singleLevel(1), wholeSubtree(2), ..., subordinateSubtree(3) },
//!     derefAliases ENUMERATED { .. },
//!     sizeLimit INTEGER (0..maxInt),
//!     timeLimit INTEGER (0..maxInt),
//!     typesOnly BOOLEAN,
//!     filter Filter,
//!     attributes AttributeSelection
//! }
//! ```
ghost use Rattle.std.specs.Prelude.{[], codes, ◌∷◌};
ghost use Rattle.asn1_schema.specs.Words.{IsWellTagged, application, constructed_agrees, constructed_type_under, extensible_sequence_after, required_slot, untagged};

use crate::aliases::{AttributeSelection, Ldapdn};
use crate::filter::Filter;
use crate::search_request_deref_aliases::SearchRequestDerefAliases;
use crate::search_request_scope::SearchRequestScope;
use asn1_schema::{
    AsnType, ConstrainedInteger, Constraints, ConstructedType, Decode, DecodeByIndex, DecodeError,
    Decoded, Decoder, Encode, EncodeError, EncodeFields, Encoder, Field, FieldTable, Identifier,
    Tag, Tagging, TypeTable, decode_sequence_naming_errors, required,
};
use asn1_tags::tag;
use std::alloc::{AllocError, Global};

/// `SearchRequest` of the module `Lightweight-Directory-Access-Protocol-V3`.
#[derive(PartialEq, Eq, Debug, Drop)]
pub struct SearchRequest {
    /// `baseObject LDAPDN`
    pub base_object: Ldapdn,
    /// `scope ENUMERATED { baseObject(0), singleLevel(1), wholeSubtree(2), ..., subordinateSubtree(3) }`
    pub scope: SearchRequestScope,
    /// `derefAliases ENUMERATED { .. }`
    pub deref_aliases: SearchRequestDerefAliases,
    /// `sizeLimit INTEGER (0..maxInt)`
    pub size_limit: ConstrainedInteger<0, 2147483647>,
    /// `timeLimit INTEGER (0..maxInt)`
    pub time_limit: ConstrainedInteger<0, 2147483647>,
    /// `typesOnly BOOLEAN`
    pub types_only: bool,
    /// `filter Filter`
    pub filter: Filter,
    /// `attributes AttributeSelection`
    pub attributes: AttributeSelection,
}

impl DecodeByIndex for SearchRequest {
    type Slots = (
        Option<Ldapdn>,
        Option<SearchRequestScope>,
        Option<SearchRequestDerefAliases>,
        Option<ConstrainedInteger<0, 2147483647>>,
        Option<ConstrainedInteger<0, 2147483647>>,
        Option<bool>,
        Option<Filter>,
        Option<AttributeSelection>,
    );

    ghost layout = { required_slot (codes "baseObject") (λ v. v.base_object) (λ s. s.0) (untagged ⟦<Ldapdn as AsnType>⟧.meaning) ⟦<Ldapdn as PartialEq>⟧.eq ∷
        required_slot (codes "scope") (λ v. v.scope) (λ s. s.1) (untagged ⟦<SearchRequestScope as AsnType>⟧.meaning) ⟦<SearchRequestScope as PartialEq>⟧.eq ∷
        required_slot (codes "derefAliases") (λ v. v.deref_aliases) (λ s. s.2) (untagged ⟦<SearchRequestDerefAliases as AsnType>⟧.meaning) ⟦<SearchRequestDerefAliases as PartialEq>⟧.eq ∷
        required_slot (codes "sizeLimit") (λ v. v.size_limit) (λ s. s.3) (untagged ⟦<ConstrainedInteger<0, 2147483647> as AsnType>⟧.meaning) ⟦<ConstrainedInteger<0, 2147483647> as PartialEq>⟧.eq ∷
        required_slot (codes "timeLimit") (λ v. v.time_limit) (λ s. s.4) (untagged ⟦<ConstrainedInteger<0, 2147483647> as AsnType>⟧.meaning) ⟦<ConstrainedInteger<0, 2147483647> as PartialEq>⟧.eq ∷
        required_slot (codes "typesOnly") (λ v. v.types_only) (λ s. s.5) (untagged ⟦<bool as AsnType>⟧.meaning) ⟦<bool as PartialEq>⟧.eq ∷
        required_slot (codes "filter") (λ v. v.filter) (λ s. s.6) (untagged ⟦<Filter as AsnType>⟧.meaning) ⟦<Filter as PartialEq>⟧.eq ∷
        required_slot (codes "attributes") (λ v. v.attributes) (λ s. s.7) (untagged ⟦<AttributeSelection as AsnType>⟧.meaning) ⟦<AttributeSelection as PartialEq>⟧.eq ∷ [] };

    fn full(_alloc: Global, slots: Self::Slots) -> Result<Self, AllocError> {
        Ok(Self {
            base_object: slots.0.unwrap(),
            scope: slots.1.unwrap(),
            deref_aliases: slots.2.unwrap(),
            size_limit: slots.3.unwrap(),
            time_limit: slots.4.unwrap(),
            types_only: slots.5.unwrap(),
            filter: slots.6.unwrap(),
            attributes: slots.7.unwrap(),
        })
    }

    fn decode_field<D: Decoder>(index: usize, slots: &mut Self::Slots, decoder: &mut D) -> Decoded {
        match index {
            0 => required(&mut slots.0, decoder, Tagging::Untagged),
            1 => required(&mut slots.1, decoder, Tagging::Untagged),
            2 => required(&mut slots.2, decoder, Tagging::Untagged),
            3 => required(&mut slots.3, decoder, Tagging::Untagged),
            4 => required(&mut slots.4, decoder, Tagging::Untagged),
            5 => required(&mut slots.5, decoder, Tagging::Untagged),
            6 => required(&mut slots.6, decoder, Tagging::Untagged),
            7 => required(&mut slots.7, decoder, Tagging::Untagged),
            _ => Ok(()),
        }
    }
}

impl FieldTable for SearchRequest {
    ghost components = { extensible_sequence_after 8 ⟦<SearchRequest as DecodeByIndex>⟧.layout };

    fn field_count() -> usize {
        8
    }

    fn field_at(index: usize) -> Option<Field<'static>> {
        match index {
            0 => Some(Field::new_required_type::<Ldapdn>(0, "baseObject")),
            1 => Some(Field::new_required_type::<SearchRequestScope>(1, "scope")),
            2 => Some(Field::new_required_type::<SearchRequestDerefAliases>(2, "derefAliases")),
            3 => Some(Field::new_required_type::<ConstrainedInteger<0, 2147483647>>(
                3,
                "sizeLimit",
            )),
            4 => Some(Field::new_required_type::<ConstrainedInteger<0, 2147483647>>(
                4,
                "timeLimit",
            )),
            5 => Some(Field::new_required_type::<bool>(5, "typesOnly")),
            6 => Some(Field::new_required_type::<Filter>(6, "filter")),
            7 => Some(Field::new_required_type::<AttributeSelection>(7, "attributes")),
            _ => None,
        }
    }

    fn extension_index() -> Option<usize> {
        Some(8)
    }
}

impl AsnType for SearchRequest {
    ghost meaning = { constructed_type_under ⟦<SearchRequest as FieldTable>⟧.components (application 3) (codes "SearchRequest") };

    fn table() -> TypeTable {
        TypeTable::new(tag!(application 3), Identifier(Some("SearchRequest")))
    }

    fn is_present(&self) -> bool {
        true
    }
}

impl ConstructedType for SearchRequest {
    ghost agrees = { constructed_agrees };
}

/// A `SearchRequest` can be inside other types.
#[tactic(auto, using(asn1_schema::proofs::Trees::tree_shapes, crate::proofs::FilterTags::knot_can))]
pub fn search_request_is_well_tagged()
    ensures { IsWellTagged ⟦<SearchRequest as AsnType>⟧.meaning }
{}

impl Encode for SearchRequest {
    fn encode_with_tag_and_constraints<E: Encoder>(
        &self,
        encoder: &mut E,
        tag: Tag,
        _constraints: &Constraints<'_>,
        name: Identifier,
    ) -> Result<(), EncodeError> {
        encoder.encode_sequence(tag, self, name)
    }
}

impl EncodeFields for SearchRequest {
    fn encode_field<E: Encoder>(&self, index: usize, encoder: &mut E) -> Result<(), EncodeError> {
        match index {
            0 => self.base_object.encode(encoder),
            1 => self.scope.encode(encoder),
            2 => self.deref_aliases.encode(encoder),
            3 => self.size_limit.encode(encoder),
            4 => self.time_limit.encode(encoder),
            5 => self.types_only.encode(encoder),
            6 => self.filter.encode(encoder),
            7 => self.attributes.encode(encoder),
            _ => Ok(()),
        }
    }
}

impl Decode for SearchRequest {
    fn decode_with_tag_and_constraints<D: Decoder>(
        decoder: &mut D,
        tag: Tag,
        constraints: &Constraints<'_>,
    ) -> Result<Self, DecodeError> {
        decode_sequence_naming_errors(decoder, tag, constraints)
    }
}
