//! `MatchingRuleAssertion` of the module `Lightweight-Directory-Access-Protocol-V3`.
//!
//! ```text
//! MatchingRuleAssertion ::= SEQUENCE {
//!     matchingRule [1] MatchingRuleId OPTIONAL,
//!     type [2] AttributeDescription OPTIONAL,
//!     matchValue [3] AssertionValue,
//!     dnAttributes [4] BOOLEAN DEFAULT FALSE
//! }
//! ```
ghost use Rattle.std.specs.Prelude.{[], codes, false, ◌∷◌};
ghost use Rattle.asn1_schema.specs.Words.{IsWellTagged, constructed_agrees, constructed_type, context, default_slot, extensible_sequence_after, optional_slot, required_slot, tagged};
ghost use Rattle.asn1_model.specs.DistinctSets.{SetsAreDistinct};
ghost use Rattle.asn1_model.specs.WrittenAlike.{AreWrittenAlike};

use crate::aliases::{AssertionValue, AttributeDescription, MatchingRuleId};
use asn1_schema::{
    AsnType, Constraints, ConstructedType, Decode, DecodeByIndex, DecodeError, Decoded, Decoder,
    Encode, EncodeError, EncodeFields, Encoder, Field, FieldTable, Identifier, Tag, Tagging,
    TypeTable, decode_sequence_naming_errors, optional, or_default, required,
};
use asn1_tags::tag;
use std::alloc::{AllocError, Global};

/// `MatchingRuleAssertion` of the module `Lightweight-Directory-Access-Protocol-V3`.
#[derive(PartialEq, Eq, Debug, Drop)]
pub struct MatchingRuleAssertion {
    /// `matchingRule [1] MatchingRuleId OPTIONAL`
    pub matching_rule: Option<MatchingRuleId>,
    /// `type [2] AttributeDescription OPTIONAL`
    pub type_: Option<AttributeDescription>,
    /// `matchValue [3] AssertionValue`
    pub match_value: AssertionValue,
    /// `dnAttributes [4] BOOLEAN DEFAULT FALSE`
    pub dn_attributes: bool,
}

impl DecodeByIndex for MatchingRuleAssertion {
    type Slots = (
        Option<MatchingRuleId>,
        Option<AttributeDescription>,
        Option<AssertionValue>,
        Option<bool>,
    );

    ghost layout = { optional_slot (codes "matchingRule") (λ v. v.matching_rule) (λ s. s.0) (tagged (context 1) ⟦<MatchingRuleId as AsnType>⟧.meaning) ⟦<MatchingRuleId as PartialEq>⟧.eq ∷
        optional_slot (codes "type") (λ v. v.type_) (λ s. s.1) (tagged (context 2) ⟦<AttributeDescription as AsnType>⟧.meaning) ⟦<AttributeDescription as PartialEq>⟧.eq ∷
        required_slot (codes "matchValue") (λ v. v.match_value) (λ s. s.2) (tagged (context 3) ⟦<AssertionValue as AsnType>⟧.meaning) ⟦<AssertionValue as PartialEq>⟧.eq ∷
        default_slot (codes "dnAttributes") (λ v. v.dn_attributes) false (λ s. s.3) (tagged (context 4) ⟦<bool as AsnType>⟧.meaning) ⟦<bool as PartialEq>⟧.eq ∷ [] };

    fn full(_alloc: Global, slots: Self::Slots) -> Result<Self, AllocError> {
        Ok(Self {
            matching_rule: slots.0,
            type_: slots.1,
            match_value: slots.2.unwrap(),
            dn_attributes: or_default(slots.3, false),
        })
    }

    fn decode_field<D: Decoder>(index: usize, slots: &mut Self::Slots, decoder: &mut D) -> Decoded {
        match index {
            0 => optional(&mut slots.0, decoder, Tagging::Tagged(tag!(context 1))),
            1 => optional(&mut slots.1, decoder, Tagging::Tagged(tag!(context 2))),
            2 => required(&mut slots.2, decoder, Tagging::Tagged(tag!(context 3))),
            3 => optional(&mut slots.3, decoder, Tagging::Tagged(tag!(context 4))),
            _ => Ok(()),
        }
    }
}

impl FieldTable for MatchingRuleAssertion {
    ghost components = { extensible_sequence_after 4 ⟦<MatchingRuleAssertion as DecodeByIndex>⟧.layout };

    fn field_count() -> usize {
        4
    }

    fn field_at(index: usize) -> Option<Field<'static>> {
        match index {
            0 => Some(Field::new_optional_type_with_tag::<MatchingRuleId>(
                0,
                tag!(context 1),
                "matchingRule",
            )),
            1 => Some(Field::new_optional_type_with_tag::<AttributeDescription>(
                1,
                tag!(context 2),
                "type",
            )),
            2 => Some(Field::new_required_type_with_tag::<AssertionValue>(
                2,
                tag!(context 3),
                "matchValue",
            )),
            3 => Some(Field::new_default_type_with_tag::<bool>(3, tag!(context 4), "dnAttributes")),
            _ => None,
        }
    }

    fn extension_index() -> Option<usize> {
        Some(4)
    }
}

impl AsnType for MatchingRuleAssertion {
    ghost meaning = { constructed_type (codes "MatchingRuleAssertion") ⟦<MatchingRuleAssertion as FieldTable>⟧.components };

    fn table() -> TypeTable {
        TypeTable::new(Tag::SEQUENCE, Identifier(Some("MatchingRuleAssertion")))
    }

    fn is_present(&self) -> bool {
        true
    }
}

impl ConstructedType for MatchingRuleAssertion {
    ghost agrees = { constructed_agrees };
}

/// A `MatchingRuleAssertion` can be inside other types.
pub fn matching_rule_assertion_is_well_tagged()
    ensures { IsWellTagged ⟦<MatchingRuleAssertion as AsnType>⟧.meaning }
{}

/// Equal values are written alike, and in each value the components of a SET have distinct tags. With `matching_rule_assertion_is_well_tagged`
/// it follows that the DER of a value is its only spelling (`well_tagged_types_have_one_spelling` of `asn1_der`).
pub fn matching_rule_assertion_has_one_spelling()
    ensures alike { AreWrittenAlike ⟦<MatchingRuleAssertion as AsnType>⟧.meaning
        ⟦<MatchingRuleAssertion as PartialEq>⟧.eq }
    ensures distinct { SetsAreDistinct ⟦<MatchingRuleAssertion as AsnType>⟧.meaning }
{}

impl Encode for MatchingRuleAssertion {
    fn encode_with_tag_and_constraints<E: Encoder>(
        &self,
        encoder: &mut E,
        tag: Tag,
        _constraints: &Constraints<'_>,
        name: Identifier,
    ) -> Result<(), EncodeError> {
        encoder.encode_sequence(tag, self, name)
    }
}

impl EncodeFields for MatchingRuleAssertion {
    fn encode_field<E: Encoder>(&self, index: usize, encoder: &mut E) -> Result<(), EncodeError> {
        match index {
            0 => self.matching_rule.encode_with_tag(encoder, tag!(context 1)),
            1 => self.type_.encode_with_tag(encoder, tag!(context 2)),
            2 => self.match_value.encode_with_tag(encoder, tag!(context 3)),
            3 => encoder.encode_default_with_tag(
                tag!(context 4),
                &self.dn_attributes,
                |_| Ok(false),
                bool::identifier(),
            ),
            _ => Ok(()),
        }
    }
}

impl Decode for MatchingRuleAssertion {
    fn decode_with_tag_and_constraints<D: Decoder>(
        decoder: &mut D,
        tag: Tag,
        constraints: &Constraints<'_>,
    ) -> Result<Self, DecodeError> {
        decode_sequence_naming_errors(decoder, tag, constraints)
    }
}
