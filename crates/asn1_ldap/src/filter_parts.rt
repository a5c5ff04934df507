//! The types in the circle of `Filter` that hold no type of it.

use crate::aliases::AttributeDescription;
use crate::attribute_value_assertion::AttributeValueAssertion;
use crate::matching_rule_assertion::MatchingRuleAssertion;
use crate::substring_filter::SubstringFilter;
use asn1_circles::Meant;
use asn1_schema::AsnType;

/// The meaning of `AttributeValueAssertion`.
pub(crate) struct FilterOfEqualitymatchPart;

impl Meant for FilterOfEqualitymatchPart {
    type Value = AttributeValueAssertion;

    ghost meaning = { ⟦<AttributeValueAssertion as AsnType>⟧.meaning };

    ghost equal = { ⟦<AttributeValueAssertion as PartialEq>⟧.eq };
}

/// The meaning of `SubstringFilter`.
pub(crate) struct FilterOfSubstringsPart;

impl Meant for FilterOfSubstringsPart {
    type Value = SubstringFilter;

    ghost meaning = { ⟦<SubstringFilter as AsnType>⟧.meaning };

    ghost equal = { ⟦<SubstringFilter as PartialEq>⟧.eq };
}

/// The meaning of `AttributeDescription`.
pub(crate) struct FilterOfPresentPart;

impl Meant for FilterOfPresentPart {
    type Value = AttributeDescription;

    ghost meaning = { ⟦<AttributeDescription as AsnType>⟧.meaning };

    ghost equal = { ⟦<AttributeDescription as PartialEq>⟧.eq };
}

/// The meaning of `MatchingRuleAssertion`.
pub(crate) struct FilterOfExtensiblematchPart;

impl Meant for FilterOfExtensiblematchPart {
    type Value = MatchingRuleAssertion;

    ghost meaning = { ⟦<MatchingRuleAssertion as AsnType>⟧.meaning };

    ghost equal = { ⟦<MatchingRuleAssertion as PartialEq>⟧.eq };
}
