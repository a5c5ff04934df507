//! `Filter` of the module `Lightweight-Directory-Access-Protocol-V3`.
//!
//! ```text
//! Filter ::= CHOICE {
//!     and [0] SET (SIZE (1..MAX)) OF filter Filter,
//!     or [1] SET (SIZE (1..MAX)) OF filter Filter,
//!     not [2] Filter,
//!     equalityMatch [3] AttributeValueAssertion,
//!     substrings [4] SubstringFilter,
//!     greaterOrEqual [5] AttributeValueAssertion,
//!     lessOrEqual [6] AttributeValueAssertion,
//!     present [7] AttributeDescription,
//!     approxMatch [8] AttributeValueAssertion,
//!     extensibleMatch [9] MatchingRuleAssertion,
//!     ...
//! }
//! ```
ghost use Rattle.std.specs.Prelude.{IfOk, ◌≡◌};
ghost use Rattle.asn1_schema.specs.Words.{IsWellTagged};
ghost use Rattle.asn1_ldap.specs.FilterMeaning.{in_knot, is_made, meaning};
ghost use Rattle.asn1_ldap.specs.declared.filter_of.FilterOf.TheVariants as variants;
ghost use Rattle.asn1_schema.specs.model.Premises.{EachIsValid};

use crate::aliases::AttributeDescription;
use crate::attribute_value_assertion::AttributeValueAssertion;
use crate::filter_of::{FILTER_OF, FilterOf};
use crate::filter_reader::read_filter;
use crate::matching_rule_assertion::MatchingRuleAssertion;
use crate::substring_filter::SubstringFilter;
use asn1_circles::Knot;
use asn1_schema::{
    AsnType, Constraints, Decode, DecodeError, Decoder, Encode, EncodeError, Encoder, Identifier,
    SetOf, Tag, TypeTable,
};
use std::alloc::{AllocError, Global};

/// `Filter` of the module `Lightweight-Directory-Access-Protocol-V3`.
///
/// A value is a box of what it is made of.
#[derive(PartialEq, Eq, Debug, Drop)]
pub struct Filter(pub Box<FilterOf<Filter>>);

impl Filter {
    /// A value that is made of this. The error is that of memory.
    pub fn new(alloc: Global, value: FilterOf<Filter>) -> Result<Filter, AllocError>
        ensures { IfOk result (λ made. in_knot made ≡ value) }
    {
        Ok(Filter(Box::new(alloc, value)?))
    }

    /// The value in the box.
    pub fn get(&self) -> &FilterOf<Filter>
        ensures { result.now ≡ in_knot self.now }
    {
        &self.0
    }

    /// Takes the value out of the box.
    pub fn into_inner(self) -> FilterOf<Filter>
        ensures { result ≡ in_knot self }
    {
        Box::into_inner(self.0)
    }

    /// A value of the alternative `and [0] SET (SIZE (1..MAX)) OF filter Filter`. The error is that of memory.
    pub fn and(alloc: Global, value: SetOf<Filter>) -> Result<Filter, AllocError>
        ensures { IfOk result (λ made. in_knot made ≡ variants.And value) }
    {
        Filter::new(alloc, FilterOf::And(value))
    }

    /// A value of the alternative `or [1] SET (SIZE (1..MAX)) OF filter Filter`. The error is that of memory.
    pub fn or(alloc: Global, value: SetOf<Filter>) -> Result<Filter, AllocError>
        ensures { IfOk result (λ made. in_knot made ≡ variants.Or value) }
    {
        Filter::new(alloc, FilterOf::Or(value))
    }

    /// A value of the alternative `not [2] Filter`. The error is that of memory.
    pub fn not(alloc: Global, value: Filter) -> Result<Filter, AllocError>
        ensures { IfOk result (λ made. in_knot made ≡ variants.Not value) }
    {
        Filter::new(alloc, FilterOf::Not(value))
    }

    /// A value of the alternative `equalityMatch [3] AttributeValueAssertion`. The error is that of memory.
    pub fn equality_match(
        alloc: Global,
        value: AttributeValueAssertion,
    ) -> Result<Filter, AllocError>
        ensures { IfOk result (λ made. in_knot made ≡ variants.EqualityMatch value) }
    {
        Filter::new(alloc, FilterOf::EqualityMatch(value))
    }

    /// A value of the alternative `substrings [4] SubstringFilter`. The error is that of memory.
    pub fn substrings(alloc: Global, value: SubstringFilter) -> Result<Filter, AllocError>
        ensures { IfOk result (λ made. in_knot made ≡ variants.Substrings value) }
    {
        Filter::new(alloc, FilterOf::Substrings(value))
    }

    /// A value of the alternative `greaterOrEqual [5] AttributeValueAssertion`. The error is that of memory.
    pub fn greater_or_equal(
        alloc: Global,
        value: AttributeValueAssertion,
    ) -> Result<Filter, AllocError>
        ensures { IfOk result (λ made. in_knot made ≡ variants.GreaterOrEqual value) }
    {
        Filter::new(alloc, FilterOf::GreaterOrEqual(value))
    }

    /// A value of the alternative `lessOrEqual [6] AttributeValueAssertion`. The error is that of memory.
    pub fn less_or_equal(
        alloc: Global,
        value: AttributeValueAssertion,
    ) -> Result<Filter, AllocError>
        ensures { IfOk result (λ made. in_knot made ≡ variants.LessOrEqual value) }
    {
        Filter::new(alloc, FilterOf::LessOrEqual(value))
    }

    /// A value of the alternative `present [7] AttributeDescription`. The error is that of memory.
    pub fn present(alloc: Global, value: AttributeDescription) -> Result<Filter, AllocError>
        ensures { IfOk result (λ made. in_knot made ≡ variants.Present value) }
    {
        Filter::new(alloc, FilterOf::Present(value))
    }

    /// A value of the alternative `approxMatch [8] AttributeValueAssertion`. The error is that of memory.
    pub fn approx_match(alloc: Global, value: AttributeValueAssertion) -> Result<Filter, AllocError>
        ensures { IfOk result (λ made. in_knot made ≡ variants.ApproxMatch value) }
    {
        Filter::new(alloc, FilterOf::ApproxMatch(value))
    }

    /// A value of the alternative `extensibleMatch [9] MatchingRuleAssertion`. The error is that of memory.
    pub fn extensible_match(
        alloc: Global,
        value: MatchingRuleAssertion,
    ) -> Result<Filter, AllocError>
        ensures { IfOk result (λ made. in_knot made ≡ variants.ExtensibleMatch value) }
    {
        Filter::new(alloc, FilterOf::ExtensibleMatch(value))
    }
}

impl AsnType for Filter {
    ghost meaning = { meaning };

    fn table() -> TypeTable {
        TypeTable::choice(Identifier(Some("Filter")), FILTER_OF)
    }

    fn is_present(&self) -> bool {
        true
    }
}

/// `Filter` is well tagged, and can be inside other types.
#[tactic(auto, using(crate::proofs::FilterTags::knot_can))]
pub fn filter_is_well_tagged()
    ensures { IsWellTagged ⟦<Filter as AsnType>⟧.meaning }
{}

/// Each `Filter` is valid.
pub fn each_filter_is_valid()
    ensures { EachIsValid ⟦<Filter as AsnType>⟧.meaning }
{}

impl Encode for Filter {
    #[cycle(filter)]
    fn encode_with_tag_and_constraints<E: Encoder>(
        &self,
        encoder: &mut E,
        tag: Tag,
        constraints: &Constraints<'_>,
        name: Identifier,
    ) -> Result<(), EncodeError> {
        (*self.0).encode_with_tag_and_constraints(encoder, tag, constraints, name)
    }
}

impl Knot<FilterOf<Filter>> for Filter {
    ghost use Rattle.asn1_ldap.specs.contracts.filter.FilterPartialEq.TheImpl.Laws.{is};

    ghost made_of = { in_knot };

    fn tie(boxed: Box<FilterOf<Filter>>) -> Filter
        ensures { in_knot result ≡ boxed.value }
    {
        Filter(boxed)
    }

    ghost is_made = { is_made };

    ghost equal = { λ w v. is w v };
}

impl Decode for Filter {
    fn decode_with_tag_and_constraints<D: Decoder>(
        decoder: &mut D,
        tag: Tag,
        constraints: &Constraints<'_>,
    ) -> Result<Filter, DecodeError> {
        read_filter::<DecodeError, D>(decoder, tag, constraints)
    }
}
