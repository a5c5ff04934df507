//! Filters (RFC 4515, section 3).
ghost use Rattle.std.specs.Prelude.{◌≡◌, ◌++◌, IfOk, OnOk, codes};
ghost use Rattle.std.specs.List.{AllPass, flat_map};
ghost use Rattle.std.specs.String.{string_bytes};
ghost use Rattle.asn1_ldap_text.specs.Escapes.{is_printable};
ghost use Rattle.asn1_ldap_text.specs.Filters.{filter_text};

use crate::assertions::{push_assertion, push_matching_rule, push_present, push_substrings};
use crate::sets::elements;
use asn1_ldap::{Filter, FilterOf};
use std::alloc::{AllocError, Global};

/// The text of a filter. It fails only if memory runs out.
pub fn filter_text(alloc: Global, filter: &Filter) -> Result<String, AllocError>
    ensures text { IfOk result (λ text. string_bytes text ≡ filter_text filter.now) }
    ensures visible { IfOk result (λ text. AllPass is_printable (string_bytes text)) }
{
    let mut text = String::new(alloc);
    push_filter(&mut text, filter)?;
    Ok(text)
}

/// Appends the text of a filter.
#[cycle(filter)]
pub(crate) fn push_filter(text: &mut String, filter: &Filter) -> Result<(), AllocError>
    ensures { OnOk result (string_bytes text.new ≡
        string_bytes text.old ++ filter_text filter.now) }
{
    match filter.get() {
        FilterOf::And(filters) => push_set(text, "(&", elements(filters)),
        FilterOf::Or(filters) => push_set(text, "(|", elements(filters)),
        FilterOf::Not(inner) => {
            text.push_str("(!")?;
            push_filter(text, inner)?;
            text.push_str(")")
        }
        FilterOf::EqualityMatch(assertion) => push_assertion(text, "=", assertion),
        FilterOf::Substrings(assertion) => push_substrings(text, assertion),
        FilterOf::GreaterOrEqual(assertion) => push_assertion(text, ">=", assertion),
        FilterOf::LessOrEqual(assertion) => push_assertion(text, "<=", assertion),
        FilterOf::Present(attribute) => push_present(text, attribute),
        FilterOf::ApproxMatch(assertion) => push_assertion(text, "~=", assertion),
        FilterOf::ExtensibleMatch(assertion) => push_matching_rule(text, assertion),
    }
}

/// Appends filters, after a parenthesis with an operator, and before the one that closes it.
#[cycle(filter)]
fn push_set(text: &mut String, opening: &str, filters: &[Filter]) -> Result<(), AllocError>
    ensures { OnOk result (string_bytes text.new ≡
        string_bytes text.old ++ (opening.now ++ (flat_map filter_text filters.now ++ codes ")"))) }
{
    text.push_str(opening)?;
    for filter in filters {
        push_filter(text, filter)?;
    }
    text.push_str(")")
}
