//! The assertions of filters: a value, parts of a value, and a matching rule (RFC 4515, section 3).
ghost use Rattle.std.specs.Prelude.{◌≡◌, ◌++◌, OnOk};
ghost use Rattle.std.specs.List.{flat_map};
ghost use Rattle.std.specs.String.{string_bytes};
ghost use Rattle.asn1_ldap_text.specs.Assertions.{assertion_text, closed_value, dn_text, lead_of, lead_text, matching_rule_text, open_part, part_text, parts_text, present_text, rule_text, substrings_text};

use crate::escapes::{Place, push_escaped};
use crate::strings::{push_optional_word, push_word};
use asn1_ldap::{
    AttributeValueAssertion, MatchingRuleAssertion, SubstringFilter,
    SubstringFilterSubstringsElement as Substring,
};
use asn1_values::OctetString;
use std::alloc::AllocError;

/// Appends an assertion on a value: `simple`, with one of the four operators.
pub(crate) fn push_assertion(
    text: &mut String,
    operator: &str,
    assertion: &AttributeValueAssertion,
) -> Result<(), AllocError>
    ensures { OnOk result (string_bytes text.new ≡
        string_bytes text.old ++ assertion_text operator.now assertion.now) }
{
    text.push_str("(")?;
    push_word(text, assertion.attribute_desc.as_slice())?;
    text.push_str(operator)?;
    push_value(text, assertion.assertion_value.as_slice())
}

/// Appends the assertion that an attribute is there: `present`.
pub(crate) fn push_present(text: &mut String, attribute: &OctetString) -> Result<(), AllocError>
    ensures { OnOk result (string_bytes text.new ≡
        string_bytes text.old ++ present_text attribute.now) }
{
    text.push_str("(")?;
    push_word(text, attribute.as_slice())?;
    text.push_str("=*)")
}

/// Appends an assertion on parts of a value: `substring`.
pub(crate) fn push_substrings(
    text: &mut String,
    assertion: &SubstringFilter,
) -> Result<(), AllocError>
    ensures { OnOk result (string_bytes text.new ≡
        string_bytes text.old ++ substrings_text assertion.now) }
{
    text.push_str("(")?;
    push_word(text, assertion.type_.as_slice())?;
    text.push_str("=")?;
    push_parts(text, assertion.substrings.as_slice())
}

/// Appends an assertion by a matching rule: `extensible`.
pub(crate) fn push_matching_rule(
    text: &mut String,
    assertion: &MatchingRuleAssertion,
) -> Result<(), AllocError>
    ensures { OnOk result (string_bytes text.new ≡
        string_bytes text.old ++ matching_rule_text assertion.now) }
{
    text.push_str("(")?;
    push_optional_word(text, "", &assertion.type_)?;
    push_rule(text, assertion)?;
    text.push_str(":=")?;
    push_value(text, assertion.match_value.as_slice())
}

/// Appends a value, and the parenthesis that closes its assertion.
fn push_value(text: &mut String, value: &[u8]) -> Result<(), AllocError>
    ensures { OnOk result (string_bytes text.new ≡
        string_bytes text.old ++ closed_value value.now) }
{
    push_escaped(text, Place::Assertion, value)?;
    text.push_str(")")
}

/// Appends the parts of a value, with an asterisk for each text between, and the parenthesis that closes the assertion.
fn push_parts(text: &mut String, parts: &[Substring]) -> Result<(), AllocError>
    ensures { OnOk result (string_bytes text.new ≡
        string_bytes text.old ++ parts_text parts.now) }
{
    push_lead(text, parts)?;
    push_each_part(text, parts)?;
    text.push_str(")")
}

/// Appends an asterisk, if the first part is not at the beginning.
fn push_lead(text: &mut String, parts: &[Substring]) -> Result<(), AllocError>
    ensures { OnOk result (string_bytes text.new ≡
        string_bytes text.old ++ lead_text parts.now) }
{
    match parts {
        [] => text.push_str("*"),
        [first, ..] => push_lead_of(text, first),
    }
}

/// Appends an asterisk, unless a part is at the beginning.
fn push_lead_of(text: &mut String, part: &Substring) -> Result<(), AllocError>
    ensures { OnOk result (string_bytes text.new ≡ string_bytes text.old ++ lead_of part.now) }
{
    match part {
        Substring::Initial(_) => Ok(()),
        Substring::Any(_) => text.push_str("*"),
        Substring::Final(_) => text.push_str("*"),
    }
}

/// Appends the parts of a value.
fn push_each_part(text: &mut String, parts: &[Substring]) -> Result<(), AllocError>
    ensures { OnOk result (string_bytes text.new ≡
        string_bytes text.old ++ flat_map part_text parts.now) }
{
    for part in parts {
        push_part(text, part)?;
    }
    Ok(())
}

/// Appends a part, with an asterisk after all but the last.
fn push_part(text: &mut String, part: &Substring) -> Result<(), AllocError>
    ensures { OnOk result (string_bytes text.new ≡ string_bytes text.old ++ part_text part.now) }
{
    match part {
        Substring::Initial(value) => push_open_part(text, value.as_slice()),
        Substring::Any(value) => push_open_part(text, value.as_slice()),
        Substring::Final(value) => push_escaped(text, Place::Assertion, value.as_slice()),
    }
}

/// Appends a part, and an asterisk.
fn push_open_part(text: &mut String, value: &[u8]) -> Result<(), AllocError>
    ensures { OnOk result (string_bytes text.new ≡
        string_bytes text.old ++ open_part value.now) }
{
    push_escaped(text, Place::Assertion, value)?;
    text.push_str("*")
}

/// Appends whether the components of a name are matched too, and the rule.
fn push_rule(text: &mut String, assertion: &MatchingRuleAssertion) -> Result<(), AllocError>
    ensures { OnOk result (string_bytes text.new ≡
        string_bytes text.old ++ rule_text assertion.now) }
{
    push_dn(text, assertion.dn_attributes)?;
    push_optional_word(text, ":", &assertion.matching_rule)
}

/// Appends whether the components of a name are matched too.
fn push_dn(text: &mut String, dn_attributes: bool) -> Result<(), AllocError>
    ensures { OnOk result (string_bytes text.new ≡ string_bytes text.old ++ dn_text dn_attributes) }
{
    if dn_attributes {
        return text.push_str(":dn");
    }
    Ok(())
}
