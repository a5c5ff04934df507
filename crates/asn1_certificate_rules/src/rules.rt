//! The rule that an element breaks.
ghost use Rattle.std.specs.Prelude.{◌≡◌, ◌≢◌, ◌+◌, ◌^◌, ◌<◌, Decides, IfSome, MatchOption, ℕ, false, length, true};
ghost use Rattle.asn1_certificate_rules.specs.Rules.{BreaksDefaultAlone, BreaksRule, ElementKeepsRules, IsDefault, IsFalse, IsOf, IsOfReading, KeepsTimes};
ghost use Rattle.asn1_certificate_rules.specs.declared.rule.RuleSet.TheVariants.{All};
ghost use Rattle.asn1_der_items.specs.Elements.{element_of};

use crate::broken_rules::BrokenRule;
use crate::contents::{ends_with_zero, has_unused_bit, is_other_true, is_padded};
use crate::notation::Part;
use crate::objects::padded_arc;
use crate::rule::{Rule, RuleSet};
use crate::sets::out_of_order;
use crate::strings::is_string;
use crate::times::{is_generalized_time, is_utc_time};
use asn1_der_items::Element;
use asn1_tags::Tag;

/// The rule that an element breaks by itself, at a position in its octets, of which this many are before its contents octets.
pub(crate) fn broken_rule(
    rules: RuleSet,
    part: Part,
    header: usize,
    element: Element<'_>,
) -> Option<BrokenRule>
    requires fits { header + length element.contents.now < 2 ^ 64 }
    ensures broken { MatchOption result
        (ElementKeepsRules rules part header (element_of element.entry))
        (λ d. BreaksRule part header (element_of element.entry) d.rule d.position) }
    ensures asked { IfSome result (λ d. IsOf rules d.rule) }
{
    if rules == RuleSet::All && is_default(part, element) {
        return Some(BrokenRule {
            rule: Rule::Default,
            position: 0,
        });
    }
    if element.constructed {
        return broken_by_constructed(part, header, element);
    }
    broken_by_primitive(rules, part, header, element)
}

/// Whether a component has its DEFAULT value.
fn is_default(part: Part, element: Element<'_>) -> bool
    ensures { Decides result (IsDefault part (element_of element.entry)) }
{
    match part {
        Part::Version => {
            element.constructed
                && element.tag == Tag::new_context(0)
                && element.contents == [2, 1, 0].as_slice()
        }
        Part::ExtensionBody(_) => is_false(element),
        Part::Authority => is_false(element),
        _ => false,
    }
}

/// Whether an element is a FALSE.
fn is_false(element: Element<'_>) -> bool
    ensures { Decides result (IsFalse (element_of element.entry)) }
{
    !element.constructed && element.tag == Tag::BOOL && element.contents == [0].as_slice()
}

/// The rule that a constructed element breaks.
fn broken_by_constructed(part: Part, header: usize, element: Element<'_>) -> Option<BrokenRule>
    requires constructed { element.constructed ≡ true }
    requires fits { header + length element.contents.now < 2 ^ 64 }
    ensures broken { MatchOption result
        (BreaksDefaultAlone All part header (element_of element.entry))
        (λ d. BreaksRule part header (element_of element.entry) d.rule d.position) }
    ensures of_reading { IfSome result (λ d. IsOfReading d.rule) }
{
    if is_string(element.tag) {
        return Some(BrokenRule {
            rule: Rule::ConstructedString,
            position: 0,
        });
    }
    if element.tag == Tag::SET {
        let index = out_of_order(element.contents)?;
        return Some(BrokenRule {
            rule: Rule::SetOrder,
            position: header + index,
        });
    }
    None
}

/// The rule that a primitive element breaks.
fn broken_by_primitive(
    rules: RuleSet,
    part: Part,
    header: usize,
    element: Element<'_>,
) -> Option<BrokenRule>
    requires primitive { element.constructed ≡ false }
    requires fits { header + length element.contents.now < 2 ^ 64 }
    ensures broken { MatchOption result
        (BreaksDefaultAlone rules part header (element_of element.entry))
        (λ d. BreaksRule part header (element_of element.entry) d.rule d.position) }
    ensures asked { IfSome result (λ d. IsOf rules d.rule) }
{
    if element.tag == Tag::BIT_STRING {
        return broken_by_bits(rules, part, header, element);
    }
    if element.tag == Tag::OBJECT_IDENTIFIER {
        let index = padded_arc(element.contents)?;
        return Some(BrokenRule {
            rule: Rule::PaddedArc,
            position: header + index,
        });
    }
    let rule = broken_by_contents(rules, element)?;
    Some(BrokenRule {
        rule,
        position: header,
    })
}

/// The rule that a BIT STRING breaks.
fn broken_by_bits(
    rules: RuleSet,
    part: Part,
    header: usize,
    element: Element<'_>,
) -> Option<BrokenRule>
    requires primitive { element.constructed ≡ false }
    requires bits { element.tag ≡ Tag.BIT_STRING }
    requires fits { header + length element.contents.now < 2 ^ 64 }
    ensures broken { MatchOption result
        (BreaksDefaultAlone rules part header (element_of element.entry))
        (λ d. BreaksRule part header (element_of element.entry) d.rule d.position) }
    ensures asked { IfSome result (λ d. IsOf rules d.rule) }
{
    let position = header + element.contents.len().saturating_sub(1);
    if has_unused_bit(element.contents) {
        return Some(BrokenRule {
            rule: Rule::UnusedBit,
            position,
        });
    }
    if rules == RuleSet::All && part == Part::KeyUsage && ends_with_zero(element.contents) {
        return Some(BrokenRule {
            rule: Rule::TrailingZero,
            position,
        });
    }
    None
}

/// The rule that the contents octets of another primitive element break, at the first of them.
fn broken_by_contents(rules: RuleSet, element: Element<'_>) -> Option<Rule>
    requires primitive { element.constructed ≡ false }
    requires no_bits { element.tag ≢ Tag.BIT_STRING }
    requires no_object { element.tag ≢ Tag.OBJECT_IDENTIFIER }
    ensures broken { (part : Part) (header : ℕ) →
        MatchOption result (BreaksDefaultAlone rules part header (element_of element.entry))
        (λ rule. BreaksRule part header (element_of element.entry) rule header) }
    ensures asked { IfSome result (λ rule. IsOf rules rule) }
{
    if element.tag == Tag::BOOL && is_other_true(element.contents) {
        return Some(Rule::OtherTrue);
    }
    if element.tag == Tag::INTEGER && is_padded(element.contents) {
        return Some(Rule::PaddedInteger);
    }
    if element.tag == Tag::ENUMERATED && is_padded(element.contents) {
        return Some(Rule::PaddedInteger);
    }
    match rules {
        RuleSet::All => broken_by_time(element),
        RuleSet::OfReading => None,
    }
}

/// The rule that the contents octets of a time break, at the first of them.
fn broken_by_time(element: Element<'_>) -> Option<Rule>
    requires { element.constructed ≡ false }
    ensures { (part : Part) (header : ℕ) →
        MatchOption result (KeepsTimes part header (element_of element.entry))
        (λ rule. BreaksRule part header (element_of element.entry) rule header) }
{
    if element.tag == Tag::UTC_TIME && !is_utc_time(element.contents) {
        return Some(Rule::UtcTime);
    }
    if element.tag == Tag::GENERALIZED_TIME && !is_generalized_time(element.contents) {
        return Some(Rule::GeneralizedTime);
    }
    None
}
