//! Rules of DER that bytes break.
ghost use Rattle.std.specs.Prelude.{IfSome, MatchOption};
ghost use Rattle.asn1_certificate_rules.specs.Departures.{InsideKeepsRules, KeepsRules};
ghost use Rattle.asn1_certificate_rules.specs.Findings.{Finds, FindsInside, IsAsked};
ghost use Rattle.asn1_der_items.specs.Elements.{element_of};

use crate::finding::Finding;
use crate::headers::broken_header;
use crate::notation::Part;
use crate::rule::{Rule, RuleSet};
use crate::rules::broken_rule;
use asn1_der_items::{Element, find_element};
use thiserror::Error;

/// A rule of DER that bytes break, and where.
#[derive(Clone, Copy, Debug, Drop, PartialEq, Eq, Error)]
#[error("byte {position} of its DER: {rule}")]
pub struct BrokenRule {
    /// The rule that they break.
    pub rule: Rule,
    /// The position of the byte, from 0.
    pub position: usize,
}

/// A rule of these that bytes break which have this part of a certificate first; or the position of elements that lie inside more
/// elements than this depth, into which it does not look; or none, if the bytes break none of the rules at any depth.
///
/// Where an element is due and none begins, the identifier and the length there are the last octets that it looks at.
#[cycle(broken_rules)]
pub fn find_broken_rule(bytes: &[u8], part: Part, rules: RuleSet, depth: usize) -> Option<Finding>
    ensures found { MatchOption result (KeepsRules rules part bytes.now)
        (Finds depth part bytes.now) }
    ensures asked { IfSome result (IsAsked rules) }
{
    let mut left = bytes;
    let mut place = part;
    while !left.is_empty() {
        let before = bytes.len() - left.len();
        let Ok(element) = find_element(left) else {
            return Some(Finding::Broken(broken_header(left)?).after(before));
        };
        let header = left.len() - element.rest.len() - element.contents.len();
        if let Some(broken) = broken_rule(rules, place, header, element) {
            return Some(Finding::Broken(broken).after(before));
        }
        if let Some(finding) = find_inside(element, place, rules, depth) {
            return Some(finding.after(before + header));
        }
        place = place.behind(element);
        left = element.rest;
    }
    None
}

/// The same inside an element, by the position in its contents octets.
#[cycle(broken_rules)]
fn find_inside(element: Element<'_>, part: Part, rules: RuleSet, depth: usize) -> Option<Finding>
    ensures found { MatchOption result (InsideKeepsRules rules part (element_of element.entry))
        (FindsInside depth part (element_of element.entry)) }
    ensures asked { IfSome result (IsAsked rules) }
{
    if !part.opens(element) || element.contents.is_empty() {
        return None;
    }
    if depth == 0 {
        return Some(Finding::Deeper(0));
    }
    find_broken_rule(element.contents, part.inside(element), rules, depth - 1)
}
