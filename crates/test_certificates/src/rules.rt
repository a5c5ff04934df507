//! Questions on the rules of DER.
use asn1_certificate_rules::{ExtensionKind, Finding, Part, RuleSet, find_broken_rule};
use std::alloc::Global;

/// The depth down to which elements are looked into.
const DEPTH: usize = 8;

/// A rule that bytes break which have this part of a certificate first, or the byte at which elements lie too deep.
pub(crate) fn broken_rule_of(alloc: Global, part: &str, bytes: &[u8]) -> Option<String> {
    match find_broken_rule(bytes, part_of_name(part)?, RuleSet::All, DEPTH) {
        Some(Finding::Broken(broken)) => format!(in alloc; "{broken}").ok(),
        Some(Finding::Deeper(position)) => format!(in alloc; "byte {position}: too deep").ok(),
        None => String::from_str(alloc, "none").ok(),
    }
}

/// The part of this name.
fn part_of_name(name: &str) -> Option<Part> {
    match name {
        "version" => Some(Part::Version),
        "extension" => Some(Part::ExtensionBody(ExtensionKind::Other)),
        "constraints" => Some(Part::BasicConstraints),
        "usage" => Some(Part::KeyUsage),
        "any" => Some(Part::Other),
        _ => None,
    }
}
