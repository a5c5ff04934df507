//! The identifier and the length of an element that is not one of DER.
ghost use Rattle.std.specs.Prelude.{◌≡◌, Decides, IfSome, MatchOption, None, Some};
ghost use Rattle.asn1_certificate_rules.specs.Headers.{BreaksHeader, HasLongIdentifier, HeaderKeepsRules, IsIndefinite, IsLongLength, behind_identifier, behind_septets};
ghost use Rattle.asn1_certificate_rules.specs.Rules.{IsOfReading};

use crate::broken_rules::BrokenRule;
use crate::rule::Rule;

/// The rule that the identifier or the length breaks with which bytes begin, if they break one.
pub(crate) fn broken_header(bytes: &[u8]) -> Option<BrokenRule>
    ensures broken { MatchOption result (HeaderKeepsRules bytes.now)
        (λ d. BreaksHeader bytes.now d.rule d.position) }
    ensures of_reading { IfSome result (λ d. IsOfReading d.rule) }
{
    if has_long_identifier(bytes) {
        return Some(BrokenRule {
            rule: Rule::LongIdentifier,
            position: 0,
        });
    }
    let rest = behind_identifier(bytes)?;
    let position = bytes.len() - rest.len();
    if is_indefinite(rest) {
        return Some(BrokenRule {
            rule: Rule::IndefiniteLength,
            position,
        });
    }
    if is_long_length(rest) {
        return Some(BrokenRule {
            rule: Rule::LongLength,
            position,
        });
    }
    None
}

/// Whether a number that has octets of its own is not in its shortest form: its first septet is zero, or it is below 31 and fits into
/// the first octet.
fn has_long_identifier(bytes: &[u8]) -> bool
    ensures { Decides result (HasLongIdentifier bytes.now) }
{
    match bytes {
        [first, next, ..] => *first % 32 == 31 && (*next == 128 || *next < 31),
        _ => false,
    }
}

/// The bytes behind the identifier octets with which bytes begin.
fn behind_identifier(bytes: &[u8]) -> Option<&[u8]>
    ensures { MatchOption result (behind_identifier bytes.now ≡ None)
        (λ rest. behind_identifier bytes.now ≡ Some rest.now) }
{
    match bytes {
        [first, rest @ ..] => {
            if *first % 32 < 31 {
                Some(rest)
            } else {
                behind_septets(rest)
            }
        }
        [] => None,
    }
}

/// The bytes behind the octets of a number: behind the first octet without bit 8.
fn behind_septets(octets: &[u8]) -> Option<&[u8]>
    ensures { MatchOption result (behind_septets octets.now ≡ None)
        (λ rest. behind_septets octets.now ≡ Some rest.now) }
{
    let mut left = octets;
    while let [first, rest @ ..] = left {
        if *first < 128 {
            return Some(rest);
        }
        left = rest;
    }
    None
}

/// Whether bytes begin with the octet of an indefinite length.
fn is_indefinite(bytes: &[u8]) -> bool
    ensures { Decides result (IsIndefinite bytes.now) }
{
    matches!(bytes, [128, ..])
}

/// Whether bytes begin with a definite length that has more octets than it needs: its number begins with an octet of zero, or is
/// below 128.
fn is_long_length(bytes: &[u8]) -> bool
    ensures { Decides result (IsLongLength bytes.now) }
{
    match bytes {
        [129, octet, ..] => *octet < 128,
        [first, octet, ..] => *first > 129 && *octet == 0,
        _ => false,
    }
}
