//! Rules of DER that a certificate breaks.
ghost use Rattle.std.specs.Prelude.{◌≡◌, ◌≢◌, ◌⊎◌, ◌^◌, ◌<◌};
ghost use Rattle.asn1_certificate_rules.specs.Departures.{KeepsRules};
ghost use Rattle.asn1_certificate_rules.specs.Depths.{LiesDeeper};
ghost use Rattle.asn1_certificate_rules.specs.declared.notation.Part.TheVariants.{Certificate};
ghost use Rattle.asn1_certificate_rules.specs.declared.rule.RuleSet.TheVariants.{All};
ghost use Rattle.fan_calls.specs.Statuses.{FAN_DEEP, FAN_FAULT, FAN_OK};
ghost use Rattle.fanughespu.specs.CertificateRules.{BreaksAt, rule_number};

use asn1_certificate_rules::{Finding, Part, Rule, RuleSet, find_broken_rule};
use fan_calls::{DEPTH, Status};

/// `FAN_OK` if the octets break no rule of DER where the notation has a certificate. `FAN_FAULT`, and the number of a rule that they
/// break, and the position of the octet, from 0, at which they break it. `FAN_DEEP`, and the position of octets that lie inside more
/// than 64 elements which hold others, into which it does not look.
///
/// It does not ask whether the octets are a certificate: those that end inside an element break none of these rules.
#[unsafe(no_mangle)]
pub extern "C" fn fan_certificate_broken_rule(
    octets: &[u8],
    rule: &mut u32,
    position: &mut usize,
) -> i32
    ensures statuses { (result ≡ FAN_OK) ⊎ ((result ≡ FAN_FAULT) ⊎ (result ≡ FAN_DEEP)) }
    ensures keeps { result ≡ FAN_OK → KeepsRules All Certificate octets.now }
    ensures breaks { result ≡ FAN_FAULT → BreaksAt octets.now rule.new position.new }
    ensures kept { KeepsRules All Certificate octets.now → result ≢ FAN_FAULT }
    ensures deep { result ≡ FAN_DEEP → LiesDeeper 64 Certificate octets.now position.new }
    ensures no_rule { result ≢ FAN_FAULT → rule.new ≡ rule.old }
    ensures no_position { result ≡ FAN_OK → position.new ≡ position.old }
{
    match find_broken_rule(octets, Part::Certificate, RuleSet::All, DEPTH) {
        None => Status::Ok.number(),
        Some(Finding::Broken(broken)) => {
            *rule = number_of(broken.rule);
            *position = broken.position;
            Status::Fault.number()
        }
        Some(Finding::Deeper(deeper)) => {
            *position = deeper;
            Status::Deep.number()
        }
    }
}

/// The number of a rule, as the header for C has it.
fn number_of(rule: Rule) -> u32
    ensures { result ≡ rule_number rule }
{
    match rule {
        Rule::LongIdentifier => 1,
        Rule::IndefiniteLength => 2,
        Rule::LongLength => 3,
        Rule::PaddedInteger => 4,
        Rule::PaddedArc => 5,
        Rule::OtherTrue => 6,
        Rule::ConstructedString => 7,
        Rule::UnusedBit => 8,
        Rule::TrailingZero => 9,
        Rule::Default => 10,
        Rule::SetOrder => 11,
        Rule::GeneralizedTime => 12,
        Rule::UtcTime => 13,
    }
}
