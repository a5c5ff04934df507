//! How the octets of a certificate depart from its DER.
ghost use Rattle.std.specs.Prelude.{◌≡◌, List, None, Some, ℕ};
ghost use Rattle.asn1_certificate_input.specs.Departures.{AnswersDeparture, AnswersDifference, KeepsAllRules};
ghost use Rattle.asn1_certificate_rules.specs.Findings.{Finds};
ghost use Rattle.asn1_x509.specs.declared.certificate.Certificate.{Certificate};

use asn1_certificate_reader::MAX_DEPTH;
use asn1_certificate_rules::{BrokenRule, Finding, Part, RuleSet, find_broken_rule};
use asn1_enc::EncodeError;
use thiserror::Error;

/// A way in which the octets of a certificate depart from its DER, or may depart.
#[derive(Clone, Copy, Debug, Drop, Error)]
pub enum Departure {
    /// They break a rule.
    #[error("{0}")]
    Breaks(BrokenRule),
    /// They differ from what the certificate is written as, first at this byte.
    #[error("byte {0} of its DER: the certificate is written with another octet")]
    Differs(usize),
    /// The certificate is not written again.
    #[error("writing the certificate again fails: {0}")]
    IsNotWritten(EncodeError),
    /// At this byte elements begin that lie inside more than 64 others. The walk over the rules does not look into them.
    #[error("byte {0} of its DER: elements are nested deeper than 64 levels there, and were not looked at")]
    IsTooDeep(usize),
}

/// A way in which octets, which were read as a certificate, depart from its DER: a rule that they break, or else the way in which they
/// differ from what it is written as, or else that elements are too deep to be looked at. None is answered only if they break no rule
/// at any depth.
pub(crate) fn departure_of(octets: &[u8], difference: Option<Departure>) -> Option<Departure>
    ensures none { result ≡ None → difference ≡ None }
    ensures keeps { result ≡ None → KeepsAllRules octets.now }
    ensures answers { (certificate : Certificate) → AnswersDifference octets.now certificate difference →
        AnswersDeparture octets.now certificate result }
{
    match find_broken_rule(octets, Part::Certificate, RuleSet::All, MAX_DEPTH) {
        Some(finding) => Some(departure_by(finding, difference)),
        None => difference,
    }
}

/// The way in which octets depart from DER, of which this is found.
#[tactic(auto, using(crate::proofs::Differences::departs_so))]
fn departure_by(finding: Finding, difference: Option<Departure>) -> Departure
    ensures { (octets : List ℕ) (certificate : Certificate) →
        Finds 64 Part.Certificate octets finding →
        AnswersDifference octets certificate difference →
        AnswersDeparture octets certificate (Some result) }
{
    match finding {
        Finding::Broken(broken) => Departure::Breaks(broken),
        Finding::Deeper(position) => match difference {
            Some(difference) => difference,
            None => Departure::IsTooDeep(position),
        },
    }
}
