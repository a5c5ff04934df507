//! The certificate that octets are read as.
ghost use Rattle.std.specs.Prelude.{◌≡◌, IfErr, IfOk, IfSome, Some};
ghost use Rattle.asn1_certificate_input.specs.Certificates.{AreOfNoCertificate, IsFollowed, IsReadOf};
ghost use Rattle.asn1_certificate_input.specs.Departures.{AnswersDifference};
ghost use Rattle.asn1_certificate_input.specs.Refused.{IsRefusalOfOctets};
ghost use Rattle.asn1_certificate_rules.specs.Departures.{Departs};
ghost use Rattle.asn1_certificate_rules.specs.Rules.{IsOfReading};

use crate::departure::Departure;
use crate::error::InputError;
use asn1_certificate_reader::MAX_DEPTH;
use asn1_certificate_rules::{BrokenRule, Finding, Part, RuleSet, find_broken_rule};
use asn1_dec::{Decode, DecodeError};
use asn1_der::{DerDecoder, DerRules};
use asn1_der_items::{find_element, first_fault};
use asn1_enc::EncodeError;
use asn1_rules::{CanonicalError, Rules, read_canonical};
use asn1_x509::{Certificate, certificate_is_well_tagged};
use std::alloc::{AllocError, Global};

/// A certificate that was read, and how its octets differ from what it is written as.
#[derive(Drop)]
pub(crate) struct ReadCertificate {
    pub(crate) certificate: Certificate,
    pub(crate) difference: Option<Departure>,
}

/// The certificate that octets are read as.
pub(crate) fn read(alloc: Global, octets: &Vec<u8>) -> Result<ReadCertificate, InputError>
    ensures read { IfOk result (λ read. IsReadOf octets.now.items read.certificate) }
    ensures difference { IfOk result (λ read.
        AnswersDifference octets.now.items read.certificate read.difference) }
    ensures refused { IfErr result (IsRefusalOfOctets octets.now.items) }
{
    certificate_is_well_tagged();
    match read_canonical(&DerRules::new(alloc), octets, MAX_DEPTH) {
        Ok(certificate) => Ok(ReadCertificate {
            certificate,
            difference: None,
        }),
        Err(CanonicalError::NotCanonical { at }) => {
            read_again(alloc, octets, Departure::Differs(at))
        }
        Err(CanonicalError::Write(EncodeError::Memory)) => Err(InputError::Memory),
        Err(CanonicalError::Write(error)) => {
            read_again(alloc, octets, Departure::IsNotWritten(error))
        }
        Err(CanonicalError::Read(DecodeError::Memory)) => Err(InputError::Memory),
        Err(CanonicalError::Read(error)) => Err(refusal(alloc, octets.as_slice(), error)),
    }
}

/// The certificate that octets are read as, which differ in this way from what it is written as.
fn read_again(
    alloc: Global,
    octets: &Vec<u8>,
    difference: Departure,
) -> Result<ReadCertificate, InputError>
    ensures read { IfOk result (λ read. IsReadOf octets.now.items read.certificate) }
    ensures difference { IfOk result (λ read. read.difference ≡ Some difference) }
    ensures refused { IfErr result (IsRefusalOfOctets octets.now.items) }
{
    certificate_is_well_tagged();
    match DerRules::new(alloc).read_value(octets, MAX_DEPTH) {
        Ok(certificate) => Ok(ReadCertificate {
            certificate,
            difference: Some(difference),
        }),
        Err(DecodeError::Memory) => Err(InputError::Memory),
        Err(error) => Err(refusal(alloc, octets.as_slice(), error)),
    }
}

/// The reason for which octets are not read: trailing bytes behind a certificate; or a rule of DER that reading looks at and they
/// break, if that is before the position up to which they were read; or the first position at which an element is due and none
/// begins; or else the position up to which they were read.
fn refusal(alloc: Global, octets: &[u8], error: DecodeError) -> InputError
    ensures { AreOfNoCertificate octets.now → IsRefusalOfOctets octets.now result }
{
    match end_of_certificate(alloc, octets) {
        Ok(Some(end)) => return InputError::TrailingBytes(end),
        Ok(None) => {}
        Err(_) => return InputError::Memory,
    }
    if let Some(position) = first_fault(octets, MAX_DEPTH) {
        return match broken_before(octets, octets.len()) {
            Some(broken) => InputError::NotDer(broken),
            None => InputError::NoElement(position, error),
        };
    }
    let position = read_up_to(alloc, octets);
    if let Some(broken) = broken_before(octets, position) {
        return InputError::NotDer(broken);
    }
    match error {
        DecodeError::FieldError { name, .. } => InputError::BadComponent(position, name),
        _ => InputError::NoCertificate(position, error),
    }
}

/// A rule of DER that reading looks at and octets break, if one is found whose position is before this one.
fn broken_before(octets: &[u8], end: usize) -> Option<BrokenRule>
    ensures broken { IfSome result (λ d. Departs Part.Other octets.now d.rule d.position) }
    ensures of_reading { IfSome result (λ d. IsOfReading d.rule) }
{
    match find_broken_rule(octets, Part::Other, RuleSet::OfReading, MAX_DEPTH) {
        Some(Finding::Broken(broken)) if broken.position < end => Some(broken),
        _ => None,
    }
}

/// The position at which the certificate ends with which octets begin, if bytes follow it.
pub(crate) fn end_of_certificate(alloc: Global, octets: &[u8]) -> Result<Option<usize>, AllocError>
    ensures { IfOk result (λ end. IfSome end (IsFollowed octets.now)) }
{
    let Ok(element) = find_element(octets) else {
        return Ok(None);
    };
    if element.rest.is_empty() {
        return Ok(None);
    }
    let end = octets.len() - element.rest.len();
    let own = Vec::from_slice(alloc, &octets[..end])?;
    let read: Result<Certificate, DecodeError> = DerRules::new(alloc).read_value(&own, MAX_DEPTH);
    match read {
        Ok(_) => Ok(Some(end)),
        Err(DecodeError::Memory) => Err(AllocError),
        Err(_) => Ok(None),
    }
}

/// The position up to which octets are read as a certificate, with an element that is refused.
fn read_up_to(alloc: Global, octets: &[u8]) -> usize {
    let mut decoder = DerDecoder::new(alloc, octets, MAX_DEPTH);
    let _ = Certificate::decode(&mut decoder);
    octets.len().saturating_sub(decoder.unread())
}
