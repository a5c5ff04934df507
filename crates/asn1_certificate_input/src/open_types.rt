//! Values that the open types of a certificate cannot hold.
ghost use Rattle.std.specs.Prelude.{IfErr, OnOk};
ghost use Rattle.asn1_certificate_input.specs.Refused.{IsRefusalOfCertificate};
ghost use Rattle.asn1_certificate_input.specs.Shown.{HasGoodNames};

use crate::error::InputError;
use crate::positions::{
    ISSUER, SUBJECT, position_of_key_parameters, position_of_parameters_beside,
    position_of_signed_parameters, position_of_value,
};
use asn1_certificate_reader::{bad_parameters, first_name_fault};
use asn1_der::DerRules;
use asn1_x509::Certificate;
use std::alloc::Global;

/// Refuses a certificate that was read of these octets, if its open types hold values that they cannot hold.
pub(crate) fn check_open_types(
    alloc: Global,
    octets: &[u8],
    certificate: &Certificate,
) -> Result<(), InputError>
    ensures good { OnOk result (HasGoodNames certificate.now) }
    ensures refused { IfErr result (IsRefusalOfCertificate octets.now certificate.now) }
{
    match check_names(octets, certificate) {
        Ok(()) => check_parameters(alloc, octets, certificate),
        Err(error) => Err(error),
    }
}

/// Refuses a certificate with a value in a name that no name can have.
fn check_names(octets: &[u8], certificate: &Certificate) -> Result<(), InputError>
    ensures good { OnOk result (HasGoodNames certificate.now) }
    ensures refused { IfErr result (IsRefusalOfCertificate octets.now certificate.now) }
{
    let signed = &certificate.tbs_certificate;
    if let Some(fault) = first_name_fault(&signed.issuer) {
        let position = position_of_value(octets, ISSUER, fault);
        return Err(InputError::BadIssuer(position, fault));
    }
    if let Some(fault) = first_name_fault(&signed.subject) {
        let position = position_of_value(octets, SUBJECT, fault);
        return Err(InputError::BadSubject(position, fault));
    }
    Ok(())
}

/// Refuses a certificate with parameters of an algorithm that are not what they have to be by their tag.
fn check_parameters(
    alloc: Global,
    octets: &[u8],
    certificate: &Certificate,
) -> Result<(), InputError>
    ensures { IfErr result (IsRefusalOfCertificate octets.now certificate.now) }
{
    let rules = DerRules::new(alloc);
    let signed = &certificate.tbs_certificate;
    let key = &signed.subject_public_key_info;
    if let Some(bad) = bad_parameters(&rules, alloc, &key.algorithm)? {
        let position = position_of_key_parameters(octets);
        return Err(InputError::BadKeyParameters(position, bad));
    }
    if let Some(bad) = bad_parameters(&rules, alloc, &signed.signature)? {
        let position = position_of_signed_parameters(octets);
        return Err(InputError::BadSignatureParameters(position, bad));
    }
    if let Some(bad) = bad_parameters(&rules, alloc, &certificate.signature_algorithm)? {
        let position = position_of_parameters_beside(octets);
        return Err(InputError::BadSignatureParameters(position, bad));
    }
    Ok(())
}
