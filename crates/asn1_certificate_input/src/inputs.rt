//! The certificates of an input.
ghost use Rattle.std.specs.Prelude.{◌≡◌, IfErr, IfOk, false, true};
ghost use Rattle.asn1_certificate_input.specs.Inputs.{AreCertificatesOf, BeginsNoSequence, BeginsSequence, IsAlone, IsNoText, IsText};
ghost use Rattle.asn1_certificate_input.specs.Refused.{IsRefusalOfInput};

use crate::error::InputError;
use crate::reading::end_of_certificate;
use asn1_certificate_text::{PemCertificate, certificates_in, is_pem};
use asn1_der_items::is_one_element;
use std::alloc::{AllocError, Global};

/// The octet with which a SEQUENCE begins, and so a certificate.
const SEQUENCE: u8 = 0x30;

/// The certificates of an input. A text with a line before a certificate has the certificates between these lines. An input that begins
/// as a SEQUENCE does is a certificate itself: if it has no such line, is one element, or begins with a certificate.
pub(crate) fn certificates_of(
    alloc: Global,
    input: Vec<u8>,
) -> Result<Vec<PemCertificate>, InputError>
    ensures found { IfOk result (λ found. AreCertificatesOf input.items found.items) }
    ensures refused { IfErr result (IsRefusalOfInput input.items) }
{
    if is_text(alloc, input.as_slice())? {
        return Ok(certificates_in(alloc, input.as_slice())?);
    }
    if !begins_sequence(input.as_slice()) {
        return Err(InputError::Neither);
    }
    Ok(alone(alloc, input)?)
}

/// Whether an input begins as a SEQUENCE does.
fn begins_sequence(input: &[u8]) -> bool
    ensures sequence { result ≡ true → BeginsSequence input.now }
    ensures other { result ≡ false → BeginsNoSequence input.now }
{
    match input.first() {
        Some(first) => *first == SEQUENCE,
        None => false,
    }
}

/// The certificates of an input that is one itself.
fn alone(alloc: Global, octets: Vec<u8>) -> Result<Vec<PemCertificate>, AllocError>
    ensures { IfOk result (λ found. IsAlone octets.items found.items) }
{
    let mut certificates = Vec::new(alloc);
    certificates.push(PemCertificate::Octets(octets))?;
    Ok(certificates)
}

/// Whether an input is a text with certificates.
fn is_text(alloc: Global, input: &[u8]) -> Result<bool, AllocError>
    ensures text { IfOk result (λ text. text ≡ true → IsText input.now) }
    ensures no_text { IfOk result (λ text. text ≡ false → IsNoText input.now) }
{
    if !is_pem(input) {
        return Ok(false);
    }
    if !begins_sequence(input) {
        return Ok(true);
    }
    if is_one_element(input) {
        return Ok(false);
    }
    Ok(end_of_certificate(alloc, input)?.is_none())
}
