//! A certificate that is read and written over and over.
ghost use Rattle.std.specs.Prelude.{IfOk};
ghost use Rattle.asn1_der.specs.Format.{Carries};
ghost use Rattle.asn1_model.specs.Meaning.{own_records};

use asn1_dec::DecodeError;
use asn1_der::DerRules;
use asn1_enc::EncodeError;
use asn1_rules::{CanonicalError, Rules, read_canonical};
use asn1_types::AsnType;
use asn1_x509::Certificate;
use std::alloc::Global;
use thiserror::Error;

/// How deep a certificate may be nested.
const MAX_DEPTH: usize = 64;

/// Why a certificate is not written.
#[derive(Clone, Copy, Debug, Drop, Error)]
pub(crate) enum Failure {
    /// The bytes are not read as one.
    #[error("not read: {0}")]
    NotRead(DecodeError),
    /// The certificate was read, and is not written again.
    #[error("not written: {0}")]
    NotWritten(EncodeError),
    /// The bytes are not read by `read_canonical`.
    #[error("not read: {0}")]
    NotCanonical(CanonicalError),
}

/// How often a certificate is read, written, and read by `read_canonical`.
#[derive(Clone, Copy, Debug)]
pub(crate) struct Counts {
    pub(crate) reads: u32,
    pub(crate) writes: u32,
    pub(crate) canonical_reads: u32,
}

/// Reads a certificate and writes it again, each as often as is asked and then once more, and answers the bytes that were
/// written at last: the DER of a certificate.
pub(crate) fn repeated(alloc: Global, input: &Vec<u8>, counts: Counts) -> Result<Vec<u8>, Failure>
    ensures { IfOk result (λ bytes. (c : Certificate)
        × Carries bytes.items (own_records ⟦<Certificate as AsnType>⟧.meaning c)) }
{
    let rules = DerRules::new(alloc);
    read_times(&rules, input, counts.reads)?;
    read_canonical_times(&rules, input, counts.canonical_reads)?;
    let certificate = read(&rules, input)?;
    write_times(&rules, &certificate, counts.writes)?;
    written(&rules, &certificate)
}

/// Reads a certificate this many times.
fn read_times(rules: &DerRules, input: &Vec<u8>, times: u32) -> Result<(), Failure> {
    for _time in 0..times {
        let _certificate = read(rules, input)?;
    }
    Ok(())
}

/// Reads a certificate by `read_canonical` this many times.
fn read_canonical_times(rules: &DerRules, input: &Vec<u8>, times: u32) -> Result<(), Failure> {
    for _time in 0..times {
        match read_canonical::<Certificate, DerRules>(rules, input, MAX_DEPTH) {
            Ok(_certificate) => {}
            Err(error) => return Err(Failure::NotCanonical(error)),
        }
    }
    Ok(())
}

/// Writes a certificate this many times.
fn write_times(rules: &DerRules, certificate: &Certificate, times: u32) -> Result<(), Failure> {
    for _time in 0..times {
        let _bytes = written(rules, certificate)?;
    }
    Ok(())
}

/// The certificate that these bytes are.
fn read(rules: &DerRules, input: &Vec<u8>) -> Result<Certificate, Failure> {
    match rules.read_value(input, MAX_DEPTH) {
        Ok(certificate) => Ok(certificate),
        Err(error) => Err(Failure::NotRead(error)),
    }
}

/// The DER of a certificate.
fn written(rules: &DerRules, certificate: &Certificate) -> Result<Vec<u8>, Failure>
    ensures { IfOk result (λ bytes. Carries bytes.items
        (own_records ⟦<Certificate as AsnType>⟧.meaning certificate.now)) }
{
    match rules.write_value(certificate, MAX_DEPTH) {
        Ok(bytes) => Ok(bytes),
        Err(error) => Err(Failure::NotWritten(error)),
    }
}
