//! One certificate, as a user sees it.
ghost use Rattle.std.specs.Prelude.{◌≡◌, IfErr, IfOk, List, None, OnOk, Some, true, ℕ};
ghost use Rattle.asn1_certificate_input.specs.Certificates.{IsReadOf};
ghost use Rattle.asn1_certificate_input.specs.Departures.{AnswersDeparture, AnswersDifference, AreDerAsWritten};
ghost use Rattle.asn1_certificate_input.specs.Refused.{IsRefusal, IsRefusalOfDeparture, RefusesCertificate};
ghost use Rattle.asn1_certificate_input.specs.Shown.{AreAlphabetWarnings, AreBytesOf, AreLinesOf, IsShown};

use crate::alphabets::{NameField, OutsideAlphabet, outside_alphabet};
use crate::departure::{Departure, departure_of};
use crate::error::InputError;
use crate::open_types::check_open_types;
use crate::options::{Options, OutputFormat};
use crate::reading::{ReadCertificate, read};
use asn1_certificate_reader::report_of;
use asn1_certificate_text::report_text;
use asn1_der::DerRules;
use asn1_x509::Certificate;
use std::alloc::{AllocError, Global};

/// A certificate as it is written, and the warnings about it.
#[derive(Drop)]
pub struct Shown {
    /// The certificate in the format that was asked for.
    pub bytes: Vec<u8>,
    /// The warnings.
    pub warnings: Warnings,
}

/// The warnings about a certificate that is shown.
#[derive(Clone, Copy, Debug, Drop)]
pub struct Warnings {
    /// How its octets depart from its DER, if they do.
    pub departure: Option<Departure>,
    /// The first PrintableString of its issuer with characters outside its alphabet, if there is one.
    pub issuer: Option<OutsideAlphabet>,
    /// The first such string of its subject.
    pub subject: Option<OutsideAlphabet>,
}

/// The certificate with these octets, as the options ask for it.
pub fn shown_of(alloc: Global, options: Options, octets: &Vec<u8>) -> Result<Shown, InputError>
    ensures shown { IfOk result (λ shown.
        IsShown options octets.now.items shown.bytes.items shown.warnings) }
    ensures refused { IfErr result (IsRefusal options octets.now.items) }
{
    let read = read(alloc, octets)?;
    shown_as(alloc, options, octets, &read)
}

/// A certificate, which was read of these octets, as the options ask for it.
fn shown_as(
    alloc: Global,
    options: Options,
    octets: &Vec<u8>,
    read: &ReadCertificate,
) -> Result<Shown, InputError>
    requires read { IsReadOf octets.now.items read.now.certificate }
    requires difference { AnswersDifference octets.now.items read.now.certificate read.now.difference }
    ensures shown { IfOk result (λ shown.
        IsShown options octets.now.items shown.bytes.items shown.warnings) }
    ensures refused { IfErr result (RefusesCertificate options octets.now.items) }
{
    check_open_types(alloc, octets.as_slice(), &read.certificate)?;
    let departure = departure_of(octets.as_slice(), read.difference);
    check_departure(options, departure, read.difference)?;
    let bytes = bytes_of(alloc, options.format, octets, &read.certificate)?;
    let warnings = warnings_of(octets.as_slice(), &read.certificate, departure);
    Ok(Shown { bytes, warnings })
}

/// The warnings about a certificate, which was read of these octets and departs from its DER in this way, if it does.
fn warnings_of(octets: &[u8], certificate: &Certificate, departure: Option<Departure>) -> Warnings
    ensures departure { result.departure ≡ departure }
    ensures alphabets { AreAlphabetWarnings octets.now certificate.now result }
{
    let signed = &certificate.tbs_certificate;
    Warnings {
        departure,
        issuer: outside_alphabet(octets, NameField::Issuer, &signed.issuer),
        subject: outside_alphabet(octets, NameField::Subject, &signed.subject),
    }
}

/// Refuses a departure, if the options ask for it.
fn check_departure(
    options: Options,
    departure: Option<Departure>,
    difference: Option<Departure>,
) -> Result<(), InputError>
    requires { departure ≡ None → difference ≡ None }
    ensures strict { OnOk result (options.is_strict ≡ true → departure ≡ None) }
    ensures der { OnOk result (options.format ≡ OutputFormat.Der → difference ≡ None) }
    ensures refused { (octets : List ℕ) (certificate : Certificate) →
        AnswersDifference octets certificate difference →
        AnswersDeparture octets certificate departure →
        IfErr result (IsRefusalOfDeparture options octets certificate) }
{
    match departure {
        None => Ok(()),
        Some(departure) if options.is_strict => Err(InputError::Departs(departure)),
        Some(departure) => check_difference(options, departure, difference),
    }
}

/// Refuses octets that are not those that writing the certificate makes, if its DER is asked for. They depart from its DER so.
fn check_difference(
    options: Options,
    departure: Departure,
    difference: Option<Departure>,
) -> Result<(), InputError>
    ensures der { OnOk result (options.format ≡ OutputFormat.Der → difference ≡ None) }
    ensures refused { (octets : List ℕ) (certificate : Certificate) →
        AnswersDifference octets certificate difference →
        AnswersDeparture octets certificate (Some departure) →
        IfErr result (IsRefusalOfDeparture options octets certificate) }
{
    match difference {
        Some(_difference) if options.format == OutputFormat::Der => {
            Err(InputError::OtherDer(departure))
        }
        _ => Ok(()),
    }
}

/// A certificate, which was read of these octets, in a format. As DER it is the octets, which have to be those that writing it makes.
fn bytes_of(
    alloc: Global,
    format: OutputFormat,
    octets: &Vec<u8>,
    certificate: &Certificate,
) -> Result<Vec<u8>, AllocError>
    requires { format ≡ OutputFormat.Der → AreDerAsWritten octets.now.items certificate.now }
    ensures { IfOk result (λ bytes.
        AreBytesOf format octets.now.items certificate.now bytes.items) }
{
    match format {
        OutputFormat::Report => lines_of(alloc, certificate),
        OutputFormat::Der => Vec::from_slice(alloc, octets.as_slice()),
    }
}

/// The lines of the report of a certificate.
fn lines_of(alloc: Global, certificate: &Certificate) -> Result<Vec<u8>, AllocError>
    ensures { IfOk result (λ bytes. AreLinesOf certificate.now bytes.items) }
{
    let report = report_of(&DerRules::new(alloc), alloc, certificate)?;
    Ok(report_text(alloc, &report)?.into_bytes())
}
