//! The report of a certificate.
ghost use Rattle.std.specs.Prelude.{◌≡◌, ◌≢◌, ◌⊎◌, ◌↔◌, ◌≤◌, IfErr, IfOk, List, length, ℕ};
ghost use Rattle.asn1_certificate_input.specs.Shown.{IsShown};
ghost use Rattle.asn1_certificate_input.specs.declared.error.InputError.TheVariants.{Memory};
ghost use Rattle.fan_calls.specs.Depths.{NestsDeeper};
ghost use Rattle.fan_calls.specs.Results.{LacksRoom, Puts};
ghost use Rattle.fan_calls.specs.Statuses.{FAN_DEEP, FAN_FAULT, FAN_MEMORY, FAN_OK, FAN_ROOM};
ghost use Rattle.fan_calls.specs.declared.status.Status.TheVariants.{Fault, Memory as OutOfMemory, Room};
ghost use Rattle.fanughespu.specs.CertificateReports.{AreGoodCertificate, AreNoCertificate, AreRefused, HaveNoReport, IsReport, IsReportOrMessage, is_explained, report_options};

use asn1_certificate_input::{Departure, InputError, Options, OutputFormat, Shown, shown_of};
use fan_calls::{DEPTH, Status, nests_deeper, put};
use std::alloc::Global;

/// `FAN_OK`, and the lines of the report of the certificate that the octets are. `FAN_FAULT` if they are refused, and a message
/// that says why in the place of the report. `FAN_DEEP` if octets lie inside more than 64 constructed elements.
///
/// A certificate whose octets break a rule of DER and can be read has a report:
/// [`fan_certificate_broken_rule`](crate::fan_certificate_broken_rule) tells the rule. Octets that break none are the DER of the
/// certificate of their report, unless elements lie inside more than 64 others.
#[unsafe(no_mangle)]
pub extern "C" fn fan_certificate_report(
    alloc: Global,
    octets: &[u8],
    text: &mut [u8],
    size: &mut usize,
) -> i32
    ensures statuses { (result ≡ FAN_OK) ⊎ ((result ≡ FAN_FAULT) ⊎
        ((result ≡ FAN_ROOM) ⊎ ((result ≡ FAN_MEMORY) ⊎ (result ≡ FAN_DEEP)))) }
    ensures report { result ≡ FAN_OK → Puts (IsReport octets.now) text.old text.new size.new }
    ensures refused { result ≡ FAN_FAULT →
        Puts (λ _. AreRefused octets.now) text.old text.new size.new }
    ensures no_certificate { AreNoCertificate octets.now → result ≢ FAN_OK }
    ensures certificate { AreGoodCertificate octets.now → result ≢ FAN_FAULT }
    ensures no_room { result ≡ FAN_ROOM →
        LacksRoom (IsReportOrMessage octets.now) text.old text.new size.new }
    ensures fits { size.new ≤ length text.old → result ≢ FAN_ROOM }
    ensures deep { (result ≡ FAN_DEEP) ↔ NestsDeeper 64 octets.now }
    ensures stays { result ≢ FAN_OK → result ≢ FAN_FAULT → text.new ≡ text.old }
    ensures no_size { (result ≡ FAN_MEMORY) ⊎ (result ≡ FAN_DEEP) → size.new ≡ size.old }
{
    if nests_deeper(octets, DEPTH) {
        return Status::Deep.number();
    }
    match report_of(alloc, octets) {
        Ok(report) => put(report.as_slice(), text, size).number(),
        Err(error) => put_message(alloc, error, text, size).number(),
    }
}

/// The lines of the report of the certificate with these octets.
fn report_of(alloc: Global, octets: &[u8]) -> Result<Vec<u8>, InputError>
    ensures report { IfOk result (λ report. IsReport octets.now report.items) }
    ensures refused { IfErr result (HaveNoReport octets.now) }
{
    let options = Options {
        format: OutputFormat::Report,
        is_strict: false,
        follows: false,
    };
    let own = Vec::from_slice(alloc, octets)?;
    explained(shown_of(alloc, options, &own)?)
}

/// The report, unless the certificate is written otherwise and no rule tells why.
#[tactic(auto, using(crate::proofs::Reports::has_report, crate::proofs::Reports::written_otherwise))]
fn explained(shown: Shown) -> Result<Vec<u8>, InputError>
    ensures report { (octets : List ℕ) →
        IsShown report_options octets shown.bytes.items shown.warnings →
        IfOk result (λ report. IsReport octets report.items) }
    ensures refused { (octets : List ℕ) →
        IsShown report_options octets shown.bytes.items shown.warnings →
        IfErr result (HaveNoReport octets) }
{
    match shown.warnings.departure {
        None => Ok(shown.bytes),
        Some(departure) if is_explained(departure) => Ok(shown.bytes),
        Some(departure) => Err(InputError::Departs(departure)),
    }
}

/// Whether a rule of DER, or elements that lie too deep to be looked at, tell why octets depart.
fn is_explained(departure: Departure) -> bool
    ensures { result ≡ is_explained departure }
{
    match departure {
        Departure::Breaks(_) | Departure::IsTooDeep(_) => true,
        Departure::Differs(_) | Departure::IsNotWritten(_) => false,
    }
}

/// Writes the reason that octets are refused.
fn put_message(alloc: Global, error: InputError, text: &mut [u8], size: &mut usize) -> Status
    ensures statuses { (result ≡ OutOfMemory) ⊎ ((result ≡ Fault) ⊎ (result ≡ Room)) }
    ensures message { (octets : List ℕ) → HaveNoReport octets error →
        result ≡ Fault → Puts (λ _. AreRefused octets) text.old text.new size.new }
    ensures no_room { (octets : List ℕ) → HaveNoReport octets error →
        result ≡ Room → LacksRoom (IsReportOrMessage octets) text.old text.new size.new }
    ensures stays { result ≢ Fault → text.new ≡ text.old }
    ensures no_size { result ≡ OutOfMemory → size.new ≡ size.old }
{
    if matches!(error, InputError::Memory) {
        return Status::Memory;
    }
    let Ok(message) = error.to_string(alloc) else {
        return Status::Memory;
    };
    match put(message.as_bytes(), text, size) {
        Status::Ok => Status::Fault,
        _ => Status::Room,
    }
}
