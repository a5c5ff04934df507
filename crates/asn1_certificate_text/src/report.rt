//! The report of a certificate.
ghost use Rattle.std.specs.Prelude.{◌≡◌, ◌++◌, IfOk, OnOk};
ghost use Rattle.std.specs.String.{string_bytes};
ghost use Rattle.asn1_certificate_text.specs.Reports.{extensions_text, head_text, report_text, tail_text, times_text};

use crate::append_text::{AppendText, push_line};
use crate::extension::ShownExtension;
use crate::key::{ShownKey, Signature};
use crate::name::ShownName;
use crate::number::{OctetNumber, Version};
use crate::time::ShownTime;
use std::alloc::{AllocError, Global};

/// The report of a certificate.
#[derive(Drop)]
pub struct Report {
    /// Its version.
    pub version: Version,
    /// Its serial number.
    pub serial_number: OctetNumber,
    /// Its subject.
    pub subject: ShownName,
    /// Its issuer.
    pub issuer: ShownName,
    /// The beginning of its validity.
    pub valid_from: ShownTime,
    /// The end of its validity.
    pub valid_until: ShownTime,
    /// The public key of the subject.
    pub key: ShownKey,
    /// The algorithm of its signature.
    pub signature: Signature,
    /// Its extensions.
    pub extensions: Vec<ShownExtension>,
}

/// The lines of a report, each with a line feed at its end. It fails only if memory runs out.
pub fn report_text(alloc: Global, report: &Report) -> Result<String, AllocError>
    ensures { IfOk result (λ text. string_bytes text ≡ report_text report.now) }
{
    let mut text = String::new(alloc);
    report.append_to(&mut text)?;
    Ok(text)
}

/// A line for each part, and one or more for each extension.
impl AppendText for Report {
    ghost text_of = { report_text };

    fn append_to(&self, text: &mut String) -> Result<(), AllocError> {
        push_head(text, self)?;
        push_times(text, self)?;
        push_tail(text, self)?;
        push_extensions(text, self.extensions.as_slice())
    }
}

/// Appends the lines from the version to the issuer.
fn push_head(text: &mut String, report: &Report) -> Result<(), AllocError>
    ensures { OnOk result (string_bytes text.new ≡ string_bytes text.old ++ head_text report.now) }
{
    push_line(text, "version:       ", &report.version)?;
    push_line(text, "serial number: ", &report.serial_number)?;
    push_line(text, "subject:       ", &report.subject)?;
    push_line(text, "issuer:        ", &report.issuer)
}

/// Appends the lines of the times.
fn push_times(text: &mut String, report: &Report) -> Result<(), AllocError>
    ensures { OnOk result (string_bytes text.new ≡ string_bytes text.old ++ times_text report.now) }
{
    push_line(text, "valid from:    ", &report.valid_from)?;
    push_line(text, "valid until:   ", &report.valid_until)
}

/// Appends the lines of the public key and the signature.
fn push_tail(text: &mut String, report: &Report) -> Result<(), AllocError>
    ensures { OnOk result (string_bytes text.new ≡ string_bytes text.old ++ tail_text report.now) }
{
    push_line(text, "public key:    ", &report.key)?;
    push_line(text, "signature:     ", &report.signature)
}

/// Appends the lines of extensions.
fn push_extensions(text: &mut String, extensions: &[ShownExtension]) -> Result<(), AllocError>
    ensures { OnOk result (string_bytes text.new ≡
        string_bytes text.old ++ extensions_text extensions.now) }
{
    for extension in extensions {
        push_line(text, "extension ", extension)?;
    }
    Ok(())
}
