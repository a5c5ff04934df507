//! The report of a certificate.
ghost use Rattle.std.specs.Prelude.{IfOk};
ghost use Rattle.asn1_certificate_reader.specs.Reports.{AreExtensionsOf, IsReportOf};

use crate::attributes::name_of;
use crate::extensions::extensions_of;
use crate::keys::{key_of, signature_of};
use crate::scalars::{octet_number, time_of, version_of};
use asn1_certificate_text::{Report, ShownExtension};
use asn1_rules::Rules;
use asn1_x509::{Certificate, Extension};
use std::alloc::{AllocError, Global};

/// The report of a certificate. The call fails only if memory runs out.
pub fn report_of<R: Rules<Output = Vec<u8>>>(
    rules: &R,
    alloc: Global,
    certificate: &Certificate,
) -> Result<Report, AllocError>
    ensures { IfOk result (IsReportOf R.format certificate.now) }
{
    let signed = &certificate.tbs_certificate;
    Ok(Report {
        version: version_of(alloc, &signed.version)?,
        serial_number: octet_number(alloc, &signed.serial_number)?,
        subject: name_of(rules, alloc, &signed.subject)?,
        issuer: name_of(rules, alloc, &signed.issuer)?,
        valid_from: time_of(alloc, &signed.validity.not_before)?,
        valid_until: time_of(alloc, &signed.validity.not_after)?,
        key: key_of(rules, alloc, &signed.subject_public_key_info)?,
        signature: signature_of(alloc, &certificate.signature_algorithm, &signed.signature)?,
        extensions: all_extensions(rules, alloc, &signed.extensions)?,
    })
}

/// The report of extensions, if there are any.
fn all_extensions<R: Rules<Output = Vec<u8>>>(
    rules: &R,
    alloc: Global,
    extensions: &Option<Vec<Extension>>,
) -> Result<Vec<ShownExtension>, AllocError>
    ensures { IfOk result (λ shown. AreExtensionsOf R.format extensions.now shown.items) }
{
    match extensions {
        Some(extensions) => extensions_of(rules, alloc, extensions.as_slice()),
        None => Ok(Vec::new(alloc)),
    }
}
