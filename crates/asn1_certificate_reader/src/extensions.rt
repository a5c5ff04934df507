//! Extensions.
ghost use Rattle.std.specs.List.{AllZip};
ghost use Rattle.std.specs.Prelude.{◌≡◌, IfOk};
ghost use Rattle.asn1_certificate_reader.specs.ExtensionValues.{IsValueOfKind, kind_of};
ghost use Rattle.asn1_certificate_reader.specs.Reports.{IsExtensionOf};

use crate::objects::object_of;
use crate::shown_value::shown_as;
use asn1_certificate_text::{ExtensionValue, ShownExtension};
use asn1_rules::Rules;
use asn1_x509::Extension;
use asn1_x509_extensions::{
    AuthorityKeyIdentifier, BasicConstraints, ExtKeyUsageSyntax, GeneralNames, KeyIdentifier,
    KeyUsage,
};
use std::alloc::{AllocError, Global};

/// The report of extensions.
pub(crate) fn extensions_of<R: Rules<Output = Vec<u8>>>(
    rules: &R,
    alloc: Global,
    extensions: &[Extension],
) -> Result<Vec<ShownExtension>, AllocError>
    ensures { IfOk result (λ shown. AllZip (IsExtensionOf R.format) extensions.now shown.items) }
{
    let mut shown = Vec::new(alloc);
    for extension in extensions {
        shown.push(extension_of(rules, alloc, extension)?)?;
    }
    Ok(shown)
}

/// An extension with its kind, whether it is critical, and its value.
fn extension_of<R: Rules<Output = Vec<u8>>>(
    rules: &R,
    alloc: Global,
    extension: &Extension,
) -> Result<ShownExtension, AllocError>
    ensures { IfOk result (IsExtensionOf R.format extension.now) }
{
    let kind = kind_of(extension.extn_id.as_slice());
    Ok(ShownExtension {
        kind: object_of(alloc, &extension.extn_id)?,
        is_critical: extension.critical,
        value: value_of(rules, alloc, kind, extension.extn_value.as_slice())?,
    })
}

/// A kind of value, by the extensions that have one.
#[derive(Clone, Copy)]
enum ValueKind {
    /// `id-ce-subjectKeyIdentifier`
    KeyIdentifier,
    /// `id-ce-keyUsage`
    Usages,
    /// `id-ce-subjectAltName` and `id-ce-issuerAltName`
    Names,
    /// `id-ce-basicConstraints`
    Authority,
    /// `id-ce-authorityKeyIdentifier`
    AuthorityKey,
    /// `id-ce-extKeyUsage`
    Purposes,
    /// Any other extension.
    Unknown,
}

/// The kind of the values of the extension of these arcs.
fn kind_of(arcs: &[u32]) -> ValueKind
    ensures { result ≡ kind_of arcs.now }
{
    match arcs {
        [2, 5, 29, 14] => ValueKind::KeyIdentifier,
        [2, 5, 29, 15] => ValueKind::Usages,
        [2, 5, 29, 17] => ValueKind::Names,
        [2, 5, 29, 18] => ValueKind::Names,
        [2, 5, 29, 19] => ValueKind::Authority,
        [2, 5, 29, 35] => ValueKind::AuthorityKey,
        [2, 5, 29, 37] => ValueKind::Purposes,
        _ => ValueKind::Unknown,
    }
}

/// The report of a value of this kind: its octets, if they are not of the type of the kind or the kind has no type here.
fn value_of<R: Rules<Output = Vec<u8>>>(
    rules: &R,
    alloc: Global,
    kind: ValueKind,
    octets: &[u8],
) -> Result<ExtensionValue, AllocError>
    ensures { IfOk result (IsValueOfKind R.format kind octets.now) }
{
    match kind {
        ValueKind::KeyIdentifier => shown_as::<R, KeyIdentifier>(rules, alloc, octets),
        ValueKind::Usages => shown_as::<R, KeyUsage>(rules, alloc, octets),
        ValueKind::Names => shown_as::<R, GeneralNames>(rules, alloc, octets),
        ValueKind::Authority => shown_as::<R, BasicConstraints>(rules, alloc, octets),
        ValueKind::AuthorityKey => shown_as::<R, AuthorityKeyIdentifier>(rules, alloc, octets),
        ValueKind::Purposes => shown_as::<R, ExtKeyUsageSyntax>(rules, alloc, octets),
        ValueKind::Unknown => Ok(ExtensionValue::Octets(Vec::from_slice(alloc, octets)?)),
    }
}
