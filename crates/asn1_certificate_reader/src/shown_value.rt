//! The types of the values of extensions, and the reports of their values.
ghost use Rattle.std.specs.Prelude.{◌≡◌, IfOk};
ghost use Rattle.asn1_certificate_reader.specs.ExtensionValues.{AreIssuers, AreNames, ArePurposes, AreUsages, IsAuthority, IsAuthorityKey, IsKeyIdentifier, IsKeyOfAuthority, IsShownAs};
ghost use Rattle.asn1_certificate_reader.specs.Options.{AreBothOrNone};
ghost use Rattle.asn1_certificate_reader.specs.Scalars.{IsOctetNumberOf};

use crate::general_names::general_names_of;
use crate::inside::read_inside;
use crate::objects::objects_of;
use crate::scalars::{copy_of, octet_number};
use asn1_certificate_text::{
    Authority, AuthorityKey, ExtensionValue, OctetNumber, ShownGeneralName,
};
use asn1_dec::Decode;
use asn1_rules::Rules;
use asn1_values::{Integer, NamedBitString, ObjectIdentifier, OctetString};
use asn1_x509_extensions::{
    AuthorityKeyIdentifier, BasicConstraints, GeneralName, GeneralNames, KeyIdentifier,
    authority_key_identifier_is_well_tagged, basic_constraints_is_well_tagged,
    general_name_is_well_tagged, key_extensions_are_well_tagged,
};
use std::alloc::{AllocError, Global};

/// A type of values of extensions, with their reports. An extension's type may be a common one by another name: an
/// OCTET STRING is a key identifier here, a BIT STRING with named bits a key usage, and a list of objects an extended key usage.
pub(crate) trait ShownValue: Decode {
    ghost use Rattle.std.specs.Prelude.{ℕ, Vec};
    ghost use Rattle.std.specs.declared.alloc.Global.{Global};
    ghost use Rattle.asn1_certificate_text.specs.declared.extension.ExtensionValue.{ExtensionValue};
    ghost use Rattle.asn1_model.specs.Meaning.{IsWellTagged};
    ghost use Rattle.asn1_rules.specs.Rules.{Format};

    // The relation of a value to its report, by a codec of this format.
    ghost IsShown: { Format (Vec ℕ Global) → Self → ExtensionValue → Type 0 };

    /// The report of a value.
    fn shown<R: Rules<Output = Vec<u8>>>(
        &self,
        rules: &R,
        alloc: Global,
    ) -> Result<ExtensionValue, AllocError>
        ensures { IfOk result (IsShown R.format self.now) };

    /// The type can be read: it is well tagged.
    fn is_well_tagged()
        ensures { IsWellTagged Self.meaning };
}

/// The report of octets by a type: that of the value that they are read as, or else the octets.
pub(crate) fn shown_as<R: Rules<Output = Vec<u8>>, T: ShownValue>(
    rules: &R,
    alloc: Global,
    octets: &[u8],
) -> Result<ExtensionValue, AllocError>
    ensures { IfOk result
        (IsShownAs R.format T.meaning T.eq (T.IsShown R.format) octets.now) }
{
    T::is_well_tagged();
    match read_inside::<R, T>(rules, alloc, octets)? {
        Some(value) => value.shown(rules, alloc),
        None => Ok(ExtensionValue::OtherType(Vec::from_slice(alloc, octets)?)),
    }
}

/// The identifier of the key of a certificate.
impl ShownValue for OctetString {
    ghost IsShown = { λ _. IsKeyIdentifier };

    fn shown<R: Rules<Output = Vec<u8>>>(
        &self,
        _rules: &R,
        alloc: Global,
    ) -> Result<ExtensionValue, AllocError> {
        Ok(ExtensionValue::KeyIdentifier(Vec::from_slice(alloc, self.as_slice())?))
    }

    fn is_well_tagged() {
        key_extensions_are_well_tagged();
    }
}

/// The usages of a key, as bits.
impl ShownValue for NamedBitString {
    ghost IsShown = { λ _. AreUsages };

    fn shown<R: Rules<Output = Vec<u8>>>(
        &self,
        _rules: &R,
        alloc: Global,
    ) -> Result<ExtensionValue, AllocError> {
        Ok(ExtensionValue::Usages(self.as_bits().to_vec(alloc)?))
    }

    fn is_well_tagged() {
        key_extensions_are_well_tagged();
    }
}

/// Further names.
impl ShownValue for Vec<GeneralName> {
    ghost IsShown = { λ format names. AreNames format names.items };

    fn shown<R: Rules<Output = Vec<u8>>>(
        &self,
        rules: &R,
        alloc: Global,
    ) -> Result<ExtensionValue, AllocError> {
        let names = general_names_of(rules, alloc, self.as_slice())?;
        Ok(ExtensionValue::Names(names))
    }

    fn is_well_tagged() {
        general_name_is_well_tagged();
    }
}

/// The purposes of a key, as objects.
impl ShownValue for Vec<ObjectIdentifier> {
    ghost IsShown = { λ _ purposes. ArePurposes purposes.items };

    fn shown<R: Rules<Output = Vec<u8>>>(
        &self,
        _rules: &R,
        alloc: Global,
    ) -> Result<ExtensionValue, AllocError> {
        let purposes = objects_of(alloc, self.as_slice())?;
        Ok(ExtensionValue::Purposes(purposes))
    }

    fn is_well_tagged() {
        key_extensions_are_well_tagged();
    }
}

/// Whether a certificate is that of an authority.
impl ShownValue for BasicConstraints {
    ghost IsShown = { λ _. IsAuthority };

    fn shown<R: Rules<Output = Vec<u8>>>(
        &self,
        _rules: &R,
        alloc: Global,
    ) -> Result<ExtensionValue, AllocError> {
        Ok(ExtensionValue::Authority(Authority {
            is_authority: self.ca,
            path_length: path_length_of(alloc, &self.path_len_constraint)?,
        }))
    }

    fn is_well_tagged() {
        basic_constraints_is_well_tagged();
    }
}

/// The greatest number of certificates between, if there is a limit.
fn path_length_of(alloc: Global, length: &Option<Integer>) -> Result<Option<Integer>, AllocError>
    ensures { IfOk result (λ shown. shown ≡ length.now) }
{
    match length {
        Some(length) => Ok(Some(copy_of(alloc, length)?)),
        None => Ok(None),
    }
}

/// The key of the authority that signed a certificate.
impl ShownValue for AuthorityKeyIdentifier {
    ghost IsShown = { IsAuthorityKey };

    fn shown<R: Rules<Output = Vec<u8>>>(
        &self,
        rules: &R,
        alloc: Global,
    ) -> Result<ExtensionValue, AllocError> {
        let key = authority_key_of(rules, alloc, self)?;
        Ok(ExtensionValue::AuthorityKey(key))
    }

    fn is_well_tagged() {
        authority_key_identifier_is_well_tagged();
    }
}

/// The key of an authority.
fn authority_key_of<R: Rules<Output = Vec<u8>>>(
    rules: &R,
    alloc: Global,
    key: &AuthorityKeyIdentifier,
) -> Result<AuthorityKey, AllocError>
    ensures { IfOk result (IsKeyOfAuthority R.format key.now) }
{
    Ok(AuthorityKey {
        identifier: identifier_of(alloc, &key.key_identifier)?,
        serial_number: serial_number_of(alloc, &key.authority_cert_serial_number)?,
        issuer: issuer_of(rules, alloc, &key.authority_cert_issuer)?,
    })
}

/// The octets of an identifier, if there is one.
fn identifier_of(
    alloc: Global,
    identifier: &Option<KeyIdentifier>,
) -> Result<Option<Vec<u8>>, AllocError>
    ensures { IfOk result
        (AreBothOrNone (λ octets copy. copy.items ≡ octets) identifier.now) }
{
    match identifier {
        Some(identifier) => Ok(Some(Vec::from_slice(alloc, identifier.as_slice())?)),
        None => Ok(None),
    }
}

/// A serial number, if there is one.
fn serial_number_of(
    alloc: Global,
    number: &Option<Integer>,
) -> Result<Option<OctetNumber>, AllocError>
    ensures { IfOk result (AreBothOrNone IsOctetNumberOf number.now) }
{
    match number {
        Some(number) => Ok(Some(octet_number(alloc, number)?)),
        None => Ok(None),
    }
}

/// The names of an issuer, if there are any.
fn issuer_of<R: Rules<Output = Vec<u8>>>(
    rules: &R,
    alloc: Global,
    names: &Option<GeneralNames>,
) -> Result<Vec<ShownGeneralName>, AllocError>
    ensures { IfOk result (λ shown. AreIssuers R.format names.now shown.items) }
{
    match names {
        Some(names) => general_names_of(rules, alloc, names.as_slice()),
        None => Ok(Vec::new(alloc)),
    }
}
