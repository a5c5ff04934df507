//! Extensions.
ghost use Rattle.std.specs.Prelude.{◌≡◌, ◌++◌, OnOk};
ghost use Rattle.std.specs.String.{string_bytes};
ghost use Rattle.asn1_certificate_text.specs.Extensions.{authority_key_text, authority_text, authority_word, criticality_text, extension_text, extension_value_text, identifier_text, path_length_text, serial_number_text, spaced_octets};

use crate::append_text::{AppendText, push_after, push_each, push_joined};
use crate::bits::push_usages;
use crate::general_name::ShownGeneralName;
use crate::number::OctetNumber;
use crate::object::Object;
use crate::octets::push_octets;
use asn1_values::Integer;
use std::alloc::AllocError;
use std::fmt::Write;

/// An extension.
#[derive(Drop)]
pub struct ShownExtension {
    /// Its kind.
    pub kind: Object,
    /// Whether it is critical: a reader that does not know its kind must not accept the certificate.
    pub is_critical: bool,
    /// Its value.
    pub value: ExtensionValue,
}

/// Its kind, whether it is critical, and its value after a colon.
impl AppendText for ShownExtension {
    ghost text_of = { extension_text };

    fn append_to(&self, text: &mut String) -> Result<(), AllocError> {
        self.kind.append_to(text)?;
        text.push_str(criticality(self.is_critical))?;
        self.value.append_to(text)
    }
}

/// The text between the kind of an extension and its value.
fn criticality(is_critical: bool) -> &'static str
    ensures { result.now ≡ criticality_text is_critical }
{
    if is_critical { ", critical:" } else { ":" }
}

/// The value of an extension (RFC 5280, 4.2.1).
#[derive(Drop)]
pub enum ExtensionValue {
    /// The identifier of the key of a certificate.
    KeyIdentifier(Vec<u8>),
    /// The usages of the key, as bits.
    Usages(Vec<bool>),
    /// Further names.
    Names(Vec<ShownGeneralName>),
    /// Whether the certificate is that of an authority.
    Authority(Authority),
    /// The key of the authority that signed a certificate.
    AuthorityKey(AuthorityKey),
    /// The purposes of the key, as objects.
    Purposes(Vec<Object>),
    /// The octets of a kind that is not looked into.
    Octets(Vec<u8>),
    /// The octets of a value that is not of the type of its kind.
    OtherType(Vec<u8>),
}

impl AppendText for ExtensionValue {
    ghost text_of = { extension_value_text };

    fn append_to(&self, text: &mut String) -> Result<(), AllocError> {
        match self {
            ExtensionValue::KeyIdentifier(octets) => push_after_space(text, octets),
            ExtensionValue::Usages(bits) => {
                text.push_str(" ")?;
                push_usages(text, bits.as_slice())
            }
            ExtensionValue::Names(names) => push_each(text, "\n    ", names.as_slice()),
            ExtensionValue::Authority(authority) => authority.append_to(text),
            ExtensionValue::AuthorityKey(key) => key.append_to(text),
            ExtensionValue::Purposes(purposes) => {
                text.push_str(" ")?;
                push_joined(text, ", ", purposes.as_slice())
            }
            ExtensionValue::Octets(octets) => push_after_space(text, octets),
            ExtensionValue::OtherType(octets) => {
                text.push_str(" (not of its type)")?;
                push_after_space(text, octets)
            }
        }
    }
}

/// Appends a space and octets.
fn push_after_space(text: &mut String, octets: &Vec<u8>) -> Result<(), AllocError>
    ensures { OnOk result (string_bytes text.new ≡
        string_bytes text.old ++ spaced_octets octets.now.items) }
{
    text.push_str(" ")?;
    push_octets(text, octets.as_slice())
}

/// Whether a certificate is that of an authority (RFC 5280, 4.2.1.9).
#[derive(Drop)]
pub struct Authority {
    /// Whether it is one.
    pub is_authority: bool,
    /// The greatest number of certificates of other authorities between it and a last one, if there is a limit.
    pub path_length: Option<Integer>,
}

impl AppendText for Authority {
    ghost text_of = { authority_text };

    fn append_to(&self, text: &mut String) -> Result<(), AllocError> {
        text.push_str(authority_word(self.is_authority))?;
        push_path_length(text, &self.path_length)
    }
}

/// An authority or not, in words.
fn authority_word(is_authority: bool) -> &'static str
    ensures { result.now ≡ authority_word is_authority }
{
    if is_authority {
        " an authority"
    } else {
        " no authority"
    }
}

/// Appends a path length, if there is one.
fn push_path_length(text: &mut String, length: &Option<Integer>) -> Result<(), AllocError>
    ensures { OnOk result (string_bytes text.new ≡
        string_bytes text.old ++ path_length_text length.now) }
{
    match length {
        Some(length) => write!(text, ", path length {length}"),
        None => Ok(()),
    }
}

/// The key of the authority that signed a certificate (RFC 5280, 4.2.1.1).
#[derive(Drop)]
pub struct AuthorityKey {
    /// The identifier of the key.
    pub identifier: Option<Vec<u8>>,
    /// The serial number of the authority's certificate.
    pub serial_number: Option<OctetNumber>,
    /// The issuer of that certificate.
    pub issuer: Vec<ShownGeneralName>,
}

impl AppendText for AuthorityKey {
    ghost text_of = { authority_key_text };

    fn append_to(&self, text: &mut String) -> Result<(), AllocError> {
        push_identifier(text, &self.identifier)?;
        push_serial_number(text, &self.serial_number)?;
        push_each(text, "\n    ", self.issuer.as_slice())
    }
}

/// Appends the identifier of a key, if there is one.
fn push_identifier(text: &mut String, identifier: &Option<Vec<u8>>) -> Result<(), AllocError>
    ensures { OnOk result (string_bytes text.new ≡
        string_bytes text.old ++ identifier_text identifier.now) }
{
    match identifier {
        Some(octets) => push_after_space(text, octets),
        None => Ok(()),
    }
}

/// Appends a serial number, if there is one.
fn push_serial_number(text: &mut String, number: &Option<OctetNumber>) -> Result<(), AllocError>
    ensures { OnOk result (string_bytes text.new ≡
        string_bytes text.old ++ serial_number_text number.now) }
{
    match number {
        Some(number) => push_after(text, "\n    serial number ", number),
        None => Ok(()),
    }
}
