//! Types that are other types under names of their own.

use crate::general_name::GeneralName;
use asn1_schema::{Any, NamedBitString, ObjectIdentifier, OctetString};

/// `KeyIdentifier ::= OCTET STRING`
pub type KeyIdentifier = OctetString;

/// `SubjectKeyIdentifier ::= KeyIdentifier`
pub type SubjectKeyIdentifier = KeyIdentifier;

/// `KeyUsage ::= BIT STRING { digitalSignature(0), nonRepudiation(1), keyEncipherment(2), dataEncipherment(3), keyAgreement(4), keyCertSign(5), cRLSign(6), encipherOnly(7), decipherOnly(8) }`
pub type KeyUsage = NamedBitString;

/// The names in `KeyUsage`.
pub struct KeyUsageNames;

impl KeyUsageNames {
    /// `digitalSignature(0)`
    pub const DIGITAL_SIGNATURE: usize = 0;

    /// `nonRepudiation(1)`
    pub const NON_REPUDIATION: usize = 1;

    /// `keyEncipherment(2)`
    pub const KEY_ENCIPHERMENT: usize = 2;

    /// `dataEncipherment(3)`
    pub const DATA_ENCIPHERMENT: usize = 3;

    /// `keyAgreement(4)`
    pub const KEY_AGREEMENT: usize = 4;

    /// `keyCertSign(5)`
    pub const KEY_CERT_SIGN: usize = 5;

    /// `cRLSign(6)`
    pub const CRL_SIGN: usize = 6;

    /// `encipherOnly(7)`
    pub const ENCIPHER_ONLY: usize = 7;

    /// `decipherOnly(8)`
    pub const DECIPHER_ONLY: usize = 8;
}

/// `ExtKeyUsageSyntax ::= SEQUENCE (SIZE (1..MAX)) OF KeyPurposeId`
pub type ExtKeyUsageSyntax = Vec<KeyPurposeId>;

/// `KeyPurposeId ::= OBJECT IDENTIFIER`
pub type KeyPurposeId = ObjectIdentifier;

/// `SubjectAltName ::= GeneralNames`
pub type SubjectAltName = GeneralNames;

/// `IssuerAltName ::= GeneralNames`
pub type IssuerAltName = GeneralNames;

/// `GeneralNames ::= SEQUENCE (SIZE (1..MAX)) OF GeneralName`
pub type GeneralNames = Vec<GeneralName>;

/// `ORAddress ::= SEQUENCE OF ANY`
pub type OrAddress = Vec<Any>;
