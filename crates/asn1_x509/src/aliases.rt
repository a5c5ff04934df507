//! Types that are other types under names of their own.

use crate::attribute_type_and_value::AttributeTypeAndValue;
use crate::extension::Extension;
use asn1_schema::{Any, BitVec, Integer, ObjectIdentifier, SetOf};

/// `Version ::= INTEGER { v1(0), v2(1), v3(2) }`
pub type Version = Integer;

/// The names in `Version`.
pub struct VersionNames;

impl VersionNames {
    /// `v1(0)`
    pub const V1: i128 = 0;

    /// `v2(1)`
    pub const V2: i128 = 1;

    /// `v3(2)`
    pub const V3: i128 = 2;
}

/// `CertificateSerialNumber ::= INTEGER`
pub type CertificateSerialNumber = Integer;

/// `UniqueIdentifier ::= BIT STRING`
pub type UniqueIdentifier = BitVec;

/// `Extensions ::= SEQUENCE (SIZE (1..MAX)) OF Extension`
pub type Extensions = Vec<Extension>;

/// `RDNSequence ::= SEQUENCE OF RelativeDistinguishedName`
pub type RdnSequence = Vec<RelativeDistinguishedName>;

/// `RelativeDistinguishedName ::= SET (SIZE (1..MAX)) OF AttributeTypeAndValue`
pub type RelativeDistinguishedName = SetOf<AttributeTypeAndValue>;

/// `AttributeType ::= OBJECT IDENTIFIER`
pub type AttributeType = ObjectIdentifier;

/// `AttributeValue ::= ANY`
pub type AttributeValue = Any;
