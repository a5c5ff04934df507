//! Types that are other types under names of their own.

use crate::control::Control;
use crate::ldap_result::LdapResult;
use crate::partial_attribute::PartialAttribute;
use crate::tags::{
    Application2, Application5, Application7, Application9, Application10, Application11,
    Application13, Application15, Application16, Application19,
};
use asn1_schema::{ConstrainedInteger, Implicit, OctetString};

/// `MessageID ::= INTEGER (0..maxInt)`
pub type MessageId = ConstrainedInteger<0, 2147483647>;

/// `LDAPString ::= OCTET STRING`
pub type LdapString = OctetString;

/// `LDAPOID ::= OCTET STRING`
pub type Ldapoid = OctetString;

/// `LDAPDN ::= LDAPString`
pub type Ldapdn = LdapString;

/// `RelativeLDAPDN ::= LDAPString`
pub type RelativeLdapdn = LdapString;

/// `AttributeDescription ::= LDAPString`
pub type AttributeDescription = LdapString;

/// `AttributeValue ::= OCTET STRING`
pub type AttributeValue = OctetString;

/// `AssertionValue ::= OCTET STRING`
pub type AssertionValue = OctetString;

/// `Attribute ::= PartialAttribute (WITH COMPONENTS { ..., vals (SIZE (1..MAX)) })`
pub type Attribute = PartialAttribute;

/// `MatchingRuleId ::= LDAPString`
pub type MatchingRuleId = LdapString;

/// `Referral ::= SEQUENCE (SIZE (1..MAX)) OF uri URI`
pub type Referral = Vec<Uri>;

/// `URI ::= LDAPString`
pub type Uri = LdapString;

/// `Controls ::= SEQUENCE OF control Control`
pub type Controls = Vec<Control>;

/// `UnbindRequest ::= [APPLICATION 2] NULL`
pub type UnbindRequest = Implicit<Application2, ()>;

/// `AttributeSelection ::= SEQUENCE OF selector LDAPString`
pub type AttributeSelection = Vec<LdapString>;

/// `PartialAttributeList ::= SEQUENCE OF partialAttribute PartialAttribute`
pub type PartialAttributeList = Vec<PartialAttribute>;

/// `SearchResultReference ::= [APPLICATION 19] SEQUENCE (SIZE (1..MAX)) OF uri URI`
pub type SearchResultReference = Implicit<Application19, Vec<Uri>>;

/// `SearchResultDone ::= [APPLICATION 5] LDAPResult`
pub type SearchResultDone = Implicit<Application5, LdapResult>;

/// `ModifyResponse ::= [APPLICATION 7] LDAPResult`
pub type ModifyResponse = Implicit<Application7, LdapResult>;

/// `AttributeList ::= SEQUENCE OF attribute Attribute`
pub type AttributeList = Vec<Attribute>;

/// `AddResponse ::= [APPLICATION 9] LDAPResult`
pub type AddResponse = Implicit<Application9, LdapResult>;

/// `DelRequest ::= [APPLICATION 10] LDAPDN`
pub type DelRequest = Implicit<Application10, Ldapdn>;

/// `DelResponse ::= [APPLICATION 11] LDAPResult`
pub type DelResponse = Implicit<Application11, LdapResult>;

/// `ModifyDNResponse ::= [APPLICATION 13] LDAPResult`
pub type ModifyDnResponse = Implicit<Application13, LdapResult>;

/// `CompareResponse ::= [APPLICATION 15] LDAPResult`
pub type CompareResponse = Implicit<Application15, LdapResult>;

/// `AbandonRequest ::= [APPLICATION 16] MessageID`
pub type AbandonRequest = Implicit<Application16, MessageId>;
