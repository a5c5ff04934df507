//! The valid extensions: those whose open types the codec accepts.
ghost use Rattle.std.specs.Prelude.{All, Bool, IfSome, IsTrue, List, ℕ, ◌↔◌};
ghost use Rattle.asn1_x509_extensions.specs.OpenNames.{GeneralNameIsAccepted};

use crate::aliases::{ExtKeyUsageSyntax, KeyUsage, SubjectKeyIdentifier};
use crate::another_name::AnotherName;
use crate::authority_key_identifier::AuthorityKeyIdentifier;
use crate::basic_constraints::BasicConstraints;
use crate::edi_party_name::EdiPartyName;
use crate::general_name::GeneralName;
use asn1_schema::AsnType;

/// A `GeneralName` is valid if and only if the codec accepts what is open in it.
pub fn general_name_is_valid(name: &GeneralName)
    ensures { (accepts : List ℕ → Bool) →
        ⟦<GeneralName as AsnType>⟧.meaning.IsValid accepts name.now ↔
        GeneralNameIsAccepted accepts name.now }
{}

/// An `AnotherName` is valid if and only if the codec accepts its value.
pub fn another_name_is_valid(name: &AnotherName)
    ensures { (accepts : List ℕ → Bool) →
        ⟦<AnotherName as AsnType>⟧.meaning.IsValid accepts name.now ↔
        IsTrue (accepts name.now.value) }
{}

/// Each `EdiPartyName` is valid.
pub fn edi_party_name_is_valid(party: &EdiPartyName)
    ensures { (accepts : List ℕ → Bool) →
        ⟦<EdiPartyName as AsnType>⟧.meaning.IsValid accepts party.now }
{}

/// An `AuthorityKeyIdentifier` is valid if and only if the codec accepts what is open in the names of the issuer, if there are any.
pub fn authority_key_identifier_is_valid(key: &AuthorityKeyIdentifier)
    ensures { (accepts : List ℕ → Bool) →
        ⟦<AuthorityKeyIdentifier as AsnType>⟧.meaning.IsValid accepts key.now ↔
        IfSome key.now.authority_cert_issuer (λ n. All (GeneralNameIsAccepted accepts) n.items) }
{}

/// Each `BasicConstraints` is valid, also one with a negative path length.
pub fn basic_constraints_is_valid(constraints: &BasicConstraints)
    ensures { (accepts : List ℕ → Bool) →
        ⟦<BasicConstraints as AsnType>⟧.meaning.IsValid accepts constraints.now }
{}

/// Each value of these is valid.
pub fn key_extensions_are_valid(
    key: &SubjectKeyIdentifier,
    usage: &KeyUsage,
    purposes: &ExtKeyUsageSyntax,
)
    ensures subject_key_identifier { (accepts : List ℕ → Bool) →
        ⟦<SubjectKeyIdentifier as AsnType>⟧.meaning.IsValid accepts key.now }
    ensures key_usage { (accepts : List ℕ → Bool) →
        ⟦<KeyUsage as AsnType>⟧.meaning.IsValid accepts usage.now }
    ensures extended_key_usage { (accepts : List ℕ → Bool) →
        ⟦<ExtKeyUsageSyntax as AsnType>⟧.meaning.IsValid accepts purposes.now }
{}
