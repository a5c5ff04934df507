//! The valid certificates: those whose open types the codec accepts.
ghost use Rattle.std.specs.Prelude.{Bool, IsTrue, List, ℕ, ◌↔◌};
ghost use Rattle.asn1_x509.specs.OpenValues.{CertificateIsAccepted, NameIsAccepted, ParametersAreAccepted, SignedPartIsAccepted};

use crate::algorithm_identifier::AlgorithmIdentifier;
use crate::attribute_type_and_value::AttributeTypeAndValue;
use crate::certificate::Certificate;
use crate::directory_string::DirectoryString;
use crate::extension::Extension;
use crate::name::Name;
use crate::rsa_public_key::RsaPublicKey;
use crate::subject_public_key_info::SubjectPublicKeyInfo;
use crate::tbs_certificate::TbsCertificate;
use crate::time::Time;
use crate::validity::Validity;
use asn1_schema::AsnType;

/// A `Certificate` is valid if and only if the codec accepts what is open in it.
pub fn certificate_is_valid(certificate: &Certificate)
    ensures { (accepts : List ℕ → Bool) →
        ⟦<Certificate as AsnType>⟧.meaning.IsValid accepts certificate.now ↔
        CertificateIsAccepted accepts certificate.now }
{}

/// A `TbsCertificate` is valid if and only if the codec accepts what is open in it: whatever its extensions are, and its numbers.
pub fn tbs_certificate_is_valid(certificate: &TbsCertificate)
    ensures { (accepts : List ℕ → Bool) →
        ⟦<TbsCertificate as AsnType>⟧.meaning.IsValid accepts certificate.now ↔
        SignedPartIsAccepted accepts certificate.now }
{}

/// A `Name` is valid if and only if the codec accepts the value of each of its attributes.
pub fn name_is_valid(name: &Name)
    ensures { (accepts : List ℕ → Bool) →
        ⟦<Name as AsnType>⟧.meaning.IsValid accepts name.now ↔
        NameIsAccepted accepts name.now }
{}

/// An `AttributeTypeAndValue` is valid if and only if the codec accepts its value.
pub fn attribute_type_and_value_is_valid(attribute: &AttributeTypeAndValue)
    ensures { (accepts : List ℕ → Bool) →
        ⟦<AttributeTypeAndValue as AsnType>⟧.meaning.IsValid accepts attribute.now ↔
        IsTrue (accepts attribute.now.value) }
{}

/// A `SubjectPublicKeyInfo` is valid if and only if the codec accepts the parameters of its algorithm, where there are any.
pub fn subject_public_key_info_is_valid(key: &SubjectPublicKeyInfo)
    ensures { (accepts : List ℕ → Bool) →
        ⟦<SubjectPublicKeyInfo as AsnType>⟧.meaning.IsValid accepts key.now ↔
        ParametersAreAccepted accepts key.now.algorithm }
{}

/// An `AlgorithmIdentifier` is valid if and only if the codec accepts its parameters, where there are any.
pub fn algorithm_identifier_is_valid(algorithm: &AlgorithmIdentifier)
    ensures { (accepts : List ℕ → Bool) →
        ⟦<AlgorithmIdentifier as AsnType>⟧.meaning.IsValid accepts algorithm.now ↔
        ParametersAreAccepted accepts algorithm.now }
{}

/// Each `DirectoryString` is valid, also an empty one.
pub fn directory_string_is_valid(text: &DirectoryString)
    ensures { (accepts : List ℕ → Bool) →
        ⟦<DirectoryString as AsnType>⟧.meaning.IsValid accepts text.now }
{}

/// Each `Extension` is valid, whatever its value has in it.
pub fn extension_is_valid(extension: &Extension)
    ensures { (accepts : List ℕ → Bool) →
        ⟦<Extension as AsnType>⟧.meaning.IsValid accepts extension.now }
{}

/// Each `RsaPublicKey` is valid.
pub fn rsa_public_key_is_valid(key: &RsaPublicKey)
    ensures { (accepts : List ℕ → Bool) →
        ⟦<RsaPublicKey as AsnType>⟧.meaning.IsValid accepts key.now }
{}

/// Each `Time` is valid.
pub fn time_is_valid(time: &Time)
    ensures { (accepts : List ℕ → Bool) →
        ⟦<Time as AsnType>⟧.meaning.IsValid accepts time.now }
{}

/// Each `Validity` is valid, also one that ends before it begins.
pub fn validity_is_valid(validity: &Validity)
    ensures { (accepts : List ℕ → Bool) →
        ⟦<Validity as AsnType>⟧.meaning.IsValid accepts validity.now }
{}
