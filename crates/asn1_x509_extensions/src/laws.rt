//! The tags of the extensions whose types have another name alone.
ghost use Rattle.asn1_schema.specs.Words.{IsWellTagged};

use crate::aliases::{ExtKeyUsageSyntax, KeyUsage, SubjectKeyIdentifier};
use asn1_schema::AsnType;

/// The extensions whose types are not of this crate can be inside other types too.
pub fn key_extensions_are_well_tagged()
    ensures subject_key_identifier { IsWellTagged ⟦<SubjectKeyIdentifier as AsnType>⟧.meaning }
    ensures key_usage { IsWellTagged ⟦<KeyUsage as AsnType>⟧.meaning }
    ensures extended_key_usage { IsWellTagged ⟦<ExtKeyUsageSyntax as AsnType>⟧.meaning }
{}
