//! Laws of the spelling of certificates.
ghost use Rattle.asn1_der.specs.Format.{der_format};
ghost use Rattle.asn1_model.specs.Meaning.{own_records};
ghost use Rattle.asn1_rules.specs.CanonicalReading.{AreOctets, HasOneSpelling, HaveOneSpelling};
ghost use Rattle.std.specs.Prelude.{◌≡◌, Vec, true, ℕ};
ghost use Rattle.std.specs.declared.alloc.Global.{Global};

use asn1_der::canonical::{equal_values_have_one_spelling, well_tagged_types_have_one_spelling};
use asn1_types::AsnType;
use asn1_x509::{
    Certificate, certificate_has_one_spelling, certificate_is_well_tagged,
    equal_certificates_have_the_same_records,
};

/// A law of one spelling: if `read_canonical` of `asn1_rules` answers equal certificates by DER, the two inputs were the same octets
/// (`equal`). The DER of a certificate is its only spelling (`only`), so `read_canonical` reads it back.
pub fn equal_certificates_have_one_spelling()
    ensures equal { (one other : Certificate) →
        ⟦<Certificate as PartialEq>⟧.eq one other ≡ true →
        HaveOneSpelling der_format ⟦<Certificate as AsnType>⟧.meaning one other }
    ensures only { (output : Vec ℕ Global) (certificate : Certificate) → AreOctets output.items →
        der_format.carries output (own_records ⟦<Certificate as AsnType>⟧.meaning certificate) →
        HasOneSpelling der_format ⟦<Certificate as AsnType>⟧.meaning
        ⟦<Certificate as PartialEq>⟧.eq certificate output.items }
{
    certificate_is_well_tagged();
    certificate_has_one_spelling();
    equal_certificates_have_the_same_records();
    equal_values_have_one_spelling::<Certificate>();
    well_tagged_types_have_one_spelling::<Certificate>();
}
