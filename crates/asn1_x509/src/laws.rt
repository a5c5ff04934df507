//! The records of certificates, the same for every codec.
ghost use Rattle.std.specs.Prelude.{None, pos, true, ◌≡◌};
ghost use Rattle.asn1_model.specs.Orders.{SameRecords};
ghost use Rattle.asn1_schema.specs.Words.{own_records};
ghost use Rattle.asn1_x509.specs.CertificateRecords.{first_version_records};

use crate::certificate::{Certificate, certificate_has_one_spelling, certificate_is_well_tagged};
use crate::tbs_certificate::TbsCertificate;
use asn1_schema::AsnType;

/// The records of a certificate of the first version without unique names and extensions: none of the four is written.
pub fn first_version_is_absent(tbs: &TbsCertificate)
    ensures { tbs.now.version ≡ pos 0 → tbs.now.issuer_unique_id ≡ None →
        tbs.now.subject_unique_id ≡ None → tbs.now.extensions ≡ None →
        own_records ⟦<TbsCertificate as AsnType>⟧.meaning tbs.now ≡ first_version_records tbs.now }
{}

/// Equal certificates have the same records, up to the order inside sets: what is written of the one is written of the other.
pub fn equal_certificates_have_the_same_records()
    ensures { (one other : Certificate) → ⟦<Certificate as PartialEq>⟧.eq one other ≡ true →
        SameRecords (own_records ⟦<Certificate as AsnType>⟧.meaning one)
        (own_records ⟦<Certificate as AsnType>⟧.meaning other) }
{
    certificate_is_well_tagged();
    certificate_has_one_spelling();
}
