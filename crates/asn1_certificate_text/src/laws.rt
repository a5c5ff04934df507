//! Laws that no other contract states: a text determines the octets of its certificates, and derives compare contents.
ghost use Rattle.std.specs.List.{AllZip};
ghost use Rattle.std.specs.Prelude.{◌≡◌, ◌↔◌, ℕ, IsTrue, List};
ghost use Rattle.asn1_certificate_text.specs.Pem.{AreCertificatesFrom, TellSameOctets};
ghost use Rattle.asn1_certificate_text.specs.declared.moment.Moment.{Moment};
ghost use Rattle.asn1_certificate_text.specs.declared.registry.Curve.{Curve};
ghost use Rattle.asn1_certificate_text.specs.declared.registry.NamedObject.{NamedObject};
ghost use Rattle.asn1_certificate_text.specs.declared.pem.PemCertificate.{PemCertificate};
ghost use Rattle.asn1_certificate_text.specs.declared.pem.PemError.{PemError};

use crate::moment::Moment;
use crate::pem::PemError;
use crate::registry::{Curve, NamedObject};

/// The number of certificates in a text, and the octets of each, are determined by the text.
pub fn texts_tell_their_certificates()
    ensures { (text : List ℕ) (a b : List PemCertificate) → AreCertificatesFrom 0 text a →
        AreCertificatesFrom 0 text b → AllZip TellSameOctets a b }
{}

/// Two moments are equal if and only if their numbers are, two errors if and only if they are the same, and clones are
/// their sources.
pub fn derives_keep_what_a_value_is()
    ensures moments { (a b : Moment) → IsTrue (⟦<Moment as PartialEq>⟧.eq a b) ↔ (a ≡ b) }
    ensures errors { (a b : PemError) → IsTrue (⟦<PemError as PartialEq>⟧.eq a b) ↔ (a ≡ b) }
    ensures clones_of_moments { (a b : Moment) → ⟦<Moment as Clone>⟧.is_clone a b → b ≡ a }
    ensures clones_of_errors { (a b : PemError) → ⟦<PemError as Clone>⟧.is_clone a b → b ≡ a }
    ensures clones_of_objects { (a b : NamedObject) → ⟦<NamedObject as Clone>⟧.is_clone a b →
        b ≡ a }
    ensures clones_of_curves { (a b : Curve) → ⟦<Curve as Clone>⟧.is_clone a b → b ≡ a }
{}
