//! Laws of the texts.
ghost use Rattle.std.specs.Prelude.{◌≡◌, ◌<◌, All, List, ℕ};
ghost use Rattle.asn1_ldap_text.specs.Escapes.{escaped_text};
ghost use Rattle.asn1_ldap_text.specs.declared.escapes.Place.{Place};

/// The octets of a name or a value are determined by its text, at each place.
pub fn escaped_octets_read_back()
    ensures { (place : Place) (a b : List ℕ) → All (λ octet. octet < 256) a →
        All (λ octet. octet < 256) b → escaped_text place a ≡ escaped_text place b → a ≡ b }
{}
