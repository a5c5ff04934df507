//! The laws of `asn1_spelling` at two types: a SET with a group of additions, and a CHOICE.
ghost use Rattle.asn1_der.specs.Format.{der_format};
ghost use Rattle.asn1_model.specs.Meaning.{own_records};
ghost use Rattle.asn1_rules.specs.CanonicalReading.{AreOctets, HasOneSpelling};
ghost use Rattle.std.specs.Prelude.{Vec, ℕ};
ghost use Rattle.std.specs.declared.alloc.Global.{Global};

use crate::menu::{Menu, menu_is_well_tagged};
use asn1_der::canonical::well_tagged_types_have_one_spelling;
use asn1_samples::{Corner, corner_is_well_tagged};
use asn1_types::AsnType;

/// Octets that are the DER of a `Menu` are its only spelling.
pub fn menu_has_one_spelling()
    ensures { (output : Vec ℕ Global) (v : Menu) → AreOctets output.items →
        der_format.carries output (own_records ⟦<Menu as AsnType>⟧.meaning v) →
        HasOneSpelling der_format ⟦<Menu as AsnType>⟧.meaning ⟦<Menu as PartialEq>⟧.eq v
        output.items }
{
    menu_is_well_tagged();
    well_tagged_types_have_one_spelling::<Menu>();
}

/// So are those that are the DER of a `Corner`.
pub fn corner_has_one_spelling()
    ensures { (output : Vec ℕ Global) (v : Corner) → AreOctets output.items →
        der_format.carries output (own_records ⟦<Corner as AsnType>⟧.meaning v) →
        HasOneSpelling der_format ⟦<Corner as AsnType>⟧.meaning ⟦<Corner as PartialEq>⟧.eq v
        output.items }
{
    corner_is_well_tagged();
    well_tagged_types_have_one_spelling::<Corner>();
}
