//! Types whose equal values are one value.
ghost use Rattle.asn1_model.specs.WrittenAlike.{AreWrittenAlike};
ghost use Rattle.std.specs.Prelude.{◌≡◌, true};

use asn1_model::AsnType;

/// A law of a type whose equal values are one value, as a derived equality has it if no part is a SET OF: they are written alike.
pub fn values_that_are_one_are_written_alike<T: AsnType + PartialEq>()
    ensures { ((v w : T) → T.eq v w ≡ true → v ≡ w) → AreWrittenAlike T.meaning T.eq }
{}
