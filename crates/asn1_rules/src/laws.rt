//! Laws of what no other contract names: what the derives of the errors give.
ghost use Rattle.asn1_rules.specs.declared.canonical.CanonicalError.TheVariants as canonical_errors;
ghost use Rattle.asn1_rules.specs.declared.recoding.RecodeError.TheVariants.{Read, Write};
ghost use Rattle.asn1_rules.specs.declared.round_trips.RoundTripError.TheVariants.{Reading, Writing};
ghost use Rattle.asn1_tags.specs.Derives.{ClonesAll};
ghost use Rattle.std.specs.Prelude.{◌≡◌, ◌==◌, ℕ, false};

use crate::canonical::CanonicalError;
use crate::recoding::RecodeError;
use crate::round_trips::RoundTripError;
use asn1_dec::DecodeError;
use asn1_enc::EncodeError;

/// A law of the derived equality and clone: two errors are equal where the same of the two calls failed, with equal errors, and
/// a clone is the same.
pub fn errors_are_compared_by_the_error_inside()
    ensures writing { (e f : _) → ⟦<RoundTripError as PartialEq>⟧.eq (Writing e) (Writing f) ≡
        ⟦<EncodeError as PartialEq>⟧.eq e f }
    ensures reading { (e f : _) → ⟦<RoundTripError as PartialEq>⟧.eq (Reading e) (Reading f) ≡
        ⟦<DecodeError as PartialEq>⟧.eq e f }
    ensures apart { (e : _) (f : _) → (⟦<RoundTripError as PartialEq>⟧.eq (Writing e) (Reading f) ≡
        false) × (⟦<RoundTripError as PartialEq>⟧.eq (Reading f) (Writing e) ≡ false) }
    ensures clones { ClonesAll ⟦<RoundTripError as Clone>⟧.is_clone
        ⟦<RoundTripError as Clone>⟧.is_infallible }
{}

/// A law: the same of the errors of `recode`.
pub fn recode_errors_are_compared_by_the_error_inside()
    ensures reading { (e f : _) → ⟦<RecodeError as PartialEq>⟧.eq (Read e) (Read f) ≡
        ⟦<DecodeError as PartialEq>⟧.eq e f }
    ensures writing { (e f : _) → ⟦<RecodeError as PartialEq>⟧.eq (Write e) (Write f) ≡
        ⟦<EncodeError as PartialEq>⟧.eq e f }
    ensures apart { (e : _) (f : _) → (⟦<RecodeError as PartialEq>⟧.eq (Read e) (Write f) ≡ false) ×
        (⟦<RecodeError as PartialEq>⟧.eq (Write f) (Read e) ≡ false) }
    ensures clones { ClonesAll ⟦<RecodeError as Clone>⟧.is_clone
        ⟦<RecodeError as Clone>⟧.is_infallible }
{}

/// A law: the same of the errors of `read_canonical`, where two positions are compared as numbers.
pub fn canonical_errors_are_compared_by_what_they_hold()
    ensures reading { (e f : _) → ⟦<CanonicalError as PartialEq>⟧.eq (canonical_errors.Read e)
        (canonical_errors.Read f) ≡ ⟦<DecodeError as PartialEq>⟧.eq e f }
    ensures writing { (e f : _) → ⟦<CanonicalError as PartialEq>⟧.eq (canonical_errors.Write e)
        (canonical_errors.Write f) ≡ ⟦<EncodeError as PartialEq>⟧.eq e f }
    ensures positions { (at other : ℕ) →
        ⟦<CanonicalError as PartialEq>⟧.eq (canonical_errors.NotCanonical at)
        (canonical_errors.NotCanonical other) ≡ (at == other) }
    ensures apart { (e : _) (f : _) (at : ℕ) →
        (⟦<CanonicalError as PartialEq>⟧.eq (canonical_errors.Read e) (canonical_errors.Write f) ≡
        false) × (⟦<CanonicalError as PartialEq>⟧.eq (canonical_errors.Read e)
        (canonical_errors.NotCanonical at) ≡ false) × (⟦<CanonicalError as PartialEq>⟧.eq
        (canonical_errors.Write f) (canonical_errors.NotCanonical at) ≡ false) }
    ensures clones { ClonesAll ⟦<CanonicalError as Clone>⟧.is_clone
        ⟦<CanonicalError as Clone>⟧.is_infallible }
{}
