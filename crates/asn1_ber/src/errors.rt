//! The errors of reading the normal form of octets.
ghost use Rattle.asn1_items.specs.declared.error.ItemError.TheVariants as item_error;
ghost use Rattle.asn1_laws.specs.DecodeErrors.{custom, incomplete, reason};
ghost use Rattle.asn1_laws.specs.declared.decode_error.DecodeError.TheVariants.{Depth, Failed, Memory};
ghost use Rattle.asn1_laws.specs.declared.needed.Needed.TheVariants.{Size};
ghost use Rattle.std.specs.Prelude.{◌≡◌, ◌≢◌, codes, ℕ};

use asn1_dec::{DecodeError, Needed};
use asn1_items::{BAD_ITEM, ItemError};

/// The error for octets that have no normal form: [`DecodeError::Memory`]; [`DecodeError::Incomplete`] where they end too early, with
/// how many of the part that is read are missing; and else [`DecodeError::Custom`], with the text `bad item`.
#[cold]
pub(crate) fn decode_error_of(error: ItemError) -> DecodeError
    ensures memory { error ≡ item_error.Memory → result ≡ Memory }
    ensures missing { (count : ℕ) → error ≡ item_error.Missing count →
        reason result ≡ incomplete (Size count) }
    ensures malformed { error ≡ item_error.Malformed → reason result ≡ custom (codes "bad item") }
    ensures not_too_deep { result ≢ Depth }
    ensures not_failed { result ≢ Failed }
{
    match error {
        ItemError::Memory => DecodeError::Memory,
        ItemError::Missing(count) => DecodeError::Incomplete(Needed::Size(count)),
        ItemError::Malformed => BAD_ITEM,
    }
}
