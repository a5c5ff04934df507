//! The search for the end of the first element.
ghost use Rattle.asn1_ber_items.specs.Ends.{EndsInside};
ghost use Rattle.asn1_ber_items.specs.Progress.{HasCome};
ghost use Rattle.asn1_ber_items.specs.Spellings.{SpellsOne};
ghost use Rattle.asn1_der_items.specs.Cuts.{IsMissing};
ghost use Rattle.std.specs.Prelude.{IfErr, IsOk, List, MatchResult, ℕ};

use crate::ahead::Ahead;
use crate::progress::Progress;
use asn1_items::ItemError;

/// Searches octets for the end of their first element, from where the search came in the same octets, or in fewer of them. An element
/// of a definite length is passed over, and not looked into.
///
/// # Errors
/// [`ItemError::Missing`] where the octets end inside the first element, with the number of octets that are missing of the part that
/// is read; else [`ItemError::Malformed`], where they begin with no element of BER with tag numbers below 2^32.
pub fn find_end(octets: &[u8], progress: &mut Progress) -> Result<(), ItemError>
    ensures came { ∥ HasCome progress.old octets.now ∥₁ → ∥ HasCome progress.new octets.now ∥₁ }
    ensures found { ∥ HasCome progress.old octets.now ∥₁ → (normal rest : List ℕ) →
        SpellsOne octets.now normal rest → IsOk result }
    ensures missing { HasCome progress.old octets.now →
        IfErr result (λ e. IsMissing e → EndsInside 0 octets.now) }
    ensures cut { HasCome progress.old octets.now → EndsInside 0 octets.now →
        MatchResult result (λ _. ⊥) IsMissing }
{
    let Some((_behind, left)) = octets.split_at_checked(progress.offset) else {
        return Err(ItemError::Malformed);
    };
    let mut ahead = Ahead {
        levels: progress.levels,
        left,
    };
    while let Some(next) = ahead.next()? {
        *progress = Progress {
            offset: octets.len() - next.left.len(),
            levels: next.levels,
        };
        ahead = next;
    }
    Ok(())
}
