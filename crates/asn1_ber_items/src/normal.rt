//! The normal form of elements.
ghost use Rattle.asn1_ber_items.specs.Ends.{EndsInside};
ghost use Rattle.asn1_ber_items.specs.Spellings.{Spells, SpellsOne};
ghost use Rattle.asn1_der_items.specs.Cuts.{IsMissing};
ghost use Rattle.asn1_items.specs.declared.error.ItemError.TheVariants.{Memory};
ghost use Rattle.std.specs.Prelude.{◌≡◌, ◌≢◌, [], IfErr, IfOk, List, MatchResult, OnOk, ℕ};

use crate::front_end::find_end;
use crate::progress::Progress;
use crate::walk::Walk;
use asn1_items::ItemError;
use std::alloc::Global;

/// The elements of which the bytes are, each with a definite length of the fewest octets (X.690, 8.1.3 and 10.1).
///
/// # Errors
/// [`ItemError::Memory`]; else the bytes are no elements of BER with tag numbers below 2^32: [`ItemError::Missing`] where they end
/// inside the first element, with the number of bytes that are missing of the part that is read, and otherwise
/// [`ItemError::Malformed`].
pub fn normal_form(alloc: Global, bytes: &[u8]) -> Result<Vec<u8>, ItemError>
    ensures found { (normal : List ℕ) → Spells bytes.now normal [] →
        MatchResult result (λ own. own.items ≡ normal) (λ e. e ≡ Memory) }
    ensures only { IfOk result (λ own. Spells bytes.now own.items []) }
    ensures whole_front { (normal rest : List ℕ) → SpellsOne bytes.now normal rest →
        IfErr result (λ e. ¬ IsMissing e) }
    ensures missing { IfErr result (λ e. IsMissing e → EndsInside 0 bytes.now) }
    ensures cut { bytes.now ≢ [] → EndsInside 0 bytes.now → MatchResult result (λ _. ⊥) IsMissing }
{
    if !bytes.is_empty() {
        find_end(bytes, &mut Progress::new())?;
    }
    let mut walk = Walk::new(alloc, bytes);
    while !walk.is_at_end() {
        walk.step()?;
    }
    let normal = walk.finish()?;
    Ok(normal)
}

/// Checks that the bytes are elements in their normal form, of definite lengths of the fewest octets (X.690, 8.1.3 and 10.1).
///
/// # Errors
/// [`ItemError::Memory`]; else the bytes are no such elements: an error of [`normal_form`], and [`ItemError::Malformed`] where they
/// have another normal form.
pub(crate) fn check_normal(alloc: Global, bytes: &[u8]) -> Result<(), ItemError>
    ensures found { Spells bytes.now bytes.now [] → IfErr result (λ e. e ≡ Memory) }
    ensures only { OnOk result (Spells bytes.now bytes.now []) }
{
    let normal = normal_form(alloc, bytes)?;
    if normal.as_slice() == bytes {
        Ok(())
    } else {
        Err(ItemError::Malformed)
    }
}

/// The normal form of an element, and the bytes after the element.
#[derive(Debug, Drop)]
pub struct FrontElement<'a> {
    /// The element with definite lengths of the fewest octets.
    pub normal: Vec<u8>,
    /// The bytes after the element, as it is spelled.
    pub rest: &'a [u8],
}

/// The element with which the bytes begin, with definite lengths of the fewest octets (X.690, 8.1.3 and 10.1).
///
/// # Errors
/// [`ItemError::Memory`]; else the bytes begin with no element of BER with tag numbers below 2^32: [`ItemError::Missing`] where they
/// end inside it, with the number of bytes that are missing of the part that is read, and otherwise [`ItemError::Malformed`].
pub fn front_element(alloc: Global, bytes: &[u8]) -> Result<FrontElement<'_>, ItemError>
    ensures found { (normal rest : List ℕ) → SpellsOne bytes.now normal rest →
        MatchResult result (λ f. (f.normal.items ≡ normal) × (f.rest.now ≡ rest))
        (λ e. e ≡ Memory) }
    ensures only { IfOk result (λ f. SpellsOne bytes.now f.normal.items f.rest.now) }
    ensures missing { IfErr result (λ e. IsMissing e → EndsInside 0 bytes.now) }
    ensures cut { EndsInside 0 bytes.now → MatchResult result (λ _. ⊥) IsMissing }
{
    find_end(bytes, &mut Progress::new())?;
    let mut walk = Walk::new(alloc, bytes);
    while !walk.is_after_front() {
        walk.step()?;
    }
    let rest = walk.left;
    let normal = walk.finish()?;
    Ok(FrontElement { normal, rest })
}
