//! RELATIVE-OID (X.680, 33).
ghost use Rattle.std.specs.Prelude.{◌≡◌, ◌⊎◌, ◌<◌, ◌^◌, [], ◌∷◌, All, IfErr, IfOk, List, MatchResult, codes, drop, false, true, ℕ};
ghost use Rattle.asn1_contents.specs.RelativeOids.{are_numbers, is_relative_oid};
ghost use Rattle.asn1_der_items.specs.Arcs.{AreNumbers};
ghost use Rattle.asn1_items.specs.declared.error.ItemError.TheVariants as item;
ghost use Rattle.asn1_model.specs.Tags.{universal};

use crate::contents_kind::ContentsKind;
use crate::contents_string::ContentsString;
use asn1_der_items::{append_arcs, read_arcs};
use asn1_items::ItemError;
use asn1_model::TypeTable;
use asn1_tags::{Identifier, Tag};
use std::alloc::{AllocError, Global};

/// The kind of RELATIVE-OID.
#[derive(Drop)]
pub enum RelativeArcs {}

/// A RELATIVE-OID: an object identifier without the arcs before a known one (X.680, 33). It is kept as the octets of X.690, 8.20.
pub type RelativeOid = ContentsString<RelativeArcs>;

impl ContentsKind for RelativeArcs {
    ghost type_tag = { universal 13 };

    ghost type_name = { codes "RELATIVE_OID" };

    ghost allows = { is_relative_oid };

    #[inline(always)]
    fn type_table() -> TypeTable {
        TypeTable::new(Tag::RELATIVE_OID, Identifier::RELATIVE_OID)
    }

    fn allows(octets: &[u8]) -> bool {
        !octets.is_empty() && are_numbers(octets)
    }
}

/// Whether octets are numbers to the base 128, one after another.
fn are_numbers(octets: &[u8]) -> bool
    ensures { result ≡ are_numbers false octets.now }
{
    let mut begun = false;
    let mut left = octets;
    while let [octet, rest @ ..] = left {
        if !begun && *octet == 128 {
            return false;
        }
        begun = *octet >= 128;
        left = rest;
    }
    !begun
}

/// Why arcs make no RELATIVE-OID, or a RELATIVE-OID has no arcs of 32 bits.
#[derive(Clone, Copy, Debug, Drop, PartialEq, Eq)]
pub enum RelativeOidError {
    /// There are none (X.680, 33.3).
    NoArcs,
    /// An arc is 2^32 or more.
    TooGreat,
    /// Memory ran out.
    Memory,
}

impl From<AllocError> for RelativeOidError {
    ghost use Rattle.std.specs.Prelude.{◌≡◌};
    ghost use Rattle.asn1_contents.specs.declared.relative_oid.RelativeOidError.TheVariants.{Memory};

    ghost from_gives = { λ _ error. error ≡ Memory };

    fn from(_error: AllocError) -> RelativeOidError {
        RelativeOidError::Memory
    }
}

/// The arcs of a RELATIVE-OID have the octets of those of an object identifier behind its two at the root (X.690, 8.19 and 8.20): behind 0 and
/// 0, which are one octet 00.
impl ContentsString<RelativeArcs> {
    /// The RELATIVE-OID of these arcs.
    ///
    /// # Errors
    /// [`RelativeOidError::NoArcs`] if there is none, and [`RelativeOidError::Memory`].
    pub fn from_arcs(alloc: Global, arcs: &[u32]) -> Result<Self, RelativeOidError>
        ensures arcs { IfOk result (λ own. AreNumbers arcs.now own) }
        ensures refused { IfErr result (λ error.
            (error ≡ RelativeOidError.Memory) ⊎ (error ≡ RelativeOidError.NoArcs) × (arcs.now ≡ [])) }
    {
        let octets = octets_of(alloc, arcs)?;
        match ContentsString::new(octets) {
            Some(own) => Ok(own),
            None => Err(RelativeOidError::NoArcs),
        }
    }

    /// Its arcs.
    ///
    /// # Errors
    /// [`RelativeOidError::TooGreat`] if an arc is 2^32 or more, and [`RelativeOidError::Memory`].
    pub fn arcs(&self, alloc: Global) -> Result<Vec<u32>, RelativeOidError>
        ensures read { (list : List ℕ) → All (λ arc. arc < 2 ^ 32) list → AreNumbers list self.now →
            MatchResult result (λ arcs. arcs.items ≡ list)
            (λ error. error ≡ RelativeOidError.Memory) }
        ensures only { IfOk result (λ arcs. AreNumbers arcs.items self.now) }
        ensures refused { IfErr result (λ error.
            (error ≡ RelativeOidError.Memory) ⊎ (error ≡ RelativeOidError.TooGreat)) }
    {
        let arcs = arcs_of(alloc, self.as_slice())?;
        if has_octets(alloc, &arcs, self.as_slice())? {
            Ok(arcs)
        } else {
            Err(RelativeOidError::TooGreat)
        }
    }
}

/// The octets of arcs.
fn octets_of(alloc: Global, arcs: &[u32]) -> Result<Vec<u8>, AllocError>
    ensures { IfOk result (λ octets. AreNumbers arcs.now octets.items) }
{
    let rooted = with_root(alloc, arcs)?;
    let mut octets = Vec::new(alloc);
    match append_arcs(&mut octets, &rooted) {
        Ok(()) => {}
        Err(_) => return Err(AllocError),
    }
    let own = without_first(alloc, &octets)?;
    Ok(own)
}

/// Whether arcs have these octets.
fn has_octets(alloc: Global, arcs: &[u32], octets: &[u8]) -> Result<bool, AllocError>
    ensures only { IfOk result (λ has. has ≡ true → AreNumbers arcs.now octets.now) }
    ensures every { AreNumbers arcs.now octets.now → IfOk result (λ has. has ≡ true) }
{
    let own = octets_of(alloc, arcs)?;
    Ok(are_equal(own.as_slice(), octets))
}

/// Whether two lists of octets are equal.
fn are_equal(own: &[u8], other: &[u8]) -> bool
    ensures only { result ≡ true → own.now ≡ other.now }
    ensures every { own.now ≡ other.now → result ≡ true }
{
    own == other
}

/// The arcs with these octets, if each fits.
fn arcs_of(alloc: Global, octets: &[u8]) -> Result<Vec<u32>, RelativeOidError>
    ensures read { (list : List ℕ) → All (λ arc. arc < 2 ^ 32) list → AreNumbers list octets.now →
        MatchResult result (λ arcs. arcs.items ≡ list) (λ error. error ≡ RelativeOidError.Memory) }
    ensures refused { IfErr result (λ error.
        (error ≡ RelativeOidError.Memory) ⊎ (error ≡ RelativeOidError.TooGreat)) }
{
    let rooted = with_first(alloc, octets)?;
    match read_arcs(alloc, &rooted) {
        Ok(arcs) => Ok(without_root(alloc, &arcs)?),
        Err(error) => Err(reading_error(error)),
    }
}

/// The error of reading arcs, of octets that are numbers to the base 128.
fn reading_error(error: ItemError) -> RelativeOidError
    ensures memory { error ≡ item.Memory → result ≡ RelativeOidError.Memory }
    ensures either { (result ≡ RelativeOidError.Memory) ⊎ (result ≡ RelativeOidError.TooGreat) }
{
    match error {
        ItemError::Memory => RelativeOidError::Memory,
        ItemError::Malformed | ItemError::Missing(_) => RelativeOidError::TooGreat,
    }
}

/// Arcs behind the two at the root.
fn with_root(alloc: Global, arcs: &[u32]) -> Result<Vec<u32>, AllocError>
    ensures { IfOk result (λ all. all.items ≡ 0 ∷ 0 ∷ arcs.now) }
{
    let mut all = [0u32, 0].to_vec(alloc)?;
    all.extend_from_slice(arcs)?;
    Ok(all)
}

/// The arcs behind the two at the root.
fn without_root(alloc: Global, arcs: &[u32]) -> Result<Vec<u32>, AllocError>
    ensures { IfOk result (λ own. own.items ≡ drop 2 arcs.now) }
{
    match arcs {
        [_, _, own @ ..] => own.to_vec(alloc),
        _ => Ok(Vec::new(alloc)),
    }
}

/// Octets behind the one of the two arcs at the root.
fn with_first(alloc: Global, octets: &[u8]) -> Result<Vec<u8>, AllocError>
    ensures { IfOk result (λ all. all.items ≡ 0 ∷ octets.now) }
{
    let mut all = [0u8].to_vec(alloc)?;
    all.extend_from_slice(octets)?;
    Ok(all)
}

/// The octets behind the one of the two arcs at the root.
fn without_first(alloc: Global, octets: &[u8]) -> Result<Vec<u8>, AllocError>
    ensures { IfOk result (λ own. own.items ≡ drop 1 octets.now) }
{
    match octets {
        [_, own @ ..] => own.to_vec(alloc),
        [] => Ok(Vec::new(alloc)),
    }
}
