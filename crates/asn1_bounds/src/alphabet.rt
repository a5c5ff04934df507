//! Constraints of characters (X.680, 51.7).
ghost use Rattle.std.specs.Prelude.{◌≡◌, ◌↔◌, IsTrue, IfOk, nat_eq, Some, refl};
ghost use Rattle.std.specs.Ordering.{nat_cmp};
ghost use Rattle.std.specs.Hash as fed;
ghost use Rattle.std.specs.Cmp.Lexicographic.{pointwise, slice_cmp, nat_list_eq_equiv, nat_list_cmp_total, texts_ties, texts_po};
ghost use Rattle.std.specs.Cmp.{partial_equiv_from_equiv};
ghost use Rattle.std.specs.Cmp.Rules.{hashing};
ghost use Rattle.std.proofs.Common.{rules};

use std::alloc::{AllocError, Global};
use std::cmp::Ordering;
use std::hash::{Hash, Hasher};
use std::marker::Model;

/// A constraint of the characters of a string to an alphabet (X.680, 51.7), which is given by the characters' codes.
///
/// Contracts see it as the list of its characters. Alphabets are equal if their lists are, and go lexicographically.
#[derive(Debug, Drop)]
pub struct PermittedAlphabet {
    characters: Vec<u32>,
}

impl Model for PermittedAlphabet {
    ghost use Rattle.std.specs.Prelude.{ℕ, List};

    ghost Value = { List ℕ };

    ghost view = { λ alphabet. alphabet.characters.items };
}

impl PermittedAlphabet {
    ghost use Rattle.asn1_bounds.specs.Admitted.{IsPermitted, is_permitted, common_characters};

    /// The constraint to these characters. Fails only if the allocator refuses room for them.
    pub fn new(alloc: Global, alphabet: &[u32]) -> Result<Self, AllocError>
        ensures { IfOk result (λ permitted. permitted ≡ alphabet.now) }
    {
        Ok(PermittedAlphabet {
            characters: Vec::from_slice(alloc, alphabet)?,
        })
    }

    /// The characters, in the order and as often as they were given.
    pub fn as_inner(&self) -> &[u32]
        ensures { result.now ≡ self.now }
    {
        &self.characters
    }

    /// Whether the character is in the alphabet.
    pub fn contains(&self, character: u32) -> bool
        ensures inside { IsTrue result ↔ IsPermitted self.now character }
        ensures test { result ≡ is_permitted self.now character }
    {
        self.characters.contains(&character)
    }

    /// The same alphabet once more. Fails only if the allocator refuses room for it.
    pub fn try_clone(&self, alloc: Global) -> Result<Self, AllocError>
        ensures { IfOk result (λ copy. copy ≡ self.now) }
    {
        Self::new(alloc, self.as_inner())
    }

    /// The constraint to the characters of both: those of this one that are in the other, in this one's order and as
    /// often as they are in it. Fails only if the allocator refuses room for them.
    pub fn intersect(&self, alloc: Global, other: &Self) -> Result<Self, AllocError>
        ensures shape { IfOk result (λ both. both ≡ common_characters self.now other.now) }
        ensures members { IfOk result (λ both. (character : _) → IsPermitted both character ↔
            (IsPermitted self.now character × IsPermitted other.now character)) }
    {
        let mut characters = Vec::from_slice(alloc, &self.characters)?;
        characters.retain(|character| other.contains(*character));
        Ok(PermittedAlphabet { characters })
    }
}

impl PartialEq for PermittedAlphabet {
    ghost eq = { pointwise nat_eq };

    ghost laws = { partial_equiv_from_equiv nat_list_eq_equiv };

    fn eq(&self, other: &Self) -> bool {
        self.characters == other.characters
    }
}

impl Eq for PermittedAlphabet {
    ghost laws = { nat_list_eq_equiv };
}

impl PartialOrd for PermittedAlphabet {
    ghost partial_cmp = { λ a b. Some (slice_cmp nat_cmp a b) };

    ghost laws = { texts_po };

    fn partial_cmp(&self, other: &Self) -> Option<Ordering> {
        Some(self.cmp(other))
    }
}

impl Ord for PermittedAlphabet {
    ghost cmp = { slice_cmp nat_cmp };

    ghost total = { nat_list_cmp_total };

    ghost matches_partial_cmp = { λ a b. refl };

    ghost matches_eq = { texts_ties };

    fn cmp(&self, other: &Self) -> Ordering {
        self.characters.cmp(&other.characters)
    }
}

impl Hash for PermittedAlphabet {
    ghost hash_input = { fed.slice fed.u32 };

    ghost respects_eq = { Prim.search (hashing, rules) };

    fn hash<H: Hasher>(&self, state: &mut H) {
        self.characters.hash(state);
    }
}
