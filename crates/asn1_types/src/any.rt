//! Open types.
ghost use Rattle.std.specs.Prelude.{◌≡◌, IfOk, Some, nat_eq, refl};
ghost use Rattle.std.specs.Cmp.{nat_eq_equiv, nat_cmp_total, unsigned_po, unsigned_ties, unsigned_Decides, partial_equiv_from_equiv};
ghost use Rattle.std.specs.Cmp.Lexicographic.{pointwise, slice_cmp, slice_partial_cmp, lists_per, lists_equiv, lists_po, lists_agrees, lists_total, lists_ties};
ghost use Rattle.std.specs.Hash as fed;
ghost use Rattle.std.specs.Hash.{items_Alike, same_Alike};
ghost use Rattle.std.specs.Ordering.{nat_cmp};
ghost use Rattle.asn1_types.specs.Kinds.{any_type};

use asn1_model::{AsnType, TreeForm, TypeTable};
use asn1_tags::{Identifier, Tag};
use asn1_values::shown::write_hexadecimal;
use std::alloc::{AllocError, Global};
use std::cmp::Ordering;
use std::fmt;
use std::hash::{Hash, Hasher};
use std::marker::Model;

/// A value of an open type, as the bytes that a codec makes of it.
///
/// Contracts see it as the list of its bytes. Values are equal if their bytes are, and go lexicographically.
#[derive(Drop)]
pub struct Any {
    contents: Vec<u8>,
}

impl Model for Any {
    ghost use Rattle.std.specs.Prelude.{List, ℕ};

    ghost Value = { List ℕ };

    ghost view = { λ any. any.contents.items };
}

impl Any {
    /// The value that these bytes are.
    pub fn new(contents: Vec<u8>) -> Self
        ensures { result ≡ contents.items }
    {
        Any { contents }
    }

    /// The bytes.
    pub fn as_bytes(&self) -> &[u8]
        ensures { result.now ≡ self.now }
    {
        &self.contents
    }

    /// The bytes themselves.
    pub fn into_bytes(self) -> Vec<u8>
        ensures { result.items ≡ self }
    {
        let Any { contents } = self;
        contents
    }

    /// The same value once more. Fails only if the allocator refuses room for its bytes.
    pub fn try_clone(&self, alloc: Global) -> Result<Self, AllocError>
        ensures { IfOk result (λ any. any ≡ self.now) }
    {
        Ok(Any {
            contents: Vec::from_slice(alloc, &self.contents)?,
        })
    }
}

/// The octets in hexadecimal, as `'0500'H`.
impl fmt::Debug for Any {
    fn fmt<W: fmt::Write>(&self, f: &mut fmt::Formatter<W>) -> fmt::Result {
        write_hexadecimal(self.as_bytes(), f)
    }
}

/// As `Debug` shows them.
impl fmt::Display for Any {
    fn fmt<W: fmt::Write>(&self, f: &mut fmt::Formatter<W>) -> fmt::Result {
        write_hexadecimal(self.as_bytes(), f)
    }
}

impl From<Vec<u8>> for Any {
    ghost from_gives = { λ contents any. any ≡ contents.items };

    fn from(contents: Vec<u8>) -> Self {
        Any::new(contents)
    }
}

impl PartialEq for Any {
    ghost eq = { pointwise nat_eq };

    ghost laws = { lists_per (partial_equiv_from_equiv nat_eq_equiv) };

    fn eq(&self, other: &Self) -> bool {
        self.contents == other.contents
    }
}

impl Eq for Any {
    ghost laws = { lists_equiv nat_eq_equiv };
}

impl PartialOrd for Any {
    ghost partial_cmp = { slice_partial_cmp (λ x y. Some (nat_cmp x y)) };

    ghost laws = { lists_po unsigned_po };

    fn partial_cmp(&self, other: &Self) -> Option<Ordering> {
        self.contents.partial_cmp(&other.contents)
    }
}

impl Ord for Any {
    ghost cmp = { slice_cmp nat_cmp };

    ghost total = { lists_total nat_cmp_total };

    ghost matches_partial_cmp = { lists_agrees (λ _ _. refl) };

    ghost matches_eq = { lists_ties nat_cmp unsigned_ties };

    fn cmp(&self, other: &Self) -> Ordering {
        self.contents.cmp(&other.contents)
    }
}

impl Hash for Any {
    ghost hash_input = { fed.slice fed.u8 };

    ghost respects_eq = { (items_Alike (same_Alike fed.u8 unsigned_Decides)).fed };

    fn hash<H: Hasher>(&self, state: &mut H) {
        self.contents.hash(state);
    }
}

impl AsnType for Any {
    ghost meaning = { any_type (λ any. any) };

    #[inline(always)]
    fn table() -> TypeTable {
        TypeTable {
            tree: TreeForm::Open,
            ..TypeTable::new(Tag::EOC, Identifier::EMPTY)
        }
    }

    #[inline(always)]
    fn is_present(&self) -> bool {
        true
    }
}
