//! Constraint sets that borrow all that they have.
ghost use Rattle.std.specs.Prelude.{◌≡◌, Some, None, true, IsNone, IsOk, IfOk};

use crate::alphabet::PermittedAlphabet;
use crate::constraints::Constraints;
use crate::extensible::Extensible;
use crate::size::Size;
use crate::value::Value;
use std::alloc::{AllocError, Global};

/// A set of constraints that borrows all that it has, so that it is one plain value, also a constant: at most one part of
/// each kind, and the extension marker. [`ConstraintTable::to_constraints`] makes the set.
#[derive(Clone, Copy, Debug)]
pub struct ConstraintTable<'a> {
    // The constraint on the values; none if there is no part.
    value: Option<Extensible<'a, Value>>,
    // The constraint on the lengths; none if there is no part.
    size: Option<Extensible<'a, Size>>,
    // The constraint on the characters; none if there is no part.
    permitted_alphabet: Option<AlphabetTable<'a>>,
    // Whether the extension marker is among the constraints.
    extensible: bool,
}

// A part on characters that borrows the characters of its root too.
#[derive(Clone, Copy, Debug)]
struct AlphabetTable<'a> {
    // The characters of the extension root.
    root: &'a [u32],
    // The additions of an extensible part; `None` if it is not extensible.
    extensible: Option<&'a [PermittedAlphabet]>,
}

impl<'a> ConstraintTable<'a> {
    ghost use Rattle.asn1_bounds.specs.ConstraintTables.{owned, with_alphabet};
    ghost use Rattle.asn1_bounds.specs.Sets.{not_extensible};

    /// No constraints: every value is admitted.
    pub const NONE: ConstraintTable<'static> = ConstraintTable {
        value: None,
        size: None,
        permitted_alphabet: None,
        extensible: false,
    };

    /// The table with this part on values in place of its own.
    #[inline(always)]
    pub fn with_value(self, part: Extensible<'a, Value>) -> Self
        ensures { owned result ≡ record (owned self.entry) { value = Some part.entry } }
    {
        ConstraintTable {
            value: Some(part),
            ..self
        }
    }

    /// The table with this part on lengths in place of its own.
    #[inline(always)]
    pub fn with_size(self, part: Extensible<'a, Size>) -> Self
        ensures { owned result ≡ record (owned self.entry) { size = Some part.entry } }
    {
        ConstraintTable {
            size: Some(part),
            ..self
        }
    }

    /// The table with these characters as its permitted alphabet, not extensible.
    #[inline(always)]
    pub fn with_permitted_alphabet(self, characters: &'a [u32]) -> Self
        ensures { owned result ≡ with_alphabet (owned self.entry) (not_extensible characters.now) }
    {
        ConstraintTable {
            permitted_alphabet: Some(AlphabetTable {
                root: characters,
                extensible: None,
            }),
            ..self
        }
    }

    /// The table with these characters as its permitted alphabet, extensible by these additions.
    #[inline(always)]
    pub fn with_extensible_alphabet(
        self,
        characters: &'a [u32],
        additions: &'a [PermittedAlphabet],
    ) -> Self
        ensures { owned result ≡ with_alphabet (owned self.entry)
            (record (not_extensible characters.now) { extensible = Some additions.entry }) }
    {
        ConstraintTable {
            permitted_alphabet: Some(AlphabetTable {
                root: characters,
                extensible: Some(additions),
            }),
            ..self
        }
    }

    /// The table with the extension marker.
    #[inline(always)]
    pub fn with_extension_marker(self) -> Self
        ensures { owned result ≡ record (owned self.entry) { extensible = true } }
    {
        ConstraintTable {
            extensible: true,
            ..self
        }
    }

    /// The set of the constraints. Takes memory only for a permitted alphabet, and fails only if the allocator
    /// refuses it.
    #[inline(always)]
    pub fn to_constraints(&self, alloc: Global) -> Result<Constraints<'a>, AllocError>
        ensures set { IfOk result (λ set. set ≡ owned self.now) }
        ensures without_alphabet { IsNone (owned self.now).permitted_alphabet → IsOk result }
    {
        let permitted_alphabet = match self.permitted_alphabet {
            Some(part) => Some(Extensible {
                constraint: PermittedAlphabet::new(alloc, part.root)?,
                extensible: part.extensible,
            }),
            None => None,
        };
        Ok(Constraints::of_parts(self.value, self.size, permitted_alphabet, self.extensible))
    }
}

impl From<Value> for ConstraintTable<'_> {
    ghost use Rattle.asn1_bounds.specs.Sets.{no_constraints};
    ghost use Rattle.asn1_bounds.specs.ConstraintTables.{owned};

    ghost from_gives = { λ kind table. owned table ≡ record no_constraints {
      value =
          Some (record { constraint = kind; extensible = None });
    } };

    #[inline(always)]
    fn from(kind: Value) -> Self {
        ConstraintTable::NONE.with_value(Extensible::new(kind))
    }
}

impl From<Size> for ConstraintTable<'_> {
    ghost use Rattle.asn1_bounds.specs.Sets.{no_constraints};
    ghost use Rattle.asn1_bounds.specs.ConstraintTables.{owned};

    ghost from_gives = { λ kind table. owned table ≡ record no_constraints {
      size =
          Some (record { constraint = kind; extensible = None });
    } };

    #[inline(always)]
    fn from(kind: Size) -> Self {
        ConstraintTable::NONE.with_size(Extensible::new(kind))
    }
}
