//! A constraint with the additions of later versions.
ghost use Rattle.std.specs.Prelude.{◌≡◌, [], None, Some, IsSomeAnd, IfOk};
ghost use Rattle.std.specs.Bool.{OnTrue, OnFalse};

use crate::alphabet::PermittedAlphabet;
use crate::size::Size;
use crate::value::Value;
use std::alloc::{AllocError, Global};

/// A constraint, and whether it is extensible: then it also has the constraints that later versions added.
///
/// The default is the default of the constraint, not extensible.
#[derive(Clone, Copy, Debug, Default, Drop, PartialEq)]
pub struct Extensible<'a, T> {
    /// The constraint of the extension root.
    pub constraint: T,
    /// The additions of an extensible constraint; `None` if it is not extensible.
    pub extensible: Option<&'a [T]>,
}

impl<'a, T> Extensible<'a, T> {
    ghost use Rattle.asn1_bounds.specs.Sets.{common_additions};

    /// The constraint, not extensible.
    #[inline(always)]
    pub fn new(constraint: T) -> Self
        ensures { result ≡ record { constraint = constraint; extensible = None } }
    {
        Extensible {
            constraint,
            extensible: None,
        }
    }

    /// The constraint, extensible by these.
    #[inline(always)]
    pub fn new_extensible(constraint: T, constraints: &'a [T]) -> Self
        ensures { result ≡ record { constraint = constraint; extensible = Some constraints.entry } }
    {
        Extensible {
            constraint,
            extensible: Some(constraints),
        }
    }

    /// The constraint extensible with no additions as yet, or not extensible.
    pub fn set_extensible(self, extensible: bool) -> Self
        ensures root { result.constraint ≡ self.entry.constraint }
        ensures extensible { OnTrue extensible
            (IsSomeAnd result.extensible (λ additions. additions.now ≡ [])) }
        ensures fixed { OnFalse extensible (result.extensible ≡ None) }
    {
        self.extensible_with_constraints(if extensible { Some(&[]) } else { None })
    }

    /// The constraint extensible by these, or not extensible.
    pub fn extensible_with_constraints(mut self, constraints: Option<&'a [T]>) -> Self
        ensures { result ≡
            record { constraint = self.entry.constraint; extensible = constraints.entry } }
    {
        self.extensible = constraints;
        self
    }

    // The additions of what both constraints leave.
    fn common_additions(&self, other: &Self) -> Option<&'a [T]>
        ensures { result ≡ common_additions self.now.extensible other.now.extensible }
    {
        other.extensible.and(self.extensible)
    }
}

impl Extensible<'_, Value> {
    ghost use Rattle.asn1_bounds.specs.Sets.{part_intersection, common_values};

    /// The intersection of both constraints: extensible only if both are, with the additions of this one.
    pub fn intersect(&self, other: &Self) -> Self
        ensures { result ≡ part_intersection common_values self.now other.now }
    {
        Extensible {
            constraint: self.constraint.intersect(&other.constraint),
            extensible: self.common_additions(other),
        }
    }
}

impl Extensible<'_, Size> {
    ghost use Rattle.asn1_bounds.specs.Sets.{part_intersection, common_sizes};

    /// The intersection of both constraints: extensible only if both are, with the additions of this one.
    pub fn intersect(&self, other: &Self) -> Self
        ensures { result ≡ part_intersection common_sizes self.now other.now }
    {
        Extensible {
            constraint: self.constraint.intersect(&other.constraint),
            extensible: self.common_additions(other),
        }
    }
}

impl Extensible<'_, PermittedAlphabet> {
    ghost use Rattle.asn1_bounds.specs.Admitted.{common_characters};
    ghost use Rattle.asn1_bounds.specs.Sets.{part_intersection};

    /// The intersection of both constraints: extensible only if both are, with the additions of this one. Fails only if
    /// the allocator refuses room for the characters.
    pub fn intersect(&self, alloc: Global, other: &Self) -> Result<Self, AllocError>
        ensures { IfOk result (λ both. both ≡
            part_intersection common_characters self.now other.now) }
    {
        Ok(Extensible {
            constraint: self.constraint.intersect(alloc, &other.constraint)?,
            extensible: self.common_additions(other),
        })
    }

    /// The same constraint once more, with the same additions. Fails only if the allocator refuses room for the
    /// characters.
    pub fn try_clone(&self, alloc: Global) -> Result<Self, AllocError>
        ensures { IfOk result (λ copy. copy ≡ self.now) }
    {
        Ok(Extensible {
            constraint: self.constraint.try_clone(alloc)?,
            extensible: self.extensible,
        })
    }
}

impl<T> From<T> for Extensible<'_, T> {
    ghost from_gives = { λ constraint part. part ≡ record { constraint = constraint; extensible = None } };

    fn from(constraint: T) -> Self {
        Extensible::new(constraint)
    }
}
