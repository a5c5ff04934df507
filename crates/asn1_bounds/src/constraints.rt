//! The set of a type's constraints.
ghost use Rattle.std.specs.Prelude.{◌≡◌, ◌↔◌, ◌++◌, ℕ, ℤ, All, List, IsOk, IfOk, IsNone};
ghost use Rattle.std.specs.Option.{option_copied};
ghost use Rattle.asn1_bounds.specs.Admitted.{common_characters};
ghost use Rattle.asn1_bounds.specs.Sets.{parts_intersection, common_values, common_sizes, is_part_extensible, set_of_parts};

use crate::alphabet::PermittedAlphabet;
use crate::constraint::Constraint;
use crate::extensible::Extensible;
use crate::size::Size;
use crate::value::Value;
use std::alloc::{AllocError, Global};

/// The constraints of a type: at most one part of each kind, and the extension marker.
///
/// A call that makes a set fails only if the allocator refuses room for a permitted alphabet. If no argument has
/// one, it takes no memory and succeeds.
#[derive(Debug, Drop)]
pub struct Constraints<'a> {
    // The constraint on the values; none if there is no part.
    value: Option<Extensible<'a, Value>>,
    // The constraint on the lengths; none if there is no part.
    size: Option<Extensible<'a, Size>>,
    // The constraint on the characters; none if there is no part.
    permitted_alphabet: Option<Extensible<'a, PermittedAlphabet>>,
    // Whether the extension marker is among the constraints.
    extensible: bool,
}

impl<'a> Constraints<'a> {
    ghost use Rattle.asn1_bounds.specs.declared.constraint.Constraint.{Constraint};
    ghost use Rattle.asn1_bounds.specs.ConstraintKind.{alphabet_of};
    ghost use Rattle.asn1_bounds.specs.Sets.{set_intersection, no_constraints, set_of_one, set_of_all, AdmitsValue, AdmitsLength, AdmitsCharacter, is_per_visibly_extensible, is_extensible};

    /// No constraints: every value is admitted.
    pub const NONE: Constraints<'static> = Constraints {
        value: None,
        size: None,
        permitted_alphabet: None,
        extensible: false,
    };

    /// The set of these constraints. Those on values restrict together, and so do those on lengths and those on
    /// characters.
    pub fn new(alloc: Global, constraints: &[Constraint<'a>]) -> Result<Self, AllocError>
        ensures parts { IfOk result (λ set. set ≡ set_of_all constraints.now) }

        // The root admits what the root of every constraint admits.
        ensures values { IfOk result (λ set. (n : ℤ) → AdmitsValue set n ↔
            All (λ c. AdmitsValue (set_of_one c) n) constraints.now) }
        ensures lengths { IfOk result (λ set. (n : ℕ) → AdmitsLength set n ↔
            All (λ c. AdmitsLength (set_of_one c) n) constraints.now) }
        ensures characters { IfOk result (λ set. (n : ℕ) → AdmitsCharacter set n ↔
            All (λ c. AdmitsCharacter (set_of_one c) n) constraints.now) }

        // Memory is for alphabets alone.
        ensures without_alphabet { All (λ c. IsNone (alphabet_of c)) constraints.now → IsOk result }
    {
        let mut set = Self::NONE;
        for constraint in constraints {
            let one = Self::of(constraint.try_clone(alloc)?);
            set = set.intersect(alloc, &one)?;
        }
        Ok(set)
    }

    // The set of the one constraint.
    fn of(constraint: Constraint<'a>) -> Self
        ensures { result ≡ set_of_one constraint.entry }
    {
        match constraint {
            Constraint::Value(part) => Constraints {
                value: Some(part),
                ..Self::NONE
            },
            Constraint::Size(part) => Constraints {
                size: Some(part),
                ..Self::NONE
            },
            Constraint::PermittedAlphabet(part) => Constraints {
                permitted_alphabet: Some(part),
                ..Self::NONE
            },
            Constraint::Extensible => Constraints {
                extensible: true,
                ..Self::NONE
            },
        }
    }

    // The set of these parts.
    #[inline(always)]
    pub(crate) fn of_parts(
        value: Option<Extensible<'a, Value>>,
        size: Option<Extensible<'a, Size>>,
        permitted_alphabet: Option<Extensible<'a, PermittedAlphabet>>,
        extensible: bool,
    ) -> Self
        ensures { result ≡
            set_of_parts value.entry size.entry permitted_alphabet.entry extensible }
    {
        Constraints {
            value,
            size,
            permitted_alphabet,
            extensible,
        }
    }

    /// The values, lengths and characters that both sets admit.
    pub fn intersect(&self, alloc: Global, other: &Self) -> Result<Self, AllocError>
        ensures parts { IfOk result (λ set. set ≡ set_intersection self.now other.now) }
        ensures values { IfOk result (λ set. (n : ℤ) → AdmitsValue set n ↔
            (AdmitsValue self.now n × AdmitsValue other.now n)) }
        ensures lengths { IfOk result (λ set. (n : ℕ) → AdmitsLength set n ↔
            (AdmitsLength self.now n × AdmitsLength other.now n)) }
        ensures characters { IfOk result (λ set. (n : ℕ) → AdmitsCharacter set n ↔
            (AdmitsCharacter self.now n × AdmitsCharacter other.now n)) }

        // The sets of two lists of constraints come to the set of the one list followed by the other.
        ensures composes { IfOk result (λ set. (a b : List Constraint) → self.now ≡ set_of_all a →
            other.now ≡ set_of_all b → set ≡ set_of_all (a ++ b)) }

        // Memory is for alphabets alone.
        ensures without_alphabet { IsNone self.now.permitted_alphabet →
            IsNone other.now.permitted_alphabet → IsOk result }
    {
        let permitted_alphabet = intersect_alphabets(
            alloc,
            self.permitted_alphabet(),
            other.permitted_alphabet(),
        )?;
        Ok(Constraints {
            value: intersect_values(self.value, other.value),
            size: intersect_sizes(self.size, other.size),
            permitted_alphabet,
            extensible: self.extensible || other.extensible,
        })
    }

    /// The same set once more.
    pub fn try_clone(&self, alloc: Global) -> Result<Self, AllocError>
        ensures copy { IfOk result (λ copy. copy ≡ self.now) }
        ensures without_alphabet { IsNone self.now.permitted_alphabet → IsOk result }
    {
        self.intersect(alloc, &Self::NONE)
    }

    /// The constraint on the lengths.
    #[inline(always)]
    pub fn size(&self) -> Option<&Extensible<'a, Size>>
        ensures { option_copied result ≡ self.now.size }
    {
        self.size.as_ref()
    }

    /// The constraint on the values.
    #[inline(always)]
    pub fn value(&self) -> Option<&Extensible<'a, Value>>
        ensures { option_copied result ≡ self.now.value }
    {
        self.value.as_ref()
    }

    /// The constraint on the characters.
    #[inline(always)]
    pub fn permitted_alphabet(&self) -> Option<&Extensible<'a, PermittedAlphabet>>
        ensures { option_copied result ≡ self.now.permitted_alphabet }
    {
        self.permitted_alphabet.as_ref()
    }

    /// Whether the extension marker is among the constraints or any part is extensible.
    pub fn extensible(&self) -> bool
        ensures { result ≡ is_extensible self.now }
    {
        self.per_visibly_extensible() || is_extensible(self.permitted_alphabet())
    }

    /// Whether the set is extensible but for its permitted alphabet, whose extensibility the packed encoding rules
    /// do not see.
    pub fn per_visibly_extensible(&self) -> bool
        ensures { result ≡ is_per_visibly_extensible self.now }
    {
        self.extensible || is_extensible(self.value()) || is_extensible(self.size())
    }
}

// Whether there is a part, and it is extensible.
fn is_extensible<T>(part: Option<&Extensible<'_, T>>) -> bool
    ensures { result ≡ is_part_extensible (option_copied part.entry) }
{
    match part {
        Some(part) => part.extensible.is_some(),
        None => false,
    }
}

// The intersection of two parts on values, either of which may be missing.
fn intersect_values<'a>(
    a: Option<Extensible<'a, Value>>,
    b: Option<Extensible<'a, Value>>,
) -> Option<Extensible<'a, Value>>
    ensures { result ≡ parts_intersection common_values a.entry b.entry }
{
    match (a, b) {
        (Some(a), Some(b)) => Some(a.intersect(&b)),
        (a, b) => a.or(b),
    }
}

// The intersection of two parts on lengths, either of which may be missing.
fn intersect_sizes<'a>(
    a: Option<Extensible<'a, Size>>,
    b: Option<Extensible<'a, Size>>,
) -> Option<Extensible<'a, Size>>
    ensures { result ≡ parts_intersection common_sizes a.entry b.entry }
{
    match (a, b) {
        (Some(a), Some(b)) => Some(a.intersect(&b)),
        (a, b) => a.or(b),
    }
}

// The intersection of two parts on characters, either of which may be missing.
fn intersect_alphabets<'a>(
    alloc: Global,
    a: Option<&Extensible<'a, PermittedAlphabet>>,
    b: Option<&Extensible<'a, PermittedAlphabet>>,
) -> Result<Option<Extensible<'a, PermittedAlphabet>>, AllocError>
    ensures part { IfOk result (λ both.
        both ≡ parts_intersection common_characters (option_copied a.entry)
        (option_copied b.entry)) }
    ensures without_alphabet { IsNone a.entry → IsNone b.entry → IsOk result }
{
    match (a, b) {
        (Some(a), Some(b)) => Ok(Some(a.intersect(alloc, b)?)),
        (Some(part), None) | (None, Some(part)) => Ok(Some(part.try_clone(alloc)?)),
        (None, None) => Ok(None),
    }
}

impl Default for Constraints<'_> {
    ghost use Rattle.std.specs.Prelude.{◌≡◌};
    ghost use Rattle.asn1_bounds.specs.Sets.{no_constraints};

    ghost is_default = { λ set. set ≡ no_constraints };

    fn default() -> Self {
        Constraints::NONE
    }
}
