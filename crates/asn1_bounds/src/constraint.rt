//! One constraint.
ghost use Rattle.std.specs.Prelude.{◌≡◌, ◌↔◌, IsTrue, pos, Some, None, IsNone, IsOk, IfOk};
ghost use Rattle.std.specs.Option.{option_copied};
ghost use Rattle.asn1_bounds.specs.declared.constraint.Constraint.TheVariants as constraint;

use crate::alphabet::PermittedAlphabet;
use crate::extensible::Extensible;
use crate::size::Size;
use crate::value::Value;
use std::alloc::{AllocError, Global};

/// One constraint of a type.
#[derive(Debug, Drop, PartialEq)]
pub enum Constraint<'a> {
    /// A constraint on the values of an INTEGER.
    Value(Extensible<'a, Value>),
    /// A constraint on the length of a string or a list.
    Size(Extensible<'a, Size>),
    /// A constraint on the characters of a string.
    PermittedAlphabet(Extensible<'a, PermittedAlphabet>),
    /// The extension marker alone.
    Extensible,
}

/// The kind of a constraint.
#[derive(Clone, Copy, Debug, PartialEq)]
pub enum ConstraintDiscriminant {
    /// Of [`Constraint::Value`].
    Value,
    /// Of [`Constraint::Size`].
    Size,
    /// Of [`Constraint::PermittedAlphabet`].
    PermittedAlphabet,
    /// Of [`Constraint::Extensible`].
    Extensible,
}

impl ConstraintDiscriminant {
    /// Whether the two are the same kind, as `==` answers.
    #[allow(clippy::should_implement_trait)]
    pub fn eq(&self, other: &Self) -> bool
        ensures { IsTrue result ↔ (self.now ≡ other.now) }
    {
        *self == *other
    }
}

impl<'a> Constraint<'a> {
    ghost use Rattle.asn1_bounds.specs.ConstraintKind.{kind_of, index_of, value_of, size_of, alphabet_of, is_extensible};

    /// The kind.
    pub fn kind(&self) -> ConstraintDiscriminant
        ensures { result ≡ kind_of self.now }
    {
        match self {
            Constraint::Value(_) => ConstraintDiscriminant::Value,
            Constraint::Size(_) => ConstraintDiscriminant::Size,
            Constraint::PermittedAlphabet(_) => ConstraintDiscriminant::PermittedAlphabet,
            Constraint::Extensible => ConstraintDiscriminant::Extensible,
        }
    }

    /// The index of the kind among the kinds, from 0 to 3.
    pub fn variant_as_isize(&self) -> isize
        ensures { result ≡ pos (index_of self.now) }
    {
        self.kind() as isize
    }

    /// The part on values, where this is one.
    pub fn as_value(&self) -> Option<&Extensible<'a, Value>>
        ensures { option_copied result ≡ value_of self.now }
    {
        match self {
            Constraint::Value(part) => Some(part),
            _ => None,
        }
    }

    /// The part on values, where this is one.
    pub fn to_value(&self) -> Option<&Extensible<'a, Value>>
        ensures { option_copied result ≡ value_of self.now }
    {
        self.as_value()
    }

    /// The part on lengths, where this is one.
    pub fn to_size(&self) -> Option<&Extensible<'a, Size>>
        ensures { option_copied result ≡ size_of self.now }
    {
        match self {
            Constraint::Size(part) => Some(part),
            _ => None,
        }
    }

    /// The part on characters, where this is one.
    pub fn as_permitted_alphabet(&self) -> Option<&Extensible<'a, PermittedAlphabet>>
        ensures { option_copied result ≡ alphabet_of self.now }
    {
        match self {
            Constraint::PermittedAlphabet(part) => Some(part),
            _ => None,
        }
    }

    /// The same constraint once more. Fails only if it is of characters and the allocator refuses room for them.
    pub fn try_clone(&self, alloc: Global) -> Result<Self, AllocError>
        ensures copy { IfOk result (λ copy. copy ≡ self.now) }
        ensures without_alphabet { IsNone (alphabet_of self.now) → IsOk result }
    {
        Ok(match self {
            Constraint::Value(part) => Constraint::Value(*part),
            Constraint::Size(part) => Constraint::Size(*part),
            Constraint::PermittedAlphabet(part) => {
                Constraint::PermittedAlphabet(part.try_clone(alloc)?)
            }
            Constraint::Extensible => Constraint::Extensible,
        })
    }

    /// Whether the constraint is extensible, as the extension marker is.
    pub fn is_extensible(&self) -> bool
        ensures { result ≡ is_extensible self.now }
    {
        match self {
            Constraint::Value(part) => part.extensible.is_some(),
            Constraint::Size(part) => part.extensible.is_some(),
            Constraint::PermittedAlphabet(part) => part.extensible.is_some(),
            Constraint::Extensible => true,
        }
    }
}

impl<'a> From<Extensible<'a, Value>> for Constraint<'a> {
    ghost from_gives = { λ part result. result ≡ constraint.Value part };

    fn from(part: Extensible<'a, Value>) -> Self {
        Self::Value(part)
    }
}

impl<'a> From<Value> for Constraint<'a> {
    ghost from_gives = { λ kind result. result ≡ constraint.Value (record { constraint = kind; extensible = None }) };

    fn from(kind: Value) -> Self {
        Constraint::Value(Extensible::new(kind))
    }
}

impl<'a> From<Extensible<'a, Size>> for Constraint<'a> {
    ghost from_gives = { λ part result. result ≡ constraint.Size part };

    fn from(part: Extensible<'a, Size>) -> Self {
        Self::Size(part)
    }
}

impl<'a> From<Size> for Constraint<'a> {
    ghost from_gives = { λ kind result. result ≡ constraint.Size (record { constraint = kind; extensible = None }) };

    fn from(kind: Size) -> Self {
        Constraint::Size(Extensible::new(kind))
    }
}

impl<'a> From<Extensible<'a, PermittedAlphabet>> for Constraint<'a> {
    ghost from_gives = { λ part result. result ≡ constraint.PermittedAlphabet part };

    fn from(part: Extensible<'a, PermittedAlphabet>) -> Self {
        Self::PermittedAlphabet(part)
    }
}

impl<'a> From<PermittedAlphabet> for Constraint<'a> {
    ghost from_gives = { λ kind result. result ≡ constraint.PermittedAlphabet (record { constraint = kind; extensible = None }) };

    fn from(kind: PermittedAlphabet) -> Self {
        Constraint::PermittedAlphabet(Extensible::new(kind))
    }
}
