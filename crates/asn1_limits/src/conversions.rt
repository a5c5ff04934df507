//! Values within limits made of values, read as values, and shown.
ghost use Rattle.std.specs.Prelude.{◌≡◌, MatchResult};

use crate::restriction::Restriction;
use crate::within::Within;
use std::fmt;
use std::ops::Deref;

impl<T: PartialEq, L: Restriction<T>> TryFrom<T> for Within<T, L> {
    type Error = T;

    // The answer of `try_new`.
    ghost try_from_gives = { λ value made. MatchResult made (λ within. (within ≡ value) × L.IsWithin value) (λ back. (back ≡ value) × ¬ L.IsWithin value) };

    fn try_from(value: T) -> Result<Self, T> {
        Self::try_new(value)
    }
}

impl<T: PartialEq, L: Restriction<T>> Deref for Within<T, L> {
    type Target = T;

    ghost deref_gives = { λ within value. (value ≡ within) × L.IsWithin within };

    fn deref(&self) -> &T {
        self.get()
    }
}

/// As the value shows itself: the limits are those of the type.
impl<T: PartialEq + fmt::Debug, L: Restriction<T>> fmt::Debug for Within<T, L> {
    ghost debug_output = { T.debug_output };

    fn fmt<W: fmt::Write>(&self, f: &mut fmt::Formatter<W>) -> fmt::Result {
        fmt::Debug::fmt(self.get(), f)
    }
}

/// As the value is written: the limits are those of the type.
impl<T: PartialEq + fmt::Display, L: Restriction<T>> fmt::Display for Within<T, L> {
    ghost output = { T.output };

    ghost styled_output = { T.styled_output };

    fn fmt<W: fmt::Write>(&self, f: &mut fmt::Formatter<W>) -> fmt::Result {
        fmt::Display::fmt(self.get(), f)
    }
}
