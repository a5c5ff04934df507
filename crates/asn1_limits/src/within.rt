//! Values within limits.
ghost use Rattle.std.specs.Prelude.{◌≡◌, ◌↔◌, IfErr, IfOk, IfSome, IsOk, IsSome, IsTrue};

use crate::restriction::Restriction;
use std::marker::{Model, PhantomData};

/// A value of `T` that `L` admits (X.680, 49): no other can be made.
///
/// Contracts see it as the value. It is compared, ordered and hashed as the value.
#[derive(Drop)]
#[derive_where(PartialEq, Eq, PartialOrd, Ord, Hash; T)]
pub struct Within<T: PartialEq, L: Restriction<T>> {
    value: T,
    #[derive_where(skip)]
    limits: PhantomData<L>,
}

impl<T: PartialEq, L: Restriction<T>> Model for Within<T, L> {
    ghost Value = { T };

    ghost coded = { T.code };

    ghost view = { λ within. within.value };

    ghost invariant = { λ within. L.IsWithin within.value };

    ghost inverse = { λ value. record { value = value; limits = record {} } };
}

impl<T: PartialEq, L: Restriction<T>> Within<T, L> {
    /// The value, if it is within the limits.
    pub fn new(value: T) -> Option<Self>
    where
        T: Drop,
        ensures within { IsSome result ↔ L.IsWithin value }
        ensures same { IfSome result (λ made. made ≡ value) }
    {
        Self::try_new(value).ok()
    }

    /// The value, if it is within the limits; otherwise the error is the value.
    pub fn try_new(value: T) -> Result<Self, T>
        ensures within { IsOk result ↔ L.IsWithin value }
        ensures same { IfOk result (λ made. made ≡ value) }
        ensures given_back { IfErr result (λ back. back ≡ value) }
    {
        if L::admits(&value) {
            Ok(Self::of_admitted(value))
        } else {
            Err(value)
        }
    }

    /// The value, which is known to be within the limits, as that of a constant is.
    pub fn of_admitted(value: T) -> Self
        requires { L.IsWithin value }
        ensures { result ≡ value }
    {
        Within {
            value,
            limits: PhantomData,
        }
    }

    /// The value, which is within the limits.
    #[inline(always)]
    pub fn get(&self) -> &T
        ensures same { result.now ≡ self.now }
        ensures within { L.IsWithin self.now }
    {
        &self.value
    }

    /// The value itself, which is within the limits.
    pub fn into_inner(self) -> T
        ensures same { result ≡ self }
        ensures within { L.IsWithin self }
    {
        let Within { value, limits: _ } = self;
        value
    }

    /// Whether the value is in the extension root of the limits (X.680, 52), as each is if they have no extension marker.
    pub fn is_in_root(&self) -> bool
        ensures { IsTrue result ↔ L.IsInRoot self.now }
    {
        L::is_in_root(&self.value)
    }
}
