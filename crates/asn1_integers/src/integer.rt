//! Whole numbers of any size.
ghost use Rattle.std.specs.Prelude.{◌≡◌, ◌↔◌, pos, ◌<ℤ◌, FitsSigned, IsTrue, IsOk, IfOk, unsigned_abs};
ghost use Rattle.std.specs.Int.{FitsUnsigned, w128};
ghost use Rattle.std.specs.Option.{SomeIff};
ghost use Rattle.asn1_integers.specs.Numbers.{magnitude, signed, IsShortest, IsMagnitude};

mod conversions;
mod order;
mod text;

use crate::magnitude;
use std::alloc::{AllocError, Global};
use std::marker::Model;

/// A whole number.
///
/// Contracts see it as its number.
#[derive(Drop)]
pub struct Integer {
    representation: Representation,
}

/// The representation of a number, which is unique: narrow if it fits, else wide and without leading zeros.
#[derive(Drop)]
enum Representation {
    Narrow(i128),
    Wide { negative: bool, bytes: Vec<u8> },
}

impl Model for Integer {
    ghost use Rattle.std.specs.Prelude.{ℤ};

    ghost Value = { ℤ };

    ghost use Rattle.asn1_integers.specs.Integer.{number, IsUniqueRepresentation};

    ghost view = { λ i. number i.representation };

    ghost invariant = { λ i. IsUniqueRepresentation i.representation };
}

impl Integer {
    /// The number.
    #[inline(always)]
    pub fn from_i128(number: i128) -> Self
        ensures { result ≡ number }
    {
        Integer {
            representation: Representation::Narrow(number),
        }
    }

    /// The number of a sign and a magnitude, whose bytes go from the most significant to the least.
    /// Leading zeros count for nothing, and a negative zero is 0. Memory is taken only if the number
    /// is no `i128`.
    pub fn from_sign_magnitude(
        alloc: Global,
        negative: bool,
        bytes: &[u8],
    ) -> Result<Self, AllocError>
        ensures number { IfOk result (λ number. number ≡ signed negative (magnitude bytes.now)) }
        ensures succeeds { FitsSigned w128 (signed negative (magnitude bytes.now)) → IsOk result }
    {
        match magnitude::to_i128(negative, bytes) {
            Some(number) => Ok(Self::from_i128(number)),
            None => Ok(Integer {
                representation: Representation::Wide {
                    negative,
                    bytes: Vec::from_slice(alloc, magnitude::without_leading_zeros(bytes))?,
                },
            }),
        }
    }

    /// Whether the number is negative, and its magnitude, from the most significant byte to the
    /// least, with no leading zero. Zero has no bytes.
    pub fn sign_magnitude(&self, alloc: Global) -> Result<(bool, Vec<u8>), AllocError>
        ensures sign { IfOk result (λ parts. IsTrue parts.0 ↔ (self.now <ℤ pos 0)) }
        ensures number { IfOk result (λ parts. signed parts.0 (magnitude parts.1.items) ≡
            self.now) }
        ensures shortest { IfOk result (λ parts. IsShortest parts.1.items) }
    {
        Ok((self.is_negative(), self.magnitude_bytes(alloc)?))
    }

    fn magnitude_bytes(&self, alloc: Global) -> Result<Vec<u8>, AllocError>
        ensures number { IfOk result (λ bytes. magnitude bytes.items ≡ unsigned_abs self.now) }
        ensures normal { IfOk result (λ bytes. IsMagnitude bytes.items) }
    {
        match &self.representation {
            Representation::Narrow(number) => {
                let bytes = magnitude::from_u128(number.unsigned_abs());
                Vec::from_slice(alloc, magnitude::without_leading_zeros(&bytes))
            }
            Representation::Wide { bytes, .. } => Vec::from_slice(alloc, bytes),
        }
    }

    /// The number, if it is an `i128`.
    #[inline(always)]
    pub fn to_i128(&self) -> Option<i128>
        ensures { SomeIff result (FitsSigned w128 self.now) self.now }
    {
        match self.representation {
            Representation::Narrow(number) => Some(number),
            Representation::Wide { .. } => None,
        }
    }

    /// The same, of an integer that is needed no more.
    pub(crate) fn into_i128(self) -> Option<i128>
        ensures { SomeIff result (FitsSigned w128 self) self }
    {
        self.to_i128()
    }

    /// The number, if it is a `u128`.
    pub(crate) fn to_u128(&self) -> Option<u128>
        ensures { SomeIff result (FitsUnsigned w128 self.now) (unsigned_abs self.now) }
    {
        match &self.representation {
            Representation::Narrow(number) => u128::try_from(*number).ok(),
            Representation::Wide { negative: true, .. } => None,
            Representation::Wide { bytes, .. } => magnitude::to_u128(bytes),
        }
    }

    /// The same number again.
    ///
    /// Fails only if the allocator refuses room for it; a number of an `i128` takes none.
    #[inline(always)]
    pub fn try_clone(&self, alloc: Global) -> Result<Self, AllocError>
        ensures number { IfOk result (λ copy. copy ≡ self.now) }
        ensures succeeds { FitsSigned w128 self.now → IsOk result }
    {
        match &self.representation {
            Representation::Narrow(number) => Ok(Self::from_i128(*number)),
            Representation::Wide { negative, bytes } => Self::from_sign_magnitude(
                alloc, *negative, bytes,
            ),
        }
    }

    /// Whether the number is below 0.
    pub fn is_negative(&self) -> bool
        ensures { IsTrue result ↔ (self.now <ℤ pos 0) }
    {
        match self.representation {
            Representation::Narrow(number) => number.is_negative(),
            Representation::Wide { negative, .. } => negative,
        }
    }
}
