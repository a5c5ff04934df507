//! Named bits.
ghost use Rattle.std.specs.Prelude.{◌≡◌, ◌↔◌, IfSome, IsSome, false, slice_get, unwrap_or};
ghost use Rattle.asn1_strings.specs.Bits.{EndsInOne, without_trailing_zeros};

use crate::strings::bit_vec::BitVec;
use std::marker::Model;

/// A BIT STRING with named bits (X.680, 22.7): bits of which the last is 1, if there is one, since 0 bits at the end mean nothing.
///
/// Contracts see it as the list of its bits. It is equal to another if their bits are.
#[derive(Drop, PartialEq, Eq)]
pub struct NamedBitString {
    bits: BitVec,
}

impl Model for NamedBitString {
    ghost use Rattle.std.specs.Prelude.{Bool, List};
    ghost use Rattle.asn1_strings.specs.Bits.{EndsInOne};

    ghost Value = { List Bool };

    ghost view = { λ s. s.bits };

    ghost invariant = { λ s. EndsInOne s.bits };

    ghost inverse = { λ bits. record { bits = bits } };
}

impl NamedBitString {
    /// The bits without the 0 bits at their end.
    pub fn new(bits: BitVec) -> Self
        ensures { result ≡ without_trailing_zeros bits }
    {
        NamedBitString {
            bits: bits.without_trailing_zeros(),
        }
    }

    /// The bits if the last of them is 1, or there is none.
    pub fn of_bits(bits: BitVec) -> Option<Self>
        ensures some { IsSome result ↔ EndsInOne bits }
        ensures same { IfSome result (λ named. named ≡ bits) }
    {
        if bits.significant_len() == bits.len() {
            Some(NamedBitString { bits })
        } else {
            None
        }
    }

    /// Whether the bit at an index is 1. A bit behind the last one is 0.
    pub fn has(&self, index: usize) -> bool
        ensures { result ≡ unwrap_or (slice_get self.now index) false }
    {
        self.bits.get(index).unwrap_or(false)
    }

    /// The bits, of which the last is 1.
    pub fn as_bits(&self) -> &BitVec
        ensures bits { result.now ≡ self.now }
        ensures ends_in_one { EndsInOne self.now }
    {
        &self.bits
    }
}

/// The bits without the 0 bits at their end.
impl From<BitVec> for NamedBitString {
    ghost from_gives = { λ bits named. named ≡ without_trailing_zeros bits };

    fn from(bits: BitVec) -> Self {
        Self::new(bits)
    }
}
