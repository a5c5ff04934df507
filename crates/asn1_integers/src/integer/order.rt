//! Equality, order and hash of integers, by their numbers.
ghost use Rattle.std.specs.Prelude.{◌≡◌, ◌++◌, unsigned_abs, pos};
ghost use Rattle.std.proofs.Common.{rules};
ghost use Rattle.std.specs.Cmp.{partial_order_from_own_ties};
ghost use Rattle.std.specs.Cmp.Rules.{comparing, hashing};
ghost use Rattle.std.specs.Hash as fed;
ghost use Rattle.std.specs.Int.{is_negative};
ghost use Rattle.std.specs.Int.Digits.{digits_of};
ghost use Rattle.std.specs.Ordering.{as_partial_cmp, int_cmp, int_eq};
ghost use Rattle.asn1_integers.specs.Numbers.{signed};

use crate::integer::{Integer, Representation};
use crate::magnitude;
use std::cmp::Ordering;
use std::hash::{Hash, Hasher};

impl PartialEq for Integer {
    ghost eq = { int_eq };

    ghost laws = { Prim.search (comparing, rules) };

    fn eq(&self, other: &Self) -> bool {
        self.cmp(other) == Ordering::Equal
    }
}

impl Eq for Integer {
    ghost laws = { Prim.search (comparing, rules) };
}

impl PartialOrd for Integer {
    ghost partial_cmp = { as_partial_cmp int_cmp };

    ghost laws = { partial_order_from_own_ties (Prim.search (comparing, rules)) (Prim.search (comparing, rules)) };

    fn partial_cmp(&self, other: &Self) -> Option<Ordering> {
        Some(self.cmp(other))
    }
}

impl Ord for Integer {
    ghost cmp = { int_cmp };

    ghost total = { Prim.search (comparing, rules) };

    ghost matches_partial_cmp = { Prim.search (comparing, rules) };

    ghost matches_eq = { Prim.search (comparing, rules) };

    fn cmp(&self, other: &Self) -> Ordering {
        match &self.representation {
            Representation::Narrow(number) => match &other.representation {
                Representation::Narrow(other) => number.cmp(other),
                Representation::Wide { negative, .. } => zero_to(*negative),
            },
            Representation::Wide { negative, bytes } => match &other.representation {
                Representation::Narrow(_) => zero_to(*negative).reverse(),
                Representation::Wide {
                    negative: other_negative,
                    bytes: other_bytes,
                } => match (*negative, *other_negative) {
                    (false, false) => magnitude::compare(bytes, other_bytes),
                    (true, true) => magnitude::compare(other_bytes, bytes),
                    (false, true) => Ordering::Greater,
                    (true, false) => Ordering::Less,
                },
            },
        }
    }
}

/// How 0 compares to a number with this sign that is not 0.
fn zero_to(negative: bool) -> Ordering
    ensures { result ≡ int_cmp (pos 0) (signed negative 1) }
{
    if negative {
        Ordering::Greater
    } else {
        Ordering::Less
    }
}

impl Hash for Integer {
    ghost hash_input = { λ z. fed.bool (is_negative z) ++ fed.slice fed.u8 (digits_of 256 (unsigned_abs z)) };

    ghost respects_eq = { Prim.search (hashing, rules) };

    fn hash<H: Hasher>(&self, state: &mut H) {
        self.is_negative().hash(state);
        match &self.representation {
            Representation::Narrow(number) => {
                let bytes = magnitude::from_u128(number.unsigned_abs());
                magnitude::without_leading_zeros(&bytes).hash(state);
            }
            Representation::Wide { bytes, .. } => bytes.hash(state),
        }
    }
}
