//! The numbers of the units of strings.
ghost use Rattle.std.specs.Prelude.{◌≡◌, ℕ, map, not, position, true};

use asn1_values::Alphabet;

/// A unit of a string, as the character with its number.
pub trait NumberedUnit: PartialEq {
    // The number.
    ghost number: { Self → ℕ };

    /// The number.
    fn number(&self) -> u32
        ensures { result ≡ number self.now };

    // The law: equal units have the same number.
    ghost same_number: { (v w : Self) → Self.eq v w ≡ true → number v ≡ number w };
}

impl NumberedUnit for bool {
    ghost use Rattle.asn1_limits.specs.FacetLaws.{bit_number, same_bit};

    ghost number = { bit_number };

    ghost same_number = { same_bit };

    fn number(&self) -> u32 {
        u32::from(*self)
    }
}

impl NumberedUnit for u8 {
    ghost use Rattle.asn1_limits.specs.FacetLaws.{same_natural};

    ghost number = { λ unit. unit };

    ghost same_number = { same_natural };

    fn number(&self) -> u32 {
        u32::from(*self)
    }
}

impl NumberedUnit for u16 {
    ghost use Rattle.asn1_limits.specs.FacetLaws.{same_natural};

    ghost number = { λ unit. unit };

    ghost same_number = { same_natural };

    fn number(&self) -> u32 {
        u32::from(*self)
    }
}

impl NumberedUnit for u32 {
    ghost use Rattle.asn1_limits.specs.FacetLaws.{same_natural};

    ghost number = { λ unit. unit };

    ghost same_number = { same_natural };

    fn number(&self) -> u32 {
        *self
    }
}

/// The index of the first unit whose number the alphabet lacks, if there is one.
pub(crate) fn first_except<U: NumberedUnit, A: Alphabet<u32>>(units: &[U]) -> Option<usize>
    ensures { result ≡ position (λ c. not (A.allows c)) (map U.number units.now) }
{
    first_unit_except::<U, A>(units)
}

/// The same, by the units themselves.
fn first_unit_except<U: NumberedUnit, A: Alphabet<u32>>(units: &[U]) -> Option<usize>
    ensures { result ≡ position (λ unit. not (A.allows (U.number unit))) units.now }
{
    units.iter().position(|unit| !A::allows(&unit.number()))
}
