//! REAL (X.680, 21).
ghost use Rattle.std.specs.Prelude.{◌≡◌, ◌≤◌, ◌⊎◌, ◌==◌, [], ◌∷◌, codes, length, IfErr, IfOk, IfSome, IsSome, IsTrue, List, ℕ};
ghost use Rattle.asn1_contents.specs.Reals as spec;
ghost use Rattle.asn1_contents.specs.declared.real_parts.SpecialReal.{SpecialReal};
ghost use Rattle.asn1_model.specs.Tags.{universal};

use crate::contents_kind::ContentsKind;
use crate::contents_string::ContentsString;
use crate::real_form::is_real;
use crate::real_parts::{BinaryParts, SpecialReal, binary_octets, binary_parts};
use asn1_model::TypeTable;
use asn1_tags::{Identifier, Tag};
use std::alloc::{AllocError, Global};

/// The kind of REAL.
#[derive(Drop)]
pub enum RealNumber {}

/// A REAL: a number of a mantissa, the base 2 or 10, and an exponent, which to the base 2 has 255 octets at most. It is kept as the
/// octets of X.690, 8.5, in the normal form of 11.3. A number to the base 2 and one to the base 10 are two values, even if they are equal
/// numbers (X.680, 21.5).
pub type Real = ContentsString<RealNumber>;

impl ContentsKind for RealNumber {
    ghost type_tag = { universal 9 };

    ghost type_name = { codes "REAL" };

    ghost allows = { spec.is_real };

    #[inline(always)]
    fn type_table() -> TypeTable {
        TypeTable::new(Tag::REAL, Identifier::REAL)
    }

    fn allows(octets: &[u8]) -> bool {
        is_real(octets)
    }
}

/// Why parts make no REAL.
#[derive(Clone, Copy, Debug, Drop, PartialEq, Eq)]
pub enum RealError {
    /// They are not in the normal form.
    NotNormal,
    /// Memory ran out.
    Memory,
}

impl From<AllocError> for RealError {
    ghost use Rattle.std.specs.Prelude.{◌≡◌};
    ghost use Rattle.asn1_contents.specs.declared.real.RealError.TheVariants.{Memory};

    ghost from_gives = { λ _ error. error ≡ Memory };

    fn from(_error: AllocError) -> RealError {
        RealError::Memory
    }
}

impl ContentsString<RealNumber> {
    /// The number 0, which has no octets.
    pub fn zero(alloc: Global) -> Self
        ensures { result ≡ [] }
    {
        ContentsString::new(Vec::new(alloc)).unwrap()
    }

    /// A value that has no mantissa and no exponent, but 0.
    ///
    /// # Errors
    /// That of memory.
    pub fn from_special(alloc: Global, special: SpecialReal) -> Result<Self, AllocError>
        ensures { IfOk result (λ real. real ≡ spec.special_octet special ∷ []) }
    {
        let octets = [special.octet()].to_vec(alloc)?;
        match ContentsString::new(octets) {
            Some(real) => Ok(real),
            None => Err(AllocError),
        }
    }

    /// The number that a text is in the form NR3 of ISO 6093 with no digit to spare (X.690, 11.3.2), as `15.E-1` and `-3.E+0`.
    ///
    /// # Errors
    /// [`RealError::NotNormal`] if it is none, and [`RealError::Memory`].
    pub fn from_decimal(alloc: Global, text: &[u8]) -> Result<Self, RealError>
        ensures octets { IfOk result (λ real. real ≡ 3 ∷ text.now) }
        ensures refused { IfErr result (λ error. (error ≡ RealError.Memory)
            ⊎ (error ≡ RealError.NotNormal) × (IsTrue (spec.is_decimal text.now) → ⊥)) }
    {
        let mut octets = [3u8].to_vec(alloc)?;
        octets.extend_from_slice(text)?;
        match ContentsString::new(octets) {
            Some(real) => Ok(real),
            None => Err(RealError::NotNormal),
        }
    }

    /// The number of an exponent to the base 2, in two's complement, and an odd mantissa, each in as few octets as it needs, the highest
    /// first (X.690, 11.3.1).
    ///
    /// # Errors
    /// [`RealError::NotNormal`] if they are none, or the exponent has 256 octets or more, and [`RealError::Memory`].
    pub fn from_binary(
        alloc: Global,
        is_negative: bool,
        exponent: &[u8],
        mantissa: &[u8],
    ) -> Result<Self, RealError>
        ensures octets { IfOk result (λ real.
            real ≡ spec.binary is_negative exponent.now mantissa.now) }
        ensures refused { IfErr result (λ error. (error ≡ RealError.Memory)
            ⊎ (error ≡ RealError.NotNormal) × ((256 ≤ length exponent.now)
            ⊎ (IsTrue (spec.is_real (spec.binary is_negative exponent.now mantissa.now)) → ⊥))) }
    {
        if exponent.len() >= 256 {
            return Err(RealError::NotNormal);
        }
        let octets = binary_octets(alloc, is_negative, exponent, mantissa)?;
        match ContentsString::new(octets) {
            Some(real) => Ok(real),
            None => Err(RealError::NotNormal),
        }
    }

    /// Whether it is 0.
    pub fn is_zero(&self) -> bool
        ensures { result ≡ (length self.now == 0) }
    {
        self.as_slice().is_empty()
    }

    /// The text of a decimal number, as `15.E-1`.
    pub fn decimal(&self) -> Option<&[u8]>
        ensures text { IfSome result (λ text. self.now ≡ 3 ∷ text.now) }
        ensures found { (text : List ℕ) → self.now ≡ 3 ∷ text → IsSome result }
    {
        match self.as_slice() {
            [3, text @ ..] => Some(text),
            _ => None,
        }
    }

    /// The parts of a binary number.
    pub fn binary(&self) -> Option<BinaryParts<'_>>
        ensures { IfSome result (λ parts. self.now
            ≡ spec.binary parts.is_negative parts.exponent.now parts.mantissa.now) }
    {
        binary_parts(self.as_slice())
    }

    /// The value, if it has no mantissa and no exponent and is not 0.
    pub fn special(&self) -> Option<SpecialReal>
        ensures octet { IfSome result (λ special. self.now ≡ spec.special_octet special ∷ []) }
        ensures found { (special : SpecialReal) → self.now ≡ spec.special_octet special ∷ [] →
            IsSome result }
    {
        match self.as_slice() {
            [64] => Some(SpecialReal::PlusInfinity),
            [65] => Some(SpecialReal::MinusInfinity),
            [66] => Some(SpecialReal::NotANumber),
            [67] => Some(SpecialReal::MinusZero),
            _ => None,
        }
    }
}
