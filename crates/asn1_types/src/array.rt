//! Arrays, in a struct of their own.
ghost use Rattle.std.specs.Prelude.{◌≡◌, ◌≢◌, MatchResult, vec_len};
ghost use Rattle.asn1_model.specs.Kinds.{array_type, wrapper_type};

use asn1_model::{AsnType, TypeTable};

/// A SEQUENCE OF this many elements (X.680, 26). It means what the array means.
///
/// A plain array can only be written; this one can be read too. Arrays are equal if their elements are, go
/// lexicographically, and feed a hasher as slices do.
#[derive(Drop)]
#[derive_where(Clone, Copy, Debug, PartialEq, Eq, PartialOrd, Ord, Hash; T)]
pub struct Array<T, const N: usize> {
    /// The elements.
    pub elements: [T; N],
}

impl<T, const N: usize> Array<T, N> {
    /// The elements, in their order.
    pub fn as_slice(&self) -> &[T]
        ensures { result.now ≡ self.now.elements }
    {
        &self.elements
    }
}

impl<T, const N: usize> From<[T; N]> for Array<T, N> {
    ghost from_gives = { λ elements array. array.elements ≡ elements };

    fn from(elements: [T; N]) -> Self {
        Array { elements }
    }
}

impl<T: Drop, const N: usize> TryFrom<Vec<T>> for Array<T, N> {
    type Error = Vec<T>;

    // A list of another length comes back unchanged.
    ghost try_from_gives = { λ list made.
        MatchResult made (λ array. (array.elements ≡ list.items) × (vec_len list ≡ N))
        (λ same. (same ≡ list) × (vec_len list ≢ N)) };

    fn try_from(list: Vec<T>) -> Result<Array<T, N>, Vec<T>> {
        match <[T; N]>::try_from(list) {
            Ok(elements) => Ok(Array { elements }),
            Err(list) => Err(list),
        }
    }
}

impl<T: AsnType, const N: usize> AsnType for Array<T, N> {
    ghost meaning = { wrapper_type (λ array. array.elements) (array_type N T.meaning) };

    #[inline(always)]
    fn table() -> TypeTable {
        <[T; N]>::table()
    }

    #[inline(always)]
    fn is_present(&self) -> bool {
        true
    }
}
