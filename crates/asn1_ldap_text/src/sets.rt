//! Elements of sets.
ghost use Rattle.std.specs.Prelude.{◌≡◌};

use asn1_types::SetOf;

/// The elements of a set, in the order in which they came.
pub(crate) fn elements<T>(set: &SetOf<T>) -> &[T]
    ensures { result.now ≡ set.now }
{
    set.iter().as_slice()
}
