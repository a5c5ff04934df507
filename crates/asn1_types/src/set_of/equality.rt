//! Equality of sets, by counting, and the hash that goes with it.
ghost use Rattle.std.specs.Prelude.{◌≡◌, ◌↔◌, IsTrue, length, position};
ghost use Rattle.std.specs.Hash as fed;
ghost use Rattle.std.specs.List.{list_all};
ghost use Rattle.std.proofs.Common.{ap};
ghost use Rattle.asn1_types.specs.Multisets.{count_of, occurs_as_often, same_counts, SameElements};
ghost use Rattle.asn1_types.specs.MultisetLaws.{same_length, same_counts-equiv, same_counts-partial};

use super::SetOf;
use std::hash::{Hash, Hasher};

/// The index of the first of the others that is equal to the element.
pub(super) fn first_equal<T: Eq>(element: &T, others: &[T]) -> Option<usize>
    ensures { result ≡ position (λ other. T.eq other element.now) others.now }
{
    others.iter().position(|other| *other == *element)
}

/// How many of the others the element is equal to.
fn count<T: PartialEq>(element: &T, others: &[T]) -> usize
    ensures { result ≡ count_of T.eq element.now others.now }
{
    others.iter().filter(|other| *element == **other).count()
}

/// Whether the element is in both, as often in the others as among the elements.
fn occurs_as_often<T: PartialEq>(element: &T, elements: &[T], others: &[T]) -> bool
    ensures { result ≡ occurs_as_often T.eq elements.now others.now element.now }
{
    let wanted = count(element, elements);
    wanted > 0 && wanted == count(element, others)
}

/// Whether each of the elements is as often among the others.
fn all_stand_as_often<T: PartialEq>(elements: &[T], others: &[T]) -> bool
    ensures { result ≡
        list_all (λ element. occurs_as_often T.eq elements.now others.now element) elements.now }
{
    elements
        .iter()
        .all(|element| occurs_as_often(element, elements, others))
}

/// Whether both are as long, and each of the elements is as often among the others.
fn have_same_counts<T: PartialEq>(elements: &[T], others: &[T]) -> bool
    ensures { result ≡ same_counts T.eq elements.now others.now }
{
    elements.len() == others.len() && all_stand_as_often(elements, others)
}

/// Whether both have the same elements, each as often, in any order.
pub(super) fn have_same_elements<T: PartialEq>(elements: &[T], others: &[T]) -> bool
    ensures counts { result ≡ same_counts T.eq elements.now others.now }
    ensures same { IsTrue result ↔ SameElements T.eq elements.now others.now }
{
    have_same_counts(elements, others)
}

impl<T: PartialEq> PartialEq for SetOf<T> {
    ghost eq = { same_counts T.eq };

    ghost laws = { same_counts-partial T.laws };

    fn eq(&self, other: &Self) -> bool {
        have_same_elements(&self.elements, &other.elements)
    }
}

impl<T: Eq> Eq for SetOf<T> {
    ghost laws = { same_counts-equiv T.Eq.laws };
}

impl<T: Eq> Hash for SetOf<T> {
    ghost hash_input = { λ set. fed.usize (length set) };

    ghost respects_eq = { λ a b equal. ap fed.usize (same_length T.eq a b equal) };

    // The length alone, since equal sets have their elements in any order, and equal elements need no hash.
    fn hash<H: Hasher>(&self, state: &mut H) {
        state.write_usize(self.len());
    }
}

/// A law of sets: two of them are equal if and only if they have the same elements, each as often, in any order.
pub fn equal_sets_have_the_same_elements<T: PartialEq>(left: &SetOf<T>, right: &SetOf<T>)
    ensures { IsTrue (⟦<SetOf<T> as PartialEq>⟧.eq left.now right.now) ↔
        SameElements T.eq left.now right.now }
{}
