//! Values that hold others: a value under a tag, and one within limits.
use crate::constrainable::{Constrainable, HasCharacters, HasNumber, HasSize};
use crate::restriction::Restriction;
use crate::within::Within;
use asn1_bounds::Bounded;
use asn1_types::Implicit;
use asn1_values::Alphabet;

impl<T, V: Constrainable> Constrainable for Implicit<T, V> {
    ghost facets = { λ v. V.facets v.value };

    ghost same_facets = { λ v w. V.same_facets v.value w.value };
}

impl<T, V: HasSize> HasSize for Implicit<T, V> {
    fn has_size_in(&self, sizes: Bounded<usize>) -> bool {
        self.value.has_size_in(sizes)
    }
}

impl<T, V: HasNumber> HasNumber for Implicit<T, V> {
    fn has_number_in(&self, numbers: Bounded<i128>) -> bool {
        self.value.has_number_in(numbers)
    }
}

impl<T, V: HasCharacters> HasCharacters for Implicit<T, V> {
    fn first_except<A: Alphabet<u32>>(&self) -> Option<usize> {
        self.value.first_except::<A>()
    }
}

impl<T: Constrainable, L: Restriction<T>> Constrainable for Within<T, L> {
    ghost facets = { T.facets };

    ghost same_facets = { T.same_facets };
}

impl<T: HasSize, L: Restriction<T>> HasSize for Within<T, L> {
    fn has_size_in(&self, sizes: Bounded<usize>) -> bool {
        self.get().has_size_in(sizes)
    }
}

impl<T: HasNumber, L: Restriction<T>> HasNumber for Within<T, L> {
    fn has_number_in(&self, numbers: Bounded<i128>) -> bool {
        self.get().has_number_in(numbers)
    }
}

impl<T: HasCharacters, L: Restriction<T>> HasCharacters for Within<T, L> {
    fn first_except<A: Alphabet<u32>>(&self) -> Option<usize> {
        self.get().first_except::<A>()
    }
}
