//! SET OF (X.680, 28).
ghost use Rattle.std.specs.Prelude.{◌≡◌, ◌<◌, ◌^◌, ◌↔◌, ◌++◌, [], ◌∷◌, length, map, IsTrue, IsOk, IfOk, OnOk, IfErr, OnErr, IfSome, position};
ghost use Rattle.std.specs.Bool.{OnFalse};
ghost use Rattle.std.specs.Iterator.Adapters.{IterYieldsInOrder, IterYieldsInReverse};
ghost use Rattle.std.specs.List.{list_any, swap_remove, AllZip};
ghost use Rattle.std.specs.Slice.Iter.{iter_rest};
ghost use Rattle.asn1_types.specs.Multisets.{SameElements};

mod asn_type;
mod equality;

pub use equality::equal_sets_have_the_same_elements;
use equality::{first_equal, have_same_elements};
use std::alloc::{AllocError, Global};
use std::fmt;
use std::marker::Model;
use std::slice::Iter;

/// Elements in no order, each as often as it occurs.
///
/// Contracts see it as the list of its elements, in the order in which `from_vec` and `insert` put them. Two sets are
/// equal if they have the same elements, each as often, in any order. To find that out each element is counted in both
/// sets: for n elements that takes up to twice n times n comparisons, and in a set of sets twice as many at each level.
/// Nothing but `PartialEq` is asked of the elements: where they have an order or a hash, it is not used.
///
/// A type may hold itself in a `SetOf`, and derive `PartialEq`, `Eq` and `Debug`.
#[derive(Drop)]
pub struct SetOf<T> {
    elements: Vec<T>,
}

impl<T> Model for SetOf<T> {
    ghost use Rattle.std.specs.Prelude.{List};

    ghost Value = { List T };

    ghost view = { λ set. set.elements.items };
}

impl<T> SetOf<T> {
    /// No elements. Takes no memory.
    pub fn new(alloc: Global) -> Self
        ensures { result ≡ [] }
    {
        SetOf {
            elements: Vec::new(alloc),
        }
    }

    /// The elements of the vector. Takes no memory.
    pub fn from_vec(elements: Vec<T>) -> Self
        ensures { result ≡ elements.items }
    {
        SetOf { elements }
    }

    /// No elements, and room for this many, of which no contract speaks. Fails only if the allocator refuses the room.
    pub fn with_capacity(alloc: Global, capacity: usize) -> Result<Self, AllocError>
        ensures empty { IfOk result (λ set. set ≡ []) }
        ensures no_room { capacity ≡ 0 → IsOk result }
    {
        Ok(SetOf {
            elements: Vec::with_capacity(alloc, capacity)?,
        })
    }

    /// Puts the element last. Fails only if the allocator refuses room for it, and then gives it back.
    pub fn insert(&mut self, element: T) -> Result<(), T>
        ensures inserted { OnOk result (self.new ≡ self.old ++ element ∷ []) }
        ensures given_back { IfErr result (λ back. back ≡ element) }
        ensures unchanged { OnErr result (self.new ≡ self.old) }
    {
        self.elements.push(element).map_err(|failed| failed.value)
    }

    /// Puts the element last, as `insert` does, with an error that `?` takes. Fails only if the allocator refuses room for
    /// it; the element is dropped then.
    pub fn try_insert(&mut self, element: T) -> Result<(), AllocError>
    where
        T: Drop,
        ensures inserted { OnOk result (self.new ≡ self.old ++ element ∷ []) }
        ensures unchanged { OnErr result (self.new ≡ self.old) }
    {
        self.insert(element).map_err(|_element| AllocError)
    }

    /// How many elements there are.
    pub fn len(&self) -> usize
        ensures { result ≡ length self.now }
    {
        self.elements.len()
    }

    /// Whether there are none.
    pub fn is_empty(&self) -> bool
        ensures { IsTrue result ↔ (length self.now ≡ 0) }
    {
        self.elements.is_empty()
    }

    /// The elements, one after another.
    pub fn iter(&self) -> Iter<'_, T>
        ensures rest { iter_rest result ≡ self.now }
        ensures bound { length self.now < 2 ^ 64 }

        // The elements that the iterator of a slice yields, from either end.
        ensures runs { IterYieldsInOrder T }
        ensures runs_back { IterYieldsInReverse T }
    {
        self.elements.iter()
    }

    /// References to the elements, in the order of `iter`. Fails only if the allocator refuses room for them.
    pub fn to_vec(&self, alloc: Global) -> Result<Vec<&T>, AllocError>
        ensures { IfOk result (λ elements. map (λ element. element.now) elements.items ≡ self.now) }
    {
        self.iter().collect(alloc)
    }

    /// The elements themselves, in the order of `iter`.
    pub fn into_vec(self) -> Vec<T>
        ensures { result.items ≡ self }
    {
        let SetOf { elements } = self;
        elements
    }
}

impl<T: Clone> SetOf<T> {
    /// Clones of the elements of the slice, in its order. Fails only if the allocator refuses room for them, or a clone
    /// fails.
    pub fn from_slice(alloc: Global, elements: &[T]) -> Result<Self, AllocError>
        ensures clones { IfOk result (AllZip T.is_clone elements.now) }
        ensures same { ((x y : T) → T.is_clone x y → y ≡ x) →
            IfOk result (λ set. set ≡ elements.now) }
    {
        Ok(SetOf {
            elements: Vec::from_clones(alloc, elements)?,
        })
    }

    /// Clones of the elements of the array, in its order. Fails as `from_slice` does.
    pub fn from_array<const N: usize>(alloc: Global, elements: &[T; N]) -> Result<Self, AllocError>
        ensures clones { IfOk result (AllZip T.is_clone elements.now) }
        ensures same { ((x y : T) → T.is_clone x y → y ≡ x) →
            IfOk result (λ set. set ≡ elements.now) }
    {
        SetOf::from_slice(alloc, elements)
    }

    /// Clones of the elements, in their order. Fails as `from_slice` does.
    pub fn try_clone(&self, alloc: Global) -> Result<Self, AllocError>
        ensures clones { IfOk result (AllZip T.is_clone self.now) }
        ensures same { ((x y : T) → T.is_clone x y → y ≡ x) → IfOk result (λ set. set ≡ self.now) }
    {
        SetOf::from_slice(alloc, &self.elements)
    }
}

impl<T: Eq> SetOf<T> {
    /// Whether there is an element that is equal to this one.
    pub fn contains(&self, element: &T) -> bool
        ensures { result ≡ list_any (λ other. T.eq other element.now) self.now }
    {
        self.elements.contains(element)
    }

    /// Takes the first element that is equal to this one, and moves the last into its place. The answer is whether there
    /// was one.
    pub fn remove(&mut self, element: &T) -> bool
    where
        T: Drop,
        ensures found { result ≡ list_any (λ other. T.eq other element.now) self.old }
        ensures taken { IfSome (position (λ other. T.eq other element.now) self.old)
            (λ i. self.new ≡ swap_remove self.old i element.now) }
        ensures unchanged { OnFalse result (self.new ≡ self.old) }
    {
        match first_equal(element, &self.elements) {
            Some(index) => {
                let _ = self.elements.swap_remove(index);
                true
            }
            None => false,
        }
    }

    /// Whether the slice has the same elements, each as often, in any order. Costs what equality costs.
    pub fn eq_slice(&self, others: &[T]) -> bool
        ensures { IsTrue result ↔ SameElements T.eq self.now others.now }
    {
        have_same_elements(&self.elements, others)
    }
}

/// References to the elements, as those of [`SetOf::iter`].
impl<'a, T> IntoIterator for &'a SetOf<T> {
    type Item = &'a T;

    type IntoIter = Iter<'a, T>;

    ghost into_iter_gives = { λ set elements. (iter_rest elements ≡ set.now) × (length (iter_rest elements) < 2 ^ 64)
        × IterYieldsInOrder T × IterYieldsInReverse T };

    fn into_iter(self) -> Iter<'a, T> {
        self.iter()
    }
}

/// The elements as a vector shows them, in the order of `iter`.
impl<T: fmt::Debug> fmt::Debug for SetOf<T> {
    ghost use Rattle.std.specs.Fmt.{debug_list};

    ghost debug_output = { debug_list T.debug_output };

    fn fmt<W: fmt::Write>(&self, f: &mut fmt::Formatter<W>) -> fmt::Result {
        fmt::Debug::fmt(&self.elements, f)
    }
}

impl<T> From<Vec<T>> for SetOf<T> {
    ghost from_gives = { λ elements set. set ≡ elements.items };

    fn from(elements: Vec<T>) -> Self {
        SetOf::from_vec(elements)
    }
}
