//! Laws of what no other contract names: derives, conversions, loops, and the fields of INSTANCE OF.
ghost use Rattle.std.specs.Prelude.{◌≡◌, ◌↔◌, ◌++◌, ℕ, Bool, IsOk, List, IsTrue, MatchResult, false, length, vec_len};
ghost use Rattle.std.specs.Cmp.Lexicographic.{pointwise, slice_cmp, slice_partial_cmp};
ghost use Rattle.std.specs.Fmt.{debug_list};
ghost use Rattle.std.specs.Hash as fed;
ghost use Rattle.std.specs.Ordering.{nat_cmp, ordering_then};
ghost use Rattle.std.specs.Slice.Iter.{iter_rest};
ghost use Rattle.asn1_components.specs.Components.{has_marker, table};
ghost use Rattle.asn1_model.specs.ConstraintSets.{ConstraintSet};
ghost use Rattle.asn1_model.specs.Meaning.{own_records};
ghost use Rattle.asn1_model.specs.Records.{Name};
ghost use Rattle.asn1_types.specs.Kinds.{instance_of_fields};
ghost use Rattle.asn1_tags.specs.declared.tags.Tag.{Tag};
ghost use Rattle.asn1_types.specs.declared.array.Array.{Array};
ghost use Rattle.asn1_types.specs.declared.explicit.Explicit.{Explicit};
ghost use Rattle.asn1_types.specs.declared.implicit.Implicit.{Implicit};
ghost use Rattle.asn1_types.specs.declared.instance_of.InstanceOf.{InstanceOf};

mod premises;
mod readings;
mod records;
mod strings;

use crate::any::Any;
use crate::array::Array;
use crate::explicit::Explicit;
use crate::implicit::Implicit;
use crate::instance_of::InstanceOf;
use crate::set_of::SetOf;
use asn1_components::FieldTable;
use asn1_model::AsnType;
pub use premises::{
    types_are_tagged_as_their_contents, values_are_of_type_as_their_contents,
    values_are_valid_as_their_contents,
};
pub use readings::types_are_read_of_what_their_contents_are;
pub use records::{
    sets_feed_their_length, types_begin_with_their_tags, types_have_the_records_of_their_contents,
};
use std::fmt::{Debug, Display};
use std::hash::Hash;
pub use strings::{
    kinds_of_string_are_compared_as_they_are, kinds_of_string_say_what_their_types_say,
};

/// Laws of the derived traits. Values under another tag are compared, hashed and cloned as the values that they hold,
/// values of open types are compared and hashed as their bytes, and those of an INSTANCE OF by the name of the type and then
/// by the value.
pub fn values_are_compared_by_what_they_hold<T, V: Ord + Hash + Clone>()
    ensures implicit_equal { (v w : Implicit T V) → ⟦<Implicit<T, V> as PartialEq>⟧.eq v w ≡
        V.eq v.value w.value }
    ensures implicit_order { (v w : Implicit T V) → ⟦<Implicit<T, V> as Ord>⟧.cmp v w ≡
        V.cmp v.value w.value }
    ensures implicit_hash { (v : Implicit T V) → ⟦<Implicit<T, V> as Hash>⟧.hash_input v ≡
        V.hash_input v.value }
    ensures implicit_clone { (v w : Implicit T V) → ⟦<Implicit<T, V> as Clone>⟧.is_clone v w →
        V.is_clone v.value w.value }
    ensures implicit_clone_succeeds { (v : Implicit T V) → V.is_infallible v.value →
        ⟦<Implicit<T, V> as Clone>⟧.is_infallible v }
    ensures explicit_equal { (v w : Explicit T V) → ⟦<Explicit<T, V> as PartialEq>⟧.eq v w ≡
        V.eq v.value w.value }
    ensures explicit_order { (v w : Explicit T V) → ⟦<Explicit<T, V> as Ord>⟧.cmp v w ≡
        V.cmp v.value w.value }
    ensures explicit_hash { (v : Explicit T V) → ⟦<Explicit<T, V> as Hash>⟧.hash_input v ≡
        V.hash_input v.value }
    ensures explicit_clone { (v w : Explicit T V) → ⟦<Explicit<T, V> as Clone>⟧.is_clone v w →
        V.is_clone v.value w.value }
    ensures explicit_clone_succeeds { (v : Explicit T V) → V.is_infallible v.value →
        ⟦<Explicit<T, V> as Clone>⟧.is_infallible v }
    ensures any_equal { (v w : List ℕ) → IsTrue (⟦<Any as PartialEq>⟧.eq v w) ↔ (v ≡ w) }
    ensures any_order { (v w : List ℕ) → ⟦<Any as Ord>⟧.cmp v w ≡ slice_cmp nat_cmp v w }
    ensures any_hash { (v : List ℕ) → ⟦<Any as Hash>⟧.hash_input v ≡ fed.slice fed.u8 v }
    ensures instance_equal { (v w : InstanceOf V) →
        IsTrue (⟦<InstanceOf<V> as PartialEq>⟧.eq v w) ↔
        ((v.type_id ≡ w.type_id) × IsTrue (V.eq v.value w.value)) }
    ensures instance_order { (v w : InstanceOf V) →
        ⟦<InstanceOf<V> as Ord>⟧.cmp v w ≡
        ordering_then (slice_cmp nat_cmp v.type_id w.type_id) (V.cmp v.value w.value) }
    ensures instance_hash { (v : InstanceOf V) →
        ⟦<InstanceOf<V> as Hash>⟧.hash_input v ≡
        fed.slice fed.u32 v.type_id ++ V.hash_input v.value }
{}

/// A law of `Debug` and `Display`: values under another tag are written as the values that they hold, and a set as a vector of its
/// elements.
pub fn values_are_written_as_what_they_hold<T, V: Debug + Display>()
    ensures implicit_shown { (v : Implicit T V) → ⟦<Implicit<T, V> as Debug>⟧.debug_output v ≡
        V.debug_output v.value }
    ensures implicit_written { (v : Implicit T V) → ⟦<Implicit<T, V> as Display>⟧.output v ≡
        V.output v.value }
    ensures explicit_shown { (v : Explicit T V) → ⟦<Explicit<T, V> as Debug>⟧.debug_output v ≡
        V.debug_output v.value }
    ensures explicit_written { (v : Explicit T V) → ⟦<Explicit<T, V> as Display>⟧.output v ≡
        V.output v.value }
    ensures set_shown { (elements : List V) → ⟦<SetOf<V> as Debug>⟧.debug_output elements ≡
        debug_list V.debug_output elements }
{}

/// Laws of an array in a struct of its own. It means what the array means, it is made of the array, and two are equal if
/// and only if their elements are, in their order. A clone has clones of the elements, so it is its source where each of
/// these is.
pub fn arrays_are_their_elements<T: AsnType + PartialEq + Clone, const N: usize>(_elements: [T; N])
    ensures records { (array : Array T N) (t : Tag) (c : ConstraintSet) (n : Name) →
        ⟦<Array<T, N> as AsnType>⟧.meaning.records array t c n ≡
        ⟦<[T; N] as AsnType>⟧.meaning.records array.elements t c n }
    ensures own_records { (array : Array T N) →
        own_records ⟦<Array<T, N> as AsnType>⟧.meaning array ≡
        own_records ⟦<[T; N] as AsnType>⟧.meaning array.elements }
    ensures of_type { (array : Array T N) →
        ⟦<Array<T, N> as AsnType>⟧.meaning.IsOfType array ↔
        ⟦<[T; N] as AsnType>⟧.meaning.IsOfType array.elements }
    ensures valid { (accepts : List ℕ → Bool) (array : Array T N) →
        ⟦<Array<T, N> as AsnType>⟧.meaning.IsValid accepts array ↔
        ⟦<[T; N] as AsnType>⟧.meaning.IsValid accepts array.elements }
    ensures made { (array : Array T N) →
        ⟦<Array<T, N> as From<[T; N]>>⟧.from_gives _elements array → array.elements ≡ _elements }
    ensures equal { (a b : Array T N) → ⟦<Array<T, N> as PartialEq>⟧.eq a b ≡
        pointwise T.eq a.elements b.elements }
    ensures clone { ((x y : T) → T.is_clone x y → y ≡ x) → (a b : Array T N) →
        length a.elements ≡ N → length b.elements ≡ N →
        ⟦<Array<T, N> as Clone>⟧.is_clone a b → b ≡ a }
{}

/// Laws of an array that is made of a list: it is made if and only if the list has as many elements, and has these.
pub fn arrays_are_made_of_lists<T: Drop, const N: usize>(_list: &Vec<T>)
    ensures length { (made : _) →
        ⟦<Array<T, N> as TryFrom<Vec<T>>>⟧.try_from_gives _list.now made →
        IsOk made ↔ (vec_len _list.now ≡ N) }
    ensures elements { (made : _) →
        ⟦<Array<T, N> as TryFrom<Vec<T>>>⟧.try_from_gives _list.now made →
        MatchResult made (λ array. array.elements ≡ _list.now.items) (λ same. same ≡ _list.now) }
{}

/// Laws of the order and hash of an array in a struct of its own, which are those of the slice of its elements.
pub fn arrays_are_ordered_as_slices<T: Ord + Hash, const N: usize>()
    ensures partial_order { (a b : Array T N) →
        ⟦<Array<T, N> as PartialOrd>⟧.partial_cmp a b ≡
        slice_partial_cmp T.partial_cmp a.elements b.elements }
    ensures order { (a b : Array T N) → ⟦<Array<T, N> as Ord>⟧.cmp a b ≡
        slice_cmp T.cmp a.elements b.elements }
    ensures hash { (array : Array T N) → ⟦<Array<T, N> as Hash>⟧.hash_input array ≡
        fed.slice T.hash_input array.elements }
{}

/// A law of INSTANCE OF: its fields are the name of the type and then the value, at the indices 0 and 1, and both are
/// always there; and it has no extension marker.
pub fn instance_of_has_two_fields<T: AsnType>()
    ensures fields { table ⟦<InstanceOf<T> as FieldTable>⟧.components ≡ instance_of_fields }
    ensures marker { has_marker ⟦<InstanceOf<T> as FieldTable>⟧.components.extension ≡ false }
{}

/// A law of conversions: an open type is made of its bytes, a set of the elements of a vector, and a value under another tag
/// of the value. A loop over a reference to a set gives its elements, each once.
pub fn conversions_keep_what_they_are_given<'a, T, V>(
    _bytes: &Vec<u8>,
    _elements: &Vec<V>,
    _set: &'a SetOf<V>,
)
    ensures any { (any : List ℕ) → ⟦<Any as From<Vec<u8>>>⟧.from_gives _bytes.now any →
        any ≡ _bytes.now.items }
    ensures set { (set : List V) → ⟦<SetOf<V> as From<Vec<V>>>⟧.from_gives _elements.now set →
        set ≡ _elements.now.items }
    ensures each { (elements : _) →
        ⟦<&'a SetOf<V> as IntoIterator>⟧.into_iter_gives _set.entry elements → iter_rest elements ≡
        _set.entry.now }
    ensures implicit { (value : V) (v : Implicit T V) →
        ⟦<Implicit<T, V> as From<V>>⟧.from_gives value v → v.value ≡ value }
    ensures explicit { (value : V) (v : Explicit T V) →
        ⟦<Explicit<T, V> as From<V>>⟧.from_gives value v → v.value ≡ value }
{}
