//! Laws on the invariants of types. The theorem for bytes from elsewhere asks these invariants of the values that the bytes
//! encode.
ghost use Rattle.std.specs.Prelude.{◌≡◌, ◌↔◌, ℤ, Bool, List, All, IfSome, IsTrue, Option, Some, length};
ghost use Rattle.std.specs.Cow.{cow_value};
ghost use Rattle.std.specs.Str.{IsUtf8};
ghost use Rattle.std.specs.String.{string_bytes};
ghost use Rattle.asn1_values.specs.Bits.{EndsInOne};
ghost use Rattle.asn1_ranges.specs.Members.{IsMember};
ghost use Rattle.asn1_ranges.specs.declared.bounded.Bounded.TheVariants.{Range};

use crate::asn_type::AsnType;
use crate::strings::StringType;
use crate::tag::Marker;
use asn1_values::{
    Alphabet, AlphabetString, BitVec, Integer, LimitedInteger, Limits, NamedBitString, StringUnit,
    UnitString,
};
use std::borrow::Cow;
use std::marker::PhantomData;

/// A law of the types that hold no others: a string has the units of its kind, a UTF8String the bytes of a text, named bits end in
/// 1, a number with limits is within them, and each value of another type meets its invariant. The built-in integers have a law of their own.
pub fn plain_types_state_their_invariants<
    'a,
    L: Limits,
    U: StringUnit,
    K: StringType<U>,
    A: Alphabet<U> + StringType<U>,
    T: AsnType,
    const NUMBER: u32,
>(_string: &String, _text: &'a str)
    ensures null { (v : _) → ⟦<() as AsnType>⟧.meaning.IsOfType v }
    ensures boolean { (b : Bool) → ⟦<bool as AsnType>⟧.meaning.IsOfType b }
    ensures integer { (n : ℤ) → ⟦<Integer as AsnType>⟧.meaning.IsOfType n }
    ensures limited { (n : ℤ) → ⟦<LimitedInteger<L> as AsnType>⟧.meaning.IsOfType n ↔
        IsMember (λ z. z) (Range (Some L.start) (Some L.end)) n }
    ensures marker { (v : _) → ⟦<Marker<NUMBER> as AsnType>⟧.meaning.IsOfType v }
    ensures phantom { (v : _) → ⟦<PhantomData<T> as AsnType>⟧.meaning.IsOfType v }
    ensures units { (s : List U) → ⟦<UnitString<U, K> as AsnType>⟧.meaning.IsOfType s ↔
        All U.IsInRange s }
    ensures alphabet { (s : List U) → ⟦<AlphabetString<U, A> as AsnType>⟧.meaning.IsOfType s ↔
        All (λ unit. IsTrue (A.allows unit)) s }
    ensures packed_bits { (s : List Bool) → ⟦<BitVec as AsnType>⟧.meaning.IsOfType s }
    ensures named_bits { (s : List Bool) → ⟦<NamedBitString as AsnType>⟧.meaning.IsOfType s ↔
        EndsInOne s }
    ensures string { ⟦<String as AsnType>⟧.meaning.IsOfType _string.now ↔
        IsUtf8 (string_bytes _string.now) }
    ensures text { ⟦<&'a str as AsnType>⟧.meaning.IsOfType _text.entry ↔ IsUtf8 _text.entry.now }
{}

/// A law of what holds values: a list meets its invariant if and only if each element does, an array if it has its length
/// besides; an option, a reference, a box and the like if and only if what they hold does.
pub fn holders_are_of_type_as_their_contents<'a, T: AsnType + 'a, const N: usize>(
    _vec: &Vec<T>,
    _slice: &'a [T],
    _reference: &'a T,
    _boxed: &Box<T>,
    _cow: &Cow<'a, T>,
)
    ensures vec { ⟦<Vec<T> as AsnType>⟧.meaning.IsOfType _vec.now ↔
        All T.meaning.IsOfType _vec.now.items }
    ensures slice { ⟦<&'a [T] as AsnType>⟧.meaning.IsOfType _slice.entry ↔
        All T.meaning.IsOfType _slice.entry.now }
    ensures array { (elements : List T) → ⟦<[T; N] as AsnType>⟧.meaning.IsOfType elements ↔
        ((length elements ≡ N) × All T.meaning.IsOfType elements) }
    ensures option { (o : Option T) → ⟦<Option<T> as AsnType>⟧.meaning.IsOfType o ↔
        IfSome o T.meaning.IsOfType }
    ensures reference { ⟦<&'a T as AsnType>⟧.meaning.IsOfType _reference.entry ↔
        T.meaning.IsOfType _reference.entry.now }
    ensures boxed { ⟦<Box<T> as AsnType>⟧.meaning.IsOfType _boxed.now ↔
        T.meaning.IsOfType _boxed.now.value }
    ensures cow { ⟦<Cow<'a, T> as AsnType>⟧.meaning.IsOfType _cow.now ↔
        T.meaning.IsOfType (cow_value _cow.now) }
{}
