//! With which tags the values of each type of the lower layers and of the language begin, under whatever tag the type is
//! written, and which of them are there.
ghost use Rattle.std.specs.Prelude.{◌≡◌, Option, is_some};
ghost use Rattle.std.specs.Cow.{cow_value};
ghost use Rattle.asn1_model.specs.BeginningTags.{BeginsAs, HasTagOfItsOwn};

use crate::asn_type::AsnType;
use crate::strings::StringType;
use crate::tag::Marker;
use asn1_values::{
    Alphabet, AlphabetString, BitVec, Integer, LimitedInteger, Limits, NamedBitString,
    ObjectIdentifier, StringUnit, UnitString,
};
use std::borrow::Cow;
use std::marker::PhantomData;

/// A law of the types that hold no others: under each tag the tree is that tag alone, the type is no CHOICE, and each value
/// is there.
pub fn types_that_hold_no_others_begin_with_their_tags<
    'a,
    L: Limits,
    U: StringUnit,
    K: StringType<U>,
    A: Alphabet<U> + StringType<U>,
    T: AsnType,
    const NUMBER: u32,
>()
    ensures null { HasTagOfItsOwn ⟦<() as AsnType>⟧.meaning }
    ensures boolean { HasTagOfItsOwn ⟦<bool as AsnType>⟧.meaning }
    ensures of_u8 { HasTagOfItsOwn ⟦<u8 as AsnType>⟧.meaning }
    ensures of_u16 { HasTagOfItsOwn ⟦<u16 as AsnType>⟧.meaning }
    ensures of_u32 { HasTagOfItsOwn ⟦<u32 as AsnType>⟧.meaning }
    ensures of_u64 { HasTagOfItsOwn ⟦<u64 as AsnType>⟧.meaning }
    ensures of_u128 { HasTagOfItsOwn ⟦<u128 as AsnType>⟧.meaning }
    ensures of_usize { HasTagOfItsOwn ⟦<usize as AsnType>⟧.meaning }
    ensures of_i8 { HasTagOfItsOwn ⟦<i8 as AsnType>⟧.meaning }
    ensures of_i16 { HasTagOfItsOwn ⟦<i16 as AsnType>⟧.meaning }
    ensures of_i32 { HasTagOfItsOwn ⟦<i32 as AsnType>⟧.meaning }
    ensures of_i64 { HasTagOfItsOwn ⟦<i64 as AsnType>⟧.meaning }
    ensures of_i128 { HasTagOfItsOwn ⟦<i128 as AsnType>⟧.meaning }
    ensures of_isize { HasTagOfItsOwn ⟦<isize as AsnType>⟧.meaning }
    ensures integer { HasTagOfItsOwn ⟦<Integer as AsnType>⟧.meaning }
    ensures limited { HasTagOfItsOwn ⟦<LimitedInteger<L> as AsnType>⟧.meaning }
    ensures string { HasTagOfItsOwn ⟦<String as AsnType>⟧.meaning }
    ensures text { HasTagOfItsOwn ⟦<&'a str as AsnType>⟧.meaning }
    ensures units { HasTagOfItsOwn ⟦<UnitString<U, K> as AsnType>⟧.meaning }
    ensures packed_bits { HasTagOfItsOwn ⟦<BitVec as AsnType>⟧.meaning }
    ensures named_bits { HasTagOfItsOwn ⟦<NamedBitString as AsnType>⟧.meaning }
    ensures alphabet { HasTagOfItsOwn ⟦<AlphabetString<U, A> as AsnType>⟧.meaning }
    ensures identifier { HasTagOfItsOwn ⟦<ObjectIdentifier as AsnType>⟧.meaning }
    ensures marker { HasTagOfItsOwn ⟦<Marker<NUMBER> as AsnType>⟧.meaning }
    ensures phantom { HasTagOfItsOwn ⟦<PhantomData<T> as AsnType>⟧.meaning }
{}

/// A law of the lists: as [`types_that_hold_no_others_begin_with_their_tags`], whatever the elements are.
pub fn lists_begin_with_their_tags<'a, T: AsnType + 'a, const N: usize>()
    ensures vec { HasTagOfItsOwn ⟦<Vec<T> as AsnType>⟧.meaning }
    ensures slice { HasTagOfItsOwn ⟦<&'a [T] as AsnType>⟧.meaning }
    ensures array { HasTagOfItsOwn ⟦<[T; N] as AsnType>⟧.meaning }
{}

/// A law of what holds one value: under each tag it begins with the tags of that value's type, and is a CHOICE if and only if
/// that type is one.
pub fn holders_begin_as_their_contents<'a, T: AsnType + 'a>()
    ensures option { BeginsAs ⟦<Option<T> as AsnType>⟧.meaning T.meaning }
    ensures reference { BeginsAs ⟦<&'a T as AsnType>⟧.meaning T.meaning }
    ensures boxed { BeginsAs ⟦<Box<T> as AsnType>⟧.meaning T.meaning }
    ensures cow { BeginsAs ⟦<Cow<'a, T> as AsnType>⟧.meaning T.meaning }
{}

/// A law of presence: an option is there if and only if it holds a value, and a reference, a box and the like where what they
/// hold is there.
pub fn holders_are_there_as_their_contents<'a, T: AsnType + 'a>(
    _reference: &'a T,
    _boxed: &Box<T>,
    _cow: &Cow<'a, T>,
)
    ensures option { (o : Option T) → ⟦<Option<T> as AsnType>⟧.meaning.is_present o ≡ is_some o }
    ensures reference { ⟦<&'a T as AsnType>⟧.meaning.is_present _reference.entry ≡
        T.meaning.is_present _reference.entry.now }
    ensures boxed { ⟦<Box<T> as AsnType>⟧.meaning.is_present _boxed.now ≡
        T.meaning.is_present _boxed.now.value }
    ensures cow { ⟦<Cow<'a, T> as AsnType>⟧.meaning.is_present _cow.now ≡
        T.meaning.is_present (cow_value _cow.now) }
{}
