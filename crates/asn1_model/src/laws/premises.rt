//! When the premises of a round trip hold of each type of the lower layers and of the language: which values are valid, and
//! under which tags the type is well tagged. Without these a type could be of no use, and no other contract would tell.
ghost use Rattle.std.specs.Prelude.{◌↔◌, ℕ, Bool, List, All, IfSome, Option};
ghost use Rattle.std.specs.Cow.{cow_value};
ghost use Rattle.asn1_tags.specs.declared.tags.Tag.{Tag};
ghost use Rattle.asn1_model.specs.Meaning.{IsWellTagged, IsWellTaggedUnder};
ghost use Rattle.asn1_model.specs.Premises.{EachIsValid, IsPlain, IsTaggedAs};
ghost use Rattle.asn1_model.specs.Tags.{IsATag};

use crate::asn_type::AsnType;
use crate::strings::StringType;
use crate::tag::Marker;
use asn1_values::{
    Alphabet, AlphabetString, BitVec, Integer, LimitedInteger, Limits, NamedBitString,
    ObjectIdentifier, StringUnit, UnitString,
};
use std::borrow::Cow;
use std::marker::PhantomData;

/// A law of the types that hold no others: each value is valid, and the type is well tagged under each tag but the CHOICE marker
/// tag. A type without any content has no tag.
pub fn types_that_hold_no_others_are_plain<
    'a,
    L: Limits,
    U: StringUnit,
    K: StringType<U>,
    A: Alphabet<U> + StringType<U>,
    T: AsnType,
    const NUMBER: u32,
>()
    ensures null { IsPlain ⟦<() as AsnType>⟧.meaning }
    ensures boolean { IsPlain ⟦<bool as AsnType>⟧.meaning }
    ensures of_u8 { IsPlain ⟦<u8 as AsnType>⟧.meaning }
    ensures of_u16 { IsPlain ⟦<u16 as AsnType>⟧.meaning }
    ensures of_u32 { IsPlain ⟦<u32 as AsnType>⟧.meaning }
    ensures of_u64 { IsPlain ⟦<u64 as AsnType>⟧.meaning }
    ensures of_u128 { IsPlain ⟦<u128 as AsnType>⟧.meaning }
    ensures of_usize { IsPlain ⟦<usize as AsnType>⟧.meaning }
    ensures of_i8 { IsPlain ⟦<i8 as AsnType>⟧.meaning }
    ensures of_i16 { IsPlain ⟦<i16 as AsnType>⟧.meaning }
    ensures of_i32 { IsPlain ⟦<i32 as AsnType>⟧.meaning }
    ensures of_i64 { IsPlain ⟦<i64 as AsnType>⟧.meaning }
    ensures of_i128 { IsPlain ⟦<i128 as AsnType>⟧.meaning }
    ensures of_isize { IsPlain ⟦<isize as AsnType>⟧.meaning }
    ensures integer { IsPlain ⟦<Integer as AsnType>⟧.meaning }
    ensures string { IsPlain ⟦<String as AsnType>⟧.meaning }
    ensures text { IsPlain ⟦<&'a str as AsnType>⟧.meaning }
    ensures units { IsPlain ⟦<UnitString<U, K> as AsnType>⟧.meaning }
    ensures packed_bits { IsPlain ⟦<BitVec as AsnType>⟧.meaning }
    ensures named_bits { IsPlain ⟦<NamedBitString as AsnType>⟧.meaning }
    ensures alphabet { IsPlain ⟦<AlphabetString<U, A> as AsnType>⟧.meaning }
    ensures identifier { IsPlain ⟦<ObjectIdentifier as AsnType>⟧.meaning }
    ensures marker { IsPlain ⟦<Marker<NUMBER> as AsnType>⟧.meaning }
    ensures limited { IsPlain ⟦<LimitedInteger<L> as AsnType>⟧.meaning }
    ensures phantom { EachIsValid ⟦<PhantomData<T> as AsnType>⟧.meaning }
{}

/// A law of validity: a value that holds others is valid if and only if these are.
pub fn holders_are_valid_as_their_contents<'a, T: AsnType + 'a, const N: usize>(
    _vec: &Vec<T>,
    _slice: &'a [T],
    _reference: &'a T,
    _boxed: &Box<T>,
    _cow: &Cow<'a, T>,
)
    ensures vec { (accepts : List ℕ → Bool) →
        ⟦<Vec<T> as AsnType>⟧.meaning.IsValid accepts _vec.now ↔
        All (T.meaning.IsValid accepts) _vec.now.items }
    ensures slice { (accepts : List ℕ → Bool) →
        ⟦<&'a [T] as AsnType>⟧.meaning.IsValid accepts _slice.entry ↔
        All (T.meaning.IsValid accepts) _slice.entry.now }
    ensures array { (accepts : List ℕ → Bool) (elements : List T) →
        ⟦<[T; N] as AsnType>⟧.meaning.IsValid accepts elements ↔
        All (T.meaning.IsValid accepts) elements }
    ensures option { (accepts : List ℕ → Bool) (o : Option T) →
        ⟦<Option<T> as AsnType>⟧.meaning.IsValid accepts o ↔ IfSome o (T.meaning.IsValid accepts) }
    ensures reference { (accepts : List ℕ → Bool) →
        ⟦<&'a T as AsnType>⟧.meaning.IsValid accepts _reference.entry ↔
        T.meaning.IsValid accepts _reference.entry.now }
    ensures boxed { (accepts : List ℕ → Bool) →
        ⟦<Box<T> as AsnType>⟧.meaning.IsValid accepts _boxed.now ↔
        T.meaning.IsValid accepts _boxed.now.value }
    ensures cow { (accepts : List ℕ → Bool) →
        ⟦<Cow<'a, T> as AsnType>⟧.meaning.IsValid accepts _cow.now ↔
        T.meaning.IsValid accepts (cow_value _cow.now) }
{}

/// A law of tags: a list is well tagged where its elements' type is; what holds one value is well tagged under the tags under
/// which that value's type is; and an option or a type without any content is not well tagged.
pub fn holders_are_tagged_as_their_contents<'a, T: AsnType + 'a, const N: usize>()
    ensures vec { (t : Tag) → IsWellTaggedUnder ⟦<Vec<T> as AsnType>⟧.meaning t ↔
        (IsATag t × IsWellTagged T.meaning) }
    ensures slice { (t : Tag) → IsWellTaggedUnder ⟦<&'a [T] as AsnType>⟧.meaning t ↔
        (IsATag t × IsWellTagged T.meaning) }
    ensures array { (t : Tag) → IsWellTaggedUnder ⟦<[T; N] as AsnType>⟧.meaning t ↔
        (IsATag t × IsWellTagged T.meaning) }
    ensures reference { IsTaggedAs ⟦<&'a T as AsnType>⟧.meaning T.meaning }
    ensures boxed { IsTaggedAs ⟦<Box<T> as AsnType>⟧.meaning T.meaning }
    ensures cow { IsTaggedAs ⟦<Cow<'a, T> as AsnType>⟧.meaning T.meaning }
    ensures option { (t : Tag) → ¬ IsWellTaggedUnder ⟦<Option<T> as AsnType>⟧.meaning t }
    ensures content_of_option { (t : Tag) →
        ⟦<Option<T> as AsnType>⟧.meaning.HasDistinctTags t ↔ IsWellTaggedUnder T.meaning t }
    ensures phantom { (t : Tag) → ¬ IsWellTaggedUnder ⟦<PhantomData<T> as AsnType>⟧.meaning t }
{}
