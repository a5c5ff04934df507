//! The records that are read as a value of each type of the lower layers and of the language, and no others are.
ghost use Rattle.std.specs.Prelude.{◌≡◌, ◌↔◌, ℕ, pos, List, [], Option};
ghost use Rattle.std.specs.Cow.{cow_value};
ghost use Rattle.std.specs.String.{string_bytes};
ghost use Rattle.asn1_tags.specs.declared.tags.Tag.{Tag};
ghost use Rattle.asn1_model.specs.ConstraintSets.{ConstraintSet};
ghost use Rattle.asn1_model.specs.Readings.{IsReadAsOption};
ghost use Rattle.asn1_model.specs.ReadingLaws.{AreReadOfBitsWithZeros, AreReadOfContents, AreReadOfContentsAlone, AreReadOfElements};
ghost use Rattle.asn1_model.specs.Records.{Record, arcs, bits, boolean, in_root, null, number, sequence_of, units, utf8};

use crate::asn_type::AsnType;
use crate::strings::StringType;
use crate::tag::Marker;
use asn1_values::{
    Alphabet, AlphabetString, BitVec, Integer, LimitedInteger, Limits, NamedBitString,
    ObjectIdentifier, StringUnit, UnitString,
};
use std::borrow::Cow;
use std::marker::PhantomData;

/// A law of the numbers and markers: each is read of one record with its content and nothing else, under the tag and the
/// constraints that it is read under, and whatever name; a NULL, a BOOLEAN and a marker have no constraints.
pub fn numbers_are_read_of_their_contents<L: Limits, const NUMBER: u32>(_marker: Marker<NUMBER>)
    ensures of_null { AreReadOfContentsAlone ⟦<() as AsnType>⟧.meaning (λ _. null) }
    ensures of_marker { AreReadOfContentsAlone ⟦<Marker<NUMBER> as AsnType>⟧.meaning (λ _. null) }
    ensures of_boolean { AreReadOfContentsAlone ⟦<bool as AsnType>⟧.meaning boolean }
    ensures of_u8 { AreReadOfContents ⟦<u8 as AsnType>⟧.meaning (λ n. number (pos n)) }
    ensures of_u16 { AreReadOfContents ⟦<u16 as AsnType>⟧.meaning (λ n. number (pos n)) }
    ensures of_u32 { AreReadOfContents ⟦<u32 as AsnType>⟧.meaning (λ n. number (pos n)) }
    ensures of_u64 { AreReadOfContents ⟦<u64 as AsnType>⟧.meaning (λ n. number (pos n)) }
    ensures of_u128 { AreReadOfContents ⟦<u128 as AsnType>⟧.meaning (λ n. number (pos n)) }
    ensures of_usize { AreReadOfContents ⟦<usize as AsnType>⟧.meaning (λ n. number (pos n)) }
    ensures of_i8 { AreReadOfContents ⟦<i8 as AsnType>⟧.meaning number }
    ensures of_i16 { AreReadOfContents ⟦<i16 as AsnType>⟧.meaning number }
    ensures of_i32 { AreReadOfContents ⟦<i32 as AsnType>⟧.meaning number }
    ensures of_i64 { AreReadOfContents ⟦<i64 as AsnType>⟧.meaning number }
    ensures of_i128 { AreReadOfContents ⟦<i128 as AsnType>⟧.meaning number }
    ensures of_isize { AreReadOfContents ⟦<isize as AsnType>⟧.meaning number }
    ensures of_integer { AreReadOfContents ⟦<Integer as AsnType>⟧.meaning number }
    ensures of_limited { AreReadOfContents ⟦<LimitedInteger<L> as AsnType>⟧.meaning number }
{}

/// A law of the strings: each is read of one record with its units and nothing else, as numbers are; one of named bits also of these
/// bits with 0 bits behind them (X.680, 22.7; X.690, 8.6.2.4); and an OBJECT IDENTIFIER has no constraints.
pub fn strings_are_read_of_their_units<
    'a,
    U: StringUnit,
    K: StringType<U>,
    A: Alphabet<U> + StringType<U>,
>(_string: &String, _text: &'a str)
    ensures of_units { AreReadOfContents ⟦<UnitString<U, K> as AsnType>⟧.meaning K.content }
    ensures of_alphabet { AreReadOfContents ⟦<AlphabetString<U, A> as AsnType>⟧.meaning A.content }
    ensures packed_bits { AreReadOfContents ⟦<BitVec as AsnType>⟧.meaning bits }
    ensures named_bits { AreReadOfBitsWithZeros ⟦<NamedBitString as AsnType>⟧.meaning }
    ensures identifier { AreReadOfContentsAlone ⟦<ObjectIdentifier as AsnType>⟧.meaning arcs }
    ensures of_string { AreReadOfContents ⟦<String as AsnType>⟧.meaning
        (λ s. units utf8 (string_bytes s)) }
    ensures of_text { AreReadOfContents ⟦<&'a str as AsnType>⟧.meaning (λ s. units utf8 s.now) }
{}

/// A law of what holds values: a list is read of one record that holds what its elements are read of, in their order; an option of a
/// presence mark, and of what its value is read of; a box and the like of what their contents are read of.
pub fn holders_are_read_of_what_their_contents_are<'a, T: AsnType + 'a, const N: usize>(
    _vec: &Vec<T>,
    _slice: &'a [T],
    _reference: &'a T,
    _boxed: &Box<T>,
    _cow: &Cow<'a, T>,
)
    ensures of_vec { AreReadOfElements ⟦<Vec<T> as AsnType>⟧.meaning T.meaning sequence_of
        (λ list. list.items) }
    ensures of_slice { AreReadOfElements ⟦<&'a [T] as AsnType>⟧.meaning T.meaning sequence_of
        (λ slice. slice.now) }
    ensures of_array { AreReadOfElements ⟦<[T; N] as AsnType>⟧.meaning T.meaning sequence_of
        (λ elements. elements) }
    ensures of_option { (o : Option T) (t : Tag) (c : ConstraintSet) (rs : List Record) →
        ⟦<Option<T> as AsnType>⟧.meaning.IsReadAs o t c rs ↔
        IsReadAsOption (λ v. T.meaning.IsReadAs v t c) in_root t o rs }
    ensures of_reference { (t : Tag) (c : ConstraintSet) (rs : List Record) →
        ⟦<&'a T as AsnType>⟧.meaning.IsReadAs _reference.entry t c rs ↔
        T.meaning.IsReadAs _reference.entry.now t c rs }
    ensures of_boxed { (t : Tag) (c : ConstraintSet) (rs : List Record) →
        ⟦<Box<T> as AsnType>⟧.meaning.IsReadAs _boxed.now t c rs ↔
        T.meaning.IsReadAs _boxed.now.value t c rs }
    ensures of_cow { (t : Tag) (c : ConstraintSet) (rs : List Record) →
        ⟦<Cow<'a, T> as AsnType>⟧.meaning.IsReadAs _cow.now t c rs ↔
        T.meaning.IsReadAs (cow_value _cow.now) t c rs }
    ensures of_phantom { (v : _) (t : Tag) (c : ConstraintSet) (rs : List Record) →
        ⟦<PhantomData<T> as AsnType>⟧.meaning.IsReadAs v t c rs ↔ (rs ≡ []) }
{}
