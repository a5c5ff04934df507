//! The records of a value of each type of the lower layers and of the language.
ghost use Rattle.std.specs.Prelude.{◌≡◌, ℕ, ℤ, pos, negsuc, ◌^◌, ◌-◌, Bool, List, [], ◌∷◌, None, Option, Some, codes};
ghost use Rattle.std.specs.Cow.{cow_value};
ghost use Rattle.std.specs.Option.{option_map};
ghost use Rattle.std.specs.String.{string_bytes};
ghost use Rattle.asn1_ranges.specs.declared.bounded.Bounded.TheVariants.{Range};
ghost use Rattle.asn1_tags.specs.declared.tags.Tag.{Tag};
ghost use Rattle.asn1_model.specs.Composites.{elements_records, option_records, text_records};
ghost use Rattle.asn1_model.specs.ConstraintSets.{ConstraintSet, unconstrained, values_of, size_of};
ghost use Rattle.asn1_model.specs.Meaning.{HasOwn, own_records};
ghost use Rattle.asn1_model.specs.Records.{Name, arcs, bits, in_root, name_or, null, number, scalar, boolean};
ghost use Rattle.asn1_model.specs.Tags.{universal};

use crate::asn_type::AsnType;
use crate::strings::StringType;
use asn1_values::{
    Alphabet, AlphabetString, BitVec, Integer, LimitedInteger, Limits, NamedBitString,
    ObjectIdentifier, StringUnit, UnitString,
};
use std::borrow::Cow;
use std::marker::PhantomData;

/// A law of the numbers: each is a content under the tag and the name that it is given; a built-in integer has the
/// constraints of its width, and where other constraints are given, these.
pub fn numbers_have_their_records<L: Limits>()
    ensures null_own { HasOwn ⟦<() as AsnType>⟧.meaning (universal 5) unconstrained
        (Some (codes "NULL")) }
    ensures null { (v : _) (t : Tag) (c : ConstraintSet) (name : Name) →
        ⟦<() as AsnType>⟧.meaning.records v t c name ≡ scalar t unconstrained name null ∷ [] }
    ensures boolean_own { HasOwn ⟦<bool as AsnType>⟧.meaning (universal 1) unconstrained
        (Some (codes "BOOLEAN")) }
    ensures boolean { (b : Bool) (t : Tag) (c : ConstraintSet) (name : Name) →
        ⟦<bool as AsnType>⟧.meaning.records b t c name ≡ scalar t unconstrained name (boolean b) ∷
        [] }
    ensures u8_own { HasOwn ⟦<u8 as AsnType>⟧.meaning (universal 2)
        (values_of (Range (Some (pos 0)) (Some (pos (2 ^ 8 - 1))))) (Some (codes "INTEGER")) }
    ensures of_u8 { (n : ℕ) (t : Tag) (c : ConstraintSet) (name : Name) →
        ⟦<u8 as AsnType>⟧.meaning.records n t c name ≡ scalar t c name (number (pos n)) ∷ [] }
    ensures u16_own { HasOwn ⟦<u16 as AsnType>⟧.meaning (universal 2)
        (values_of (Range (Some (pos 0)) (Some (pos (2 ^ 16 - 1))))) (Some (codes "INTEGER")) }
    ensures of_u16 { (n : ℕ) (t : Tag) (c : ConstraintSet) (name : Name) →
        ⟦<u16 as AsnType>⟧.meaning.records n t c name ≡ scalar t c name (number (pos n)) ∷ [] }
    ensures u32_own { HasOwn ⟦<u32 as AsnType>⟧.meaning (universal 2)
        (values_of (Range (Some (pos 0)) (Some (pos (2 ^ 32 - 1))))) (Some (codes "INTEGER")) }
    ensures of_u32 { (n : ℕ) (t : Tag) (c : ConstraintSet) (name : Name) →
        ⟦<u32 as AsnType>⟧.meaning.records n t c name ≡ scalar t c name (number (pos n)) ∷ [] }
    ensures u64_own { HasOwn ⟦<u64 as AsnType>⟧.meaning (universal 2)
        (values_of (Range (Some (pos 0)) (Some (pos (2 ^ 64 - 1))))) (Some (codes "INTEGER")) }
    ensures of_u64 { (n : ℕ) (t : Tag) (c : ConstraintSet) (name : Name) →
        ⟦<u64 as AsnType>⟧.meaning.records n t c name ≡ scalar t c name (number (pos n)) ∷ [] }
    ensures usize_own { HasOwn ⟦<usize as AsnType>⟧.meaning (universal 2)
        (values_of (Range (Some (pos 0)) (Some (pos (2 ^ 64 - 1))))) (Some (codes "INTEGER")) }
    ensures of_usize { (n : ℕ) (t : Tag) (c : ConstraintSet) (name : Name) →
        ⟦<usize as AsnType>⟧.meaning.records n t c name ≡ scalar t c name (number (pos n)) ∷ [] }
    ensures i8_own { HasOwn ⟦<i8 as AsnType>⟧.meaning (universal 2)
        (values_of (Range (Some (negsuc (2 ^ 7 - 1))) (Some (pos (2 ^ 7 - 1)))))
        (Some (codes "INTEGER")) }
    ensures of_i8 { (n : ℤ) (t : Tag) (c : ConstraintSet) (name : Name) →
        ⟦<i8 as AsnType>⟧.meaning.records n t c name ≡ scalar t c name (number (n)) ∷ [] }
    ensures i16_own { HasOwn ⟦<i16 as AsnType>⟧.meaning (universal 2)
        (values_of (Range (Some (negsuc (2 ^ 15 - 1))) (Some (pos (2 ^ 15 - 1)))))
        (Some (codes "INTEGER")) }
    ensures of_i16 { (n : ℤ) (t : Tag) (c : ConstraintSet) (name : Name) →
        ⟦<i16 as AsnType>⟧.meaning.records n t c name ≡ scalar t c name (number (n)) ∷ [] }
    ensures i32_own { HasOwn ⟦<i32 as AsnType>⟧.meaning (universal 2)
        (values_of (Range (Some (negsuc (2 ^ 31 - 1))) (Some (pos (2 ^ 31 - 1)))))
        (Some (codes "INTEGER")) }
    ensures of_i32 { (n : ℤ) (t : Tag) (c : ConstraintSet) (name : Name) →
        ⟦<i32 as AsnType>⟧.meaning.records n t c name ≡ scalar t c name (number (n)) ∷ [] }
    ensures i64_own { HasOwn ⟦<i64 as AsnType>⟧.meaning (universal 2)
        (values_of (Range (Some (negsuc (2 ^ 63 - 1))) (Some (pos (2 ^ 63 - 1)))))
        (Some (codes "INTEGER")) }
    ensures of_i64 { (n : ℤ) (t : Tag) (c : ConstraintSet) (name : Name) →
        ⟦<i64 as AsnType>⟧.meaning.records n t c name ≡ scalar t c name (number (n)) ∷ [] }
    ensures isize_own { HasOwn ⟦<isize as AsnType>⟧.meaning (universal 2)
        (values_of (Range (Some (negsuc (2 ^ 63 - 1))) (Some (pos (2 ^ 63 - 1)))))
        (Some (codes "INTEGER")) }
    ensures of_isize { (n : ℤ) (t : Tag) (c : ConstraintSet) (name : Name) →
        ⟦<isize as AsnType>⟧.meaning.records n t c name ≡ scalar t c name (number (n)) ∷ [] }
    ensures i128_own { HasOwn ⟦<i128 as AsnType>⟧.meaning (universal 2)
        (values_of (Range (Some (negsuc (2 ^ 127 - 1))) (Some (pos (2 ^ 127 - 1)))))
        (Some (codes "INTEGER")) }
    ensures of_i128 { (n : ℤ) (t : Tag) (c : ConstraintSet) (name : Name) →
        ⟦<i128 as AsnType>⟧.meaning.records n t c name ≡ scalar t c name (number (n)) ∷ [] }
    ensures u128_own { HasOwn ⟦<u128 as AsnType>⟧.meaning (universal 2)
        (values_of (Range (Some (pos 0)) None)) (Some (codes "INTEGER")) }
    ensures of_u128 { (n : ℕ) (t : Tag) (c : ConstraintSet) (name : Name) →
        ⟦<u128 as AsnType>⟧.meaning.records n t c name ≡ scalar t c name (number (pos n)) ∷ [] }
    ensures integer_own { HasOwn ⟦<Integer as AsnType>⟧.meaning (universal 2) unconstrained
        (Some (codes "INTEGER")) }
    ensures of_integer { (n : ℤ) (t : Tag) (c : ConstraintSet) (name : Name) →
        ⟦<Integer as AsnType>⟧.meaning.records n t c name ≡
        scalar t c (name_or name (Some (codes "INTEGER"))) (number n) ∷ [] }
    ensures limited_own { HasOwn ⟦<LimitedInteger<L> as AsnType>⟧.meaning (universal 2)
        (values_of (Range (Some L.start) (Some L.end))) (Some (codes "INTEGER")) }
    ensures of_limited { (n : ℤ) (t : Tag) (c : ConstraintSet) (name : Name) →
        ⟦<LimitedInteger<L> as AsnType>⟧.meaning.records n t c name ≡
        scalar t c (name_or name (Some (codes "INTEGER"))) (number n) ∷ [] }
{}

/// A law of the strings: each is a content under the tag and the constraints that it is given, and under the name that it
/// is given, or its own where that is none. An OBJECT IDENTIFIER has no constraints.
pub fn strings_have_their_records<
    'a,
    U: StringUnit,
    K: StringType<U>,
    A: Alphabet<U> + StringType<U>,
>(_string: &String, _text: &'a str)
    ensures units_own { HasOwn ⟦<UnitString<U, K> as AsnType>⟧.meaning K.own_tag unconstrained
        (Some K.own_name) }
    ensures of_units { (s : List U) (t : Tag) (c : ConstraintSet) (name : Name) →
        ⟦<UnitString<U, K> as AsnType>⟧.meaning.records s t c name ≡
        scalar t c (name_or name (Some K.own_name)) (K.content s) ∷ [] }
    ensures alphabet_own { HasOwn ⟦<AlphabetString<U, A> as AsnType>⟧.meaning A.own_tag
        unconstrained (Some A.own_name) }
    ensures of_alphabet { (s : List U) (t : Tag) (c : ConstraintSet) (name : Name) →
        ⟦<AlphabetString<U, A> as AsnType>⟧.meaning.records s t c name ≡
        scalar t c (name_or name (Some A.own_name)) (A.content s) ∷ [] }
    ensures packed_bits_own { HasOwn ⟦<BitVec as AsnType>⟧.meaning (universal 3) unconstrained
        (Some (codes "BIT_STRING")) }
    ensures packed_bits { (s : List Bool) (t : Tag) (c : ConstraintSet) (name : Name) →
        ⟦<BitVec as AsnType>⟧.meaning.records s t c name ≡
        scalar t c (name_or name (Some (codes "BIT_STRING"))) (bits s) ∷ [] }
    ensures named_bits_own { HasOwn ⟦<NamedBitString as AsnType>⟧.meaning (universal 3)
        unconstrained (Some (codes "BIT_STRING")) }
    ensures named_bits { (s : List Bool) (t : Tag) (c : ConstraintSet) (name : Name) →
        ⟦<NamedBitString as AsnType>⟧.meaning.records s t c name ≡
        scalar t c (name_or name (Some (codes "BIT_STRING"))) (bits s) ∷ [] }
    ensures identifier_own { HasOwn ⟦<ObjectIdentifier as AsnType>⟧.meaning (universal 6)
        unconstrained (Some (codes "OBJECT_IDENTIFIER")) }
    ensures identifier { (s : List ℕ) (t : Tag) (c : ConstraintSet) (name : Name) →
        ⟦<ObjectIdentifier as AsnType>⟧.meaning.records s t c name ≡
        scalar t unconstrained (name_or name (Some (codes "OBJECT_IDENTIFIER"))) (arcs s) ∷ [] }
    ensures string_own { HasOwn ⟦<String as AsnType>⟧.meaning (universal 12) unconstrained
        (Some (codes "UTF8String")) }
    ensures of_string { (t : Tag) (c : ConstraintSet) (name : Name) →
        ⟦<String as AsnType>⟧.meaning.records _string.now t c name ≡
        text_records t c name (string_bytes _string.now) }
    ensures text_own { HasOwn ⟦<&'a str as AsnType>⟧.meaning (universal 12) unconstrained
        (Some (codes "UTF8String")) }
    ensures of_text { (t : Tag) (c : ConstraintSet) (name : Name) →
        ⟦<&'a str as AsnType>⟧.meaning.records _text.entry t c name ≡
        text_records t c name _text.entry.now }
{}

/// A law of what holds values: a list is a record of the records of its elements, in their order; an option is a presence
/// mark, and what it holds; a box and the like are what they hold.
pub fn holders_have_the_records_of_their_contents<'a, T: AsnType + 'a, const N: usize>(
    _vec: &Vec<T>,
    _slice: &'a [T],
    _reference: &'a T,
    _boxed: &Box<T>,
    _cow: &Cow<'a, T>,
)
    ensures vec_own { HasOwn ⟦<Vec<T> as AsnType>⟧.meaning (universal 16) unconstrained
        (Some (codes "SEQUENCE_OF")) }
    ensures of_vec { (t : Tag) (c : ConstraintSet) (name : Name) →
        ⟦<Vec<T> as AsnType>⟧.meaning.records _vec.now t c name ≡
        elements_records (own_records T.meaning) t c name _vec.now.items }
    ensures slice_own { HasOwn ⟦<&'a [T] as AsnType>⟧.meaning (universal 16) unconstrained
        (Some (codes "SEQUENCE_OF")) }
    ensures of_slice { (t : Tag) (c : ConstraintSet) (name : Name) →
        ⟦<&'a [T] as AsnType>⟧.meaning.records _slice.entry t c name ≡
        elements_records (own_records T.meaning) t c name _slice.entry.now }
    ensures array_own { HasOwn ⟦<[T; N] as AsnType>⟧.meaning (universal 16) (size_of N)
        (Some (codes "SEQUENCE_OF")) }
    ensures of_array { (elements : List T) (t : Tag) (c : ConstraintSet) (name : Name) →
        ⟦<[T; N] as AsnType>⟧.meaning.records elements t c name ≡
        elements_records (own_records T.meaning) t c name elements }
    ensures option_own { HasOwn ⟦<Option<T> as AsnType>⟧.meaning T.meaning.tag T.meaning.constraints
        T.meaning.name }
    ensures of_option { (o : Option T) (t : Tag) (c : ConstraintSet) (name : Name) →
        ⟦<Option<T> as AsnType>⟧.meaning.records o t c name ≡
        option_records in_root t (option_map (λ v. T.meaning.records v t c name) o) }
    ensures reference_own { HasOwn ⟦<&'a T as AsnType>⟧.meaning T.meaning.tag T.meaning.constraints
        T.meaning.name }
    ensures of_reference { (t : Tag) (c : ConstraintSet) (name : Name) →
        ⟦<&'a T as AsnType>⟧.meaning.records _reference.entry t c name ≡
        T.meaning.records _reference.entry.now t c name }
    ensures boxed_own { HasOwn ⟦<Box<T> as AsnType>⟧.meaning T.meaning.tag T.meaning.constraints
        T.meaning.name }
    ensures of_boxed { (t : Tag) (c : ConstraintSet) (name : Name) →
        ⟦<Box<T> as AsnType>⟧.meaning.records _boxed.now t c name ≡
        T.meaning.records _boxed.now.value t c (name_or name T.meaning.name) }
    ensures cow_own { HasOwn ⟦<Cow<'a, T> as AsnType>⟧.meaning T.meaning.tag T.meaning.constraints
        T.meaning.name }
    ensures of_cow { (t : Tag) (c : ConstraintSet) (name : Name) →
        ⟦<Cow<'a, T> as AsnType>⟧.meaning.records _cow.now t c name ≡
        T.meaning.records (cow_value _cow.now) t c (name_or name T.meaning.name) }
    ensures phantom_own { HasOwn ⟦<PhantomData<T> as AsnType>⟧.meaning (universal 5) unconstrained
        None }
    ensures of_phantom { (v : _) (t : Tag) (c : ConstraintSet) (name : Name) →
        ⟦<PhantomData<T> as AsnType>⟧.meaning.records v t c name ≡ [] }
{}
