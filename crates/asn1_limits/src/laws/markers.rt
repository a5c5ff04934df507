//! Markers, by the values that they admit, their roots and their tables.
ghost use Rattle.std.specs.Prelude.{◌≡◌, ◌↔◌, ◌⊎◌, ◌≤◌, ◌≤ℤ◌, ℕ, ℤ, Bool, List, None, Some, length};
ghost use Rattle.asn1_limits.specs.CharacterRanges.{is_in_ranges};
ghost use Rattle.asn1_limits.specs.Facets.{HasOnly};
ghost use Rattle.asn1_limits.specs.LimitTables.{with_characters, with_marker, with_numbers, with_sizes};
ghost use Rattle.asn1_model.specs.ConstraintSets.{ConstraintSet};
ghost use Rattle.asn1_values.specs.Alphabets.{is_among};
ghost use Rattle.asn1_ranges.specs.declared.bounded.Bounded.TheVariants.{Range};

use crate::constrainable::{HasCharacters, HasNumber, HasSize};
use crate::markers::alphabets::{CharacterList, CharacterRanges, LetterRanges, Letters};
use crate::markers::extensions::{Stated, WithMarker};
use crate::markers::numbers::{LimitsOf, NumbersFrom, NumbersUpTo};
use crate::markers::sets::{And, Anything, Except, Or};
use crate::markers::sizes::{Sizes, SizesFrom};
use crate::restriction::Restriction;
use asn1_types::SetOf;
use asn1_values::{Alphabet, Between, Integer, Limits, NamedBitString, OctetString};

/// A law of SIZE (X.680, 51.5): a set and an OCTET STRING are admitted if their length is not below the start, and not above the end.
/// The end alone binds named bits (22.7), unless the start is above it. Every admitted value is in the root, and a table states both
/// ends.
pub fn sizes_are_admitted_between_their_ends<
    I: PartialEq,
    T: HasSize,
    const A: usize,
    const B: usize,
>()
    ensures set { (v : List I) → ⟦<Sizes<A, B> as Restriction<SetOf<I>>>⟧.IsWithin v ↔
        ((A ≤ length v) × (length v ≤ B)) }
    ensures octets { (v : List ℕ) → ⟦<Sizes<A, B> as Restriction<OctetString>>⟧.IsWithin v ↔
        ((A ≤ length v) × (length v ≤ B)) }
    ensures octets_from { (v : List ℕ) → ⟦<SizesFrom<A> as Restriction<OctetString>>⟧.IsWithin v ↔
        (A ≤ length v) }
    ensures named_bits { (v : List Bool) →
        ⟦<Sizes<A, B> as Restriction<NamedBitString>>⟧.IsWithin v ↔ ((A ≤ B) × (length v ≤ B)) }
    ensures named_bits_from { (v : List Bool) →
        ⟦<SizesFrom<A> as Restriction<NamedBitString>>⟧.IsWithin v }
    ensures root { (v : T) → ⟦<Sizes<A, B> as Restriction<T>>⟧.IsInRoot v ↔
        ⟦<Sizes<A, B> as Restriction<T>>⟧.IsWithin v }
    ensures root_from { (v : T) → ⟦<SizesFrom<A> as Restriction<T>>⟧.IsInRoot v ↔
        ⟦<SizesFrom<A> as Restriction<T>>⟧.IsWithin v }
    ensures table { (set : ConstraintSet) → ⟦<Sizes<A, B> as Restriction<T>>⟧.constrained set ≡
        with_sizes (Range (Some A) (Some B)) set }
    ensures table_from { (set : ConstraintSet) →
        ⟦<SizesFrom<A> as Restriction<T>>⟧.constrained set ≡ with_sizes (Range (Some A) None) set }
{}

/// A law of ranges (X.680, 51.4): a whole number is admitted if it is not below the start, and not above the end. Every admitted number
/// is in the root, and a table states both ends.
pub fn numbers_are_admitted_between_their_ends<
    L: Limits,
    T: HasNumber,
    const S: i64,
    const E: i64,
>()
    ensures between { (v : ℤ) → ⟦<Between<S, E> as Restriction<Integer>>⟧.IsWithin v ↔
        ((S ≤ℤ v) × (v ≤ℤ E)) }
    ensures from_start { (v : ℤ) → ⟦<NumbersFrom<S> as Restriction<Integer>>⟧.IsWithin v ↔
        (S ≤ℤ v) }
    ensures to_end { (v : ℤ) → ⟦<NumbersUpTo<E> as Restriction<Integer>>⟧.IsWithin v ↔ (v ≤ℤ E) }
    ensures wide { (v : ℤ) → ⟦<LimitsOf<L> as Restriction<Integer>>⟧.IsWithin v ↔
        ((L.start ≤ℤ v) × (v ≤ℤ L.end)) }
    ensures between_root { (v : T) → ⟦<Between<S, E> as Restriction<T>>⟧.IsInRoot v ↔
        ⟦<Between<S, E> as Restriction<T>>⟧.IsWithin v }
    ensures from_start_root { (v : T) → ⟦<NumbersFrom<S> as Restriction<T>>⟧.IsInRoot v ↔
        ⟦<NumbersFrom<S> as Restriction<T>>⟧.IsWithin v }
    ensures to_end_root { (v : T) → ⟦<NumbersUpTo<E> as Restriction<T>>⟧.IsInRoot v ↔
        ⟦<NumbersUpTo<E> as Restriction<T>>⟧.IsWithin v }
    ensures wide_root { (v : T) → ⟦<LimitsOf<L> as Restriction<T>>⟧.IsInRoot v ↔
        ⟦<LimitsOf<L> as Restriction<T>>⟧.IsWithin v }
    ensures between_table { (set : ConstraintSet) →
        ⟦<Between<S, E> as Restriction<T>>⟧.constrained set ≡
        with_numbers (Range (Some S) (Some E)) set }
    ensures from_start_table { (set : ConstraintSet) →
        ⟦<NumbersFrom<S> as Restriction<T>>⟧.constrained set ≡
        with_numbers (Range (Some S) None) set }
    ensures to_end_table { (set : ConstraintSet) →
        ⟦<NumbersUpTo<E> as Restriction<T>>⟧.constrained set ≡
        with_numbers (Range None (Some E)) set }
    ensures wide_table { (set : ConstraintSet) → ⟦<LimitsOf<L> as Restriction<T>>⟧.constrained set ≡
        with_numbers (Range (Some L.start) (Some L.end)) set }
{}

/// A law of FROM (X.680, 51.7): a string is admitted if each of its characters is in the list, or in one of the ranges. Every admitted
/// string is in the root, and a table states the list.
pub fn letters_admit_strings_of_their_characters<
    T: HasCharacters,
    C: CharacterList,
    R: CharacterRanges,
>()
    ensures within { (v : T) → ⟦<Letters<C> as Restriction<T>>⟧.IsWithin v ↔
        HasOnly (is_among C.list) (T.facets v) }
    ensures root { (v : T) → ⟦<Letters<C> as Restriction<T>>⟧.IsInRoot v ↔
        HasOnly (is_among C.list) (T.facets v) }
    ensures table { (set : ConstraintSet) → ⟦<Letters<C> as Restriction<T>>⟧.constrained set ≡
        with_characters C.list set }
    ensures in_ranges { (v : T) → ⟦<LetterRanges<R> as Restriction<T>>⟧.IsWithin v ↔
        HasOnly (is_in_ranges R.ranges) (T.facets v) }
    ensures in_ranges_root { (v : T) → ⟦<LetterRanges<R> as Restriction<T>>⟧.IsInRoot v ↔
        HasOnly (is_in_ranges R.ranges) (T.facets v) }
    ensures in_ranges_table { (set : ConstraintSet) →
        ⟦<LetterRanges<R> as Restriction<T>>⟧.constrained set ≡ set }
    ensures allowed { (c : ℕ) → ⟦<Letters<C> as Alphabet<u32>>⟧.allows c ≡ is_among C.list c }
    ensures allowed_in_ranges { (c : ℕ) → ⟦<LetterRanges<R> as Alphabet<u32>>⟧.allows c ≡
        is_in_ranges R.ranges c }
{}

/// A law of constraints made of others (X.680, 50).
pub fn combined_markers_admit_what_the_notation_says<
    T: PartialEq,
    L: Restriction<T>,
    M: Restriction<T>,
>()
    ensures intersection { (v : T) → ⟦<And<L, M> as Restriction<T>>⟧.IsWithin v ↔
        (L.IsWithin v × M.IsWithin v) }
    ensures union { (v : T) → ⟦<Or<L, M> as Restriction<T>>⟧.IsWithin v ↔
        (L.IsWithin v ⊎ M.IsWithin v) }
    ensures exclusion { (v : T) → ⟦<Except<L, M> as Restriction<T>>⟧.IsWithin v ↔
        (L.IsWithin v × ¬ M.IsInRoot v) }
    ensures all { (v : T) → ⟦<Anything as Restriction<T>>⟧.IsWithin v }
    ensures intersection_root { (v : T) → ⟦<And<L, M> as Restriction<T>>⟧.IsInRoot v ↔
        (L.IsInRoot v × M.IsInRoot v) }
    ensures union_root { (v : T) → ⟦<Or<L, M> as Restriction<T>>⟧.IsInRoot v ↔
        (L.IsInRoot v ⊎ M.IsInRoot v) }
    ensures exclusion_root { (v : T) → ⟦<Except<L, M> as Restriction<T>>⟧.IsInRoot v ↔
        (L.IsInRoot v × ¬ M.IsInRoot v) }
    ensures all_root { (v : T) → ⟦<Anything as Restriction<T>>⟧.IsInRoot v }
    ensures intersection_table { (set : ConstraintSet) →
        ⟦<And<L, M> as Restriction<T>>⟧.constrained set ≡ M.constrained (L.constrained set) }
    ensures union_table { (set : ConstraintSet) →
        ⟦<Or<L, M> as Restriction<T>>⟧.constrained set ≡ set }
    ensures exclusion_table { (set : ConstraintSet) →
        ⟦<Except<L, M> as Restriction<T>>⟧.constrained set ≡ L.constrained set }
    ensures all_table { (set : ConstraintSet) →
        ⟦<Anything as Restriction<T>>⟧.constrained set ≡ set }
{}

/// A law of constraints that a value need not keep: every value is admitted, the root is that of the constraint, and a table states it,
/// with the extension marker (X.680, 52) or without.
pub fn extensible_and_stated_markers_admit_all<T: PartialEq, L: Restriction<T>>()
    ensures extensible { (v : T) → ⟦<WithMarker<L> as Restriction<T>>⟧.IsWithin v }
    ensures extensible_root { (v : T) → ⟦<WithMarker<L> as Restriction<T>>⟧.IsInRoot v ↔
        L.IsInRoot v }
    ensures extensible_table { (set : ConstraintSet) →
        ⟦<WithMarker<L> as Restriction<T>>⟧.constrained set ≡ with_marker (L.constrained set) }
    ensures stated { (v : T) → ⟦<Stated<L> as Restriction<T>>⟧.IsWithin v }
    ensures stated_root { (v : T) → ⟦<Stated<L> as Restriction<T>>⟧.IsInRoot v ↔ L.IsInRoot v }
    ensures stated_table { (set : ConstraintSet) →
        ⟦<Stated<L> as Restriction<T>>⟧.constrained set ≡ L.constrained set }
{}
