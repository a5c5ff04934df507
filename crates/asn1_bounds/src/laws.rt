//! Laws of the derives of this crate's types, and of the ghost members that an impl states for itself.
ghost use Rattle.std.specs.Prelude.{◌≡◌, ◌↔◌, ◌&&◌, ℕ, pos, IsTrue, Some, None, Result};
ghost use Rattle.std.specs.Result.{OkIff};
ghost use Rattle.std.specs.declared.alloc.AllocError.{AllocError};
ghost use Rattle.std.specs.Cmp.Lexicographic.{pointwise, slice_cmp};
ghost use Rattle.std.specs.Hash as fed;
ghost use Rattle.std.specs.Option.{option_copied, option_eq};
ghost use Rattle.std.specs.Ordering.{nat_cmp};
ghost use Rattle.asn1_ranges.specs.declared.bounded.Bounded.{Bounded};
ghost use Rattle.asn1_ranges.specs.BoundComparison.{IsExactEquality, ClonesExactly};
ghost use Rattle.asn1_bounds.specs.Admitted.{numbers, HasNarrowEnds};
ghost use Rattle.asn1_bounds.specs.ConstraintKind.{kind_of};
ghost use Rattle.asn1_bounds.specs.InnerSubtype.{refusal_of, no_memory};
ghost use Rattle.asn1_bounds.specs.Sets.{not_extensible, set_of_one, no_constraints};
ghost use Rattle.asn1_bounds.specs.ConstraintTables.{owned};
ghost use Rattle.asn1_bounds.specs.declared.alphabet.PermittedAlphabet.{PermittedAlphabet};
ghost use Rattle.asn1_bounds.specs.declared.constraint.Constraint.{Constraint};
ghost use Rattle.asn1_bounds.specs.declared.constraint.Constraint.TheVariants as constraint;
ghost use Rattle.asn1_bounds.specs.declared.constraints.Constraints.{Constraints};
ghost use Rattle.asn1_bounds.specs.declared.error.TooWide.{TooWide};
ghost use Rattle.asn1_bounds.specs.declared.error.InnerSubtypeConstraintError.{InnerSubtypeConstraintError};
ghost use Rattle.asn1_bounds.specs.declared.extensible.Extensible.{Extensible};
ghost use Rattle.asn1_bounds.specs.declared.size.Size.{Size};
ghost use Rattle.asn1_bounds.specs.declared.table.ConstraintTable.{ConstraintTable};
ghost use Rattle.asn1_bounds.specs.declared.value.Value.{Value};

use crate::alphabet::PermittedAlphabet;
use crate::codec::Codec;
use crate::constraint::{Constraint, ConstraintDiscriminant};
use crate::constraints::Constraints;
use crate::error::{InnerSubtypeConstraintError, TooWide};
use crate::extensible::Extensible;
use crate::size::Size;
use crate::table::ConstraintTable;
use crate::value::Value;
use asn1_ranges::{Bounded, FitsI128};
use std::alloc::AllocError;
use std::hash::Hash;

/// Constraints of values are equal if and only if they have the same bound; they go in the order of their bounds, and
/// are hashed as these. The default has no bound, and a clone is its source.
pub fn values_are_compared_by_bound()
    ensures equality { IsExactEquality ⟦<Value as PartialEq>⟧.eq }
    ensures order { (a b : Value) → ⟦<Value as Ord>⟧.cmp a b ≡
        ⟦<Bounded<i128> as Ord>⟧.cmp a.bound b.bound }
    ensures partial_order { (a b : Value) →
        ⟦<Value as PartialOrd>⟧.partial_cmp a b ≡ Some (⟦<Value as Ord>⟧.cmp a b) }
    ensures hash { (a : Value) →
        ⟦<Value as Hash>⟧.hash_input a ≡ ⟦<Bounded<i128> as Hash>⟧.hash_input a.bound }
    ensures default { (a : Value) → ⟦<Value as Default>⟧.is_default a → a.bound ≡ Bounded.None }
    ensures clone { ClonesExactly ⟦<Value as Clone>⟧.is_clone ⟦<Value as Clone>⟧.is_infallible }
{}

/// Constraints of length are equal if and only if they have the same bound; they go in the order of their bounds, and
/// are hashed as these. The default has no bound, and a clone is its source.
pub fn sizes_are_compared_by_bound()
    ensures equality { IsExactEquality ⟦<Size as PartialEq>⟧.eq }
    ensures order { (a b : Size) → ⟦<Size as Ord>⟧.cmp a b ≡
        ⟦<Bounded<usize> as Ord>⟧.cmp a.bound b.bound }
    ensures partial_order { (a b : Size) →
        ⟦<Size as PartialOrd>⟧.partial_cmp a b ≡ Some (⟦<Size as Ord>⟧.cmp a b) }
    ensures hash { (a : Size) →
        ⟦<Size as Hash>⟧.hash_input a ≡ ⟦<Bounded<usize> as Hash>⟧.hash_input a.bound }
    ensures default { (a : Size) → ⟦<Size as Default>⟧.is_default a → a.bound ≡ Bounded.None }
    ensures clone { ClonesExactly ⟦<Size as Clone>⟧.is_clone ⟦<Size as Clone>⟧.is_infallible }
{}

/// Permitted alphabets are equal if and only if they are the same list of characters, go lexicographically, and are
/// hashed as slices.
pub fn alphabets_are_compared_by_characters()
    ensures equality { IsExactEquality ⟦<PermittedAlphabet as PartialEq>⟧.eq }
    ensures order { (a b : PermittedAlphabet) → ⟦<PermittedAlphabet as Ord>⟧.cmp a b ≡
        slice_cmp nat_cmp a b }
    ensures partial_order { (a b : PermittedAlphabet) →
        ⟦<PermittedAlphabet as PartialOrd>⟧.partial_cmp a b ≡
        Some (⟦<PermittedAlphabet as Ord>⟧.cmp a b) }
    ensures hash { (a : PermittedAlphabet) → ⟦<PermittedAlphabet as Hash>⟧.hash_input a ≡
        fed.slice fed.u32 a }
{}

/// Two constraints with additions are equal if their roots are equal, and either neither is extensible or both are, with
/// equal additions. The default is the default of the constraint, not extensible. A clone of one on values or lengths is
/// its source.
pub fn extensible_constraints_are_compared_by_parts<'a, T: PartialEq + Default + 'a>()
    ensures equality { (a b : Extensible T) → ⟦<Extensible<'a, T> as PartialEq>⟧.eq a b ≡
        (T.eq a.constraint b.constraint &&
        option_eq (pointwise T.eq) (option_copied a.extensible) (option_copied b.extensible)) }
    ensures default { (a : Extensible T) → ⟦<Extensible<'a, T> as Default>⟧.is_default a →
        T.is_default a.constraint × (a.extensible ≡ None) }
    ensures value_clones { ClonesExactly ⟦<Extensible<'a, Value> as Clone>⟧.is_clone
        ⟦<Extensible<'a, Value> as Clone>⟧.is_infallible }
    ensures size_clones { ClonesExactly ⟦<Extensible<'a, Size> as Clone>⟧.is_clone
        ⟦<Extensible<'a, Size> as Clone>⟧.is_infallible }
{}

/// Two constraints are equal if and only if they are of one kind, and their parts are equal.
pub fn constraints_are_compared_by_parts<'a>()
    ensures values { (a b : Extensible Value) →
        ⟦<Constraint<'a> as PartialEq>⟧.eq (constraint.Value a) (constraint.Value b)
        ≡ ⟦<Extensible<'a, Value> as PartialEq>⟧.eq a b }
    ensures sizes { (a b : Extensible Size) →
        ⟦<Constraint<'a> as PartialEq>⟧.eq (constraint.Size a) (constraint.Size b)
        ≡ ⟦<Extensible<'a, Size> as PartialEq>⟧.eq a b }
    ensures alphabets { (a b : Extensible PermittedAlphabet) → ⟦<Constraint<'a> as PartialEq>⟧.eq
        (constraint.PermittedAlphabet a) (constraint.PermittedAlphabet b)
        ≡ ⟦<Extensible<'a, PermittedAlphabet> as PartialEq>⟧.eq a b }
    ensures markers { IsTrue
        (⟦<Constraint<'a> as PartialEq>⟧.eq constraint.Extensible constraint.Extensible) }
    ensures kinds { (a b : Constraint) → IsTrue (⟦<Constraint<'a> as PartialEq>⟧.eq a b) →
        kind_of a ≡ kind_of b }
{}

/// Kinds of constraint, codecs and errors are equal if and only if they are the same case, of the same number or name.
/// A clone of these, or of a table of constraints, is its source.
pub fn names_are_compared_by_case()
    ensures discriminants { IsExactEquality ⟦<ConstraintDiscriminant as PartialEq>⟧.eq }
    ensures codecs { IsExactEquality ⟦<Codec as PartialEq>⟧.eq }
    ensures widths { IsExactEquality ⟦<TooWide as PartialEq>⟧.eq }
    ensures errors { (a b : InnerSubtypeConstraintError) →
        IsTrue (⟦<InnerSubtypeConstraintError as PartialEq>⟧.eq a b) ↔
        (refusal_of a ≡ refusal_of b) }
    ensures discriminant_clones { ClonesExactly ⟦<ConstraintDiscriminant as Clone>⟧.is_clone
        ⟦<ConstraintDiscriminant as Clone>⟧.is_infallible }
    ensures codec_clones { ClonesExactly ⟦<Codec as Clone>⟧.is_clone
        ⟦<Codec as Clone>⟧.is_infallible }
    ensures width_clones { ClonesExactly ⟦<TooWide as Clone>⟧.is_clone
        ⟦<TooWide as Clone>⟧.is_infallible }
    ensures error_clones { ClonesExactly ⟦<InnerSubtypeConstraintError as Clone>⟧.is_clone
        ⟦<InnerSubtypeConstraintError as Clone>⟧.is_infallible }
    ensures table_clones { ClonesExactly ⟦<ConstraintTable<'static> as Clone>⟧.is_clone
        ⟦<ConstraintTable<'static> as Clone>⟧.is_infallible }
{}

/// A conversion keeps the bound, or the part, that it converts. A part that is made of a kind of constraint alone is not
/// extensible. A bound of lengths with an end above the greatest `i128` is refused. The default set has no constraints.
pub fn conversions_keep_the_constraint<'a, T: FitsI128, U: 'a>()
    ensures bounds { (bound : Bounded T) (value : Value) →
        ⟦<Value as From<Bounded<T>>>⟧.from_gives bound value →
        value.bound ≡ numbers T.number bound }
    ensures lengths { (bound : Bounded ℕ) (answer : Result Value TooWide) →
        ⟦<Value as TryFrom<Bounded<usize>>>⟧.try_from_gives bound answer →
        OkIff answer (HasNarrowEnds bound) (record { bound = numbers pos bound }) }
    ensures parts { (kind : U) (part : Extensible U) →
        ⟦<Extensible<'a, U> as From<U>>⟧.from_gives kind part → part ≡ not_extensible kind }
    ensures value_parts { (part : Extensible Value) (one : Constraint) →
        ⟦<Constraint<'a> as From<Extensible<'a, Value>>>⟧.from_gives part one →
        one ≡ constraint.Value part }
    ensures values { (kind : Value) (one : Constraint) →
        ⟦<Constraint<'a> as From<Value>>⟧.from_gives kind one →
        one ≡ constraint.Value (not_extensible kind) }
    ensures size_parts { (part : Extensible Size) (one : Constraint) →
        ⟦<Constraint<'a> as From<Extensible<'a, Size>>>⟧.from_gives part one →
        one ≡ constraint.Size part }
    ensures sizes { (kind : Size) (one : Constraint) →
        ⟦<Constraint<'a> as From<Size>>⟧.from_gives kind one → one ≡ constraint.Size (not_extensible kind) }
    ensures alphabet_parts { (part : Extensible PermittedAlphabet) (one : Constraint) →
        ⟦<Constraint<'a> as From<Extensible<'a, PermittedAlphabet>>>⟧.from_gives part one →
        one ≡ constraint.PermittedAlphabet part }
    ensures alphabets { (kind : PermittedAlphabet) (one : Constraint) →
        ⟦<Constraint<'a> as From<PermittedAlphabet>>⟧.from_gives kind one →
        one ≡ constraint.PermittedAlphabet (not_extensible kind) }
    ensures value_tables { (kind : Value) (table : ConstraintTable) →
        ⟦<ConstraintTable<'a> as From<Value>>⟧.from_gives kind table →
        owned table ≡ set_of_one (constraint.Value (not_extensible kind)) }
    ensures size_tables { (kind : Size) (table : ConstraintTable) →
        ⟦<ConstraintTable<'a> as From<Size>>⟧.from_gives kind table →
        owned table ≡ set_of_one (constraint.Size (not_extensible kind)) }
    ensures memory { (refused : AllocError) (error : InnerSubtypeConstraintError) →
        ⟦<InnerSubtypeConstraintError as From<AllocError>>⟧.from_gives refused error →
        refusal_of error ≡ no_memory }
    ensures default_set { (set : Constraints) → ⟦<Constraints<'a> as Default>⟧.is_default set →
        set ≡ no_constraints }
{}
