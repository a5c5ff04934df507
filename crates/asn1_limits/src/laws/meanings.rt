//! Types within limits, by the types that they hold.
ghost use Rattle.std.specs.Prelude.{◌≡◌, ◌↔◌, ℕ, Bool, List};
ghost use Rattle.asn1_laws.specs.Refusals.{RefuseTheSame};
ghost use Rattle.asn1_limits.specs.LimitedTypes.{refusals_outside};
ghost use Rattle.asn1_model.specs.ConstraintSets.{ConstraintSet};
ghost use Rattle.asn1_model.specs.DistinctSets.{SetsAreDistinct};
ghost use Rattle.asn1_model.specs.Meaning.{IsWellTaggedUnder};
ghost use Rattle.asn1_model.specs.Records.{Name, Record};
ghost use Rattle.asn1_model.specs.WrittenAlike.{AreWrittenAlike};
ghost use Rattle.asn1_tags.specs.declared.tags.Tag.{Tag};

use crate::restriction::Restriction;
use crate::within::Within;
use asn1_dec::Decode;
use asn1_model::AsnType;
use std::fmt::{Debug, Display};
use std::hash::Hash;

/// A law of meaning: a value within limits has the records of the value, is read of the records that the value is read of, and is
/// valid if that is. It is of the type if the value is and the limits admit it. Its type has one spelling for equal values if that of
/// the value has (`alike`, `distinct`).
pub fn types_within_limits_mean_what_they_hold<T: AsnType + PartialEq, L: Restriction<T>>()
    ensures records { (v : T) (t : Tag) (c : ConstraintSet) (n : Name) →
        ⟦<Within<T, L> as AsnType>⟧.meaning.records v t c n ≡ T.meaning.records v t c n }
    ensures read { (v : T) (t : Tag) (c : ConstraintSet) (rs : List Record) →
        ⟦<Within<T, L> as AsnType>⟧.meaning.IsReadAs v t c rs ↔ T.meaning.IsReadAs v t c rs }
    ensures tag { ⟦<Within<T, L> as AsnType>⟧.meaning.tag ≡ T.meaning.tag }
    ensures name { ⟦<Within<T, L> as AsnType>⟧.meaning.name ≡ T.meaning.name }
    ensures constraints { ⟦<Within<T, L> as AsnType>⟧.meaning.constraints ≡
        L.constrained T.meaning.constraints }
    ensures tagged { (t : Tag) → IsWellTaggedUnder ⟦<Within<T, L> as AsnType>⟧.meaning t ↔
        IsWellTaggedUnder T.meaning t }
    ensures of_type { (v : T) → ⟦<Within<T, L> as AsnType>⟧.meaning.IsOfType v ↔
        (T.meaning.IsOfType v × L.IsWithin v) }
    ensures valid { (accepts : List ℕ → Bool) (v : T) →
        ⟦<Within<T, L> as AsnType>⟧.meaning.IsValid accepts v ↔ T.meaning.IsValid accepts v }
    ensures alike { AreWrittenAlike T.meaning T.eq →
        AreWrittenAlike ⟦<Within<T, L> as AsnType>⟧.meaning ⟦<Within<T, L> as PartialEq>⟧.eq }
    ensures distinct { SetsAreDistinct T.meaning →
        SetsAreDistinct ⟦<Within<T, L> as AsnType>⟧.meaning }
{}

/// A law of the derives: values within limits are compared, ordered, hashed and shown as the values.
pub fn values_within_limits_are_compared_and_shown_as_values<
    T: Ord + Hash + Debug + Display,
    L: Restriction<T>,
>()
    ensures equal { (v w : T) → ⟦<Within<T, L> as PartialEq>⟧.eq v w ≡ T.eq v w }
    ensures partial_order { (v w : T) → ⟦<Within<T, L> as PartialOrd>⟧.partial_cmp v w ≡
        T.partial_cmp v w }
    ensures order { (v w : T) → ⟦<Within<T, L> as Ord>⟧.cmp v w ≡ T.cmp v w }
    ensures hash { (v : T) → ⟦<Within<T, L> as Hash>⟧.hash_input v ≡ T.hash_input v }
    ensures debug { (v : T) → ⟦<Within<T, L> as Debug>⟧.debug_output v ≡ T.debug_output v }
    ensures text { (v : T) → ⟦<Within<T, L> as Display>⟧.output v ≡ T.output v }
{}

/// A law of what is refused: what the type refuses, and the records of its values outside the limits.
pub fn types_within_limits_refuse_what_is_outside<T: Decode, L: Restriction<T>>()
    ensures { RefuseTheSame ⟦<Within<T, L> as Decode>⟧.refusals
        (refusals_outside T.meaning L.IsWithin T.refusals) }
{}
