//! Limits of whole numbers (X.680, 51.4).
ghost use Rattle.std.specs.Prelude.{None, Some};
ghost use Rattle.std.proofs.Common.{subst};
ghost use Rattle.asn1_limits.specs.Facets.{HasNumberIn};
ghost use Rattle.asn1_limits.specs.LimitTables.{numbers_allowed, numbers_in_root, with_numbers};
ghost use Rattle.asn1_ranges.specs.declared.bounded.Bounded.TheVariants as bounded;

use crate::constrainable::HasNumber;
use crate::restriction::Restriction;
use crate::table_admits::TableAdmits;
use asn1_bounds::{Bounded, ConstraintTable, Extensible, Value};
use asn1_values::{Between, Limits};
use std::marker::PhantomData;

/// `S..E`.
impl<T: HasNumber, const S: i64, const E: i64> Restriction<T> for Between<S, E> {
    ghost IsWithin = { λ v. HasNumberIn (bounded.Range (Some S) (Some E)) (T.facets v) };

    ghost IsInRoot = { λ v. HasNumberIn (bounded.Range (Some S) (Some E)) (T.facets v) };

    ghost constrained = { with_numbers (bounded.Range (Some S) (Some E)) };

    fn admits(value: &T) -> bool {
        value.has_number_in(Bounded::const_new(i128::from(S), i128::from(E)))
    }

    fn is_in_root(value: &T) -> bool {
        Self::admits(value)
    }

    fn constrain(table: ConstraintTable<'static>) -> ConstraintTable<'static> {
        table.with_value(Extensible::new(Value::new(Bounded::const_new(
            i128::from(S),
            i128::from(E),
        ))))
    }

    ghost respects = { λ v w equal. subst (HasNumberIn (bounded.Range (Some S) (Some E))) (T.same_facets v w equal) };

    ghost root_respects = { λ v w equal. subst (HasNumberIn (bounded.Range (Some S) (Some E))) (T.same_facets v w equal) };

    ghost root_is_within = { λ v root. root };
}

impl<T: HasNumber, const S: i64, const E: i64> TableAdmits<T> for Between<S, E> {
    ghost allows = { λ set v. numbers_allowed set (T.facets v) (bounded.Range (Some S) (Some E)) };

    ghost has_root = { λ set v. numbers_in_root set (T.facets v) (bounded.Range (Some S) (Some E)) };
}

/// `S..MAX`.
#[derive(Drop)]
pub enum NumbersFrom<const S: i64> {}

impl<T: HasNumber, const S: i64> Restriction<T> for NumbersFrom<S> {
    ghost IsWithin = { λ v. HasNumberIn (bounded.Range (Some S) None) (T.facets v) };

    ghost IsInRoot = { λ v. HasNumberIn (bounded.Range (Some S) None) (T.facets v) };

    ghost constrained = { with_numbers (bounded.Range (Some S) None) };

    fn admits(value: &T) -> bool {
        value.has_number_in(Bounded::start_from(i128::from(S)))
    }

    fn is_in_root(value: &T) -> bool {
        Self::admits(value)
    }

    fn constrain(table: ConstraintTable<'static>) -> ConstraintTable<'static> {
        table.with_value(Extensible::new(Value::new(Bounded::start_from(i128::from(S)))))
    }

    ghost respects = { λ v w equal. subst (HasNumberIn (bounded.Range (Some S) None)) (T.same_facets v w equal) };

    ghost root_respects = { λ v w equal. subst (HasNumberIn (bounded.Range (Some S) None)) (T.same_facets v w equal) };

    ghost root_is_within = { λ v root. root };
}

impl<T: HasNumber, const S: i64> TableAdmits<T> for NumbersFrom<S> {
    ghost allows = { λ set v. numbers_allowed set (T.facets v) (bounded.Range (Some S) None) };

    ghost has_root = { λ set v. numbers_in_root set (T.facets v) (bounded.Range (Some S) None) };
}

/// `MIN..E`.
#[derive(Drop)]
pub enum NumbersUpTo<const E: i64> {}

impl<T: HasNumber, const E: i64> Restriction<T> for NumbersUpTo<E> {
    ghost IsWithin = { λ v. HasNumberIn (bounded.Range None (Some E)) (T.facets v) };

    ghost IsInRoot = { λ v. HasNumberIn (bounded.Range None (Some E)) (T.facets v) };

    ghost constrained = { with_numbers (bounded.Range None (Some E)) };

    fn admits(value: &T) -> bool {
        value.has_number_in(Bounded::up_to(i128::from(E)))
    }

    fn is_in_root(value: &T) -> bool {
        Self::admits(value)
    }

    fn constrain(table: ConstraintTable<'static>) -> ConstraintTable<'static> {
        table.with_value(Extensible::new(Value::new(Bounded::up_to(i128::from(E)))))
    }

    ghost respects = { λ v w equal. subst (HasNumberIn (bounded.Range None (Some E))) (T.same_facets v w equal) };

    ghost root_respects = { λ v w equal. subst (HasNumberIn (bounded.Range None (Some E))) (T.same_facets v w equal) };

    ghost root_is_within = { λ v root. root };
}

impl<T: HasNumber, const E: i64> TableAdmits<T> for NumbersUpTo<E> {
    ghost allows = { λ set v. numbers_allowed set (T.facets v) (bounded.Range None (Some E)) };

    ghost has_root = { λ set v. numbers_in_root set (T.facets v) (bounded.Range None (Some E)) };
}

/// The numbers from the start to the end of `L`, for ends of up to 128 bits.
#[derive(Drop)]
pub struct LimitsOf<L> {
    limits: PhantomData<L>,
}

impl<T: HasNumber, L: Limits> Restriction<T> for LimitsOf<L> {
    ghost IsWithin = { λ v. HasNumberIn (bounded.Range (Some L.start) (Some L.end)) (T.facets v) };

    ghost IsInRoot = { λ v. HasNumberIn (bounded.Range (Some L.start) (Some L.end)) (T.facets v) };

    ghost constrained = { with_numbers (bounded.Range (Some L.start) (Some L.end)) };

    fn admits(value: &T) -> bool {
        value.has_number_in(Bounded::const_new(L::start(), L::end()))
    }

    fn is_in_root(value: &T) -> bool {
        Self::admits(value)
    }

    fn constrain(table: ConstraintTable<'static>) -> ConstraintTable<'static> {
        table.with_value(Extensible::new(Value::new(Bounded::const_new(L::start(), L::end()))))
    }

    ghost respects = { λ v w equal. subst (HasNumberIn (bounded.Range (Some L.start) (Some L.end))) (T.same_facets v w equal) };

    ghost root_respects = { λ v w equal. subst (HasNumberIn (bounded.Range (Some L.start) (Some L.end))) (T.same_facets v w equal) };

    ghost root_is_within = { λ v root. root };
}

impl<T: HasNumber, L: Limits> TableAdmits<T> for LimitsOf<L> {
    ghost allows = { λ set v. numbers_allowed set (T.facets v) (bounded.Range (Some L.start) (Some L.end)) };

    ghost has_root = { λ set v. numbers_in_root set (T.facets v) (bounded.Range (Some L.start) (Some L.end)) };
}
