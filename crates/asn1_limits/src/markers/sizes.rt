//! Limits of sizes (X.680, 51.5).
ghost use Rattle.std.specs.Prelude.{None, Some};
ghost use Rattle.std.proofs.Common.{subst};
ghost use Rattle.asn1_limits.specs.Facets.{HasSizeIn};
ghost use Rattle.asn1_limits.specs.LimitTables.{sizes_allowed, sizes_in_root, with_sizes};
ghost use Rattle.asn1_ranges.specs.declared.bounded.Bounded.TheVariants as bounded;

use crate::constrainable::HasSize;
use crate::restriction::Restriction;
use crate::table_admits::TableAdmits;
use asn1_bounds::{Bounded, ConstraintTable, Extensible, Size};

/// `SIZE (A..B)`.
#[derive(Drop)]
pub enum Sizes<const A: usize, const B: usize> {}

impl<T: HasSize, const A: usize, const B: usize> Restriction<T> for Sizes<A, B> {
    ghost IsWithin = { λ v. HasSizeIn (bounded.Range (Some A) (Some B)) (T.facets v) };

    ghost IsInRoot = { λ v. HasSizeIn (bounded.Range (Some A) (Some B)) (T.facets v) };

    ghost constrained = { with_sizes (bounded.Range (Some A) (Some B)) };

    fn admits(value: &T) -> bool {
        value.has_size_in(Bounded::const_new(A, B))
    }

    fn is_in_root(value: &T) -> bool {
        Self::admits(value)
    }

    fn constrain(table: ConstraintTable<'static>) -> ConstraintTable<'static> {
        table.with_size(Extensible::new(Size::new(Bounded::const_new(A, B))))
    }

    ghost respects = { λ v w equal. subst (HasSizeIn (bounded.Range (Some A) (Some B))) (T.same_facets v w equal) };

    ghost root_respects = { λ v w equal. subst (HasSizeIn (bounded.Range (Some A) (Some B))) (T.same_facets v w equal) };

    ghost root_is_within = { λ v root. root };
}

impl<T: HasSize, const A: usize, const B: usize> TableAdmits<T> for Sizes<A, B> {
    ghost allows = { λ set v. sizes_allowed set (T.facets v) (bounded.Range (Some A) (Some B)) };

    ghost has_root = { λ set v. sizes_in_root set (T.facets v) (bounded.Range (Some A) (Some B)) };
}

/// `SIZE (A..MAX)`.
#[derive(Drop)]
pub enum SizesFrom<const A: usize> {}

impl<T: HasSize, const A: usize> Restriction<T> for SizesFrom<A> {
    ghost IsWithin = { λ v. HasSizeIn (bounded.Range (Some A) None) (T.facets v) };

    ghost IsInRoot = { λ v. HasSizeIn (bounded.Range (Some A) None) (T.facets v) };

    ghost constrained = { with_sizes (bounded.Range (Some A) None) };

    fn admits(value: &T) -> bool {
        value.has_size_in(Bounded::start_from(A))
    }

    fn is_in_root(value: &T) -> bool {
        Self::admits(value)
    }

    fn constrain(table: ConstraintTable<'static>) -> ConstraintTable<'static> {
        table.with_size(Extensible::new(Size::new(Bounded::start_from(A))))
    }

    ghost respects = { λ v w equal. subst (HasSizeIn (bounded.Range (Some A) None)) (T.same_facets v w equal) };

    ghost root_respects = { λ v w equal. subst (HasSizeIn (bounded.Range (Some A) None)) (T.same_facets v w equal) };

    ghost root_is_within = { λ v root. root };
}

impl<T: HasSize, const A: usize> TableAdmits<T> for SizesFrom<A> {
    ghost allows = { λ set v. sizes_allowed set (T.facets v) (bounded.Range (Some A) None) };

    ghost has_root = { λ set v. sizes_in_root set (T.facets v) (bounded.Range (Some A) None) };
}
