//! Limits made of others (X.680, 50): intersections, unions and exclusions.
ghost use Rattle.std.specs.Prelude.{◌⊎◌, ⊤};
ghost use Rattle.std.proofs.Common.{inl, inr, ◌∙◌};

use crate::constrainable::Constrainable;
use crate::restriction::Restriction;
use crate::table_admits::TableAdmits;
use asn1_bounds::ConstraintTable;
use std::marker::PhantomData;

/// The values that both admit: `L INTERSECTION M`, or `M` on a type that has `L`. In a table the constraints of `M` take the place of
/// those of `L` of the same kind.
#[derive(Drop)]
pub struct And<L, M> {
    first: PhantomData<L>,
    second: PhantomData<M>,
}

impl<T: PartialEq, L: Restriction<T>, M: Restriction<T>> Restriction<T> for And<L, M> {
    ghost IsWithin = { λ v. L.IsWithin v × M.IsWithin v };

    ghost IsInRoot = { λ v. L.IsInRoot v × M.IsInRoot v };

    ghost constrained = { λ set. M.constrained (L.constrained set) };

    fn admits(value: &T) -> bool {
        L::admits(value) && M::admits(value)
    }

    fn is_in_root(value: &T) -> bool {
        L::is_in_root(value) && M::is_in_root(value)
    }

    fn constrain(table: ConstraintTable<'static>) -> ConstraintTable<'static> {
        M::constrain(L::constrain(table))
    }

    ghost respects = { λ v w equal within. (L.respects v w equal within.0, M.respects v w equal within.1) };

    ghost root_respects = { λ v w equal root. (L.root_respects v w equal root.0, M.root_respects v w equal root.1) };

    ghost root_is_within = { λ v root. (L.root_is_within v root.0, M.root_is_within v root.1) };
}

impl<T: Constrainable, L: TableAdmits<T>, M: TableAdmits<T>> TableAdmits<T> for And<L, M> {
    ghost allows = { λ set v within allowed. M.allows (L.constrained set) v within.1 (L.allows set v within.0 allowed) };

    ghost has_root = { λ set v root has. M.has_root (L.constrained set) v root.1 (L.has_root set v root.0 has) };
}

/// The values that one of both admits: `L UNION M`. A table has no constraints for it; an intersection with a range around both
/// states that range.
#[derive(Drop)]
pub struct Or<L, M> {
    first: PhantomData<L>,
    second: PhantomData<M>,
}

impl<T: PartialEq, L: Restriction<T>, M: Restriction<T>> Restriction<T> for Or<L, M> {
    ghost IsWithin = { λ v. L.IsWithin v ⊎ M.IsWithin v };

    ghost IsInRoot = { λ v. L.IsInRoot v ⊎ M.IsInRoot v };

    ghost constrained = { λ set. set };

    fn admits(value: &T) -> bool {
        L::admits(value) || M::admits(value)
    }

    fn is_in_root(value: &T) -> bool {
        L::is_in_root(value) || M::is_in_root(value)
    }

    fn constrain(table: ConstraintTable<'static>) -> ConstraintTable<'static> {
        table
    }

    ghost respects = { λ v w equal. elim [ inl within ↦ inl (L.respects v w equal within) | inr within ↦ inr (M.respects v w equal within) ] };

    ghost root_respects = { λ v w equal. elim [ inl root ↦ inl (L.root_respects v w equal root) | inr root ↦ inr (M.root_respects v w equal root) ] };

    ghost root_is_within = { λ v. elim [ inl root ↦ inl (L.root_is_within v root) | inr root ↦ inr (M.root_is_within v root) ] };
}

impl<T: Constrainable, L: Restriction<T>, M: Restriction<T>> TableAdmits<T> for Or<L, M> {
    ghost allows = { λ set v within allowed. allowed };

    ghost has_root = { λ set v root has. has };
}

/// The values that the first admits, but for the root of the second: `L EXCEPT M`. A table has the constraints of the first.
#[derive(Drop)]
pub struct Except<L, M> {
    first: PhantomData<L>,
    second: PhantomData<M>,
}

impl<T: PartialEq, L: Restriction<T>, M: Restriction<T>> Restriction<T> for Except<L, M> {
    ghost IsWithin = { λ v. L.IsWithin v × ¬ M.IsInRoot v };

    ghost IsInRoot = { λ v. L.IsInRoot v × ¬ M.IsInRoot v };

    ghost constrained = { L.constrained };

    fn admits(value: &T) -> bool {
        L::admits(value) && !M::is_in_root(value)
    }

    fn is_in_root(value: &T) -> bool {
        L::is_in_root(value) && !M::is_in_root(value)
    }

    fn constrain(table: ConstraintTable<'static>) -> ConstraintTable<'static> {
        L::constrain(table)
    }

    ghost respects = { λ v w equal within. (L.respects v w equal within.0, λ other. within.1 (M.root_respects w v (T.laws.symm w v ∙ equal) other)) };

    ghost root_respects = { λ v w equal root. (L.root_respects v w equal root.0, λ other. root.1 (M.root_respects w v (T.laws.symm w v ∙ equal) other)) };

    ghost root_is_within = { λ v root. (L.root_is_within v root.0, root.1) };
}

impl<T: Constrainable, L: TableAdmits<T>, M: Restriction<T>> TableAdmits<T> for Except<L, M> {
    ghost allows = { λ set v within. L.allows set v within.0 };

    ghost has_root = { λ set v root. L.has_root set v root.0 };
}

/// Every value: the first of an `Except` for `ALL EXCEPT M`. A table has no constraints for it.
#[derive(Drop)]
pub enum Anything {}

impl<T: PartialEq> Restriction<T> for Anything {
    ghost IsWithin = { λ _. ⊤ };

    ghost IsInRoot = { λ _. ⊤ };

    ghost constrained = { λ set. set };

    fn admits(_value: &T) -> bool {
        true
    }

    fn is_in_root(_value: &T) -> bool {
        true
    }

    fn constrain(table: ConstraintTable<'static>) -> ConstraintTable<'static> {
        table
    }

    ghost respects = { λ v w equal within. within };

    ghost root_respects = { λ v w equal root. root };

    ghost root_is_within = { λ v root. root };
}

impl<T: Constrainable> TableAdmits<T> for Anything {
    ghost allows = { λ set v within allowed. allowed };

    ghost has_root = { λ set v root has. has };
}
