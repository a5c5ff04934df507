//! Limits that a value need not keep: those behind an extension marker (X.680, 52), and those that are only stated.
ghost use Rattle.std.specs.Prelude.{⊤, refl, true};
ghost use Rattle.std.proofs.Common.{inl};
ghost use Rattle.asn1_limits.specs.LimitTables.{marker_in_root, with_marker};

use crate::constrainable::Constrainable;
use crate::restriction::Restriction;
use crate::table_admits::TableAdmits;
use asn1_bounds::ConstraintTable;
use std::marker::PhantomData;

/// The constraint with an extension marker: `L, ...`. A later version may admit any value of the type, so each is admitted; those
/// that `L` has in its root are in the root. A table has the constraints of `L`, and the marker.
#[derive(Drop)]
pub struct WithMarker<L> {
    root: PhantomData<L>,
}

impl<T: PartialEq, L: Restriction<T>> Restriction<T> for WithMarker<L> {
    ghost IsWithin = { λ _. ⊤ };

    ghost IsInRoot = { L.IsInRoot };

    ghost constrained = { λ set. with_marker (L.constrained set) };

    fn admits(_value: &T) -> bool {
        true
    }

    fn is_in_root(value: &T) -> bool {
        L::is_in_root(value)
    }

    fn constrain(table: ConstraintTable<'static>) -> ConstraintTable<'static> {
        L::constrain(table).with_extension_marker()
    }

    ghost respects = { λ v w equal within. within };

    ghost root_respects = { L.root_respects };

    ghost root_is_within = { λ v root. tt };
}

impl<T: Constrainable, L: TableAdmits<T>> TableAdmits<T> for WithMarker<L> {
    ghost allows = { λ set v within allowed. inl refl };

    ghost has_root = { λ set v root has. marker_in_root (L.constrained set) (T.facets v) (L.has_root set v root has) };
}

/// A constraint that a table states and a value need not keep, for a reader of values that break it. Every value is admitted; those
/// in the root of `L` are in the root. The table may exclude an admitted value, and a codec whose bits come from the table (X.691)
/// cannot write that one.
#[derive(Drop)]
pub struct Stated<L> {
    stated: PhantomData<L>,
}

impl<T: PartialEq, L: Restriction<T>> Restriction<T> for Stated<L> {
    ghost IsWithin = { λ _. ⊤ };

    ghost IsInRoot = { L.IsInRoot };

    ghost constrained = { L.constrained };

    fn admits(_value: &T) -> bool {
        true
    }

    fn is_in_root(value: &T) -> bool {
        L::is_in_root(value)
    }

    fn constrain(table: ConstraintTable<'static>) -> ConstraintTable<'static> {
        L::constrain(table)
    }

    ghost respects = { λ v w equal within. within };

    ghost root_respects = { L.root_respects };

    ghost root_is_within = { λ v root. tt };
}
